// What the read-back program prints for a text: a line for each instruction, and the last line, `end` or `refused` with a number.
#![tactic(auto)]

mod lines;

ghost use Rattle.std.specs.Prelude.{◌≡◌, ◌+◌, ◌*◌, ◌^◌, ◌<◌, ◌≤◌, length, None, IfOk, IsOk};
ghost use Rattle.ground.specs.Stores.{Wrote};
ghost use Rattle.reader.specs.Answers.{runs_in};
ghost use Rattle.decoder.specs.Run.{run_of};
ghost use Rattle.listing.specs.Listing.{End, read_from, in_run, in_runs, refusal_of, lines_of, printed, listing_of, listed_of, buffer_of, Counts};
ghost use Rattle.listing.specs.Steps.{left, Passed, Ran};

use decoder::next_of_run;
use ground::refusals::Refusal;
use lines::{put_instruction, put_last};
use reader::runs::{read_run, run_at};
use values::pages::Page;

// A buffer of so many bytes has room for every listing.
pub const ROOM: usize = 262158;

// "At most 65,536 bytes of text", and a run has no more of its own.
const LONGEST: usize = 65536;

// How far a listing is written: its end so far, how many instructions it has, and the refusal that ends it, if there is one.
#[derive(Clone, Copy)]
struct Progress {
    at: usize,
    count: usize,
    refusal: Option<Refusal>,
}

// Nothing written yet.
const START: Progress = Progress {
    at: 0,
    count: 0,
    refusal: None,
};

// Writes the lines of a run, up to its end or to the first instruction that is refused.
fn list_run(bytes: &[u8], address: u16, out: &mut [u8], from: Progress) -> Progress
    requires { (address + length bytes.now ≤ 65536) × (from.at + 8 * length bytes.now < 2 ^ 32) × (from.count ≤ from.at) }
    ensures { Passed out.old from.at from.count (in_run address bytes.now (run_of bytes.now (read_from address))) (length bytes.now) result out.new }
{
    let mut at = from.at;
    let mut count = from.count;
    let mut place: usize = 0;
    // No iterator: the next place hangs on the length of what was read.
    while place < bytes.len() {
        match next_of_run(bytes, address, Page::Known(0), place) {
            Ok(read) => {
                let end = place + read.length as usize;
                at = put_instruction(out, at, address + place as u16, &bytes[place..end]);
                count += 1;
                place = end;
            }
            Err(refusal) => {
                let refusal = Some(refusal);
                return Progress { at, count, refusal };
            }
        }
    }
    Progress {
        at,
        count,
        refusal: None,
    }
}

// Writes the lines of all runs of a text, up to the first instruction that is refused. A run is read into `bytes`.
fn list_runs(text: &[u8], bytes: &mut [u8], out: &mut [u8]) -> Progress
    requires { (refusal_of text.now ≡ None) × (65536 ≤ length bytes.old) }
    ensures { Ran out.old (in_runs (runs_in text.now)) result out.new }
{
    let mut done = START;
    let mut place: usize = 0;
    loop {
        let run = read_run(text, place, bytes).unwrap();
        let n = run.bytes;
        if n == 0 {
            return done;
        }
        done = list_run(&bytes[..n], run.address, out, done);
        if done.refusal.is_some() {
            return done;
        }
        place = run.next;
    }
}

// The refusal of a text before any of its instructions is read.
fn refusal_of(text: &[u8]) -> Option<Refusal>
    ensures { result ≡ refusal_of text.now }
{
    let long = LONGEST < text.len();
    if long {
        return Some(Refusal::NoRoom);
    }
    run_at(text, 0).err()
}

// Writes all lines of a text but the last.
fn list_lines(text: &[u8], bytes: &mut [u8], out: &mut [u8]) -> Progress
    requires { 65536 ≤ length bytes.old }
    ensures { Ran out.old (lines_of text.now) result out.new }
{
    match refusal_of(text) {
        Some(refusal) => Progress {
            at: 0,
            count: 0,
            refusal: Some(refusal),
        },
        None => list_runs(text, bytes, out),
    }
}

// Writes the last line.
fn list_last(out: &mut [u8], done: Progress) -> usize
    requires { done.at < 2 ^ 32 }
    ensures { Wrote out.old done.at (printed done.count (left done End)) result out.new }
{
    match done.refusal {
        Some(refusal) => put_last(out, done.at, b"refused ", refusal.number() as usize),
        None => put_last(out, done.at, b"end ", done.count),
    }
}

// Writes the listing of a text as far as the buffer reaches, and says how long it is.
fn list_all(text: &[u8], bytes: &mut [u8], out: &mut [u8]) -> usize
    requires { 65536 ≤ length bytes.old }
    ensures { Wrote out.old 0 (listing_of text.now) result out.new }
{
    let done = list_lines(text, bytes, out);
    list_last(out, done)
}

// Writes the listing of a text to the front of a buffer; the rest of the buffer is as before, and all of it where the listing has no room. The last two
// clauses follow from the others: with them a caller takes the part that was written without a proof of its own, and a buffer of `ROOM` bytes has room.
pub fn list_text(text: &[u8], out: &mut [u8]) -> Result<usize, Refusal>
    ensures value { result ≡ listed_of text.now (length out.old) }
    ensures out_after { out.new ≡ buffer_of text.now out.old }
    ensures counts { IfOk result (λ n. Counts n out.new) }
    ensures enough { 262158 ≤ length out.old → IsOk result }
{
    let mut bytes = [0; LONGEST];
    let mut nowhere = [0; 0];
    let length = list_all(text, &mut bytes, &mut nowhere);
    let short = out.len() < length;
    if short {
        return Err(Refusal::NoRoom);
    }
    list_all(text, &mut bytes, out);
    Ok(length)
}
