// The run at a place of a text.
ghost use Rattle.std.specs.Prelude.{◌≡◌, ◌<◌, ◌≤◌, length, drop};
ghost use Rattle.ground.specs.Stores.{put};
ghost use Rattle.reader.specs.Ahead.{run_of, asked_of, RunReadIs};
ghost use Rattle.reader.specs.Steps.{OnIs, StretchIs, RunIs, ran_bytes};

use crate::{Line, line_at, measure, store_bytes};
use ground::refusals::Refusal;

// A run of a text: its address, its length and the place after its lines. Where the end record stands there is none, of length 0: a reader that asks
// again stays there, so `next` has a meaning in both cases.
#[derive(Clone, Copy)]
pub struct Run {
    pub address: u16,
    pub bytes: usize,
    pub next: usize,
}

// A run as far as it goes: the address after its last byte, and the place after its lines.
#[derive(Clone, Copy)]
struct Stretch {
    end: usize,
    next: usize,
}

// The line at a place, where a run that has reached an address goes on with it.
fn line_on(text: &[u8], at: usize, reached: usize) -> Option<Line>
    requires { at ≤ length text.now }
    ensures { OnIs text.now at reached result }
{
    match line_at(text, at) {
        Ok(Some(line)) => if line.address as usize == reached {
            Some(line)
        } else {
            None
        },
        Ok(None) => None,
        Err(_) => None,
    }
}

// The run that has reached an address and a place, with all lines that follow on.
fn follow_on(text: &[u8], from: usize, reached: usize) -> Stretch
    requires { from ≤ length text.now }
    ensures { StretchIs text.now from reached result }
{
    let mut end = reached;
    let mut at = from;
    while let Some(line) = line_on(text, at, end) {
        end += line.count;
        at = line.next;
    }
    Stretch { end, next: at }
}

// The run whose first line that is.
fn run_from(text: &[u8], line: Line) -> Result<Run, Refusal>
    requires { (line.next ≤ length text.now) × (line.count < 256) }
    ensures { RunIs text.now line result }
{
    let first = line.address as usize;
    let run = follow_on(text, line.next, first + line.count);
    if 65536 < run.end {
        return Err(Refusal::Beyond);
    }
    Ok(Run {
        address: line.address,
        bytes: run.end - first,
        next: run.next,
    })
}

// The run whose first line stands at a place of a text.
fn run_there(text: &[u8], at: usize) -> Result<Run, Refusal>
    ensures { result ≡ run_of text.now at }
{
    if text.len() < at {
        return Err(Refusal::BrokenText);
    }
    match line_at(text, at)? {
        Some(line) => run_from(text, line),
        None => Ok(Run {
            address: 0,
            bytes: 0,
            next: at,
        }),
    }
}

// The run at a place of a text. At its start the whole text is asked first; elsewhere it has been asked.
pub fn run_at(text: &[u8], at: usize) -> Result<Run, Refusal>
    ensures { result ≡ asked_of text.now at }
{
    if at == 0 {
        measure(text)?;
    }
    run_there(text, at)
}

// Stores the bytes of the run whose first line stands at a place and has that address.
fn store_run(text: &[u8], from: usize, first: usize, bytes: &mut [u8])
    requires { from ≤ length text.now }
    ensures { bytes.new ≡ put bytes.old 0 (ran_bytes first (drop from text.now)) }
{
    let mut end = first;
    let mut at = from;
    while let Some(line) = line_on(text, at, end) {
        store_bytes(text, line.first, line.count, bytes, end - first);
        end += line.count;
        at = line.next;
    }
}

// Reads the run at a place of a text: its bytes at the front of `bytes`. The rest is as before, and so is all of it beside a refusal.
pub fn read_run(text: &[u8], at: usize, bytes: &mut [u8]) -> Result<Run, Refusal>
    ensures { RunReadIs text.now at bytes.old result bytes.new }
{
    let run = run_at(text, at)?;
    if bytes.len() < run.bytes {
        return Err(Refusal::NoRoom);
    }
    store_run(text, at, run.address as usize, bytes);
    Ok(run)
}
