// A reader of Intel's hexadecimal text.
#![tactic(auto)]

pub mod held;
pub mod runs;

ghost use Rattle.std.specs.Prelude.{◌≡◌, true, ◌+◌, ◌*◌, ◌^◌, ◌<◌, ◌≤◌, length, take, drop, Some, Ok};
ghost use Rattle.ground.specs.Stores.{put};
ghost use Rattle.reader.specs.Digits.{digit_of, bytes_in};
ghost use Rattle.reader.specs.Lines.{line_in, records_in};
ghost use Rattle.reader.specs.Answers.{size_of, ReadIs};
ghost use Rattle.reader.specs.Steps.{pair_at, ByteAt, PairsIs, EndIs, line_by, SoundAt, is_line, LineIs, begins, runs_with, counted, total, rowed, fine, StoredIs};

use ground::buffers::store;
use ground::refusals::Refusal;
use ground::tables::cell_or;

// What was read of a text: how many bytes and how many runs were handed out.
#[derive(Clone, Copy)]
pub struct Read {
    pub bytes: usize,
    pub runs: usize,
}

// The value of a digit of either case; 16 where it is none. Each range is one test, so that the compiler chooses and does not jump.
// 16 and no `None`: two digits are tested together, and the programs that call it read 16 as too large for their own base.
pub fn digit(c: u8) -> u8
    ensures { result ≡ digit_of c }
{
    let decimal = (b'0' <= c) & (c <= b'9');
    let upper = (b'A' <= c) & (c <= b'F');
    let lower = (b'a' <= c) & (c <= b'f');
    if decimal {
        return c - 48;
    }
    if upper {
        return c - 55;
    }
    if lower { c - 87 } else { 16 }
}

// The byte of the two digits at a place. One test of the length serves both.
#[tactic(auto, using(crate::proofs::Digits::pair_cut, crate::proofs::Digits::pair_right, crate::proofs::Digits::pair_wrong), unfolding(crate::specs::Steps::pair_at))]
fn pair_at(text: &[u8], at: usize) -> Option<u8>
    requires { at ≤ length text.now }
    ensures { result ≡ pair_at text.now at }
{
    if text.len() - at < 2 {
        return None;
    }
    let high = digit(text[at]);
    let low = digit(text[at + 1]);
    let both = (high < 16) & (low < 16);
    if both { Some(16 * high + low) } else { None }
}

// The byte of two digits that are known to stand at a place.
fn byte_at(text: &[u8], at: usize) -> u8
    requires { ByteAt text.now at }
    ensures { pair_at text.now at ≡ Some result }
{
    pair_at(text, at).unwrap()
}

// Pairs of digits: the place behind them, and the sum of their bytes modulo 256.
#[derive(Clone, Copy)]
struct Pairs {
    end: usize,
    sum: u8,
}

// The pairs of digits from a place on.
fn pairs_at(text: &[u8], from: usize) -> Pairs
    requires { from ≤ length text.now }
    ensures { PairsIs text.now from result }
{
    let mut end = from;
    let mut sum: u8 = 0;
    while let Some(byte) = pair_at(text, end) {
        sum = sum.wrapping_add(byte);
        end += 2;
    }
    Pairs { end, sum }
}

// The place after the line end at a place. A line ends with the text, too.
fn after_end(text: &[u8], at: usize) -> Option<usize>
    requires { at ≤ length text.now }
    ensures { EndIs text.now at result }
{
    if at == text.len() {
        return Some(at);
    }
    let c = cell_or(text, at, 0);
    if c == b'\n' {
        return Some(at + 1);
    }
    if c == b'\r' {
        if cell_or(text, at + 1, 0) == b'\n' {
            return Some(at + 2);
        }
    }
    None
}

// A data line: its address, the place of the first digit of its data, its count, and the place of the next line.
#[derive(Clone, Copy)]
struct Line {
    address: u16,
    first: usize,
    count: usize,
    next: usize,
}

// A line by its type, where its digits and its end are right: data has at least a byte, the end record has none, address 0 and nothing after it.
#[tactic(auto, unfolding(crate::specs::Steps::line_by, ground::specs::Choice::pick))]
fn line_by(kind: u8, line: Line, size: usize) -> Result<Option<Line>, Refusal>
    requires { line.count < 256 }
    ensures { result ≡ line_by kind line size }
{
    let holds = (kind == 0) & (0 < line.count);
    if holds {
        return Ok(Some(line));
    }
    let ends = (kind == 1) & ((line.count + line.address as usize == 0) & (line.next == size));
    if ends {
        Ok(None)
    } else {
        Err(Refusal::BrokenText)
    }
}

// The line at a place where the digits are those of a line, with the place of the next one.
fn sound_line(text: &[u8], at: usize, count: u8, next: usize) -> Result<Option<Line>, Refusal>
    requires { SoundAt text.now at count next }
    ensures { LineIs text.now at result }
{
    let high = byte_at(text, at + 3);
    let low = byte_at(text, at + 5);
    let kind = byte_at(text, at + 7);
    let line = Line {
        address: high as u16 * 256 + low as u16,
        first: at + 9,
        count: count as usize,
        next,
    };
    line_by(kind, line, text.len())
}

// The line at a place of a text. `None` is the end record.
fn line_at(text: &[u8], at: usize) -> Result<Option<Line>, Refusal>
    requires { at ≤ length text.now }
    ensures { LineIs text.now at result }
{
    if cell_or(text, at, 0) != b':' {
        return Err(Refusal::BrokenText);
    }
    let pairs = pairs_at(text, at + 1);
    let Some(count) = pair_at(text, at + 1) else {
        return Err(Refusal::BrokenText);
    };
    let Some(next) = after_end(text, pairs.end) else {
        return Err(Refusal::BrokenText);
    };
    let sound = (pairs.end == at + 11 + 2 * count as usize) & (pairs.sum == 0);
    if sound {
        return sound_line(text, at, count, next);
    }
    Err(Refusal::BrokenText)
}

// The line at a place where one is known to stand. Its count tells where it ends, and its digits are not walked again.
fn known_line_at(text: &[u8], at: usize) -> Option<Line>
    requires { is_line (line_in (drop at text.now)) ≡ true }
    ensures { LineIs text.now at (Ok result) }
{
    let count = byte_at(text, at + 1);
    let end = at + 11 + 2 * count as usize;
    let next = after_end(text, end).unwrap();
    sound_line(text, at, count, next).unwrap()
}

// What records come to: their bytes, their runs, the address after the last byte, and whether a byte lies beyond 65535.
#[derive(Clone, Copy)]
struct Tally {
    bytes: usize,
    runs: usize,
    next: usize,
    far: bool,
}

// Nothing read yet.
const START: Tally = Tally {
    bytes: 0,
    runs: 0,
    next: 0,
    far: false,
};

impl Tally {
    // A record at an address begins a run: it is the first, or not at the next address.
    #[tactic(auto, unfolding(crate::specs::Steps::begins))]
    fn begins(self, address: u16) -> bool
        ensures { result ≡ begins self address }
    {
        (self.runs == 0) | (address as usize != self.next)
    }

    // The runs with one more record.
    #[tactic(auto, unfolding(crate::specs::Steps::runs_with, ground::specs::Choice::pick))]
    fn runs_with(self, address: u16) -> usize
        requires { self.runs + 1 < 2 ^ 64 }
        ensures { result ≡ runs_with self address }
    {
        if self.begins(address) {
            return self.runs + 1;
        }
        self.runs
    }

    // All with one more record.
    #[tactic(auto, unfolding(crate::specs::Steps::counted))]
    fn with(self, line: Line) -> Tally
        requires { (self.bytes + line.count < 2 ^ 64) × (self.runs + 1 < 2 ^ 64) × (line.count < 256) }
        ensures { result ≡ counted self line.address line.count }
    {
        let bytes = self.bytes + line.count;
        let runs = self.runs_with(line.address);
        let next = line.address as usize + line.count;
        Tally {
            bytes,
            runs,
            next,
            far: self.far | (65536 < next),
        }
    }

    // The answer that it comes to.
    #[tactic(auto, unfolding(crate::specs::Steps::total, ground::specs::Choice::pick))]
    fn total(self) -> Result<Read, Refusal>
        ensures { result ≡ total self }
    {
        if self.far {
            return Err(Refusal::Beyond);
        }
        Ok(Read {
            bytes: self.bytes,
            runs: self.runs,
        })
    }
}

// What a text comes to: refused where it is broken or has a byte beyond 65535.
fn measure(text: &[u8]) -> Result<Read, Refusal>
    ensures { result ≡ size_of (records_in text.now) }
{
    let mut at = 0;
    let mut tally = START;
    while let Some(line) = line_at(text, at)? {
        tally = tally.with(line);
        at = line.next;
    }
    tally.total()
}

// Stores the bytes of pairs of digits.
fn store_bytes(text: &[u8], from: usize, count: usize, bytes: &mut [u8], to: usize)
    requires { (count ≤ length (bytes_in (drop from text.now))) × (to + count < 2 ^ 64) }
    ensures { bytes.new ≡ put bytes.old to (take count (bytes_in (drop from text.now))) }
{
    for i in 0..count {
        store(bytes, to + i, byte_at(text, from + 2 * i));
    }
}

// Stores the row of the run that a record is in: the run's first address where it begins one, and its last address so far.
fn store_row(rows: &mut [u16], tally: Tally, line: Line)
    requires { (2 * tally.runs + 1 < 2 ^ 64) × (0 < line.count) × (line.address + line.count ≤ 65536) }
    ensures { rows.new ≡ rowed tally line.address line.count rows.old }
{
    let last = (line.address as usize + line.count - 1) as u16;
    let row = 2 * tally.runs;
    if tally.begins(line.address) {
        store(rows, row, line.address);
        store(rows, row + 1, last);
    } else {
        store(rows, row - 1, last);
    }
}

// Stores the bytes of a text's records and the rows of their runs.
fn store_all(text: &[u8], bytes: &mut [u8], rows: &mut [u16])
    requires { fine (records_in text.now) ≡ true }
    ensures { StoredIs text.now bytes.old rows.old bytes.new rows.new }
{
    let mut at = 0;
    let mut tally = START;
    while let Some(line) = known_line_at(text, at) {
        store_bytes(text, line.first, line.count, bytes, tally.bytes);
        store_row(rows, tally, line);
        tally = tally.with(line);
        at = line.next;
    }
}

// Reads a text: its data bytes at the front of `bytes`, one run after the other, and at the front of `runs` a row of two for each run, its first address
// and its last. The rest is as before, and so is all of it beside a refusal.
pub fn read_text(text: &[u8], bytes: &mut [u8], runs: &mut [u16]) -> Result<Read, Refusal>
    ensures { ReadIs text.now bytes.old runs.old result bytes.new runs.new }
{
    let size = measure(text)?;
    let short = (bytes.len() < size.bytes) | (runs.len() / 2 < size.runs);
    if short {
        return Err(Refusal::NoRoom);
    }
    store_all(text, bytes, runs);
    Ok(size)
}
