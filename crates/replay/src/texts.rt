// Object lists, a piece a line: `o` and `n` ADDRESS begin an object with and without data, two or four digits are a value of it, `=` and a refusal's
// number, if any, has the text written, `:` begins a line that the Rust writes, and `.` ends the list. The Rust writes lower case (E7), so its lines
// are raised; where `r` named a difference the list is refused here, and the Rust's lines stand for what it writes on.
use crate::lines::{four, two};
use crate::state::State;
use crate::tables::{ROOM, store_row, used, within};
use ground::buffers::store;
use ground::tables::cell_or;
use ground::words::add;

// `o` has data, `n` has none.
fn kind(line: &[u8]) -> u16 {
    if cell_or(line, 0, 0) == b'o' { 1 } else { 0 }
}

fn object(mut s: State, line: &[u8], objects: &mut [u16]) -> State {
    s.rows = store_row(objects, s.rows, kind(line), four(line, 1), 0);
    s
}

// Four digits are a value of 16 bits.
fn width(line: &[u8]) -> u16 {
    if line.len() == 4 { 16 } else { 8 }
}

fn number(line: &[u8]) -> u16 {
    if line.len() == 4 {
        return four(line, 0);
    }
    two(line, 0) as u16
}

fn value(mut s: State, line: &[u8], objects: &mut [u16], values: &mut [u16]) -> State {
    let at = within(s.cells, ROOM);
    store(values, at, number(line));
    store(values, at + 1, width(line));
    s.cells = at + 2;
    let rows = s.rows;
    if 3 <= rows {
        store(objects, rows - 1, add(cell_or(objects, rows - 1, 0), 1));
    }
    s
}

fn write(mut s: State, line: &[u8], objects: &[u16], values: &[u16], out: &mut [u8]) -> State {
    let rows = used(objects, s.rows);
    let cells = used(values, s.cells);
    let answer = records::write_text(&objects[..rows], &values[..cells], out);
    let number = answer.err().map_or(0, |refusal| refusal.number());
    s.sound = number == two(line, 1);
    s.written = answer.unwrap_or(0);
    s.read = 0;
    s
}

// A digit that the Rust writes, as Intel's text has it.
fn raised(c: u8) -> u8 {
    match c {
        97..=102 => c - 32,
        _ => c,
    }
}

// The text begins with that line and a line feed.
fn begins(text: &[u8], line: &[u8]) -> bool {
    let rest = text.get(line.len()).copied();
    rest == Some(b'\n') && text.iter().zip(line).all(|(t, c)| *t == raised(*c))
}

fn compare(mut s: State, line: &[u8], out: &[u8]) -> State {
    if s.marked {
        return s;
    }
    let length = within(s.written, out.len());
    let at = within(s.read, length);
    s.sound = s.sound & begins(&out[at..length], line);
    s.read = at + within(line.len(), ROOM) + 1;
    s
}

fn finish(mut s: State) -> State {
    let whole = s.marked | (s.read == s.written);
    let differs = !(s.sound & whole);
    s.rows = 0;
    s.cells = 0;
    s.compared(differs)
}

pub(crate) fn read(
    s: State,
    line: &[u8],
    objects: &mut [u16],
    values: &mut [u16],
    out: &mut [u8],
) -> State {
    let kind = cell_or(line, 0, 0);
    match kind {
        b'o' | b'n' => object(s, line, objects),
        b'=' => write(s, line, objects, values, out),
        b':' => compare(s, line, out),
        b'.' => finish(s),
        b'r' => s.mark(),
        _ => value(s, line, objects, values),
    }
}
