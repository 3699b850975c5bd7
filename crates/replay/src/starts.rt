// Segments, a call a line: `n` begins anew, `a` START REFUSAL adds a start, `q` ADDRESS LEFT RIGHT asks for the segment of an address.
use crate::lines::{four, two};
use crate::state::State;
use ground::tables::cell_or;

fn add(mut s: State, line: &[u8], starts: &mut [u16]) -> State {
    let number = match segments::add(starts, s.rows, four(line, 1)) {
        Ok(count) => {
            s.rows = count;
            0
        }
        Err(why) => why.number(),
    };
    s.compared(number != two(line, 5))
}

fn ask(s: State, line: &[u8], starts: &[u16]) -> State {
    let found = segments::segment_of(starts, s.rows, four(line, 1));
    s.compared(!((found.left == four(line, 5)) & (found.right == four(line, 9))))
}

fn anew(mut s: State) -> State {
    s.rows = 0;
    s
}

pub(crate) fn read(s: State, line: &[u8], starts: &mut [u16]) -> State {
    let kind = cell_or(line, 0, 0);
    match kind {
        b'n' => anew(s),
        b'a' => add(s, line, starts),
        b'q' => ask(s, line, starts),
        b'r' => s.mark(),
        _ => s.compared(true),
    }
}
