// Label moves, a line each: LEFT RIGHT BY, then the STATE and ADDRESS of four labels, then their addresses after it.
use crate::lines::{four, one};
use crate::state::State;
use expressions::moving::move_labels;

fn is_moved(table: [u16; 12], line: &[u8]) -> bool {
    let first = (table[1] == four(line, 32)) & (table[4] == four(line, 36));
    first & (table[7] == four(line, 40)) & (table[10] == four(line, 44))
}

pub(crate) fn read(s: State, line: &[u8]) -> State {
    let mut table = [
        one(line, 12) as u16,
        four(line, 13),
        0,
        one(line, 17) as u16,
        four(line, 18),
        0,
        one(line, 22) as u16,
        four(line, 23),
        0,
        one(line, 27) as u16,
        four(line, 28),
        0,
    ];
    move_labels(&mut table, four(line, 0), four(line, 4), four(line, 8));
    s.compared(!is_moved(table, line))
}
