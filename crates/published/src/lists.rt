// The same boxes for the encoder: the OWN stack pointer, a COUNT, as many REGISTERS and the push BYTE, as `6 3 789----- 89`, with dashes for the byte
// where a register has no box or none is named.
use crate::lines::{is_dash, one, two};
use ground::refusals::Refusal;

pub(crate) const LINE: usize = 16;

pub(crate) fn differs(line: &[u8]) -> bool {
    let registers = [
        one(line, 4),
        one(line, 5),
        one(line, 6),
        one(line, 7),
        one(line, 8),
        one(line, 9),
        one(line, 10),
        one(line, 11),
    ];
    match postbytes::lists::push(one(line, 0), registers, one(line, 2)) {
        Ok(byte) => two(line, 13) != byte as u16,
        Err(refusal) => !(is_dash(line, 13) & (refusal == Refusal::BadRegister)),
    }
}
