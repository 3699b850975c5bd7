// The sheet's postbyte table, each as LDA at 0100 with the same two bytes after the postbyte: POSTBYTE LENGTH KIND REGISTER INDIRECT NUMBER,
// as `84 2 7 3 0 0000`, with dashes where the sheet has none.
use crate::lines::{four, is_dash, one, two};
use decoder::Decoded;
use ground::refusals::Refusal;
use values::pages::Page;

pub(crate) const LINE: usize = 16;

// The number of the line: an offset, a target or an address, an accumulator or a step.
fn number_of(decoded: Decoded) -> u16 {
    let meaning = decoded.meaning;
    let kind = meaning.kind;
    let parts = kind.in_parts();
    let number = parts.kind;
    match number {
        9 => parts.second as u16,
        10 => parts.step as u16,
        _ => parts.number,
    }
}

pub(crate) fn differs(line: &[u8], first: u8, second: u8) -> bool {
    let postbyte = two(line, 0);
    if 255 < postbyte {
        return true;
    }
    let read = match decoder::decode(
        &[0xA6, postbyte as u8, first, second],
        0x0100,
        Page::Known(0),
    ) {
        Ok(read) => read,
        Err(refusal) => return !(is_dash(line, 3) & (refusal == Refusal::Undefined)),
    };
    let meaning = read.meaning;
    let kind = meaning.kind;
    let parts = kind.in_parts();
    let length = read.length == one(line, 3);
    let form = (parts.kind == one(line, 5)) & (parts.first == one(line, 7));
    let indirect = parts.indirect == (one(line, 9) == 1);
    !(length & form & indirect & (number_of(read) == four(line, 11)))
}
