// The same map for the encoder, every name in every form: OPERATION FORM PAGE CODE, as `36 1 00 86`, with dashes where the sheet has none.
use crate::lines::{is_dash, one, two};
use ground::refusals::Refusal;
use rows::Code;

pub(crate) const LINE: usize = 11;

// The code of the name in the form is not the line's.
pub(crate) fn differs(line: &[u8]) -> bool {
    let operation = two(line, 0);
    if 255 < operation {
        return true;
    }
    let coded = rows::code_of(operation as u8, one(line, 3));
    match coded {
        Ok(Code { page, code }) => {
            !((two(line, 5) == page as u16) & (two(line, 8) == code as u16))
        }
        Err(Refusal::NoSuchMode) => !is_dash(line, 5),
        Err(_) => true,
    }
}
