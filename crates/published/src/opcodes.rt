// The sheet's opcode map, for the decoder: PAGE CODE FORM OPERATION, as `00 86 1 36`, with dashes where the sheet has none.
use crate::lines::{is_dash, one, two};
use rows::Named;

pub(crate) const LINE: usize = 11;

// The row of the code is not the line's.
pub(crate) fn differs(line: &[u8]) -> bool {
    let page = two(line, 0);
    let code = two(line, 3);
    if 255 < page {
        return true;
    }
    if 255 < code {
        return true;
    }
    let named = rows::row_of(page as u8, code as u8);
    match named {
        Ok(Named { operation, form }) => {
            !((one(line, 6) == form) & (two(line, 8) == operation as u16))
        }
        Err(_) => !is_dash(line, 6),
    }
}
