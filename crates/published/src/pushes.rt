// The sheet's boxes of the push byte, for the decoder: the CODE of PSHS, PULS, PSHU or PULU, the BYTE after it and the SET of registers that they
// name, as `34 FF 03BB`, with bit n for register n.
use crate::lines::{four, two};
use decoder::Kind;
use values::pages::Page;

pub(crate) const LINE: usize = 11;

// What is named is not the line's set.
pub(crate) fn differs(line: &[u8]) -> bool {
    let code = two(line, 0);
    let byte = two(line, 3);
    if 255 < code {
        return true;
    }
    if 255 < byte {
        return true;
    }
    let decoded = decoder::decode(&[code as u8, byte as u8], 0x0100, Page::Known(0));
    match decoded {
        Ok(read) => {
            let registers = four(line, 6);
            let meaning = read.meaning;
            meaning.kind != Kind::Push { registers }
        }
        Err(_) => true,
    }
}
