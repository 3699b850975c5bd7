// What capstone says of five bytes at 0100: BYTES LENGTH OPERATION FAULT, as `A684123400 2 36 -`. Capstone has its own choice among aliases. Where
// FAULT is not a dash it is known to read what the sheet does not, and the decoder must refuse it. Capstone asks for no page: each known one will do.
ghost use Rattle.std.specs.Prelude.{◌<◌};

use crate::lines::{is_dash, one, two};
use ground::refusals::Refusal;
use values::pages::Page;

pub(crate) const LINE: usize = 18;

fn byte_of(line: &[u8], at: usize) -> u8
    requires { at < 16 }
{
    (two(line, at) % 256) as u8
}

pub(crate) fn differs(line: &[u8]) -> bool {
    let bytes = [
        byte_of(line, 0),
        byte_of(line, 2),
        byte_of(line, 4),
        byte_of(line, 6),
        byte_of(line, 8),
    ];
    let decoded = decoder::decode(&bytes, 0x0100, Page::Known(0));
    if is_dash(line, 13) | !is_dash(line, 16) {
        return decoded != Err(Refusal::Undefined);
    }
    match decoded {
        Ok(read) => {
            let meaning = read.meaning;
            let length = read.length == one(line, 11);
            let operation = rows::merged(byte_of(line, 13));
            !(length & (meaning.operation == operation))
        }
        Err(_) => true,
    }
}
