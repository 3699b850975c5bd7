// The bytes of what a build settled on.
ghost use Rattle.std.specs.Prelude.{◌≡◌, ◌≤◌};
ghost use Rattle.postbytes.specs.Writing.{alone};
ghost use Rattle.instruction.specs.Bytes.{number_bytes, operand_bytes, code_size, behind_code, laid_at};

use crate::{Argument, Chosen, Laid};
use ground::refusals::Refusal;
use ground::words;
use postbytes::Encoded;
use rows::Code;

const NOTHING: Encoded = Encoded {
    bytes: [0, 0, 0],
    length: 0,
};

#[tactic(auto, unfolding(crate::specs::Bytes::number_bytes, ground::specs::Choice::pick))]
fn number(size: u8, n: u16) -> Encoded
    ensures { result ≡ number_bytes size n }
{
    let high = (n / 256) as u8;
    let low = (n % 256) as u8;
    match size {
        1 => Encoded {
            bytes: [low, 0, 0],
            length: 1,
        },
        2 => Encoded {
            bytes: [high, low, 0],
            length: 2,
        },
        _ => NOTHING,
    }
}

fn one(b: u8) -> Encoded
    ensures { result ≡ alone b }
{
    Encoded {
        bytes: [b, 0, 0],
        length: 1,
    }
}

// The operand's bytes, the first of which stands at `after`. An operand that is refused has none.
#[tactic(auto, unfolding(crate::specs::Bytes::operand_bytes, ground::specs::Choice::pick))]
fn operand(operation: u8, form: u8, argument: Argument, after: u16) -> Encoded
    ensures { result ≡ operand_bytes operation form argument after }
{
    match argument {
        Argument::Nothing => number(0, 0),
        Argument::Number(n) => number(rows::sizes::number_size(operation, form), n),
        Argument::Target(t) => {
            let size = rows::sizes::number_size(operation, form);
            number(size, words::sub(t, words::add(after, size as u16)))
        }
        Argument::Indexed(index) => postbytes::encoding::encode(index).unwrap_or(NOTHING),
        Argument::Relative { target, indirect } => postbytes::encoding::relative(
            target, after, indirect,
        ),
        Argument::Registers(b) => one(b),
    }
}

#[tactic(auto, unfolding(crate::specs::Bytes::code_size, ground::specs::Choice::pick))]
fn code_size(page: u8) -> u8
    ensures { result ≡ code_size page }
{
    if page == 0 { 1 } else { 2 }
}

#[tactic(auto, unfolding(crate::specs::Bytes::behind_code, ground::specs::Choice::pick))]
fn behind_code(page: u8, code: u8, e: Encoded) -> Laid
    requires { e.length ≤ 3 }
    ensures { result ≡ behind_code page code e }
{
    let b = e.bytes;
    if page == 0 {
        return Laid {
            bytes: [code, b[0], b[1], b[2], 0],
            length: 1 + e.length,
        };
    }
    Laid {
        bytes: [page, code, b[0], b[1], b[2]],
        length: 2 + e.length,
    }
}

// Behind a code that was looked up.
#[tactic(auto, using(crate::proofs::Padded::operand_short), unfolding(crate::specs::Bytes::laid_at, ground::specs::Choice::pick))]
pub(crate) fn lay(c: Chosen, coded: Result<Code, Refusal>, address: u16) -> Laid
    ensures { result ≡ laid_at coded c address }
{
    match coded {
        Ok(Code { page, code }) => {
            let after = words::add(address, code_size(page) as u16);
            let argument = c.argument;
            behind_code(page, code, operand(c.operation, c.form, argument, after))
        }
        Err(_) => Laid {
            bytes: [0; 5],
            length: 0,
        },
    }
}
