// Lines of text, and numbers in hexadecimal in them. What is no digit counts as 0.
ghost use Rattle.std.specs.Prelude.{◌<◌};

use ground::refusals::Refusal;
use ground::tables::cell_or;
use reader::digit;

// A number of one digit. The reader has 16 for what is none.
pub(crate) fn one(line: &[u8], at: usize) -> u8
    ensures { result < 16 }
{
    digit(cell_or(line, at, 0)) % 16
}

// A number of two digits.
pub(crate) fn two(line: &[u8], at: usize) -> u8
    requires { at < 64 }
{
    let high = one(line, at);
    high * 16 + one(line, at + 1)
}

// A number of four digits.
pub(crate) fn four(line: &[u8], at: usize) -> u16
    requires { at < 60 }
{
    let high = two(line, at) as u16;
    high * 256 + two(line, at + 2) as u16
}

// Bit n of a number of one digit.
pub(crate) fn has(line: &[u8], at: usize, bit: u8) -> bool {
    one(line, at) & bit == bit
}

// A refusal as a line has it: its number, 0 for none.
pub(crate) fn number_in(refusal: Option<Refusal>) -> u8 {
    match refusal {
        None => 0,
        Some(why) => why.number(),
    }
}
