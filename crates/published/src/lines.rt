// Lines of numbers in hexadecimal.
ghost use Rattle.std.specs.Prelude.{◌<◌, ◌≤◌};

use ground::tables::cell_or;
use reader::digit;

// A number of one digit; 16 where there is none.
pub(crate) fn one(line: &[u8], at: usize) -> u8 {
    digit(cell_or(line, at, 0))
}

// A number of two digits; 256 where one is none.
pub(crate) fn two(line: &[u8], at: usize) -> u16
    requires { at < 16 }
    ensures { result ≤ 256 }
{
    let high = one(line, at) as u16;
    let low = one(line, at + 1) as u16;
    if 15 < high {
        return 256;
    }
    if 15 < low {
        return 256;
    }
    high * 16 + low
}

// A number of four digits, modulo 65536.
pub(crate) fn four(line: &[u8], at: usize) -> u16
    requires { at < 12 }
{
    let high = two(line, at) as u32;
    let low = two(line, at + 2) as u32;
    ((high * 256 + low) % 65536) as u16
}

// A dash stands for what is not there.
pub(crate) fn is_dash(line: &[u8], at: usize) -> bool {
    cell_or(line, at, 0) == b'-'
}
