// The lines of a listing, written to a lent buffer. What would lie past its end is not stored, so that a listing can be measured first.
ghost use Rattle.std.specs.Prelude.{[], ◌∷◌, ◌+◌, ◌*◌, ◌^◌, ◌<◌, length};
ghost use Rattle.ground.specs.Stores.{Wrote};
ghost use Rattle.records.specs.Hex.{hexes};
ghost use Rattle.listing.specs.Lines.{spaced, line_of, place_of, decimal, last_line};

use ground::buffers::{store, store_all};
use records::hex::store_digits;

// The two digits of a byte.
fn put_byte(out: &mut [u8], at: usize, b: u8) -> usize
    requires { at + 2 < 2 ^ 64 }
    ensures { Wrote out.old at (hexes (b ∷ [])) result out.new }
{
    store_digits(out, at, b);
    at + 2
}

// A blank and a byte.
fn put_spaced(out: &mut [u8], at: usize, b: u8) -> usize
    requires { at + 3 < 2 ^ 64 }
    ensures { Wrote out.old at (spaced (b ∷ [])) result out.new }
{
    store(out, at, b' ');
    put_byte(out, at + 1, b)
}

// Bytes, with a blank before each.
fn put_bytes(out: &mut [u8], at: usize, bytes: &[u8]) -> usize
    requires { at + 3 * length bytes.now < 2 ^ 64 }
    ensures { Wrote out.old at (spaced bytes.now) result out.new }
{
    let mut end = at;
    for &byte in bytes {
        end = put_spaced(out, end, byte);
    }
    end
}

// The line of an instruction.
pub(crate) fn put_instruction(out: &mut [u8], at: usize, address: u16, bytes: &[u8]) -> usize
    requires { at + 5 + 3 * length bytes.now < 2 ^ 64 }
    ensures { Wrote out.old at (line_of address bytes.now) result out.new }
{
    let half = put_byte(out, at, (address / 256) as u8);
    let placed = put_byte(out, half, (address % 256) as u8);
    let end = put_bytes(out, placed, bytes);
    store(out, end, b'\n');
    end + 1
}

// The characters of a word.
fn put_word(out: &mut [u8], at: usize, word: &[u8]) -> usize
    requires { at + length word.now < 2 ^ 64 }
    ensures { Wrote out.old at word.now result out.new }
{
    store_all(out, at, word);
    at + word.len()
}

// The digit at one place of a number, unless it would lead with a zero.
fn put_place(out: &mut [u8], at: usize, weight: usize, n: usize) -> usize
    requires { (at + 1 < 2 ^ 64) × (0 < weight) }
    ensures { Wrote out.old at (place_of weight n) result out.new }
{
    let stands = weight <= n;
    if stands {
        let tens = n / weight;
        store(out, at, 48 + (tens % 10) as u8);
        return at + 1;
    }
    at
}

// A number in decimal digits.
fn put_decimal(out: &mut [u8], at: usize, n: usize) -> usize
    requires { at + 5 < 2 ^ 64 }
    ensures { Wrote out.old at (decimal n) result out.new }
{
    let first = put_place(out, at, 10000, n);
    let second = put_place(out, first, 1000, n);
    let third = put_place(out, second, 100, n);
    let fourth = put_place(out, third, 10, n);
    store(out, fourth, 48 + (n % 10) as u8);
    fourth + 1
}

// The last line: a word and a number.
pub(crate) fn put_last(out: &mut [u8], at: usize, word: &[u8], n: usize) -> usize
    requires { at + length word.now + 6 < 2 ^ 64 }
    ensures { Wrote out.old at (last_line word.now n) result out.new }
{
    let said = put_word(out, at, word);
    let end = put_decimal(out, said, n);
    store(out, end, b'\n');
    end + 1
}
