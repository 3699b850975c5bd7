// Bytes as hexadecimal digits.
ghost use Rattle.std.specs.Prelude.{◌≡◌, [], ◌∷◌, ◌<◌};
ghost use Rattle.ground.specs.Stores.{put};
ghost use Rattle.records.specs.Hex.{hex_of, hexes};

use ground::buffers::store;

const DIGITS: [u8; 16] = *b"0123456789ABCDEF";

// The digit of a number below 16.
fn digit(n: usize) -> u8
    requires { n < 16 }
    ensures { result ≡ hex_of n }
{
    DIGITS[n]
}

// Stores the two digits of a byte from a place on. What would stand past the end of the buffer is not stored.
#[tactic(auto, using(ground::proofs::Stores::put_past))]
pub fn store_digits(out: &mut [u8], at: usize, b: u8)
    ensures { out.new ≡ put out.old at (hexes (b ∷ [])) }
{
    if at < out.len() {
        let wide = b as usize;
        store(out, at, digit(wide / 16));
        store(out, at + 1, digit(wide % 16));
    }
}
