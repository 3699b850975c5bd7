// A line of Intel's text, written in one pass: digits and sum of its bytes go together.
ghost use Rattle.std.specs.Prelude.{[], ◌∷◌, ◌+◌, ◌*◌, ◌^◌, ◌<◌, length};
ghost use Rattle.ground.specs.Stores.{Wrote};
ghost use Rattle.ground.specs.Words.{high, low};
ghost use Rattle.records.specs.Line.{check_of, line};
ghost use Rattle.records.specs.Penned.{Penned};

use crate::hex::store_digits;
use ground::buffers::store;

// Where the text goes on, and the sum of the line's bytes so far, modulo 256.
#[derive(Clone, Copy)]
pub(crate) struct Pen {
    at: usize,
    sum: u8,
}

impl Pen {
    // The two digits of a byte.
    fn byte(self, out: &mut [u8], b: u8) -> Pen
        requires { self.at + 2 < 2 ^ 64 }
        ensures { Penned out.old self (b ∷ []) result out.new }
    {
        store_digits(out, self.at, b);
        Pen {
            at: self.at + 2,
            sum: ((self.sum as usize + b as usize) % 256) as u8,
        }
    }

    // The digits of count, address and type.
    #[tactic(auto, using(crate::proofs::Writing::penned_then))]
    fn head(self, out: &mut [u8], count: u8, address: u16, kind: u8) -> Pen
        requires { self.at + 8 < 2 ^ 64 }
        ensures { Penned out.old self (count ∷ high address ∷ low address ∷ kind ∷ []) result out.new }
    {
        let counted = self.byte(out, count);
        let half = counted.byte(out, (address / 256) as u8);
        let placed = half.byte(out, (address % 256) as u8);
        placed.byte(out, kind)
    }

    // The digits of bytes.
    #[tactic(auto, using(crate::proofs::Writing::penned_none))]
    fn bytes(self, out: &mut [u8], bytes: &[u8]) -> Pen
        requires { self.at + 2 * length bytes.now < 2 ^ 64 }
        ensures { Penned out.old self bytes.now result out.new }
    {
        let mut pen = self;
        for b in bytes {
            pen = pen.byte(out, *b);
        }
        pen
    }

    // The digits of the check, which makes the sum 0.
    #[tactic(auto, unfolding(crate::specs::Line::check_of))]
    fn check(self, out: &mut [u8]) -> Pen
        requires { self.at + 2 < 2 ^ 64 }
        ensures { Penned out.old self (check_of (self.sum ∷ []) ∷ []) result out.new }
    {
        let sum = self.sum as usize;
        self.byte(out, ((256 - sum) % 256) as u8)
    }
}

// A line, and the place after it. Past the end of the buffer there is nothing to store: such a line is only measured.
#[tactic(auto, using(ground::proofs::Stores::put_past, crate::proofs::Writing::length_line, crate::proofs::Writing::length_hexes))]
pub(crate) fn put_line(out: &mut [u8], at: usize, kind: u8, address: u16, bytes: &[u8]) -> usize
    requires { (length bytes.now < 256) × (at + 12 + 2 * length bytes.now < 2 ^ 64) }
    ensures { Wrote out.old at (line kind address bytes.now) result out.new }
{
    if out.len() <= at {
        return at + 12 + 2 * bytes.len();
    }
    store(out, at, b':');
    let start = Pen { at: at + 1, sum: 0 };
    let headed = start.head(out, bytes.len() as u8, address, kind);
    let filled = headed.bytes(out, bytes);
    let closed = filled.check(out);
    let end = closed.at;
    store(out, end, b'\n');
    end + 1
}
