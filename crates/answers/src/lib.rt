// How an exported call answers: it returns its refusal, and what else it has to say goes into a lent slice of 16-bit cells.
#![tactic(auto)]

ghost use Rattle.std.specs.Prelude.{◌≡◌, ◌++◌, length};
ghost use Rattle.answers.specs.Said.{said, refusal_of, beside, cells_after};
ghost use Rattle.answers.specs.Sizes.{size_cells, flag_cell};
ghost use Rattle.answers.specs.Steps.{late_of};

use ground::buffers::store_all;
use ground::refusals::Refusal;

// The refusal, if there is one; 9 where the slice is too short; else the cells stand at its front. A refusal leaves the slice as it was.
pub fn hand(refusal: u8, cells: &[u16], answer: &mut [u16]) -> u8
    ensures value { result ≡ refusal_of (said refusal cells.now) (length answer.old) }
    ensures answer_after { answer.new ≡ cells_after (said refusal cells.now) answer.old }
{
    if refusal != 0 {
        return refusal;
    }
    if answer.len() < cells.len() {
        return Refusal::NoRoom as u8;
    }
    store_all(answer, 0, cells);
    0
}

// The same for cells in two parts, the second after the first.
pub fn hand_both(refusal: u8, first: &[u16], second: &[u16], answer: &mut [u16]) -> u8
    ensures value { result ≡ refusal_of (said refusal (first.now ++ second.now)) (length answer.old) }
    ensures answer_after { answer.new ≡ cells_after (said refusal (first.now ++ second.now)) answer.old }
{
    if refusal != 0 {
        return refusal;
    }
    let seam = first.len();
    if answer.len() < seam + second.len() {
        return Refusal::NoRoom as u8;
    }
    store_all(answer, 0, first);
    store_all(answer, seam, second);
    0
}

// The refusal of a call whose answer has too few cells: its own, and 9 where it has none.
pub fn late(refusal: u8) -> u8
    ensures { result ≡ late_of refusal }
{
    if refusal != 0 {
        refusal
    } else {
        Refusal::NoRoom as u8
    }
}

// The refusal in the low 16 bits, and what is told beside it above them.
pub fn beside(refusal: u8, told: u8) -> u32
    ensures { result ≡ beside refusal told }
{
    refusal as u32 + 65536 * (told as u32)
}

// A size in four cells, the lowest first.
pub fn size(n: usize) -> [u16; 4]
    ensures { result ≡ size_cells n }
{
    let low = (n % 65536) as u16;
    let second = (n / 65536 % 65536) as u16;
    let third = (n / 4294967296 % 65536) as u16;
    let high = (n / 281474976710656) as u16;
    [low, second, third, high]
}

// A flag as a cell.
pub fn flag(b: bool) -> u16
    ensures { result ≡ flag_cell b }
{
    if b { 1 } else { 0 }
}

// A byte as a cell.
pub fn wide(n: u8) -> u16
    ensures { result ≡ n }
{
    n as u16
}
