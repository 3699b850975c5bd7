// Index postbytes, written.
ghost use Rattle.std.specs.Prelude.{◌≡◌, false, ◌+◌, ◌≤◌};
ghost use Rattle.postbytes.specs.Registers.{not_indexing};
ghost use Rattle.postbytes.specs.Writing.{alone, with_byte, with_word, register_bits, marked, sized_of, five_bits, constant_of, offset_of, counter_of, accumulator_base, accumulator_of, step_of, encode_of, near_of, relative_of};

use crate::numbers::{S, X};
use crate::{Encoded, Index};
use ground::refusals::Refusal;
use ground::words::{add, sub};
use values::Value;

fn alone(postbyte: u8) -> Encoded
    ensures { result ≡ alone postbyte }
{
    Encoded {
        bytes: [postbyte, 0, 0],
        length: 1,
    }
}

fn with_byte(postbyte: u8, byte: u8) -> Encoded
    ensures { result ≡ with_byte postbyte byte }
{
    Encoded {
        bytes: [postbyte, byte, 0],
        length: 2,
    }
}

fn with_word(postbyte: u8, number: u16) -> Encoded
    ensures { result ≡ with_word postbyte number }
{
    let [high, low] = number.to_be_bytes();
    Encoded {
        bytes: [postbyte, high, low],
        length: 3,
    }
}

// None of X, Y, U, S.
fn is_misplaced(register: u8) -> bool
    ensures { result ≡ not_indexing register }
{
    !(X..=S).contains(&register)
}

// The postbyte on X, Y, U or S.
#[tactic(auto, using(crate::proofs::Tests::indexing))]
fn on(register: u8, base: u8) -> u8
    requires { (not_indexing register ≡ false) × (base ≤ 143) }
    ensures is { result ≡ base + register_bits register }
    ensures most { result ≤ 239 }
{
    base + (register - X) * 0x20
}

#[tactic(auto, unfolding(crate::specs::Writing::marked, ground::specs::Choice::pick))]
fn marked(indirect: bool, postbyte: u8) -> u8
    requires { postbyte ≤ 239 }
    ensures { result ≡ marked indirect postbyte }
{
    if indirect { postbyte + 0x10 } else { postbyte }
}

// An offset that five bits hold, in an operand that is not indirect.
pub fn five_bits(indirect: bool, n: u16) -> bool
    ensures { result ≡ five_bits indirect n }
{
    !indirect & ((n < 16) | (0xFFF0 <= n))
}

// One byte of the number after the first postbyte for an 8-bit value, two after the second for a 16-bit one.
#[tactic(auto, unfolding(crate::specs::Writing::sized_of, ground::specs::Choice::pick))]
fn sized(narrow: u8, wide: u8, width: u8, n: u16) -> Encoded
    ensures { result ≡ sized_of narrow wide width n }
{
    if width == 8 {
        return with_byte(narrow, (n % 256) as u8);
    }
    with_word(wide, n)
}

// The offset n, sign-extended, of a value of that width.
#[tactic(auto, unfolding(crate::specs::Writing::constant_of, ground::specs::Choice::pick))]
fn constant(register: u8, indirect: bool, width: u8, n: u16) -> Encoded
    requires { not_indexing register ≡ false }
    ensures { result ≡ constant_of register indirect width n }
{
    if n == 0 {
        return alone(marked(indirect, on(register, 0x84)));
    }
    if five_bits(indirect, n) {
        return alone(on(register, (n % 32) as u8));
    }
    let narrow = on(register, 0x88);
    let wide = on(register, 0x89);
    sized(marked(indirect, narrow), marked(indirect, wide), width, n)
}

#[tactic(auto, unfolding(crate::specs::Writing::offset_of, ground::specs::Choice::pick))]
fn offset(register: u8, indirect: bool, by: Value) -> Result<Encoded, Refusal>
    ensures { result ≡ offset_of register indirect by }
{
    let strange = (10 <= register) | !by.valid();
    if strange {
        return Err(Refusal::Unknown);
    }
    if is_misplaced(register) {
        return Err(Refusal::BadRegister);
    }
    let signed = by.sign_extended();
    Ok(constant(register, indirect, by.width, signed.number))
}

#[tactic(auto, unfolding(crate::specs::Writing::counter_of, ground::specs::Choice::pick))]
fn counter(indirect: bool, by: Value) -> Result<Encoded, Refusal>
    ensures { result ≡ counter_of indirect by }
{
    let strange = !by.valid();
    if strange {
        return Err(Refusal::Unknown);
    }
    let signed = by.sign_extended();
    Ok(sized(
        marked(indirect, 0x8C),
        marked(indirect, 0x8D),
        by.width,
        signed.number,
    ))
}

#[tactic(auto, unfolding(crate::specs::Writing::accumulator_base, ground::specs::Choice::pick))]
fn accumulator_base(which: u8) -> u8
    ensures is { result ≡ accumulator_base which }
    ensures most { result ≤ 143 }
{
    match which {
        0 => 0x86,
        1 => 0x85,
        _ => 0x8B,
    }
}

#[tactic(auto, unfolding(crate::specs::Writing::accumulator_of, ground::specs::Choice::pick))]
fn accumulator(register: u8, indirect: bool, which: u8) -> Result<Encoded, Refusal>
    ensures { result ≡ accumulator_of register indirect which }
{
    let strange = (10 <= register) | (10 <= which);
    if strange {
        return Err(Refusal::Unknown);
    }
    let misplaced = is_misplaced(register) | (3 <= which);
    if misplaced {
        return Err(Refusal::BadRegister);
    }
    Ok(alone(marked(indirect, on(register, accumulator_base(which)))))
}

#[tactic(auto, unfolding(crate::specs::Writing::step_of, ground::specs::Choice::pick))]
fn step(register: u8, indirect: bool, kind: u8) -> Result<Encoded, Refusal>
    ensures { result ≡ step_of register indirect kind }
{
    let strange = (10 <= register) | !(1..=4).contains(&kind);
    if strange {
        return Err(Refusal::Unknown);
    }
    let barred = indirect & ((kind == 1) | (kind == 3));
    if barred {
        return Err(Refusal::SingleStepIndirect);
    }
    if is_misplaced(register) {
        return Err(Refusal::BadRegister);
    }
    Ok(alone(marked(indirect, on(register, 0x7F + kind))))
}

// The bytes of an indexed operand.
pub fn encode(index: Index) -> Result<Encoded, Refusal>
    ensures { result ≡ encode_of index }
{
    match index {
        Index::Offset {
            register,
            indirect,
            offset: by,
        } => offset(register, indirect, by),
        Index::Counter {
            indirect,
            offset: by,
        } => counter(indirect, by),
        Index::Accumulator {
            register,
            indirect,
            accumulator: which,
        } => accumulator(register, indirect, which),
        Index::Step {
            register,
            indirect,
            step: kind,
        } => step(register, indirect, kind),
        Index::Address { address } => Ok(with_word(0x9F, address)),
    }
}

// A distance that one byte holds, in two's complement.
pub fn near(d: u16) -> bool
    ensures { result ≡ near_of d }
{
    (d < 128) | (0xFF80 <= d)
}

// An offset from PC to a target. The postbyte stands at `after`, the address after the code.
#[tactic(auto, unfolding(crate::specs::Writing::relative_of, ground::specs::Choice::pick))]
pub fn relative(target: u16, after: u16, indirect: bool) -> Encoded
    ensures { result ≡ relative_of target after indirect }
{
    let short = sub(target, add(after, 2));
    if near(short) {
        return with_byte(marked(indirect, 0x8C), (short % 256) as u8);
    }
    let long = sub(target, add(after, 3));
    with_word(marked(indirect, 0x8D), long)
}
