// Index postbytes, read: first what the postbyte alone says, then what it means with the bytes after it.
ghost use Rattle.std.specs.Prelude.{◌≡◌, ◌%◌, ◌<◌};
ghost use Rattle.ground.specs.Words.{word};
ghost use Rattle.values.specs.Widths.{extended};
ghost use Rattle.postbytes.specs.Reading.{direct_only, address_only, high_of, shape_of, extra_of, fill_of};

use crate::numbers::{A, B, D, X};
use crate::{Addressing, Shape};
use ground::refusals::Refusal;

// The low five bits of a postbyte, sign-extended.
#[tactic(auto, unfolding(values::specs::Widths::extended, ground::specs::Choice::pick))]
fn five(postbyte: u8) -> u16
    ensures { result ≡ extended 5 (postbyte % 32) }
{
    let bits = (postbyte % 32) as u16;
    if bits < 16 { bits } else { bits + 0xFFE0 }
}

#[tactic(auto, unfolding(values::specs::Widths::extended, ground::specs::Choice::pick))]
fn byte(b: u8) -> u16
    ensures { result ≡ extended 8 b }
{
    let n = b as u16;
    if n < 128 { n } else { n + 0xFF00 }
}

fn word(b: u8, c: u8) -> u16
    ensures { result ≡ word b c }
{
    (b as u16) * 256 + c as u16
}

// A single step has no indirect form.
#[tactic(auto, unfolding(crate::specs::Reading::direct_only, ground::specs::Choice::pick))]
fn single_step(register: u8, indirect: bool, step: u8) -> Result<Shape, Refusal>
    ensures { result ≡ direct_only indirect (Shape.Step register indirect step) }
{
    if indirect {
        return Err(Refusal::Undefined);
    }
    Ok(Shape::Step {
        register,
        indirect,
        step,
    })
}

// Extended indirect is one postbyte only.
#[tactic(auto, unfolding(crate::specs::Reading::address_only, ground::specs::Choice::pick))]
fn address_only(bits: u8, indirect: bool) -> Result<Shape, Refusal>
    ensures { result ≡ address_only bits indirect }
{
    let fits = (bits == 0) & indirect;
    if fits {
        Ok(Shape::Address)
    } else {
        Err(Refusal::Undefined)
    }
}

// A postbyte with bit 7 set: its register bits, its indirect bit, and its low four bits.
#[tactic(auto, unfolding(crate::specs::Reading::high_of, ground::specs::Choice::pick))]
fn high(bits: u8, indirect: bool, low: u8) -> Result<Shape, Refusal>
    requires { bits < 4 }
    ensures { result ≡ high_of bits indirect low }
{
    let register = X + bits;
    match low {
        0x4 => Ok(Shape::NoOffset { register, indirect }),
        0x8 => Ok(Shape::OneByte { register, indirect }),
        0x9 => Ok(Shape::TwoBytes { register, indirect }),
        0x6 => Ok(Shape::Accumulator {
            register,
            indirect,
            accumulator: A,
        }),
        0x5 => Ok(Shape::Accumulator {
            register,
            indirect,
            accumulator: B,
        }),
        0xB => Ok(Shape::Accumulator {
            register,
            indirect,
            accumulator: D,
        }),
        0x0 => single_step(register, indirect, 1),
        0x1 => Ok(Shape::Step {
            register,
            indirect,
            step: 2,
        }),
        0x2 => single_step(register, indirect, 3),
        0x3 => Ok(Shape::Step {
            register,
            indirect,
            step: 4,
        }),
        // a PC form's register bits are "don't care"
        0xC => Ok(Shape::CounterByte { indirect }),
        0xD => Ok(Shape::CounterWord { indirect }),
        0xF => address_only(bits, indirect),
        _ => Err(Refusal::Undefined),
    }
}

// What a postbyte alone says.
#[tactic(auto, unfolding(crate::specs::Reading::shape_of, ground::specs::Choice::pick))]
pub fn shape_of(postbyte: u8) -> Result<Shape, Refusal>
    ensures { result ≡ shape_of postbyte }
{
    let bits = postbyte / 32 % 4;
    if postbyte < 128 {
        return Ok(Shape::FiveBits {
            register: X + bits,
            offset: five(postbyte),
        });
    }
    let indirect = postbyte / 16 % 2 == 1;
    high(bits, indirect, postbyte % 16)
}

// How many bytes follow the postbyte.
pub fn extra_of(shape: Shape) -> u8
    ensures { result ≡ extra_of shape }
{
    match shape {
        Shape::NoOffset { .. } => 0,
        Shape::FiveBits { .. } => 0,
        Shape::OneByte { .. } => 1,
        Shape::TwoBytes { .. } => 2,
        Shape::Accumulator { .. } => 0,
        Shape::Step { .. } => 0,
        Shape::CounterByte { .. } => 1,
        Shape::CounterWord { .. } => 2,
        Shape::Address => 2,
    }
}

// What the postbyte means with the two bytes after it, of which it reads as many as belong to it.
pub fn fill(shape: Shape, first: u8, second: u8) -> Addressing
    ensures { result ≡ fill_of shape first second }
{
    match shape {
        Shape::NoOffset { register, indirect } => Addressing::Offset {
            register,
            indirect,
            offset: 0,
        },
        Shape::FiveBits { register, offset } => Addressing::Offset {
            register,
            indirect: false,
            offset,
        },
        Shape::OneByte { register, indirect } => Addressing::Offset {
            register,
            indirect,
            offset: byte(first),
        },
        Shape::TwoBytes { register, indirect } => Addressing::Offset {
            register,
            indirect,
            offset: word(first, second),
        },
        Shape::Accumulator {
            register,
            indirect,
            accumulator,
        } => Addressing::Accumulator {
            register,
            indirect,
            accumulator,
        },
        Shape::Step {
            register,
            indirect,
            step,
        } => Addressing::Step {
            register,
            indirect,
            step,
        },
        Shape::CounterByte { indirect } => Addressing::Counter {
            indirect,
            offset: byte(first),
        },
        Shape::CounterWord { indirect } => Addressing::Counter {
            indirect,
            offset: word(first, second),
        },
        Shape::Address => Addressing::Address {
            address: word(first, second),
        },
    }
}
