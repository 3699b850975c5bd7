// The operand after a code, by value: how many bytes are left, the first three of them, and what they say.
ghost use Rattle.std.specs.Prelude.{◌≡◌};
ghost use Rattle.postbytes.specs.ListsRead.{pair_of};
ghost use Rattle.decoder.specs.Origin.{shifted, target_of, direct_of, unseen};
ghost use Rattle.decoder.specs.Operands.{number_of, distance_of, numbered_of, numbered_at, resolved, indexed_at, own_of, paired_as, registers_at, operand_of};

use crate::{Kind, Origin};
use ground::refusals::Refusal;
use ground::words::add;
use postbytes::Addressing;
use postbytes::lists::{pair_of, registers_of};
use postbytes::numbers::{S, U};
use postbytes::shapes::{extra_of, fill, shape_of};
use rows::forms::*;
use values::Value;
use values::pages::Page;

// Operations with a list of registers: EXG and TFR, then PSHS, PULS, PSHU and PULU. Operations, forms and sizes go by the numbers of the sheet's rows, and
// no enum: a row may hold any (docs/ROWS.md).
const EXG: u8 = 136;

const TFR: u8 = 137;

const PSHU: u8 = 140;

// The bytes after a code: how many there are, and the first three, 0 where there is none. No slice: no operand has more of its own, and so an operand is read
// with no index to be proved.
#[derive(Clone, Copy)]
pub struct Rest {
    pub left: usize,
    pub first: u8,
    pub second: u8,
    pub third: u8,
}

// An operand, and how many bytes are its own.
#[derive(Clone, Copy)]
pub struct Reading {
    pub size: u8,
    pub kind: Kind,
}

// Where an offset from the end of an instruction leads, of which so many bytes stand after its code.
#[tactic(auto, unfolding(crate::specs::Origin::target_of, crate::specs::Origin::shifted))]
fn target(after: Origin, size: u8, offset: u16) -> u16
    ensures { result ≡ target_of (shifted after size) offset }
{
    add(add(after.address, size as u16), offset)
}

// The address of a direct operand; under an unknown page none is read.
#[tactic(auto, unfolding(crate::specs::Origin::direct_of))]
fn direct(after: Origin, n: u16) -> u16
    ensures { result ≡ direct_of after n }
{
    let page = after.page;
    match page {
        Page::Unknown => n,
        Page::Known(high) => (high as u16) * 256 + n % 256,
    }
}

// A direct code under an unknown page.
#[tactic(auto, unfolding(crate::specs::Origin::unseen))]
fn is_unseen(form: u8, after: Origin) -> bool
    ensures { result ≡ unseen form after }
{
    let page = after.page;
    (form == DIRECT) & page.is_unknown()
}

// The number in the first bytes: none, one or two of them.
#[tactic(auto, unfolding(crate::specs::Operands::number_of, ground::specs::Choice::pick))]
fn number(size: u8, rest: Rest) -> u16
    ensures { result ≡ number_of size rest }
{
    match size {
        0 => 0,
        1 => rest.first as u16,
        _ => (rest.first as u16) * 256 + rest.second as u16,
    }
}

// The distance of a branch: one byte is sign-extended.
#[tactic(auto, unfolding(crate::specs::Operands::distance_of, ground::specs::Choice::pick, values::specs::Widths::sign_extended_of, values::specs::Widths::bits_of))]
fn distance(size: u8, n: u16) -> u16
    ensures { result ≡ distance_of size n }
{
    let byte = Value {
        number: n,
        width: 8,
    };
    let wide = byte.sign_extended();
    if size == 1 { wide.number } else { n }
}

// A number by its form.
#[tactic(auto, unfolding(crate::specs::Operands::numbered_of, ground::specs::Choice::pick))]
fn numbered(form: u8, size: u8, n: u16, after: Origin) -> Kind
    ensures { result ≡ numbered_of form size n after }
{
    match form {
        IMMEDIATE => Kind::Immediate { number: n },
        DIRECT => Kind::Memory {
            address: direct(after, n),
        },
        EXTENDED => Kind::Memory { address: n },
        RELATIVE => Kind::Branch {
            target: target(after, size, distance(size, n)),
        },
        _ => Kind::Inherent,
    }
}

// The operand that is a number of so many bytes, or none.
#[tactic(auto, unfolding(crate::specs::Operands::numbered_at, ground::specs::Choice::pick))]
fn numbered_at(form: u8, size: u8, rest: Rest, after: Origin) -> Result<Reading, Refusal>
    ensures { result ≡ numbered_at form size rest after }
{
    if is_unseen(form, after) {
        return Err(Refusal::Undefined);
    }
    if rest.left < size as usize {
        return Err(Refusal::CutShort);
    }
    let kind = numbered(form, size, number(size, rest), after);
    Ok(Reading { size, kind })
}

// An indexed operand's meaning; an offset from the program counter is made its target.
fn resolve(addressing: Addressing, after: Origin, size: u8) -> Kind
    ensures { result ≡ resolved addressing (shifted after size) }
{
    match addressing {
        Addressing::Offset {
            register,
            indirect,
            offset,
        } => Kind::Offset {
            register,
            indirect,
            offset,
        },
        Addressing::Counter { indirect, offset } => Kind::Counter {
            indirect,
            target: target(after, size, offset),
        },
        Addressing::Accumulator {
            register,
            indirect,
            accumulator,
        } => Kind::Accumulator {
            register,
            indirect,
            accumulator,
        },
        Addressing::Step {
            register,
            indirect,
            step,
        } => Kind::Step {
            register,
            indirect,
            step,
        },
        Addressing::Address { address } => Kind::Address { address },
    }
}

// The operand of a postbyte and the bytes after it.
#[tactic(auto, using(crate::proofs::Bounds::extra_small), unfolding(crate::specs::Operands::indexed_at, crate::specs::Operands::indexed_as, ground::specs::Choice::pick))]
fn indexed_at(rest: Rest, after: Origin) -> Result<Reading, Refusal>
    ensures { result ≡ indexed_at rest after }
{
    if rest.left == 0 {
        return Err(Refusal::CutShort);
    }
    let shape = shape_of(rest.first)?;
    let size = 1 + extra_of(shape);
    if rest.left < size as usize {
        return Err(Refusal::CutShort);
    }
    let addressing = fill(shape, rest.second, rest.third);
    let kind = resolve(addressing, after, size);
    Ok(Reading { size, kind })
}

// The stack pointer that an operation pushes or pulls with.
#[tactic(auto, unfolding(crate::specs::Operands::own_of, ground::specs::Choice::pick))]
fn own(operation: u8) -> u8
    ensures { result ≡ own_of operation }
{
    if PSHU <= operation { U } else { S }
}

// The registers of EXG and TFR.
fn paired(byte: u8) -> Result<Reading, Refusal>
    ensures { result ≡ paired_as (pair_of byte) }
{
    let pair = pair_of(byte)?;
    let kind = Kind::Pair {
        source: pair.source,
        destination: pair.destination,
    };
    Ok(Reading { size: 1, kind })
}

// The operand that is a list of registers.
#[tactic(auto, unfolding(crate::specs::Operands::registers_at, ground::specs::Choice::pick))]
fn registers_at(operation: u8, rest: Rest) -> Result<Reading, Refusal>
    ensures { result ≡ registers_at operation rest }
{
    if rest.left == 0 {
        return Err(Refusal::CutShort);
    }
    let pair = (operation == EXG) | (operation == TFR);
    if pair {
        return paired(rest.first);
    }
    let registers = registers_of(own(operation), rest.first);
    let kind = Kind::Push { registers };
    Ok(Reading { size: 1, kind })
}

// The operand of an operation in a form, with a number of so many bytes if the form has one.
#[tactic(auto, unfolding(crate::specs::Operands::operand_of, ground::specs::Choice::pick))]
pub fn operand(
    operation: u8,
    form: u8,
    size: u8,
    rest: Rest,
    after: Origin,
) -> Result<Reading, Refusal>
    ensures { result ≡ operand_of operation form size rest after }
{
    match form {
        INDEXED => indexed_at(rest, after),
        REGISTER => registers_at(operation, rest),
        _ => numbered_at(form, size, rest, after),
    }
}
