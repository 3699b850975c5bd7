// One instruction: its code, and the operand after it.
ghost use Rattle.std.specs.Prelude.{◌≡◌, length, drop, ◌≤◌};
ghost use Rattle.ground.specs.Choice.{pick};
ghost use Rattle.rows.specs.Sizes.{is_wide, is_long, number_at};
ghost use Rattle.decoder.specs.Origin.{shifted};
ghost use Rattle.decoder.specs.Operands.{rest_of};
ghost use Rattle.decoder.specs.Front.{is_prefix, coded_of, front_of};
ghost use Rattle.decoder.specs.Head.{first_of, behind_prefix, head_of};

use crate::operands::{Rest, operand};
use crate::{Decoded, Meaning, Origin};
use ground::refusals::Refusal;
use ground::tables::cell_or;
use ground::words::add;
use rows::forms::*;
use rows::row_of;

// The bytes from a place on.
fn rest_of(bytes: &[u8], at: usize) -> Rest
    requires { at ≤ length bytes.now }
    ensures { result ≡ rest_of (drop at bytes.now) }
{
    let part = &bytes[at..];
    Rest {
        left: part.len(),
        first: cell_or(part, 0, 0),
        second: cell_or(part, 1, 0),
        third: cell_or(part, 2, 0),
    }
}

fn is_prefix(code: u8) -> bool
    ensures { result ≡ is_prefix code }
{
    (code == 0x10) | (code == 0x11)
}

// An immediate of 16 bits.
#[tactic(auto, unfolding(rows::specs::Sizes::is_wide))]
fn is_wide(page: u8, code: u8) -> bool
    ensures { result ≡ is_wide page code }
{
    let from_80 = (code == 0x83) | (code == 0x8C) | (code == 0x8E);
    let from_c0 = (code == 0xC3) | (code == 0xCC) | (code == 0xCE);
    (page != 0x00) | from_80 | from_c0
}

// A long branch.
#[tactic(auto, unfolding(rows::specs::Sizes::is_long))]
fn is_long(page: u8, code: u8) -> bool
    ensures { result ≡ is_long page code }
{
    (page != 0x00) | (code == 0x16) | (code == 0x17)
}

#[tactic(auto, unfolding(ground::specs::Choice::pick))]
fn two_if(wide: bool) -> u8
    ensures { result ≡ pick wide 2 1 }
{
    if wide { 2 } else { 1 }
}

// The bytes of number after a code.
#[tactic(auto, unfolding(rows::specs::Sizes::number_at, ground::specs::Choice::pick))]
fn number_size(form: u8, page: u8, code: u8) -> u8
    ensures { result ≡ number_at form page code }
{
    match form {
        IMMEDIATE => two_if(is_wide(page, code)),
        DIRECT => 1,
        EXTENDED => 2,
        RELATIVE => two_if(is_long(page, code)),
        _ => 0,
    }
}

// The same place, so many bytes further on.
#[tactic(auto, unfolding(crate::specs::Origin::shifted))]
pub fn shift(from: Origin, by: u16) -> Origin
    ensures { result ≡ shifted from by }
{
    let page = from.page;
    Origin {
        address: add(from.address, by),
        page,
    }
}

// The instruction with that code, of so many bytes.
#[tactic(auto, unfolding(crate::specs::Front::coded_of, crate::specs::Meaning::joined))]
fn coded(page: u8, code: u8, size: u8, rest: Rest, from: Origin) -> Result<Decoded, Refusal>
    requires { size ≤ 2 }
    ensures { result ≡ coded_of page code size rest from }
{
    let row = row_of(page, code)?;
    let number = number_size(row.form, page, code);
    let after = shift(from, size as u16);
    let reading = operand(row.operation, row.form, number, rest, after)?;
    let length = size + reading.size;
    let operation = row.operation;
    let kind = reading.kind;
    let meaning = Meaning { operation, kind };
    Ok(Decoded { length, meaning })
}

// What an instruction begins with: a code of a page, of so many bytes with its prefix.
#[derive(Clone, Copy)]
struct Head {
    page: u8,
    code: u8,
    size: u8,
}

// The byte at a place.
fn byte_at(bytes: &[u8], at: usize) -> Result<u8, Refusal>
    ensures { result ≡ first_of (drop at bytes.now) }
{
    bytes.get(at).copied().ok_or(Refusal::CutShort)
}

// The code at a place, behind the prefix of its page.
#[tactic(auto, using(crate::proofs::Heads::byte_there))]
fn behind_prefix(bytes: &[u8], at: usize, page: u8) -> Result<Head, Refusal>
    ensures { result ≡ behind_prefix page (drop at bytes.now) }
{
    let code = byte_at(bytes, at)?;
    Ok(Head {
        page,
        code,
        size: 2,
    })
}

// What an instruction begins with that begins at a place.
#[tactic(auto, using(crate::proofs::Heads::byte_there), unfolding(crate::specs::Head::head_of, ground::specs::Choice::pick))]
fn head_at(bytes: &[u8], at: usize) -> Result<Head, Refusal>
    ensures { result ≡ head_of (drop at bytes.now) }
{
    let code = byte_at(bytes, at)?;
    if is_prefix(code) {
        return behind_prefix(bytes, at + 1, code);
    }
    Ok(Head {
        page: 0x00,
        code,
        size: 1,
    })
}

// The instruction that begins at a place, wherever it ends. Its operand is read in one place, with a prefix and without.
#[tactic(auto, using(crate::proofs::Heads::front_cut, crate::proofs::Heads::front_coded, crate::proofs::Heads::code_there, crate::proofs::Heads::code_short))]
pub fn front(bytes: &[u8], at: usize, from: Origin) -> Result<Decoded, Refusal>
    ensures { result ≡ front_of (drop at bytes.now) from }
{
    let head = head_at(bytes, at)?;
    let rest = rest_of(bytes, at + head.size as usize);
    coded(head.page, head.code, head.size, rest, from)
}
