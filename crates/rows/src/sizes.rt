// How many bytes stand after a code, how many a row has at the least, and the long branch of a short one.
ghost use Rattle.std.specs.Prelude.{◌≡◌};
ghost use Rattle.rows.specs.Sizes.{number_size_of, immediate_width_of, smallest_size_of, long_of};
ghost use Rattle.rows.specs.Quick.{number_line, number_digit, number_bytes, operand_bytes, formed_of, row_bytes};

use crate::forms::*;
use crate::places::digit;
use crate::{known, merged, page_of};

// The number that stands after an operation's codes, a digit for each operation: its right two bits are the bytes of an immediate; its left two bits
// are 1 where there is an address, 2 for a branch's distance and 3 for a long branch's. NEG to CLR; SUBA to STX; SUBB to STU; BRA to BLE; LBRA to LBLE;
// LBSR BSR CMPD CMPY LDY LDS STY STS, CMPU CMPS; ORCC ANDCC CWAI; LSL, BHS BLO LBHS LBLO.
#[tactic(auto, unfolding(crate::specs::Quick::number_line, ground::specs::Choice::pick))]
fn number_line(operation: u8) -> u64
    ensures { result ≡ number_line operation }
{
    match operation / 16 {
        0 => 0x4004_4044_4440_4444,
        3 => 0x5556_5554_5555_6464,
        4 => 0x5556_5554_5555_6464,
        5 => 0x8888_8888_8888_8888,
        6 => 0xCCCC_CCCC_CCCC_CCCC,
        7 => 0xC866_6644_0660_0000,
        8 => 0x0000_0111_0000_0000,
        9 => 0x0040_088C_C000_0000,
        _ => 0,
    }
}

#[tactic(auto, unfolding(crate::specs::Quick::number_digit))]
fn number_digit(operation: u8) -> u8
    ensures { result ≡ number_digit operation }
{
    digit(number_line(operation), operation)
}

// The bytes of a number in a form. A direct address has one, an extended one two.
#[tactic(auto, unfolding(crate::specs::Quick::number_bytes, ground::specs::Choice::pick))]
fn number_bytes(told: u8, form: u8) -> u8
    ensures { result ≡ number_bytes told form }
{
    let kind = told / 4;
    match form {
        IMMEDIATE => told % 4,
        DIRECT => if kind == 1 { 1 } else { 0 },
        EXTENDED => if kind == 1 { 2 } else { 0 },
        RELATIVE => if 2 <= kind { kind - 1 } else { 0 },
        _ => 0,
    }
}

// The bytes of number that follow the code; an indexed or a register row has a postbyte in their stead, and what is no row has none.
#[tactic(auto, using(crate::proofs::Bytes::number_quick))]
pub fn number_size(operation: u8, form: u8) -> u8
    ensures { result ≡ number_size_of operation form }
{
    number_bytes(number_digit(operation), form)
}

// The bits of an immediate: 8 or 16, and 0 where the operation has no immediate form.
#[tactic(auto, using(crate::proofs::Bytes::number_size_small), unfolding(crate::specs::Sizes::immediate_width_of))]
pub fn immediate_width(operation: u8) -> u8
    ensures { result ≡ immediate_width_of operation }
{
    number_size(operation, IMMEDIATE) * 8
}

// The least bytes after the code: none of an inherent row, two of a long branch, and one of any other.
#[tactic(auto, unfolding(crate::specs::Quick::operand_bytes, ground::specs::Choice::pick))]
fn operand_bytes(operation: u8) -> u8
    ensures { result ≡ operand_bytes operation }
{
    let on_register = (16 <= operation) & (operation <= 47);
    let alone = (operation == 120) | ((123 <= operation) & (operation <= 132));
    let long = (96 <= operation) & (operation <= 112);
    if on_register | alone {
        return 0;
    }
    if long {
        return 2;
    }
    1
}

// Whether an operation that is known and no alias has a form: if the form has bytes for it, or for an inherent row none. What has a direct form has an
// indexed one; LEAX to LEAU, 142 and up, are indexed only.
#[tactic(auto, unfolding(crate::specs::Quick::formed_of, ground::specs::Choice::pick))]
pub(crate) fn is_formed(operation: u8, form: u8) -> bool
    ensures { result ≡ formed_of operation form }
{
    let told = number_digit(operation);
    match form {
        INHERENT => operand_bytes(operation) == 0,
        INDEXED => (told / 4 == 1) | (142 <= operation),
        REGISTER => (136 <= operation) & (operation <= 141),
        _ => number_bytes(told, form) != 0,
    }
}

#[tactic(auto, using(crate::proofs::Bytes::operand_small), unfolding(crate::specs::Quick::row_bytes, ground::specs::Choice::pick))]
fn row_bytes(operation: u8) -> u8
    ensures { result ≡ row_bytes operation }
{
    let operand = operand_bytes(operation);
    if page_of(operation) == 0x00 {
        return 1 + operand;
    }
    2 + operand
}

// The least bytes of an operation over all its forms, and 0 of an unknown one.
#[tactic(auto, using(crate::proofs::Bytes::size_quick), unfolding(ground::specs::Choice::pick))]
pub fn smallest_size(operation: u8) -> u8
    ensures { result ≡ smallest_size_of operation }
{
    if known(operation) {
        return row_bytes(merged(operation));
    }
    0
}

// The long branch of a short one; any other operation is itself. Aliases are merged.
#[tactic(auto, unfolding(crate::specs::Sizes::long_from, crate::specs::Sizes::long_of, ground::specs::Choice::pick))]
pub fn long_of(operation: u8) -> u8
    ensures { result ≡ long_of operation }
{
    let name = merged(operation);
    match name {
        80..=95 => name + 16,
        113 => 112,
        _ => name,
    }
}
