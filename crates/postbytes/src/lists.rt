// Register postbytes: the push byte of PSHS, PULS, PSHU and PULU, and the transfer byte of EXG and TFR, each written and read.
// A list of registers is the first `count` of eight; the other places count for nothing.
// Eight cells and a count, and no slice: a count over eight is a caller's too, and is told here as unknown (docs/ROWS.md).
ghost use Rattle.std.specs.Prelude.{◌≡◌, [], ◌∷◌, ◌/◌, ◌%◌, ◌^◌, ◌<◌, eqb, take};
ghost use Rattle.ground.specs.Choice.{pick};
ghost use Rattle.postbytes.specs.Lists.{among, any_unknown, strange_list, covers, other_of, boxes, size_of};
ghost use Rattle.postbytes.specs.ListsWritten.{ticks_of_set, push_of, code_of, paired_of};
ghost use Rattle.postbytes.specs.ListsRead.{registers_of, pair_of};
ghost use Rattle.postbytes.specs.Meanings.{set_of};

use crate::Pair;
use crate::numbers::{A, B, CC, D, DP, PC, S, U, X, Y};
use ground::refusals::Refusal;

// Some register of the list has a number that no register has.
fn any_unknown(registers: &[u8]) -> bool
    ensures { result ≡ any_unknown registers.now }
{
    registers.iter().any(|register| 10 <= *register)
}

// More than eight registers are named, or an unknown one.
#[tactic(auto, unfolding(crate::specs::Lists::strange_list))]
pub fn strange(registers: [u8; 8], count: u8) -> bool
    ensures { result ≡ strange_list registers count }
{
    8 < count || any_unknown(&registers[..count as usize])
}

// Naming a register puts another in the list: itself, and D both A and B.
fn covers(register: u8, named: u8) -> bool
    ensures { result ≡ covers register named }
{
    (named == register) | ((named == D) & ((register == A) | (register == B)))
}

// A register is in the list. There are no more than eight registers to be named.
pub fn among(register: u8, registers: [u8; 8], count: u8) -> bool
    ensures { result ≡ among register (take count registers) }
{
    let named = &registers[..(count as usize).min(8)];
    named.iter().any(|name| covers(register, *name))
}

// A register as a set: bit n for register n. D is A with B, and has no bit of its own.
fn named(register: u8) -> u16
    ensures { result ≡ set_of (register ∷ []) }
{
    if register == D {
        return (1 << A) | (1 << B);
    }
    if register < 10 { 1 << register } else { 0 }
}

// The registers of a list, as a set. Each is looked at once: a set has no order and holds nothing twice.
pub fn set_of(registers: [u8; 8], count: u8) -> u16
    ensures { result ≡ set_of (take count registers) }
{
    let mut set = 0;
    for register in &registers[..(count as usize).min(8)] {
        set |= named(*register);
    }
    set
}

// The box of the other stack's pointer: U of PSHS and PULS, S of PSHU and PULU.
#[tactic(auto, unfolding(crate::specs::Lists::other_of, ground::specs::Choice::pick))]
fn u_or_s(own: u8) -> u8
    ensures { result ≡ other_of own }
{
    if own == U { S } else { U }
}

// The sheet's push byte is a row of eight boxes, bit 7 to bit 0:
//
//     PSHS, PULS    | PC | U | Y | X | DP | B | A | CC |
//     PSHU, PULU    | PC | S | Y | X | DP | B | A | CC |
//
// A list is written and read by this row: the box at place i is bit 7 - i.
fn boxes(own: u8) -> [u8; 8]
    ensures { result ≡ boxes own }
{
    [PC, u_or_s(own), Y, X, DP, B, A, CC]
}

fn has(number: u16, bit: u8) -> bool
    requires { bit < 16 }
    ensures { result ≡ eqb (number / 2 ^ bit % 2) 1 }
{
    (number >> bit) % 2 == 1
}

// A bit of one number as a bit of another: a register's in a set, and its box's in a push byte.
#[tactic(auto, unfolding(ground::specs::Choice::pick))]
fn moved(number: u16, from: u8, to: u8) -> u16
    requires { (from < 16) × (to < 16) }
    ensures { result ≡ pick (eqb (number / 2 ^ from % 2) 1) (2 ^ to) 0 }
{
    if has(number, from) { 1 << to } else { 0 }
}

// The boxes of a set's registers, ticked. The place is counted: it is the box's bit.
fn push_byte(own: u8, set: u16) -> u8
    ensures { result ≡ ticks_of_set (boxes own) set }
{
    let row = boxes(own);
    let mut byte: u16 = 0;
    for i in 0..8u8 {
        byte += moved(set, row[i as usize], 7 - i);
    }
    byte as u8
}

// The registers whose boxes are ticked in a push byte, as a set.
pub fn registers_of(own: u8, byte: u8) -> u16
    ensures { result ≡ registers_of own byte }
{
    let row = boxes(own);
    let mut set: u16 = 0;
    for i in 0..8u8 {
        set += moved(byte as u16, 7 - i, row[i as usize]);
    }
    set
}

// The push byte of PSHS and PULS, whose own pointer is S, or of PSHU and PULU, whose own is U.
#[tactic(auto, unfolding(crate::specs::ListsWritten::push_of, ground::specs::Choice::pick))]
pub fn push(own: u8, registers: [u8; 8], count: u8) -> Result<u8, Refusal>
    ensures { result ≡ push_of own registers count }
{
    let bad = !((own == S) | (own == U)) | strange(registers, count);
    if bad {
        return Err(Refusal::Unknown);
    }
    let set = set_of(registers, count);
    let barred = (count == 0) | has(set, own);
    if barred {
        return Err(Refusal::BadRegister);
    }
    Ok(push_byte(own, set))
}

// The sheet's transfer codes of A, B, D, X, Y, U, S, PC, CC, DP.
const CODES: [u8; 10] = [0x8, 0x9, 0x0, 0x1, 0x2, 0x3, 0x4, 0x5, 0xA, 0xB];

#[tactic(auto, unfolding(crate::specs::ListsWritten::code_of))]
fn code(register: u8) -> u8
    ensures is { result ≡ code_of register }
    ensures most { result < 16 }
{
    CODES.get(register as usize).copied().unwrap_or(0)
}

#[tactic(auto, unfolding(crate::specs::Lists::size_of, ground::specs::Choice::pick))]
fn size(register: u8) -> u8
    ensures { result ≡ size_of register }
{
    if (D..=PC).contains(&register) { 16 } else { 8 }
}

// The transfer byte of EXG and TFR: the first register is the source, the second the destination.
#[tactic(auto, unfolding(crate::specs::ListsWritten::paired_of, ground::specs::Choice::pick))]
pub fn pair(registers: [u8; 8], count: u8) -> Result<u8, Refusal>
    ensures { result ≡ paired_of registers count }
{
    if strange(registers, count) {
        return Err(Refusal::Unknown);
    }
    let source = registers[0];
    let destination = registers[1];
    let barred = (count != 2) | (size(source) != size(destination));
    if barred {
        return Err(Refusal::BadRegister);
    }
    Ok(code(source) * 16 + code(destination))
}

// The registers of the transfer codes, 0 to F.
const CODED: [Option<u8>; 16] = [
    Some(D),
    Some(X),
    Some(Y),
    Some(U),
    Some(S),
    Some(PC),
    None,
    None,
    Some(A),
    Some(B),
    Some(CC),
    Some(DP),
    None,
    None,
    None,
    None,
];

// The registers that a transfer byte names.
#[tactic(auto, unfolding(crate::specs::ListsRead::pair_of, ground::specs::Choice::pick))]
pub fn pair_of(byte: u8) -> Result<Pair, Refusal>
    ensures { result ≡ pair_of byte }
{
    let source = CODED[(byte / 16) as usize].ok_or(Refusal::Undefined)?;
    let destination = CODED[(byte % 16) as usize].ok_or(Refusal::Undefined)?;
    if size(source) != size(destination) {
        return Err(Refusal::Undefined);
    }
    Ok(Pair {
        source,
        destination,
    })
}
