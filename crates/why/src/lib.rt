// Why an instruction is as long as it is, or which field of its record refused it (02 a).
#![tactic(auto)]

mod fields;
mod reasons;

ghost use Rattle.std.specs.Prelude.{◌≡◌};
ghost use Rattle.why.specs.Numbers.{field_number, parts, parts_of};
ghost use Rattle.why.specs.Explaining.{reason_as, explained_of};

use entries::entry_of;
use fields::field_of;
use ground::refusals::Refusal;
use instruction::{Built, assemble};
use reasons::reason_for;

// The field of a record that a refusal is about, in the order of its row (docs/ROWS.md).
#[derive(Clone, Copy)]
pub enum Field {
    Operation,
    Mode,
    Indirect,
    Forced,
    Step,
    Widening,
    Registers,
    Page,
    Values,
}

// Why a fresh instruction has its length, or what refused it.
#[derive(Clone, Copy)]
pub enum Reason {
    // Nothing was to be decided: neither an address, a branch, a PCRelative operand nor a constant offset.
    Plain,
    // An address in mode Extended, not indirect: which of 02 a's facts hold.
    Address {
        forced: bool,
        unknown: bool,
        elsewhere: bool,
    },
    // A branch: the distance from the end of the record's own operation, modulo 65536, and whether it lies in -128..127.
    Branch {
        distance: u16,
        near: bool,
    },
    // A PCRelative operand: the distance from the end of the one-byte form.
    PcRelative {
        distance: u16,
        near: bool,
    },
    // A constant offset: its number, sign-extended, and the bits that hold it: none for zero, five in the postbyte, or the width of the bytes after it.
    Offset {
        number: u16,
        bits: u8,
    },
    Refused {
        field: Field,
    },
}

// What a fresh build answers, and why.
#[derive(Clone, Copy)]
pub struct Explained {
    pub built: Result<Built, Refusal>,
    pub reason: Reason,
}

// A reason by its number, and its values one by one: 0 and false where the reason has none.
#[derive(Clone, Copy)]
pub struct Parts {
    pub kind: u8,
    pub forced: bool,
    pub unknown: bool,
    pub elsewhere: bool,
    pub number: u16,
    pub near: bool,
    pub bits: u8,
    pub field: u8,
}

// A reason's number and its values; no field.
fn made(
    kind: u8,
    forced: bool,
    unknown: bool,
    elsewhere: bool,
    number: u16,
    near: bool,
    bits: u8,
    field: u8,
) -> Parts
    ensures { result ≡ parts kind forced unknown elsewhere number near bits field }
{
    Parts {
        kind,
        forced,
        unknown,
        elsewhere,
        number,
        near,
        bits,
        field,
    }
}

impl Field {
    // Its number in docs/ROWS.md; 0 is no field.
    pub fn number(self) -> u8
        ensures { result ≡ field_number self }
    {
        match self {
            Field::Operation => 1,
            Field::Mode => 2,
            Field::Indirect => 3,
            Field::Forced => 4,
            Field::Step => 5,
            Field::Widening => 6,
            Field::Registers => 7,
            Field::Page => 8,
            Field::Values => 9,
        }
    }
}

impl Reason {
    pub fn in_parts(self) -> Parts
        ensures { result ≡ parts_of self }
    {
        match self {
            Reason::Plain => made(0, false, false, false, 0, false, 0, 0),
            Reason::Address {
                forced,
                unknown,
                elsewhere,
            } => made(1, forced, unknown, elsewhere, 0, false, 0, 0),
            Reason::Branch { distance, near } => made(2, false, false, false, distance, near, 0, 0),
            Reason::PcRelative { distance, near } => made(
                3, false, false, false, distance, near, 0, 0,
            ),
            Reason::Offset { number, bits } => made(4, false, false, false, number, false, bits, 0),
            Reason::Refused { field } => made(5, false, false, false, 0, false, 0, field.number()),
        }
    }
}

// Of an accepted build its record's reason, of a refused one its field.
fn reason_as(row: &[u16], built: Result<Built, Refusal>, address: u16) -> Reason
    ensures { result ≡ reason_as row.now built address }
{
    match built {
        Ok(_) => reason_for(entry_of(row), address),
        Err(refusal) => {
            let field = field_of(row, refusal);
            Reason::Refused { field }
        }
    }
}

// A record's row and an address: what the fresh build answers, and why. It makes the build itself, so that the two cannot part. It takes the row, and not the record
// read from it: which flag or page of a row was none is seen there alone.
pub fn explain(row: &[u16], address: u16) -> Explained
    ensures { result ≡ explained_of row.now address }
{
    let built = assemble(entry_of(row), address);
    let reason = reason_as(row, built, address);
    Explained { built, reason }
}
