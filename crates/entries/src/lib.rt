// Operand records and kept instructions as rows of numbers, as lent tables hold them (docs/ROWS.md). Anything may be wrong in a row: it is read whole,
// and what is unknown in it stays unknown.
#![tactic(auto)]

ghost use Rattle.std.specs.Prelude.{◌≡◌, ◌≤◌, ltb, length};
ghost use Rattle.ground.specs.Choice.{pick};
ghost use Rattle.entries.specs.Entries.{nowhere, byte_in, is_flag, flag_in, is_page_in, page_in, flagged_in, cells_of, registers_in, told_in, operand_of, kept_flagged, kept_of, values_in, entry_of};

use ground::tables::cell_or;
use instruction::{Instruction, Operand, Record, Values};
use values::Value;
use values::pages::{Page, is_page};

// No operation, mode, register, step or width has this number, and no list so many registers.
const NOWHERE: u8 = 255;

// A number of 8 bits; one that does not fit is unknown.
#[tactic(auto, unfolding(ground::specs::Choice::pick))]
fn narrow(n: u16) -> u8
    ensures { result ≡ pick (ltb n 256) n nowhere }
{
    u8::try_from(n).unwrap_or(NOWHERE)
}

// The number of 8 bits in a cell.
pub fn byte_in(row: &[u16], at: usize) -> u8
    ensures { result ≡ byte_in row.now at }
{
    narrow(cell_or(row, at, 0))
}

// A cell holds a flag: 0 or 1.
pub fn is_flag(row: &[u16], at: usize) -> bool
    ensures { result ≡ is_flag row.now at }
{
    cell_or(row, at, 0) <= 1
}

pub fn flag_in(row: &[u16], at: usize) -> bool
    ensures { result ≡ flag_in row.now at }
{
    cell_or(row, at, 0) == 1
}

// A cell holds a page: 0 to 255, or 256 for unknown.
pub fn is_page_in(row: &[u16], at: usize) -> bool
    ensures { result ≡ is_page_in row.now at }
{
    is_page(cell_or(row, at, 0))
}

pub fn page_in(row: &[u16], at: usize) -> Page
    ensures { result ≡ page_in row.now at }
{
    Page::numbered(cell_or(row, at, 0))
}

// The cells of a row that may be shorter than a record.
fn padded(row: &[u16]) -> [u16; 21]
    ensures { result ≡ cells_of row.now }
{
    [
        cell_or(row, 0, 0),
        cell_or(row, 1, 0),
        cell_or(row, 2, 0),
        cell_or(row, 3, 0),
        cell_or(row, 4, 0),
        cell_or(row, 5, 0),
        cell_or(row, 6, 0),
        cell_or(row, 7, 0),
        cell_or(row, 8, 0),
        cell_or(row, 9, 0),
        cell_or(row, 10, 0),
        cell_or(row, 11, 0),
        cell_or(row, 12, 0),
        cell_or(row, 13, 0),
        cell_or(row, 14, 0),
        cell_or(row, 15, 0),
        cell_or(row, 16, 0),
        cell_or(row, 17, 0),
        cell_or(row, 18, 0),
        cell_or(row, 19, 0),
        cell_or(row, 20, 0),
    ]
}

fn registers_in(row: &[u16]) -> [u8; 8]
    requires { 15 ≤ length row.now }
    ensures { result ≡ registers_in row.now }
{
    [
        narrow(row[7]),
        narrow(row[8]),
        narrow(row[9]),
        narrow(row[10]),
        narrow(row[11]),
        narrow(row[12]),
        narrow(row[13]),
        narrow(row[14]),
    ]
}

// Each flag of the operand is 0 or 1.
fn flagged(row: &[u16]) -> bool
    requires { 15 ≤ length row.now }
    ensures { result ≡ flagged_in row.now }
{
    (row[2] <= 1) & ((row[3] <= 1) & (row[5] <= 1))
}

// The operation of a row, if each of its flags is one; else none that is known.
fn operation_in(row: &[u16], flags: bool) -> u8
    requires { 15 ≤ length row.now }
    ensures { result ≡ pick flags (byte_in row.now 0) nowhere }
{
    if flags { narrow(row[0]) } else { NOWHERE }
}

// The operand of a row that is long enough, so that no cell asks for the length; it has no known operation unless each flag of its row is one.
fn told(row: &[u16], flags: bool) -> Operand
    requires { 15 ≤ length row.now }
    ensures { result ≡ told_in flags row.now }
{
    let operation = operation_in(row, flags);
    let mode = narrow(row[1]);
    let indirect = row[2] == 1;
    let forced = row[3] == 1;
    let step = narrow(row[4]);
    let widening = row[5] == 1;
    let count = narrow(row[6]);
    let registers = registers_in(row);
    Operand {
        operation,
        mode,
        indirect,
        forced,
        registers,
        count,
        step,
        widening,
    }
}

// The operand at the front of a row that is long enough.
fn operand_in(row: &[u16]) -> Operand
    requires { 15 ≤ length row.now }
    ensures { result ≡ operand_of row.now }
{
    told(row, flagged(row))
}

// The operand at the front of a row: 15 numbers.
pub fn operand_of(row: &[u16]) -> Operand
    ensures { result ≡ operand_of row.now }
{
    if 15 <= row.len() {
        return operand_in(row);
    }
    let whole = padded(row);
    operand_in(&whole)
}

// Each flag of the kept instruction is 0 or 1, its two marks too.
fn kept_flagged(row: &[u16]) -> bool
    requires { 18 ≤ length row.now }
    ensures { result ≡ kept_flagged row.now }
{
    if 1 < row[16] {
        return false;
    }
    if 1 < row[17] {
        return false;
    }
    flagged(row)
}

// The kept instruction in a row that is long enough.
fn kept_in(row: &[u16]) -> Instruction
    requires { 18 ≤ length row.now }
    ensures { result ≡ kept_of row.now }
{
    let operand = told(row, kept_flagged(row));
    let form = narrow(row[15]);
    let trial = row[16] == 1;
    let widened = row[17] == 1;
    Instruction {
        operand,
        form,
        trial,
        widened,
    }
}

// The kept instruction in a row: 18 numbers.
pub fn kept_of(row: &[u16]) -> Instruction
    ensures { result ≡ kept_of row.now }
{
    if 18 <= row.len() {
        return kept_in(row);
    }
    let whole = padded(row);
    kept_in(&whole)
}

fn values_in(row: &[u16]) -> Values
    requires { 21 ≤ length row.now }
    ensures { result ≡ values_in row.now }
{
    let unsigned = Value {
        number: row[17],
        width: narrow(row[18]),
    };
    let signed = Value {
        number: row[19],
        width: narrow(row[20]),
    };
    Values {
        given: row[16] == 1,
        unsigned,
        signed,
    }
}

// The record in a row that is long enough.
fn entry_in(row: &[u16]) -> Record
    requires { 21 ≤ length row.now }
    ensures { result ≡ entry_of row.now }
{
    let flags = flagged(row) & (is_page(row[15]) & (row[16] <= 1));
    let operand = told(row, flags);
    let page = Page::numbered(row[15]);
    let values = values_in(row);
    Record {
        operand,
        page,
        values,
    }
}

// The operand record in a row: 21 numbers.
pub fn entry_of(row: &[u16]) -> Record
    ensures { result ≡ entry_of row.now }
{
    if 21 <= row.len() {
        return entry_in(row);
    }
    let whole = padded(row);
    entry_in(&whole)
}
