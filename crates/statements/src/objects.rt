// The values of a statement's object, stored as rows of number and width.
ghost use Rattle.std.specs.Prelude.{◌≡◌, [], ◌∷◌, ◌+◌, ◌≤◌, min, length, take};
ghost use Rattle.ground.specs.Stores.{put};
ghost use Rattle.instruction.specs.Building.{bytes_told};
ghost use Rattle.statements.specs.Asking.{asked_of, answers_from, rows_in};
ghost use Rattle.statements.specs.Effects.{built_of};
ghost use Rattle.records.specs.Objects.{byte_rows};
ghost use Rattle.statements.specs.Objects.{values_at, count_in};

use crate::asking::{ask, datum};
use crate::effects::built;
use crate::listing::{item, operand_at, statement_at};
use crate::{Datum, Entry, Statement};
use ground::buffers::store;
use values::Value;
use values::pages::Page;

// A row of two numbers. Its place is at most the values of one statement past the end, so that no sum overflows.
fn store_row(values: &mut [u16], at: usize, number: u16, width: u16)
    requires { at ≤ length values.old + 131072 }
    ensures { values.new ≡ put values.old at (number ∷ width ∷ []) }
{
    store(values, at, number);
    store(values, at + 1, width);
}

// An instruction's bytes, as values of 8 bits: five bytes and a length, as document 01 asks.
fn store_bytes(bytes: [u8; 5], count: u8, values: &mut [u16], place: usize)
    requires { (count ≤ 5) × (place ≤ length values.old) }
    ensures { values.new ≡ put values.old place (byte_rows (take count bytes)) }
{
    for k in 0..count as usize {
        store_row(values, place + 2 * k, bytes[k] as u16, 8);
    }
}

// The values of FCB, FDB or FCC.
fn store_data(
    kind: Datum,
    items: &[u16],
    nodes: &[u16],
    labels: &[u16],
    here: u16,
    first: u16,
    count: u16,
    values: &mut [u16],
    place: usize,
)
    requires { place ≤ length values.old }
    ensures { values.new ≡ put values.old place (rows_in (answers_from kind items.now nodes.now labels.now here first count)) }
{
    let nothing = Value {
        number: 0,
        width: 0,
    };
    for k in 0..count {
        let number = item(items, first as usize + k as usize);
        let answer = datum(kind, nodes, labels, here, number);
        let value = answer.unwrap_or(nothing);
        store_row(
            values,
            place + 2 * (k as usize),
            value.number,
            value.width as u16,
        );
    }
}

// The bytes of a fresh build, and how many there are.
fn store_instruction(
    entry: Entry,
    nodes: &[u16],
    labels: &[u16],
    node: u16,
    here: u16,
    page: Page,
    values: &mut [u16],
    place: usize,
) -> u16
    requires { place ≤ length values.old }
    ensures value { result ≡ count_in (byte_rows (bytes_told (built_of entry (asked_of nodes.now labels.now node here) page here))) }
    ensures values_after { values.new ≡ put values.old place (byte_rows (bytes_told (built_of entry (asked_of nodes.now labels.now node here) page here))) }
{
    let asked = ask(nodes, labels, node, here);
    match built(entry, asked, page, here) {
        Ok(built) => {
            let bytes = built.bytes;
            let count = built.length;
            store_bytes(bytes, count, values, place);
            count as u16
        }
        Err(_) => 0,
    }
}

// Stores the rows of the values of statement i from a place on, and answers how many values they are; what would stand past the end of the table is
// not stored. A refused statement has no object: what is stored of it stands for nothing.
pub fn store_values(
    list: &[u16],
    items: &[u16],
    nodes: &[u16],
    labels: &[u16],
    i: usize,
    here: u16,
    page: Page,
    values: &mut [u16],
    place: usize,
) -> u16
    ensures value { result ≡ count_in (values_at list.now items.now nodes.now labels.now i here page) }
    ensures values_after { values.new ≡ put values.old place (values_at list.now items.now nodes.now labels.now i here page) }
{
    let statement = statement_at(list, i);
    let at = within(place, values.len());
    match statement {
        Statement::Label => 0,
        Statement::Instruction { node } => {
            let entry = operand_at(list, i);
            store_instruction(entry, nodes, labels, node, here, page, values, at)
        }
        Statement::Rmb { node: _ } => 0,
        Statement::Fcb { first, count } => {
            let kind = Datum::Byte;
            store_data(kind, items, nodes, labels, here, first, count, values, at);
            count
        }
        Statement::Fdb { first, count } => {
            let kind = Datum::Word;
            store_data(kind, items, nodes, labels, here, first, count, values, at);
            count
        }
        Statement::Fcc { first, count } => {
            let kind = Datum::Character;
            store_data(kind, items, nodes, labels, here, first, count, values, at);
            count
        }
        Statement::Org { node: _ } => 0,
        Statement::Setdp { number: _ } => 0,
        Statement::Unknown => 0,
    }
}

// Past the end there is nothing to store, wherever that is.
fn within(place: usize, end: usize) -> usize
    ensures { result ≡ min place end }
{
    place.min(end)
}
