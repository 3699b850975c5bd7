// A lent list of statements, 20 numbers to a row, and the lent items.
ghost use Rattle.std.specs.Prelude.{◌≡◌};
ghost use Rattle.statements.specs.Listing.{rows_of, number_at, item_at, statement_of, statement_at, label_at, entry_in, entry_at, items_of, overfull_at, object_of};

use crate::{Entry, Statement};
use entries::{byte_in, operand_of};
use ground::tables::cell_or;

// No label, no operand, a hole among values: a number and no Option, as the rows have it (docs/ROWS.md).
pub const NONE: u16 = 65535;

const WIDTH: usize = 20;

const MOST_ITEMS: u16 = 256;

// The places of a row: numbers, since all of it is numbers (docs/ROWS.md).
const KIND: u8 = 0;

const LABEL: u8 = 1;

const NODE: u8 = 2;

const FIRST: u8 = 3;

const COUNT: u8 = 4;

// The operand of an instruction stands from here to the row's end.
const OPERAND: usize = 5;

// How many statements a list has. Numbers left over are no row.
pub fn rows_of(list: &[u16]) -> usize
    ensures { result ≡ rows_of list.now }
{
    list.len() / WIDTH
}

// A number of a row. A row that is not there has 65535 in every place.
#[tactic(auto, unfolding(crate::specs::Listing::number_at, ground::specs::Choice::pick))]
fn number(list: &[u16], i: usize, place: u8) -> u16
    ensures { result ≡ number_at list.now i place }
{
    if i < rows_of(list) {
        return cell_or(list, i * WIDTH + place as usize, 0);
    }
    NONE
}

// An item. Past the end of the table stands a hole.
pub(crate) fn item(items: &[u16], at: usize) -> u16
    ensures { result ≡ item_at items.now at }
{
    cell_or(items, at, NONE)
}

// "An enum of statement kinds, arrays beside it": the kinds by number, since a row may hold anything (docs/ROWS.md).
#[tactic(auto, unfolding(crate::specs::Listing::statement_of, ground::specs::Choice::pick))]
fn statement(kind: u16, node: u16, first: u16, count: u16) -> Statement
    ensures { result ≡ statement_of kind node first count }
{
    match kind {
        0 => Statement::Label,
        1 => Statement::Instruction { node },
        2 => Statement::Rmb { node },
        3 => Statement::Fcb { first, count },
        4 => Statement::Fdb { first, count },
        5 => Statement::Fcc { first, count },
        6 => Statement::Org { node },
        7 => Statement::Setdp { number: node },
        _ => Statement::Unknown,
    }
}

// What row i of a list is.
#[tactic(auto, unfolding(crate::specs::Listing::statement_at))]
pub fn statement_at(list: &[u16], i: usize) -> Statement
    ensures { result ≡ statement_at list.now i }
{
    let kind = number(list, i, KIND);
    let node = number(list, i, NODE);
    let first = number(list, i, FIRST);
    let count = number(list, i, COUNT);
    statement(kind, node, first, count)
}

// The number of the label that row i bears, 65535 for none.
pub fn label_at(list: &[u16], i: usize) -> u16
    ensures { result ≡ label_at list.now i }
{
    number(list, i, LABEL)
}

#[tactic(auto, unfolding(crate::specs::Listing::entry_in))]
fn entry(row: &[u16]) -> Entry
    ensures { result ≡ entry_in row.now }
{
    let operand = operand_of(row);
    Entry {
        operation: byte_in(row, 0),
        operand,
    }
}

// The operand of row i, and the number of its operation.
pub fn operand_at(list: &[u16], i: usize) -> Entry
    ensures { result ≡ entry_at list.now i }
{
    if i < rows_of(list) {
        return entry(&list[i * WIDTH + OPERAND..]);
    }
    entry(&list[..0])
}

fn items_of(statement: Statement) -> u16
    ensures { result ≡ items_of statement }
{
    match statement {
        Statement::Label => 0,
        Statement::Instruction { node: _ } => 0,
        Statement::Rmb { node: _ } => 0,
        Statement::Fcb { first: _, count } => count,
        Statement::Fdb { first: _, count } => count,
        Statement::Fcc { first: _, count } => count,
        Statement::Org { node: _ } => 0,
        Statement::Setdp { number: _ } => 0,
        Statement::Unknown => 0,
    }
}

// Row i lists more values or characters than 01 allows.
#[tactic(auto, unfolding(crate::specs::Listing::overfull_at))]
pub fn overfull(list: &[u16], i: usize) -> bool
    ensures { result ≡ overfull_at list.now i }
{
    let statement = statement_at(list, i);
    MOST_ITEMS < items_of(statement)
}

// The kind of the object of a statement: 0 without data, 1 with data, 65535 where it has no object. A number, as the writer's rows have it (docs/ROWS.md).
pub fn object_kind(statement: Statement) -> u16
    ensures { result ≡ object_of statement }
{
    match statement {
        Statement::Label => NONE,
        Statement::Instruction { node: _ } => 1,
        Statement::Rmb { node: _ } => 0,
        Statement::Fcb { first: _, count: _ } => 1,
        Statement::Fdb { first: _, count: _ } => 1,
        Statement::Fcc { first: _, count: _ } => 1,
        Statement::Org { node: _ } => 0,
        Statement::Setdp { number: _ } => NONE,
        Statement::Unknown => NONE,
    }
}
