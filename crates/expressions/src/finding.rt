// What a node or a label is worth: its number, or a refusal. A node asks nodes and labels, a label asks its node, and the depth left falls from 32.
ghost use Rattle.std.specs.Prelude.{◌≡◌};
ghost use Rattle.expressions.specs.Finding.{times, joined, row_at, label_row, node_value, label_value, deepest};
ghost use Rattle.expressions.specs.Steps.{operation_of, is_deep};

use ground::refusals::Refusal;
use ground::words::{add, sub};

const DEEPEST: u32 = 32;

const LAST_LABEL: u16 = 511;

// The first number of a node's row: what the node is. A number and no enum: a row may hold anything (docs/ROWS.md).
const CONSTANT: u16 = 0;

const LABEL: u16 = 1;

const LOCATION: u16 = 2;

const NEGATION: u16 = 3;

const SUM: u16 = 4;

const DIFFERENCE: u16 = 5;

const PRODUCT: u16 = 6;

const NO_KIND: u16 = 7;

// The first number of a label's row: how the label is defined, a number as well.
const UNDEFINED: u16 = 0;

pub const BY_ADDRESS: u16 = 1;

pub const BY_EXPRESSION: u16 = 2;

// A number, and whether a location or an address label was reached.
#[derive(Clone, Copy)]
pub struct Found {
    pub number: u16,
    pub wide: bool,
}

#[derive(Clone, Copy)]
struct Row {
    first: u16,
    second: u16,
    third: u16,
}

// What a node is worth at a location.
pub fn node(nodes: &[u16], labels: &[u16], number: u16, location: u16) -> Result<Found, Refusal>
    ensures { result ≡ node_value deepest nodes.now labels.now number location }
{
    node_value(nodes, labels, DEEPEST, number, location)
}

// What a label is worth. Asking it from outside counts nothing.
pub fn label(nodes: &[u16], labels: &[u16], number: u16) -> Result<Found, Refusal>
    ensures { result ≡ label_value deepest nodes.now labels.now number }
{
    label_value(nodes, labels, DEEPEST, number)
}

// A node counts one, and so does its step to a label. Once a part gave 11 the other is not asked.
#[cycle(label_value_node_value)]
fn node_value(
    nodes: &[u16],
    labels: &[u16],
    left: u32,
    number: u16,
    location: u16,
) -> Result<Found, Refusal>
    ensures { result ≡ node_value left nodes.now labels.now number location }
{
    if left == 0 {
        return Err(Refusal::TooDeep);
    }
    let less = left - 1;
    let row = row_at(nodes, number, NO_KIND);
    let kind = row.first;
    match kind {
        CONSTANT => Ok(Found {
            number: row.second,
            wide: false,
        }),
        LABEL => {
            if less == 0 {
                return Err(Refusal::TooDeep);
            }
            label_value(nodes, labels, less - 1, row.second)
        }
        LOCATION => Ok(Found {
            number: location,
            wide: true,
        }),
        NEGATION => {
            let part = node_value(nodes, labels, less, row.second, location)?;
            Ok(Found {
                number: sub(0, part.number),
                wide: part.wide,
            })
        }
        SUM | DIFFERENCE | PRODUCT => {
            let a = node_value(nodes, labels, less, row.second, location);
            if is_deep(a) {
                return a;
            }
            combined(
                kind,
                a,
                node_value(nodes, labels, less, row.third, location),
            )
        }
        _ => Err(Refusal::TooDeep),
    }
}

// A label's step to its node counts one. The node is asked at the label's own address.
#[cycle(label_value_node_value)]
fn label_value(nodes: &[u16], labels: &[u16], left: u32, number: u16) -> Result<Found, Refusal>
    ensures { result ≡ label_value left nodes.now labels.now number }
{
    let row = label_row(labels, number);
    let state = row.first;
    match state {
        BY_ADDRESS => Ok(Found {
            number: row.second,
            wide: true,
        }),
        BY_EXPRESSION => {
            if left == 0 {
                return Err(Refusal::TooDeep);
            }
            node_value(nodes, labels, left - 1, row.third, row.second)
        }
        _ => Err(Refusal::BadLabel),
    }
}

// Whether it is refused 11, which comes before 10 wherever it stands.
fn is_deep(found: Result<Found, Refusal>) -> bool
    ensures { result ≡ is_deep found }
{
    matches!(found, Err(Refusal::TooDeep))
}

// A node of two parts.
fn combined(
    kind: u16,
    a: Result<Found, Refusal>,
    b: Result<Found, Refusal>,
) -> Result<Found, Refusal>
    ensures { result ≡ joined (operation_of kind) a b }
{
    if is_deep(b) {
        return b;
    }
    let a = a?;
    let b = b?;
    Ok(Found {
        number: computed(kind, a.number, b.number),
        wide: a.wide | b.wide,
    })
}

#[tactic(auto, unfolding(crate::specs::Steps::operation_of, ground::specs::Choice::pick))]
fn computed(kind: u16, a: u16, b: u16) -> u16
    ensures { result ≡ operation_of kind a b }
{
    match kind {
        SUM => add(a, b),
        PRODUCT => mul(a, b),
        _ => sub(a, b),
    }
}

fn mul(a: u16, b: u16) -> u16
    ensures { result ≡ times a b }
{
    a.wrapping_mul(b)
}

// Three numbers of a table; where they are not all there, the first is as `missing` says.
#[tactic(auto, unfolding(crate::specs::Finding::row_at, ground::specs::Choice::pick))]
fn row_at(table: &[u16], number: u16, missing: u16) -> Row
    ensures { result ≡ row_at missing table.now number }
{
    let at = (number as usize) * 3;
    if table.len() < at + 3 {
        return Row {
            first: missing,
            second: 0,
            third: 0,
        };
    }
    Row {
        first: table[at],
        second: table[at + 1],
        third: table[at + 2],
    }
}

#[tactic(auto, unfolding(crate::specs::Finding::label_row, ground::specs::Choice::pick))]
fn label_row(labels: &[u16], number: u16) -> Row
    ensures { result ≡ label_row labels.now number }
{
    if LAST_LABEL < number {
        return Row {
            first: UNDEFINED,
            second: 0,
            third: 0,
        };
    }
    row_at(labels, number, UNDEFINED)
}
