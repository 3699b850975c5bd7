// Expressions: a flat table of nodes and a table of labels, both lent, and the values that their numbers stand for.
#![tactic(auto)]

mod finding;
pub mod moving;

ghost use Rattle.std.specs.Prelude.{◌≡◌};
ghost use Rattle.expressions.specs.Answers.{too_many, evaluation, evaluations, node_answer, node_answers, label_answer};
ghost use Rattle.expressions.specs.Answers.{narrow_of, value_of};

use finding::Found;
use ground::refusals::Refusal;
use values::Value;

const MOST_NODES: usize = 1024;

// -128 in 16 bits.
const LEAST_BYTE: u16 = 65408;

// The two evaluations that an operand record holds.
#[derive(Clone, Copy)]
pub struct Evaluated {
    pub unsigned: Value,
    pub signed: Value,
}

// The table holds more nodes than 01 allows.
pub fn too_many_nodes(nodes: &[u16]) -> bool
    ensures { result ≡ too_many nodes.now }
{
    MOST_NODES < nodes.len() / 3
}

// The value of a node at a location: 17 first, then 11 before 10.
#[tactic(auto, unfolding(crate::specs::Answers::node_answer, ground::specs::Choice::pick))]
pub fn node_value(
    nodes: &[u16],
    labels: &[u16],
    node: u16,
    location: u16,
    signed: bool,
) -> Result<Value, Refusal>
    ensures { result ≡ node_answer nodes.now labels.now node location signed }
{
    if too_many_nodes(nodes) {
        return Err(Refusal::OverLimit);
    }
    evaluate(nodes, labels, node, location, signed)
}

// Both values of a node: 17 first, then 11 before 10.
#[tactic(auto, unfolding(crate::specs::Answers::node_answers, ground::specs::Choice::pick))]
pub fn node_pair(
    nodes: &[u16],
    labels: &[u16],
    node: u16,
    location: u16,
) -> Result<Evaluated, Refusal>
    ensures { result ≡ node_answers nodes.now labels.now node location }
{
    if too_many_nodes(nodes) {
        return Err(Refusal::OverLimit);
    }
    evaluate_pair(nodes, labels, node, location)
}

// The value of a label, as stored in its width: 17 first, then 11 before 10.
#[tactic(auto, unfolding(crate::specs::Answers::label_answer, ground::specs::Choice::pick))]
pub fn label_value(nodes: &[u16], labels: &[u16], label: u16) -> Result<Value, Refusal>
    ensures { result ≡ label_answer nodes.now labels.now label }
{
    if too_many_nodes(nodes) {
        return Err(Refusal::OverLimit);
    }
    let found = finding::label(nodes, labels, label)?;
    Ok(value_of(found, true))
}

// The value of a node at a location, whatever the size of the table.
#[tactic(auto, unfolding(crate::specs::Answers::evaluation))]
pub fn evaluate(
    nodes: &[u16],
    labels: &[u16],
    node: u16,
    location: u16,
    signed: bool,
) -> Result<Value, Refusal>
    ensures { result ≡ evaluation nodes.now labels.now node location signed }
{
    let found = finding::node(nodes, labels, node, location)?;
    Ok(value_of(found, signed))
}

// Both values of a node at a location, whatever the size of the table. The node is asked once.
#[tactic(auto, unfolding(crate::specs::Answers::evaluations))]
pub fn evaluate_pair(
    nodes: &[u16],
    labels: &[u16],
    node: u16,
    location: u16,
) -> Result<Evaluated, Refusal>
    ensures { result ≡ evaluations nodes.now labels.now node location }
{
    let found = finding::node(nodes, labels, node, location)?;
    let unsigned = value_of(found, false);
    let signed = value_of(found, true);
    Ok(Evaluated { unsigned, signed })
}

// The number in 8 bits where it is narrow and no address was reached, else in 16.
#[tactic(auto, unfolding(crate::specs::Answers::value_of, ground::specs::Choice::pick))]
fn value_of(found: Found, signed: bool) -> Value
    ensures { result ≡ value_of signed found }
{
    let number = found.number;
    if narrow(number, signed) & !found.wide {
        return Value {
            number: number % 256,
            width: 8,
        };
    }
    Value { number, width: 16 }
}

#[tactic(auto, unfolding(crate::specs::Answers::narrow_of))]
fn narrow(number: u16, signed: bool) -> bool
    ensures { result ≡ narrow_of signed number }
{
    if signed {
        return (number <= 127) | (LEAST_BYTE <= number);
    }
    number <= 255
}
