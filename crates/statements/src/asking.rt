// What a statement asks of its nodes.
ghost use Rattle.std.specs.Prelude.{◌≡◌};
ghost use Rattle.statements.specs.Order.{earliest};
ghost use Rattle.statements.specs.Asking.{asked_of, wanted_of, byte_of, word_of, character_of, datum_of, answers_from, refusals_in};

use crate::Datum;
use crate::listing::{NONE, item};
use crate::order::earlier;
use expressions::{evaluate, evaluate_pair};
use ground::refusals::Refusal;
use instruction::Values;
use values::Value;

// Both values of an instruction's operand, where it has one.
#[tactic(auto, unfolding(crate::specs::Asking::asked_of, instruction::specs::Building::no_values, ground::specs::Choice::pick))]
pub(crate) fn ask(nodes: &[u16], labels: &[u16], node: u16, here: u16) -> Result<Values, Refusal>
    ensures { result ≡ asked_of nodes.now labels.now node here }
{
    if node == NONE {
        let nothing = Value {
            number: 0,
            width: 0,
        };
        return Ok(Values {
            given: false,
            unsigned: nothing,
            signed: nothing,
        });
    }
    let both = evaluate_pair(nodes, labels, node, here)?;
    let unsigned = both.unsigned;
    let signed = both.signed;
    Ok(Values {
        given: true,
        unsigned,
        signed,
    })
}

// The unsigned value of a node that must be there.
#[tactic(auto, unfolding(crate::specs::Asking::wanted_of, ground::specs::Choice::pick))]
pub(crate) fn want(nodes: &[u16], labels: &[u16], node: u16, here: u16) -> Result<Value, Refusal>
    ensures { result ≡ wanted_of nodes.now labels.now node here }
{
    if node == NONE {
        return Err(Refusal::ValueMissing);
    }
    evaluate(nodes, labels, node, here, false)
}

// FCB takes 8 bits.
#[tactic(auto, unfolding(ground::specs::Choice::pick))]
fn byte(answer: Result<Value, Refusal>) -> Result<Value, Refusal>
    ensures { result ≡ byte_of answer }
{
    let value = answer?;
    if value.width == 8 {
        return answer;
    }
    Err(Refusal::BadWidth)
}

// FDB has 16 bits, the high byte zero where there were 8.
fn word(answer: Result<Value, Refusal>) -> Result<Value, Refusal>
    ensures { result ≡ word_of answer }
{
    let narrow = answer?;
    Ok(narrow.widened())
}

#[tactic(auto, unfolding(crate::specs::Asking::character_of, ground::specs::Choice::pick))]
fn character(number: u16) -> Result<Value, Refusal>
    ensures { result ≡ character_of number }
{
    if number < 256 {
        return Ok(Value { number, width: 8 });
    }
    Err(Refusal::Unknown)
}

// What one item of a statement stands for. Compiled into its two callers, of which one asks for the refusal alone.
#[inline(always)]
pub(crate) fn datum(
    datum: Datum,
    nodes: &[u16],
    labels: &[u16],
    here: u16,
    item: u16,
) -> Result<Value, Refusal>
    ensures { result ≡ datum_of datum nodes.now labels.now here item }
{
    match datum {
        Datum::Byte => byte(want(nodes, labels, item, here)),
        Datum::Word => word(want(nodes, labels, item, here)),
        Datum::Character => character(item),
    }
}

// The earliest refusal, by 01's order, of the items from a place on. They are asked from the last to the first.
pub(crate) fn refusal_among(
    kind: Datum,
    items: &[u16],
    nodes: &[u16],
    labels: &[u16],
    here: u16,
    first: u16,
    count: u16,
) -> Option<Refusal>
    ensures { result ≡ earliest (refusals_in (answers_from kind items.now nodes.now labels.now here first count)) }
{
    let mut why = None;
    for k in (0..count).rev() {
        let number = item(items, first as usize + k as usize);
        let answer = datum(kind, nodes, labels, here, number);
        why = earlier(answer.err(), why);
    }
    why
}
