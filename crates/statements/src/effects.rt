// What a statement does at an address.
ghost use Rattle.std.specs.Prelude.{◌≡◌};
ghost use Rattle.ground.specs.Choice.{pick};
ghost use Rattle.statements.specs.declared.Turn.TheVariants.{Keeps, Forgets};
ghost use Rattle.statements.specs.Asking.{asked_of, answers_from};
ghost use Rattle.statements.specs.Effects.{counts, own_label, labelled, entry_refusal, built_of, made_of, instruction_effect, reserved_effect, origin_effect, setdp_effect, data_refusal, effect_at, counted_of};

use crate::asking::{ask, refusal_among, want};
use crate::listing::{operand_at, statement_at};
use crate::order::earlier;
use crate::{Datum, Effect, Entry, Statement, Turn};
use ground::refusals::Refusal;
use instruction::{Built, Record, Values, assemble};
use rows::sizes::smallest_size;
use values::Value;
use values::pages::Page;

// "Running to 65536 is allowed."
const LAST_END: u64 = 65536;

fn counts(refusal: Option<Refusal>, size: u32) -> Effect
    ensures { result ≡ counts refusal size }
{
    Effect {
        refusal,
        size,
        to: None,
        turn: Turn::Keeps,
    }
}

#[tactic(auto, unfolding(crate::specs::Effects::own_label, ground::specs::Choice::pick))]
fn own_label(ill: bool) -> Option<Refusal>
    ensures { result ≡ own_label ill }
{
    if ill { Some(Refusal::BadLabel) } else { None }
}

// An answer, beside the statement's own label.
#[tactic(auto, unfolding(crate::specs::Effects::labelled))]
fn labelled<T: Copy + Drop>(answer: Result<T, Refusal>, ill: bool) -> Result<T, Refusal>
    ensures { result ≡ labelled answer ill }
{
    match earlier(answer.err(), own_label(ill)) {
        None => answer,
        Some(why) => Err(why),
    }
}

// 1 and 2, before any value is evaluated.
#[tactic(auto, unfolding(crate::specs::Effects::entry_refusal))]
fn entry_refusal(entry: Entry) -> Option<Refusal>
    ensures { result ≡ entry_refusal entry }
{
    let operand = entry.operand;
    operand.refusal()
}

// The fresh build of an instruction. The page is the pass's.
pub(crate) fn built(
    entry: Entry,
    asked: Result<Values, Refusal>,
    page: Page,
    here: u16,
) -> Result<Built, Refusal>
    ensures { result ≡ built_of entry asked page here }
{
    let values = asked?;
    let operand = entry.operand;
    let record = Record {
        operand,
        page,
        values,
    };
    assemble(record, here)
}

// "1, 2, 11, 10, 3, .. 7, 6, 5, 4, 8".
#[tactic(auto, unfolding(crate::specs::Effects::made_of))]
fn made(
    entry: Entry,
    asked: Result<Values, Refusal>,
    ill: bool,
    page: Page,
    here: u16,
) -> Result<Built, Refusal>
    ensures { result ≡ made_of entry asked ill page here }
{
    if let Some(early) = entry_refusal(entry) {
        return Err(early);
    }
    built(entry, labelled(asked, ill), page, here)
}

// What an accepted instruction does to the page.
#[tactic(auto, unfolding(ground::specs::Choice::pick))]
fn turn_by(dirties: bool) -> Turn
    ensures { result ≡ pick dirties Forgets Keeps }
{
    if dirties { Turn::Forgets } else { Turn::Keeps }
}

fn instruction_effect(entry: Entry, made: Result<Built, Refusal>) -> Effect
    ensures { result ≡ instruction_effect entry made }
{
    match made {
        Ok(built) => {
            let turn = turn_by(built.dirties);
            Effect {
                refusal: None,
                size: built.length as u32,
                to: None,
                turn,
            }
        }
        Err(why) => counts(Some(why), smallest_size(entry.operation) as u32),
    }
}

fn instruction(
    entry: Entry,
    nodes: &[u16],
    labels: &[u16],
    node: u16,
    here: u16,
    page: Page,
    ill: bool,
) -> Effect
    ensures { result ≡ instruction_effect entry (made_of entry (asked_of nodes.now labels.now node here) ill page here) }
{
    let asked = ask(nodes, labels, node, here);
    instruction_effect(entry, made(entry, asked, ill, page, here))
}

fn reserved(answer: Result<Value, Refusal>) -> Effect
    ensures { result ≡ reserved_effect answer }
{
    match answer {
        Ok(value) => counts(None, value.number as u32),
        Err(why) => counts(Some(why), 0),
    }
}

fn origin(answer: Result<Value, Refusal>) -> Effect
    ensures { result ≡ origin_effect answer }
{
    match answer {
        Ok(value) => Effect {
            refusal: None,
            size: 0,
            to: Some(value.number),
            turn: Turn::Keeps,
        },
        Err(why) => counts(Some(why), 0),
    }
}

// "1 for another SETDP number", before the 10 of its label: refused, it sets nothing.
#[tactic(auto, unfolding(crate::specs::Effects::setdp_effect, ground::specs::Choice::pick))]
fn setdp(number: u16, ill: bool) -> Effect
    ensures { result ≡ setdp_effect number ill }
{
    if 255 < number {
        return counts(Some(Refusal::Unknown), 0);
    }
    if ill {
        return counts(Some(Refusal::BadLabel), 0);
    }
    let high = number as u8;
    let turn = Turn::Sets(high);
    Effect {
        refusal: None,
        size: 0,
        to: None,
        turn,
    }
}

// FCB, FDB and FCC count their full length, refused or not.
#[tactic(auto, unfolding(crate::specs::Effects::data_refusal))]
fn data(
    kind: Datum,
    items: &[u16],
    nodes: &[u16],
    labels: &[u16],
    here: u16,
    first: u16,
    count: u16,
    ill: bool,
    size: u32,
) -> Effect
    ensures { result ≡ counts (data_refusal (answers_from kind items.now nodes.now labels.now here first count) ill) size }
{
    let among = refusal_among(kind, items, nodes, labels, here, first, count);
    counts(earlier(own_label(ill), among), size)
}

// What statement i does at an address, under a page, with its own label ill (borne by an earlier statement, or above 511) or not. The lent tables stay
// parameters one by one, as the C interface lends them and as each definition names them.
#[tactic(auto, unfolding(crate::specs::Effects::effect_at))]
pub fn effect(
    list: &[u16],
    items: &[u16],
    nodes: &[u16],
    labels: &[u16],
    i: usize,
    here: u16,
    page: Page,
    ill: bool,
) -> Effect
    ensures { result ≡ effect_at list.now items.now nodes.now labels.now i here page ill }
{
    let statement = statement_at(list, i);
    match statement {
        Statement::Label => counts(own_label(ill), 0),
        Statement::Instruction { node } => {
            let entry = operand_at(list, i);
            instruction(entry, nodes, labels, node, here, page, ill)
        }
        Statement::Rmb { node } => {
            let answer = want(nodes, labels, node, here);
            reserved(labelled(answer, ill))
        }
        Statement::Fcb { first, count } => {
            let kind = Datum::Byte;
            let size = count as u32;
            data(kind, items, nodes, labels, here, first, count, ill, size)
        }
        Statement::Fdb { first, count } => {
            let kind = Datum::Word;
            let size = 2 * (count as u32);
            data(kind, items, nodes, labels, here, first, count, ill, size)
        }
        Statement::Fcc { first, count } => {
            let kind = Datum::Character;
            let size = count as u32;
            data(kind, items, nodes, labels, here, first, count, ill, size)
        }
        Statement::Org { node } => {
            let answer = want(nodes, labels, node, 0);
            origin(labelled(answer, ill))
        }
        Statement::Setdp { number } => setdp(number, ill),
        Statement::Unknown => counts(Some(Refusal::Unknown), 0),
    }
}

// The effect at a running address: what would end beyond 65536 counts none, and is 18 where it was accepted.
#[tactic(auto, unfolding(crate::specs::Effects::counted_of, ground::specs::Choice::pick))]
pub fn counted(at: u32, effect: Effect) -> Effect
    ensures { result ≡ counted_of at effect }
{
    let end = at as u64 + effect.size as u64;
    if end <= LAST_END {
        return effect;
    }
    let refusal = effect.refusal;
    counts(refusal.or(Some(Refusal::Beyond)), 0)
}
