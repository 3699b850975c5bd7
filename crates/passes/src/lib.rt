// Passes over a lent list of statements, until one changes no label address and no size.
#![tactic(auto)]

pub mod labels;
mod walk;

ghost use Rattle.std.specs.Prelude.{◌≡◌, ◌≤◌, length, Err};
ghost use Rattle.statements.specs.Listing.{rows_of};
ghost use Rattle.passes.specs.Walks.{source};
ghost use Rattle.passes.specs.Passes.{pass_of, ended, answer_of, most_passes, settle_of, overfull_in, too_many, ended_of, worked_table, worked_sizes, settled_of, labels_after};
ghost use Rattle.passes.specs.Steps.{bearers_of};

use expressions::too_many_nodes;
use ground::refusals::Refusal;
use labels::{begin, find_bearers, labels_fit, store_labels};
use statements::listing::{overfull, rows_of};
use walk::{State, walk_all};

const MOST_STATEMENTS: usize = 1024;

const MOST_PASSES: u8 = 64;

// How the passes ended: how many were made; the address after the last statement, or a refusal; and how many statements stand before the refused one.
#[derive(Clone, Copy)]
pub struct Ended {
    pub passes: u8,
    pub end: Result<u32, Refusal>,
    pub fine: usize,
}

// The passes made, beside a refusal too; and the address after the last statement, or the refusal.
#[derive(Clone, Copy)]
pub struct Settled {
    pub passes: u8,
    pub end: Result<u32, Refusal>,
}

// Settles the statements. The label table gets the addresses found, and on a refusal stays as it was. A statement whose label has no row there stands
// before the refused one, so that its 9 comes first.
// The tables stand on the stack, side by side and not in a heap (none is used), 8,318 bytes in all: labels 3,072, sizes 4,096, first bearers 1,024, segment starts 126.
#[tactic(auto, using(crate::proofs::Rounds::accepted_passed), unfolding(crate::specs::Passes::settled_of, crate::specs::Passes::labels_after, crate::specs::Passes::settled_end, ground::specs::Choice::pick))]
pub fn settle(list: &[u16], items: &[u16], nodes: &[u16], labels: &mut [u16]) -> Settled
    ensures answer { result ≡ settled_of (source list.now items.now nodes.now) labels.old }
    ensures table { labels.new ≡ labels_after (source list.now items.now nodes.now) labels.old }
{
    let mut table = [0u16; 1536];
    let mut sizes = [0u32; 1024];
    let ended = settle_in(list, items, nodes, labels, &mut table, &mut sizes);
    if !labels_fit(list, ended.fine, labels.len()) {
        return Settled {
            passes: ended.passes,
            end: Err(Refusal::NoRoom),
        };
    }
    if ended.end.is_ok() {
        store_labels(&table, labels);
    }
    Settled {
        passes: ended.passes,
        end: ended.end,
    }
}

// Settles the statements in tables of the caller's. They keep the labels and the sizes of the last pass, also beside its refusal, so that a settled
// pass can be walked again; 17 before the first pass leaves them as they were.
#[tactic(auto, using(crate::proofs::Rounds::few, crate::proofs::Tables::begin_fills), unfolding(crate::specs::Passes::ended_of, crate::specs::Passes::worked_table, crate::specs::Passes::worked_sizes, crate::specs::Passes::passed_of, ground::specs::Choice::pick))]
pub fn settle_in(
    list: &[u16],
    items: &[u16],
    nodes: &[u16],
    labels: &[u16],
    table: &mut [u16; 1536],
    sizes: &mut [u32; 1024],
) -> Ended
    ensures answer { result ≡ ended_of (source list.now items.now nodes.now) labels.now }
    ensures table { table.new ≡ worked_table (source list.now items.now nodes.now) labels.now table.old }
    ensures sizes { sizes.new ≡ worked_sizes (source list.now items.now nodes.now) labels.now sizes.old }
{
    if too_many(list, nodes) {
        return refused(0, Refusal::OverLimit);
    }
    let none = rows_of(list) as u16;
    let mut firsts = [none; 512];
    find_bearers(list, &mut firsts);
    begin(list, &firsts, labels, table);
    *sizes = [0; 1024];
    passes(list, items, nodes, &firsts, table, sizes)
}

// More statements, nodes or values in a statement than 01 allows. A list that is too long is not walked.
#[tactic(auto, unfolding(crate::specs::Passes::too_many))]
pub fn too_many(list: &[u16], nodes: &[u16]) -> bool
    ensures { result ≡ too_many list.now nodes.now }
{
    let rows = rows_of(list);
    MOST_STATEMENTS < rows || (too_many_nodes(nodes) || any_overfull(list, rows))
}

fn any_overfull(list: &[u16], rows: usize) -> bool
    ensures { result ≡ overfull_in list.now rows }
{
    (0..rows).any(|i| overfull(list, i))
}

// Passes are made and counted until one is settled, at most 64.
fn passes(
    list: &[u16],
    items: &[u16],
    nodes: &[u16],
    firsts: &[u16],
    table: &mut [u16],
    sizes: &mut [u32],
) -> Ended
    requires list_bound { rows_of list.now ≤ 1024 }
    requires list_in_bounds { rows_of list.now ≤ length sizes.old }
    requires firsts_value { firsts.now ≡ bearers_of list.now }
    ensures answer { result ≡ (settle_of (source list.now items.now nodes.now) most_passes 0 table.old sizes.old).answer }
    ensures table { table.new ≡ (settle_of (source list.now items.now nodes.now) most_passes 0 table.old sizes.old).table }
    ensures sizes { sizes.new ≡ (settle_of (source list.now items.now nodes.now) most_passes 0 table.old sizes.old).sizes }
{
    for before in 0..MOST_PASSES {
        let s = pass(list, items, nodes, firsts, table, sizes);
        if !s.changed {
            return answer(before + 1, s);
        }
    }
    refused(MOST_PASSES, Refusal::NotSettled)
}

// One pass: a walk with segment 0 alone.
#[tactic(auto, unfolding(crate::specs::Walks::walk_to))]
fn pass(
    list: &[u16],
    items: &[u16],
    nodes: &[u16],
    firsts: &[u16],
    table: &mut [u16],
    sizes: &mut [u32],
) -> State
    requires list_bound { rows_of list.now ≤ 1024 }
    requires list_in_bounds { rows_of list.now ≤ length sizes.old }
    requires firsts_value { firsts.now ≡ bearers_of list.now }
    ensures answer { result ≡ (pass_of (source list.now items.now nodes.now) table.old sizes.old).state }
    ensures table { table.new ≡ (pass_of (source list.now items.now nodes.now) table.old sizes.old).labels }
    ensures sizes { sizes.new ≡ (pass_of (source list.now items.now nodes.now) table.old sizes.old).sizes }
{
    let mut starts = [0u16; 63];
    walk_all(list, items, nodes, firsts, table, sizes, &mut starts)
}

// What a settled pass answers.
#[tactic(auto, unfolding(crate::specs::Passes::answer_of))]
fn answer(made: u8, s: State) -> Ended
    ensures { result ≡ answer_of made s }
{
    Ended {
        passes: made,
        end: s.end(),
        fine: s.fine,
    }
}

// No statement is known to stand before the refused one.
fn refused(passes: u8, why: Refusal) -> Ended
    ensures { result ≡ ended passes (Err why) 0 }
{
    Ended {
        passes,
        end: Err(why),
        fine: 0,
    }
}
