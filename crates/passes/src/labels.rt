// Which statement each label belongs to, and the label table before the first pass and after the last.
ghost use Rattle.std.specs.Prelude.{◌≡◌, ◌*◌, ◌<◌, ◌≤◌, replicate};
ghost use Rattle.ground.specs.Stores.{put};
ghost use Rattle.statements.specs.Listing.{rows_of};
ghost use Rattle.passes.specs.Labels.{ill_of, begun_table, laid_over, label_fits, labels_fit};
ghost use Rattle.passes.specs.Steps.{bearers_of, lent_of, state_of, row_of};

use ground::buffers::store;
use ground::tables::cell_or;
use statements::listing::{NONE, label_at, rows_of};

// Labels and states are numbers and no enums: a row may hold anything (docs/ROWS.md).
const LAST_LABEL: u16 = 511;

const ALL_LABELS: usize = 512;

const BY_EXPRESSION: u16 = 2;

// What a label's row holds that the passes do not find.
#[derive(Clone, Copy)]
struct Lent {
    state: u16,
    node: u16,
}

// Finds the first bearer of every label in one walk from the last statement to the first: each statement takes its label from the later ones.
// What no statement bears keeps the number of statements.
#[tactic(auto, using(crate::proofs::Bearers::found_first, crate::proofs::Bearers::found_more, crate::proofs::Bearers::found_all))]
pub(crate) fn find_bearers(list: &[u16], firsts: &mut [u16])
    requires list_bound { rows_of list.now ≤ 1024 }
    requires firsts_value { firsts.old ≡ replicate 512 (rows_of list.now) }
    ensures { firsts.new ≡ bearers_of list.now }
{
    for i in (0..rows_of(list)).rev() {
        store(firsts, label_at(list, i) as usize, i as u16);
    }
}

// The statement's own label is above 511, or belongs to an earlier one.
#[tactic(auto, using(crate::proofs::Bearers::ill_told))]
pub(crate) fn is_ill(list: &[u16], firsts: &[u16], i: usize) -> bool
    requires i_bound { i < 1024 }
    requires firsts_value { firsts.now ≡ bearers_of list.now }
    ensures { result ≡ ill_of list.now i }
{
    let label = label_at(list, i);
    let first = cell_or(firsts, label as usize, 0);
    (label != NONE) & ((LAST_LABEL < label) | (first != i as u16))
}

// Every address is 0, and a label is defined if it is an expression or a statement bears it.
#[tactic(auto, using(crate::proofs::Tables::begin_more, crate::proofs::Tables::begin_done), unfolding(crate::specs::Labels::begun_table))]
pub(crate) fn begin(list: &[u16], firsts: &[u16], labels: &[u16], table: &mut [u16])
    requires { firsts.now ≡ bearers_of list.now }
    ensures { table.new ≡ put table.old 0 (begun_table list.now labels.now) }
{
    let rows = rows_of(list);
    for k in 0..ALL_LABELS {
        let borne = (cell_or(firsts, k, 0) as usize) < rows;
        begin_row(labels, k, borne, table);
    }
}

#[tactic(auto, using(crate::proofs::Tables::row_stored))]
fn begin_row(labels: &[u16], k: usize, borne: bool, table: &mut [u16])
    requires { k < 512 }
    ensures { table.new ≡ put table.old (k * 3) (row_of labels.now k borne) }
{
    let lent = lent_row(labels, k);
    store(table, k * 3, begun_state(lent.state, borne));
    store(table, k * 3 + 1, 0);
    store(table, k * 3 + 2, lent.node);
}

#[tactic(auto, unfolding(crate::specs::Steps::state_of, ground::specs::Choice::pick))]
fn begun_state(state: u16, borne: bool) -> u16
    ensures { result ≡ state_of state borne }
{
    if state == BY_EXPRESSION {
        return BY_EXPRESSION;
    }
    if borne { 1 } else { 0 }
}

// A row that is not wholly there is undefined.
#[tactic(auto, unfolding(crate::specs::Steps::lent_of, expressions::specs::Finding::label_row, expressions::specs::Finding::row_at, ground::specs::Choice::pick))]
fn lent_row(labels: &[u16], k: usize) -> Lent
    requires { k < 512 }
    ensures { result ≡ lent_of labels.now k }
{
    if labels.len() < k * 3 + 3 {
        return Lent { state: 0, node: 0 };
    }
    Lent {
        state: labels[k * 3],
        node: labels[k * 3 + 2],
    }
}

// Lays the states and addresses that the passes found over a lent table.
pub fn store_labels(table: &[u16; 1536], labels: &mut [u16])
    ensures { labels.new ≡ laid_over table.now labels.old }
{
    lay_over(table, labels);
}

// In the rows that both tables have. The nodes stay as they are.
#[tactic(auto, using(crate::proofs::Tables::lay_more, crate::proofs::Tables::lay_done))]
fn lay_over(table: &[u16], labels: &mut [u16])
    ensures { labels.new ≡ laid_over table.now labels.old }
{
    for k in 0..table.len().min(labels.len()) / 3 {
        let at = k * 3;
        labels[at] = table[at];
        labels[at + 1] = table[at + 1];
    }
}

// The label of statement i, if it has one, has its row in a table of so many numbers.
#[tactic(auto, unfolding(crate::specs::Labels::label_fits))]
fn label_fits(list: &[u16], i: usize, cells: usize) -> bool
    ensures { result ≡ label_fits list.now cells i }
{
    let label = label_at(list, i);
    (label == NONE) | (label as usize * 3 + 3 <= cells)
}

// So it is with each of the first n statements: no address that the passes find for them is lost.
pub fn labels_fit(list: &[u16], n: usize, cells: usize) -> bool
    ensures { result ≡ labels_fit list.now cells n }
{
    (0..n).all(|i| label_fits(list, i, cells))
}
