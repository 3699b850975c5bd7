// One walk over the statements: each marks its label, has its effect, keeps its size, and moves the running address on.
ghost use Rattle.std.specs.Prelude.{◌≡◌, not, ◌+◌, ◌*◌, ◌≤◌, ◌<◌, length, get_or, set, eqb};
ghost use Rattle.segments.specs.Segments.{table_after};
ghost use Rattle.statements.specs.Listing.{rows_of};
ghost use Rattle.passes.specs.Labels.{ill_of};
ghost use Rattle.passes.specs.Walks.{source, walk, begun, here_of, touched, marked_labels, marked_state, effect_in, sized_state};
ghost use Rattle.passes.specs.Walks.{judged, grown, moved, origin_state, advanced_state, advanced_starts, step_of, walk_of};
ghost use Rattle.passes.specs.Passes.{end_of};
ghost use Rattle.passes.specs.Steps.{bearers_of};

use crate::labels::is_ill;
use ground::buffers::store;
use ground::refusals::Refusal;
use ground::tables::cell_or;
use statements::Effect;
use statements::effects::{counted, effect};
use statements::listing::{NONE, label_at, rows_of};
use values::pages::Page;

// The running address, 0 to 65536; how many segment starts stand beside 0, in a table that is lent (docs/ROWS.md); the page; the first refusal; how
// many statements stand before the refused one; and whether an address or a size changed.
#[derive(Clone, Copy)]
pub(crate) struct State {
    pub at: u32,
    pub count: usize,
    pub page: Page,
    pub refusal: Option<Refusal>,
    pub fine: usize,
    pub changed: bool,
}

// A statement whose label is marked: the walk then, and what the statement does.
#[derive(Clone, Copy)]
struct Marked {
    state: State,
    effect: Effect,
}

impl State {
    fn touch(mut self, other: bool) -> Self
        ensures { result ≡ touched other self }
    {
        self.changed = self.changed | other;
        self
    }

    // The address that a statement and its label see; 65536 counts as 0.
    fn here(self) -> u16
        ensures { result ≡ here_of self }
    {
        (self.at % 65536) as u16
    }

    // A label takes the running address at once, unless it is refused: then it keeps the address of its first bearer.
    #[tactic(auto, unfolding(crate::specs::Walks::marked_state, crate::specs::Walks::marked_labels, crate::specs::Walks::marks_of, ground::specs::Choice::pick))]
    fn mark(self, list: &[u16], i: usize, ill: bool, labels: &mut [u16]) -> Self
        requires { ill ≡ ill_of list.now i }
        ensures answer { result ≡ marked_state list.now i self labels.old }
        ensures table { labels.new ≡ marked_labels list.now i self labels.old }
    {
        let label = label_at(list, i);
        if (label != NONE) & !ill {
            return self.address(label as usize * 3 + 1, labels);
        }
        self
    }

    fn address(self, place: usize, labels: &mut [u16]) -> Self
        ensures answer { result ≡ touched (not (eqb (get_or labels.old place 0) (here_of self))) self }
        ensures table { labels.new ≡ set labels.old place (here_of self) }
    {
        let here = self.here();
        let old = cell_or(labels, place, 0);
        store(labels, place, here);
        self.touch(old != here)
    }

    // What the statement does here, built fresh, and what it counts.
    #[tactic(auto, unfolding(crate::specs::Walks::effect_in))]
    fn effect_of(
        self,
        list: &[u16],
        items: &[u16],
        nodes: &[u16],
        labels: &[u16],
        i: usize,
        ill: bool,
    ) -> Effect
        requires { ill ≡ ill_of list.now i }
        ensures { result ≡ effect_in (source list.now items.now nodes.now) labels.now i self }
    {
        let here = self.here();
        let page = self.page;
        counted(
            self.at,
            effect(list, items, nodes, labels, i, here, page, ill),
        )
    }

    // The label is marked first, so that the statement's own operand sees it.
    fn mark_and_ask(
        self,
        list: &[u16],
        items: &[u16],
        nodes: &[u16],
        labels: &mut [u16],
        i: usize,
        ill: bool,
    ) -> Marked
        requires { ill ≡ ill_of list.now i }
        ensures state { result.state ≡ marked_state list.now i self labels.old }
        ensures effect { result.effect ≡ effect_in (source list.now items.now nodes.now) labels.new i self }
        ensures table { labels.new ≡ marked_labels list.now i self labels.old }
    {
        let state = self.mark(list, i, ill, labels);
        let effect = self.effect_of(list, items, nodes, labels, i, ill);
        Marked { state, effect }
    }

    #[tactic(auto, unfolding(crate::specs::Walks::sized_state))]
    fn resize(self, sizes: &mut [u32], i: usize, e: Effect) -> Self
        requires { i < length sizes.old }
        ensures answer { result ≡ sized_state sizes.old i e self }
        ensures table { sizes.new ≡ set sizes.old i e.size }
    {
        let old = sizes[i];
        sizes[i] = e.size;
        self.touch(old != e.size)
    }

    // The statement's refusal, if it has one. A pass keeps the first.
    #[tactic(auto, unfolding(crate::specs::Walks::judged, ground::specs::Choice::pick))]
    fn judge(mut self, i: usize, why: Option<Refusal>) -> Self
        requires { i < 1024 }
        ensures { result ≡ judged i why self }
    {
        self.refusal = self.refusal.or(why);
        if self.refusal.is_none() {
            self.fine = i + 1;
        }
        self
    }

    // Where it ended, or why not.
    #[tactic(auto, unfolding(crate::specs::Passes::end_of))]
    pub(crate) fn end(self) -> Result<u32, Refusal>
        ensures { result ≡ end_of self.refusal self.at }
    {
        match self.refusal {
            None => Ok(self.at),
            Some(why) => Err(why),
        }
    }

    // The size is added, and the page is what the statement leaves.
    fn grow(mut self, e: Effect) -> Self
        requires { self.at + e.size ≤ 65536 }
        ensures { result ≡ grown e self }
    {
        let turn = e.turn;
        self.page = turn.turns(self.page);
        self.at += e.size;
        self
    }

    fn go(mut self, to: u16, count: usize) -> Self
        ensures { result ≡ moved to count self }
    {
        self.at = to as u32;
        self.count = count;
        self
    }

    // An ORG adds its segment and moves; where the segment is refused it moves nothing.
    #[tactic(auto, unfolding(crate::specs::Walks::origin_from, crate::specs::Walks::judged))]
    fn origin(self, starts: &mut [u16], i: usize, to: u16) -> Self
        requires i_bound { i < 1024 }
        requires at_bound { self.at ≤ 65536 }
        ensures answer { result ≡ origin_state starts.old i to self }
        ensures table { starts.new ≡ table_after starts.old self.count to }
        ensures bound { result.at ≤ 65536 }
    {
        match segments::add(starts, self.count, to) {
            Ok(count) => self.go(to, count).judge(i, None),
            Err(why) => self.judge(i, Some(why)),
        }
    }

    #[tactic(auto, unfolding(crate::specs::Walks::advanced_state, crate::specs::Walks::advanced_starts, crate::specs::Walks::judged))]
    fn advance(self, starts: &mut [u16], i: usize, e: Effect) -> Self
        requires i_bound { i < 1024 }
        requires size_bound { self.at + e.size ≤ 65536 }
        ensures answer { result ≡ advanced_state starts.old i e self }
        ensures table { starts.new ≡ advanced_starts starts.old e self }
        ensures bound { result.at ≤ 65536 }
    {
        match e.to {
            Some(to) => self.origin(starts, i, to),
            None => self.grow(e).judge(i, e.refusal),
        }
    }
}

// One statement.
#[tactic(auto, using(crate::proofs::Turns::step_joins))]
fn step(
    list: &[u16],
    items: &[u16],
    nodes: &[u16],
    firsts: &[u16],
    labels: &mut [u16],
    sizes: &mut [u32],
    starts: &mut [u16],
    i: usize,
    s: State,
) -> State
    requires i_bound { i < 1024 }
    requires i_in_bounds { i < length sizes.old }
    requires firsts_value { firsts.now ≡ bearers_of list.now }
    requires at_bound { s.at ≤ 65536 }
    ensures walked { walk result labels.new sizes.new starts.new ≡ step_of (source list.now items.now nodes.now) i (walk s labels.old sizes.old starts.old) }
    ensures bound { result.at ≤ 65536 }
{
    let ill = is_ill(list, firsts, i);
    let marked = s.mark_and_ask(list, items, nodes, labels, i, ill);
    let state = marked.state;
    let e = marked.effect;
    let sized = state.resize(sizes, i, e);
    sized.advance(starts, i, e)
}

// All statements, from address 0 with segment 0 alone and page 0.
#[tactic(auto, using(crate::proofs::Turns::walk_more, crate::proofs::Turns::walk_none))]
pub(crate) fn walk_all(
    list: &[u16],
    items: &[u16],
    nodes: &[u16],
    firsts: &[u16],
    labels: &mut [u16],
    sizes: &mut [u32],
    starts: &mut [u16],
) -> State
    requires list_bound { rows_of list.now ≤ 1024 }
    requires list_in_bounds { rows_of list.now ≤ length sizes.old }
    requires firsts_value { firsts.now ≡ bearers_of list.now }
    ensures { walk result labels.new sizes.new starts.new ≡ walk_of (source list.now items.now nodes.now) (rows_of list.now) 0 (walk begun labels.old sizes.old starts.old) }
{
    let mut s = State {
        at: 0,
        count: 0,
        page: Page::Known(0),
        refusal: None,
        fine: 0,
        changed: false,
    };
    for i in 0..rows_of(list) {
        s = step(list, items, nodes, firsts, labels, sizes, starts, i, s);
    }
    s
}
