// The walk over the statements of a settled pass that puts out their objects.
ghost use Rattle.std.specs.Prelude.{◌≡◌, ◌+◌, ◌≤◌, ◌<◌};
ghost use Rattle.ground.specs.Stores.{put, Wrote};
ghost use Rattle.passes.specs.Walks.{source};
ghost use Rattle.assembly.specs.Objects.{kind_at, object_row, stands_at};
ghost use Rattle.assembly.specs.Steps.{done_at, next_place, first_place, objects_on, values_on, extent_of, Ready, Stepped};

use crate::tally::Tally;
use ground::buffers::store;
use statements::Effect;
use statements::effects::{counted, effect};
use statements::listing::{NONE, object_kind, statement_at};
use statements::objects::store_values;
use values::pages::Page;

// Where a statement stands: the running address, and the page.
#[derive(Clone, Copy)]
pub(crate) struct Place {
    pub at: u32,
    pub page: Page,
}

impl Place {
    #[tactic(auto, unfolding(crate::specs::Steps::next_place))]
    fn next(self, e: Effect) -> Place
        requires { self.at + e.size ≤ 65536 }
        ensures answer { result ≡ next_place e self }
        ensures bound { result.at ≤ 65536 }
    {
        let turn = e.turn;
        let before = self.page;
        let page = turn.turns(before);
        let at = match e.to {
            Some(to) => to as u32,
            None => self.at + e.size,
        };
        Place { at, page }
    }
}

// How far the walk is: where the next statement stands, the numbers stored of objects and of values, and the measure of their text. The numbers stand
// beside two tables that are lent, as the record writer takes them (docs/ROWS.md).
#[derive(Clone, Copy)]
pub(crate) struct Going {
    pub place: Place,
    pub objects: usize,
    pub values: usize,
    pub tally: Tally,
}

// What the objects take: numbers of objects and of values, and characters of text.
#[derive(Clone, Copy)]
pub(crate) struct Extent {
    pub objects: usize,
    pub values: usize,
    pub length: usize,
}

// The kind of statement i's object.
fn kind_at(list: &[u16], i: usize) -> u16
    ensures { result ≡ kind_at list.now i }
{
    let statement = statement_at(list, i);
    object_kind(statement)
}

// An object's row, where there is one, and the place after it.
#[tactic(auto, unfolding(crate::specs::Objects::object_row, ground::specs::Choice::pick))]
fn store_object(objects: &mut [u16], at: usize, kind: u16, address: u16, count: u16) -> usize
    requires { at < 4294967296 }
    ensures row { Wrote objects.old at (object_row kind address count) result objects.new }
    ensures bound { result ≤ at + 3 }
{
    if kind == NONE {
        return at;
    }
    store(objects, at, kind);
    store(objects, at + 1, address);
    store(objects, at + 2, count);
    at + 3
}

// Where the object of a statement at a location stands: an ORG's where it moves to.
#[tactic(auto, unfolding(crate::specs::Objects::stands_at))]
fn stands_at(e: Effect, here: u16) -> u16
    ensures { result ≡ stands_at e here }
{
    e.to.unwrap_or(here)
}

// What a statement of a settled pass does. It is accepted, so its own label is not refused.
fn done_at(
    list: &[u16],
    items: &[u16],
    nodes: &[u16],
    labels: &[u16],
    i: usize,
    place: Place,
) -> Effect
    requires { place.at ≤ 65536 }
    ensures answer { result ≡ done_at (source list.now items.now nodes.now) labels.now i place }
    ensures bound { place.at + result.size ≤ 65536 }
{
    let here = (place.at % 65536) as u16;
    let page = place.page;
    counted(
        place.at,
        effect(list, items, nodes, labels, i, here, page, false),
    )
}

// One statement: its values and its object are stored, and its text is measured.
fn step(
    list: &[u16],
    items: &[u16],
    nodes: &[u16],
    labels: &[u16],
    i: usize,
    s: Going,
    objects: &mut [u16],
    values: &mut [u16],
) -> Going
    requires { Ready s }
    ensures { Stepped (source list.now items.now nodes.now) labels.now i s objects.old values.old result objects.new values.new }
{
    let place = s.place;
    let page = place.page;
    let tally = s.tally;
    let here = (place.at % 65536) as u16;
    let count = store_values(list, items, nodes, labels, i, here, page, values, s.values);
    let kind = kind_at(list, i);
    let e = done_at(list, items, nodes, labels, i, place);
    let address = stands_at(e, here);
    let after = store_object(objects, s.objects, kind, address, count);
    let next = place.next(e);
    let tallied = tally.object(kind, here as usize, e.size as usize);
    Going {
        place: next,
        objects: after,
        values: s.values + 2 * (count as usize),
        tally: tallied,
    }
}

// The objects of the first n statements. What would stand past the end of a table is not stored: with no table at hand the walk only measures.
pub(crate) fn emit(
    list: &[u16],
    items: &[u16],
    nodes: &[u16],
    labels: &[u16],
    n: usize,
    objects: &mut [u16],
    values: &mut [u16],
) -> Extent
    requires { n ≤ 1024 }
    ensures answer { result ≡ extent_of (source list.now items.now nodes.now) labels.now n }
    ensures objects { objects.new ≡ put objects.old 0 (objects_on (source list.now items.now nodes.now) labels.now n 0 first_place) }
    ensures values { values.new ≡ put values.old 0 (values_on (source list.now items.now nodes.now) labels.now n 0 first_place) }
{
    let place = Place {
        at: 0,
        page: Page::Known(0),
    };
    let tally = Tally {
        next: 0,
        held: 0,
        length: 0,
    };
    let mut s = Going {
        place,
        objects: 0,
        values: 0,
        tally,
    };
    for i in 0..n {
        s = step(list, items, nodes, labels, i, s, objects, values);
    }
    let measured = s.tally;
    Extent {
        objects: s.objects,
        values: s.values,
        length: measured.end(),
    }
}
