// From a list of statements to the objects of its settled pass, and to their hexadecimal text.
#![tactic(auto)]

mod output;
mod tally;

ghost use Rattle.std.specs.Prelude.{◌≡◌, ◌≤◌, ◌<◌, length, take, is_ok};
ghost use Rattle.ground.specs.Stores.{put};
ghost use Rattle.records.specs.Written.{buffer_of};
ghost use Rattle.passes.specs.Labels.{laid_over};
ghost use Rattle.passes.specs.Walks.{source};
ghost use Rattle.passes.specs.Passes.{worked_table};
ghost use Rattle.assembly.specs.Objects.{objects_of, values_of};
ghost use Rattle.assembly.specs.Answers.{accepted_of, assembled_of, stored, labelled};
ghost use Rattle.assembly.specs.Text.{settled_text, hex_length, hexed_of};
ghost use Rattle.assembly.specs.Steps.{first_place, objects_on, values_on, plan_of, roomy};

use ground::refusals::Refusal;
use output::{Extent, emit};
use passes::labels::{labels_fit, store_labels};
use passes::settle_in;
use records::write_text;

// How many rows of objects and of values were stored.
#[derive(Clone, Copy)]
pub struct Stored {
    pub objects: usize,
    pub values: usize,
}

// The passes made, beside a refusal too; and what was stored.
#[derive(Clone, Copy)]
pub struct Assembled {
    pub passes: u8,
    pub stored: Result<Stored, Refusal>,
}

// The passes made, beside a refusal too; and how long the text is.
#[derive(Clone, Copy)]
pub struct Hexed {
    pub passes: u8,
    pub length: Result<usize, Refusal>,
}

// What is known before anything is stored: the passes made, how many statements stand before the refused one, and what these take, or the refusal.
#[derive(Clone, Copy)]
struct Plan {
    passes: u8,
    fine: usize,
    extent: Result<Extent, Refusal>,
}

// Settles the statements, and measures what those before the refused one take. A statement that does not fit stands before the refused one, so that
// its 9 comes first.
fn prepare(
    list: &[u16],
    items: &[u16],
    nodes: &[u16],
    labels: &[u16],
    objects: usize,
    values: usize,
    table: &mut [u16; 1536],
) -> Plan
    ensures answer { result ≡ plan_of (source list.now items.now nodes.now) labels.now objects values }
    ensures table { table.new ≡ worked_table (source list.now items.now nodes.now) labels.now table.old }
{
    let mut sizes = [0u32; 1024];
    let ended = settle_in(list, items, nodes, labels, table, &mut sizes);
    let fine = ended.fine;
    let mut nowhere = [0; 0];
    let mut neither = [0; 0];
    let extent = emit(list, items, nodes, table, fine, &mut nowhere, &mut neither);
    let fits = (extent.objects <= objects)
        & ((extent.values <= values) & labels_fit(list, fine, labels.len()));
    Plan {
        passes: ended.passes,
        fine,
        extent: if fits {
            ended.end.and(Ok(extent))
        } else {
            Err(Refusal::NoRoom)
        },
    }
}

// Stores the objects of the first n statements with their values, and the addresses of the labels.
fn store_all(
    list: &[u16],
    items: &[u16],
    nodes: &[u16],
    table: &[u16; 1536],
    n: usize,
    labels: &mut [u16],
    objects: &mut [u16],
    values: &mut [u16],
)
    requires { n ≤ 1024 }
    ensures labels { labels.new ≡ laid_over table.now labels.old }
    ensures objects { objects.new ≡ put objects.old 0 (objects_on (source list.now items.now nodes.now) table.now n 0 first_place) }
    ensures values { values.new ≡ put values.old 0 (values_on (source list.now items.now nodes.now) table.now n 0 first_place) }
{
    emit(list, items, nodes, table, n, objects, values);
    store_labels(table, labels);
}

// Settles the statements and stores the objects of the settled pass. The label table gets the addresses found. A refusal leaves everything as it was.
pub fn assemble(
    list: &[u16],
    items: &[u16],
    nodes: &[u16],
    labels: &mut [u16],
    objects: &mut [u16],
    values: &mut [u16],
) -> Assembled
    ensures answer { result ≡ assembled_of (source list.now items.now nodes.now) labels.old (length objects.old) (length values.old) }
    ensures labels { labels.new ≡ labelled (is_ok (accepted_of (source list.now items.now nodes.now) labels.old (length objects.old) (length values.old))) (source list.now items.now nodes.now) labels.old }
    ensures objects { objects.new ≡ stored (is_ok (accepted_of (source list.now items.now nodes.now) labels.old (length objects.old) (length values.old))) (objects_of (source list.now items.now nodes.now) labels.old) objects.old }
    ensures values { values.new ≡ stored (is_ok (accepted_of (source list.now items.now nodes.now) labels.old (length objects.old) (length values.old))) (values_of (source list.now items.now nodes.now) labels.old) values.old }
{
    let mut table = [0u16; 1536];
    let plan = prepare(
        list,
        items,
        nodes,
        labels,
        objects.len(),
        values.len(),
        &mut table,
    );
    match plan.extent {
        Err(why) => Assembled {
            passes: plan.passes,
            stored: Err(why),
        },
        Ok(extent) => {
            store_all(
                list, items, nodes, &table, plan.fine, labels, objects, values,
            );
            Assembled {
                passes: plan.passes,
                stored: Ok(Stored {
                    objects: extent.objects / 3,
                    values: extent.values / 2,
                }),
            }
        }
    }
}

// From the statements to the hexadecimal text in one call: what `assemble` does, and then the text of the objects. The text is measured with them, so
// that a refusal, the want of room for the text too, leaves everything as it was.
pub fn hex(
    list: &[u16],
    items: &[u16],
    nodes: &[u16],
    labels: &mut [u16],
    objects: &mut [u16],
    values: &mut [u16],
    out: &mut [u8],
) -> Hexed
    ensures answer { result ≡ hexed_of (source list.now items.now nodes.now) labels.old (length objects.old) (length values.old) (length out.old) }
    ensures labels { labels.new ≡ labelled (is_ok (hex_length (source list.now items.now nodes.now) labels.old (length objects.old) (length values.old) (length out.old))) (source list.now items.now nodes.now) labels.old }
    ensures objects { objects.new ≡ stored (is_ok (hex_length (source list.now items.now nodes.now) labels.old (length objects.old) (length values.old) (length out.old))) (objects_of (source list.now items.now nodes.now) labels.old) objects.old }
    ensures values { values.new ≡ stored (is_ok (hex_length (source list.now items.now nodes.now) labels.old (length objects.old) (length values.old) (length out.old))) (values_of (source list.now items.now nodes.now) labels.old) values.old }
    ensures text { out.new ≡ stored (is_ok (hex_length (source list.now items.now nodes.now) labels.old (length objects.old) (length values.old) (length out.old))) (settled_text (source list.now items.now nodes.now) labels.old) out.old }
{
    let mut table = [0u16; 1536];
    let plan = prepare(
        list,
        items,
        nodes,
        labels,
        objects.len(),
        values.len(),
        &mut table,
    );
    match roomy(plan.extent, out.len()) {
        Err(why) => Hexed {
            passes: plan.passes,
            length: Err(why),
        },
        Ok(extent) => {
            store_all(
                list, items, nodes, &table, plan.fine, labels, objects, values,
            );
            write_stored(objects, values, extent.objects, extent.values, out);
            Hexed {
                passes: plan.passes,
                length: Ok(extent.length),
            }
        }
    }
}

// Where a text has room: 9 where it has not.
#[tactic(auto, unfolding(crate::specs::Steps::roomy, ground::specs::Choice::pick))]
fn roomy(planned: Result<Extent, Refusal>, room: usize) -> Result<Extent, Refusal>
    ensures { result ≡ roomy room planned }
{
    let extent = planned?;
    if room < extent.length {
        return Err(Refusal::NoRoom);
    }
    Ok(extent)
}

// The text of the rows at the front of both tables.
fn write_stored(objects: &[u16], values: &[u16], rows: usize, numbers: usize, out: &mut [u8])
    requires { (rows ≤ length objects.now) × (numbers ≤ length values.now) }
    ensures { out.new ≡ buffer_of (take rows objects.now) (take numbers values.now) out.old }
{
    let _ = write_text(&objects[..rows], &values[..numbers], out);
}
