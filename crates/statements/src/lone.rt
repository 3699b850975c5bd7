// A statement built alone.
ghost use Rattle.std.specs.Prelude.{◌≡◌, length};
ghost use Rattle.statements.specs.Lone.{lone_at, table_after};

use crate::Turn;
use crate::effects::effect;
use crate::listing::overfull;
use crate::objects::store_values;
use ground::refusals::Refusal;
use values::pages::Page;

// How many values were stored, what the statement counts, where an ORG moves to, and what it does to the page.
#[derive(Clone, Copy)]
pub struct Lone {
    pub count: u16,
    pub size: u32,
    pub to: Option<u16>,
    pub turn: Turn,
}

// Builds statement i at an address: 17, then its own refusals, then 9. Its values stand at the front of the table; a refusal leaves the table as it was.
pub fn build(
    list: &[u16],
    items: &[u16],
    nodes: &[u16],
    labels: &[u16],
    i: usize,
    address: u16,
    page: Page,
    ill: bool,
    values: &mut [u16],
) -> Result<Lone, Refusal>
    ensures value { result ≡ lone_at list.now items.now nodes.now labels.now i address page ill (length values.old) }
    ensures values_after { values.new ≡ table_after list.now items.now nodes.now labels.now i address page ill values.old }
{
    if overfull(list, i) {
        return Err(Refusal::OverLimit);
    }
    let effect = effect(list, items, nodes, labels, i, address, page, ill);
    if let Some(why) = effect.refusal {
        return Err(why);
    }
    let mut nowhere = [0; 0];
    let count = store_values(
        list,
        items,
        nodes,
        labels,
        i,
        address,
        page,
        &mut nowhere,
        0,
    );
    if values.len() < 2 * (count as usize) {
        return Err(Refusal::NoRoom);
    }
    store_values(list, items, nodes, labels, i, address, page, values, 0);
    let turn = effect.turn;
    Ok(Lone {
        count,
        size: effect.size,
        to: effect.to,
        turn,
    })
}
