// The pass loop over a list of statements, and their hexadecimal text.
ghost use Rattle.std.specs.Prelude.{◌≡◌};
ghost use Rattle.std.specs.Result.{result_err};
ghost use Rattle.passes.specs.Walks.{source};
ghost use Rattle.passes.specs.Passes.{settled_of, labels_after};
ghost use Rattle.joltwagon.specs.Settling.{with_passes, number_in, HexWritten};

use answers::{hand, size};
use assembly::hex;
use ground::refusals::Refusal;

// The refusal in the low 16 bits, and the number of passes above them.
pub(crate) fn with_passes(refusal: u8, passes: u8) -> u32
    ensures { result ≡ with_passes refusal passes }
{
    refusal as u32 + 65536 * (passes as u32)
}

// A refusal's number, 0 for none.
fn number_in(refusal: Option<Refusal>) -> u8
    ensures { result ≡ number_in refusal }
{
    match refusal {
        None => 0,
        Some(why) => why.number(),
    }
}

// Settles the statements: the label table gets the addresses found, and on a refusal stays as it was.
#[unsafe(no_mangle)]
pub extern "C" fn jw_settle(list: &[u16], items: &[u16], nodes: &[u16], labels: &mut [u16]) -> u32
    ensures value { result ≡ with_passes (number_in (result_err (settled_of (source list.now items.now nodes.now) labels.old).end)) (settled_of (source list.now items.now nodes.now) labels.old).passes }
    ensures labels_after { labels.new ≡ labels_after (source list.now items.now nodes.now) labels.old }
{
    let settled = passes::settle(list, items, nodes, labels);
    with_passes(number_in(settled.end.err()), settled.passes)
}

// From the statements to their text in one call. An answer's slice that is too short is found before anything is stored.
#[unsafe(no_mangle)]
pub extern "C" fn jw_hex(
    list: &[u16],
    items: &[u16],
    nodes: &[u16],
    labels: &mut [u16],
    objects: &mut [u16],
    values: &mut [u16],
    out: &mut [u8],
    answer: &mut [u16],
) -> u32
    ensures { HexWritten (source list.now items.now nodes.now) labels.old objects.old values.old out.old answer.old result labels.new objects.new values.new out.new answer.new }
{
    if answer.len() < 4 {
        let mut nowhere = [0; 0];
        let unwritten = hex(list, items, nodes, labels, objects, values, &mut nowhere);
        return with_passes(number_in(unwritten.length.err()), unwritten.passes);
    }
    let written = hex(list, items, nodes, labels, objects, values, out);
    match written.length {
        Ok(length) => {
            let cells = size(length);
            with_passes(hand(0, &cells, answer), written.passes)
        }
        Err(why) => with_passes(why.number(), written.passes),
    }
}
