// A text against what the instructions of a list mean.
ghost use Rattle.std.specs.Prelude.{◌≡◌, false, ◌≤◌, length};
ghost use Rattle.decoder.specs.Origin.{origin, outside};
ghost use Rattle.decoder.specs.Run.{run_of};
ghost use Rattle.instruction.specs.Building.{fresh_of};
ghost use Rattle.meanings.specs.ReadBack.{read_told};
ghost use Rattle.reader.specs.Ahead.{asked_of};
ghost use Rattle.laying.specs.Entries.{entries_of};
ghost use Rattle.laying.specs.Meant.{meanings_from};
ghost use Rattle.roundtrip.specs.Comparing.{text_against, compare_of};
ghost use Rattle.roundtrip.specs.Steps.{meant_at, agreement, none_left};

use crate::Compared;
use decoder::{Decoded, Kind, Meaning, next_of_run};
use entries::entry_of;
use ground::refusals::Refusal;
use instruction::{Record, assemble};
use laying::measure;
use meanings::meaning;
use reader::runs::{read_run, run_at};
use values::pages::Page;

// The numbers in a row.
const CELLS: usize = 21;

// One more than the last address: no list wants more room.
const END: usize = 65536;

// Read of a refused build, so that what is meant is told of every row: no run has an instruction without a byte.
const NOTHING: Decoded = Decoded {
    length: 0,
    meaning: Meaning {
        operation: 0,
        kind: Kind::Inherent,
    },
};

// The length and the meaning of an instruction, as its fresh build gives them.
fn meant(entry: Record, address: u16) -> Decoded
    ensures { result ≡ read_told entry.values address (fresh_of entry address) }
{
    match assemble(entry, address) {
        Ok(built) => {
            let length = built.length;
            let meaning = meaning(built.instruction, entry.values, address, length);
            Decoded { length, meaning }
        }
        Err(_) => NOTHING,
    }
}

// Those of the row that begins at a place. What stands at 65536 is built as at 0.
fn meant_at(list: &[u16], row: usize, at: usize) -> Decoded
    requires { row ≤ length list.now }
    ensures { result ≡ meant_at list.now row at }
{
    let entry = entry_of(&list[row..]);
    meant(entry, (at % END) as u16)
}

// A list and a run, from one address. What the list means is its records' own, never read from bytes, and hangs on no page. What agrees has one length, so
// one place serves both.
fn agree(list: &[u16], theirs: &[u8], address: u16, page: Page) -> Compared
    requires { outside theirs.now (origin address page) ≡ false }
    ensures { result ≡ agreement (meanings_from (entries_of list.now) address) (run_of theirs.now (origin address page)) }
{
    let rows = list.len() / CELLS;
    let mut at: usize = 0;
    for place in 0..rows {
        let mine = meant_at(list, place * CELLS, address as usize + at);
        let other = next_of_run(theirs, address, page, at);
        let alike = other == Ok(mine);
        if !alike {
            return Compared {
                equal: false,
                place,
            };
        }
        at += mine.length as usize;
    }
    Compared {
        equal: at == theirs.len(),
        place: rows,
    }
}

// No run is left at a place of a text.
fn none_left(text: &[u8], at: usize) -> bool
    ensures { result ≡ none_left (asked_of text.now at) }
{
    matches!(run_at(text, at), Ok(later) if later.bytes == 0)
}

// A text against a list from that address; the bytes of the text's first run go to the scratch, which has room for all of them.
fn compare_text(
    list: &[u16],
    address: u16,
    page: Page,
    text: &[u8],
    theirs: &mut [u8],
) -> Result<Compared, Refusal>
    requires { 65536 ≤ length theirs.old }
    ensures { result ≡ text_against (meanings_from (entries_of list.now) address) address page text.now }
{
    let run = read_run(text, 0, theirs)?;
    let end = run.bytes;
    if end == 0 {
        return Ok(Compared {
            equal: list.len() / CELLS == 0,
            place: 0,
        });
    }
    if run.address != address {
        return Ok(Compared {
            equal: false,
            place: 0,
        });
    }
    let last = none_left(text, run.next);
    let agreed = agree(list, &theirs[..end], address, page);
    Ok(Compared {
        equal: agreed.equal & last,
        place: agreed.place,
    })
}

// What laying refuses with all the room there is, and then the text.
pub(crate) fn compare_list(
    list: &[u16],
    address: u16,
    page: Page,
    text: &[u8],
    theirs: &mut [u8],
) -> Result<Compared, Refusal>
    requires { 65536 ≤ length theirs.old }
    ensures { result ≡ compare_of list.now address page text.now }
{
    measure(list, address, END)?;
    compare_text(list, address, page, text, theirs)
}
