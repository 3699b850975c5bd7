// Laying: a list of instructions, fresh, end to end from an address into a lent buffer.
#![tactic(auto)]

ghost use Rattle.std.specs.Prelude.{◌≡◌, ◌≤◌, length};
ghost use Rattle.ground.specs.Stores.{put};
ghost use Rattle.instruction.specs.Building.{size_told, bytes_told};
ghost use Rattle.laying.specs.Entries.{entry_at, entries_of};
ghost use Rattle.laying.specs.Laying.{built_at, size_at, lay_from, lay_of, answer_of, buffer_of};
ghost use Rattle.laying.specs.Exactly.{bytes_from};

use entries::entry_of;
use ground::buffers::store_all;
use ground::refusals::Refusal;
use instruction::{Built, Record, assemble};

// The numbers in a row.
const CELLS: usize = 21;

const MOST_ROWS: usize = 1024;

// One more than the last address.
const END: usize = 65536;

// The record of the row that begins at a place.
fn entry_at(list: &[u16], row: usize) -> Record
    requires { row ≤ length list.now }
    ensures { result ≡ entry_at list.now row }
{
    entry_of(&list[row..])
}

// A fresh build of the row's instruction. What stands at 65536 is built as at 0.
#[tactic(auto, using(crate::proofs::Builds::built_from))]
fn built_at(list: &[u16], row: usize, at: usize) -> Result<Built, Refusal>
    requires { row ≤ length list.now }
    ensures { result ≡ built_at (entry_at list.now row) at }
{
    let entry = entry_at(list, row);
    assemble(entry, (at % END) as u16)
}

// How many bytes the build has; or its own refusal, then 18, then 9.
#[tactic(auto, unfolding(ground::specs::Choice::pick))]
fn size_at(built: Result<Built, Refusal>, at: usize, room: usize) -> Result<usize, Refusal>
    requires { at ≤ 65536 }
    ensures { result ≡ size_at built at room }
{
    let length = built?.length as usize;
    if END < at + length {
        return Err(Refusal::Beyond);
    }
    if room < length {
        return Err(Refusal::NoRoom);
    }
    Ok(length)
}

// Stores the bytes of a build, and answers how many they are: none of one that is refused.
fn store_built(built: Result<Built, Refusal>, out: &mut [u8], at: usize) -> usize
    requires { size_told built ≤ 5 }
    ensures size { result ≡ size_told built }
    ensures buffer { out.new ≡ put out.old at (bytes_told built) }
{
    match built {
        Ok(b) => {
            let bytes = b.bytes;
            let end = b.length as usize;
            store_all(out, at, &bytes[..end]);
            end
        }
        Err(_) => 0,
    }
}

// The rows in order, with so much room: the first that is refused refuses the list.
fn measure_rows(list: &[u16], address: u16, room: usize) -> Result<usize, Refusal>
    ensures { result ≡ answer_of (lay_from (entries_of list.now) address room) }
{
    let mut length: usize = 0;
    for row in 0..list.len() / CELLS {
        let at = address as usize + length;
        let built = built_at(list, row * CELLS, at);
        let size = size_at(built, at, room - length)?;
        length += size;
    }
    Ok(length)
}

// How many bytes a list has that is laid from an address with so much room; or its refusal.
#[tactic(auto, unfolding(crate::specs::Laying::lay_of, crate::specs::Entries::rows_in, ground::specs::Choice::pick))]
pub fn measure(list: &[u16], address: u16, room: usize) -> Result<usize, Refusal>
    ensures { result ≡ answer_of (lay_of list.now address room) }
{
    if MOST_ROWS < list.len() / CELLS {
        return Err(Refusal::OverLimit);
    }
    measure_rows(list, address, room)
}

// Stores the bytes of each row after those of the row before it.
fn store_rows(list: &[u16], address: u16, out: &mut [u8])
    ensures { out.new ≡ put out.old 0 (bytes_from (entries_of list.now) address) }
{
    let mut length: usize = 0;
    for row in 0..list.len() / CELLS {
        let built = built_at(list, row * CELLS, address as usize + length);
        length += store_built(built, out, length);
    }
}

// Lays the list into the front of the buffer, and says how many bytes it has. Nothing is stored before the whole list is accepted, so that a
// refusal leaves the buffer as it was.
#[tactic(auto, using(crate::proofs::Answers::buffer_laid, crate::proofs::Answers::buffer_kept))]
pub fn lay(list: &[u16], address: u16, out: &mut [u8]) -> Result<usize, Refusal>
    ensures answer { result ≡ answer_of (lay_of list.now address (length out.old)) }
    ensures buffer { out.new ≡ buffer_of (lay_of list.now address (length out.old)) out.old }
{
    let length = measure(list, address, out.len())?;
    store_rows(list, address, out);
    Ok(length)
}
