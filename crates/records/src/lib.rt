// Objects in lent tables, written as Intel's hexadecimal text.
#![tactic(auto)]

pub mod hex;
mod lines;
mod objects;
mod walk;

ghost use Rattle.std.specs.Prelude.{◌≡◌, ◌^◌, ◌<◌, length};
ghost use Rattle.records.specs.Written.{written_of, buffer_of, longest};

use ground::refusals::Refusal;
use objects::{is_faulty, is_too_far};
use walk::walk;

// How long the text is, for a writer that has that much room. Nothing is stored where there is no buffer, so the walk then only measures.
#[tactic(auto, using(crate::proofs::Answers::counts_right), unfolding(crate::specs::Written::written_of, ground::specs::Choice::pick))]
fn answer(objects: &[u16], values: &[u16], room: usize) -> Result<usize, Refusal>
    requires { room < 2 ^ 63 }
    ensures { result ≡ written_of objects.now values.now room }
{
    if is_faulty(objects, values) {
        return Err(Refusal::Unknown);
    }
    if is_too_far(objects, values) {
        return Err(Refusal::Beyond);
    }
    let mut nowhere = [0; 0];
    let end = walk(objects, values, &mut nowhere, room);
    if room < end {
        return Err(Refusal::NoRoom);
    }
    Ok(end)
}

// No slice has more bytes.
const LONGEST: usize = usize::MAX / 2;

// Two tables of cells and no list of objects: a C caller lends them so.
// How long the text of the objects is, for a caller that has yet to find a buffer. Refused 1 or 18 as `write_text` is, and 9 where no
// buffer could hold the text.
pub fn text_size(objects: &[u16], values: &[u16]) -> Result<usize, Refusal>
    ensures { result ≡ written_of objects.now values.now longest }
{
    answer(objects, values, LONGEST)
}

// Writes the text of the objects to the front of a buffer, and says how long it is. Refused 1 where the tables do not say objects, else 18 where
// a byte lies beyond 65535, else 9 where the buffer is too short; the buffer is then as it was.
#[tactic(auto, using(crate::proofs::Answers::accepted, crate::proofs::Answers::buffer_written), unfolding(crate::specs::Written::buffer_of))]
pub fn write_text(objects: &[u16], values: &[u16], out: &mut [u8]) -> Result<usize, Refusal>
    ensures value { result ≡ written_of objects.now values.now (length out.old) }
    ensures out_after { out.new ≡ buffer_of objects.now values.now out.old }
{
    let length = answer(objects, values, out.len())?;
    walk(objects, values, out, length);
    Ok(length)
}
