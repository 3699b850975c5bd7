// Objects to Intel's text, and text to runs of bytes.
ghost use Rattle.std.specs.Prelude.{◌≡◌, length};
ghost use Rattle.answers.specs.Said.{refusal_of, cells_after};
ghost use Rattle.records.specs.Written.{longest, written_of};
ghost use Rattle.reader.specs.Answers.{read_of};
ghost use Rattle.joltwagon.specs.Sizes.{size_said};
ghost use Rattle.joltwagon.specs.Texts.{read_said, TextWritten, TextRead};

use crate::sized::{hand_size, late_size};
use answers::{hand_both, late, size};

// How long the text of the objects is, for a caller that has yet to find a buffer.
#[unsafe(no_mangle)]
pub extern "C" fn jw_text_size(objects: &[u16], values: &[u16], answer: &mut [u16]) -> u8
    ensures value { result ≡ refusal_of (size_said (written_of objects.now values.now longest)) (length answer.old) }
    ensures answer_after { answer.new ≡ cells_after (size_said (written_of objects.now values.now longest)) answer.old }
{
    hand_size(records::text_size(objects, values), answer)
}

// Writes the text of the objects to the front of a buffer. An answer's slice that is too short is found before anything is stored.
#[unsafe(no_mangle)]
pub extern "C" fn jw_write_text(
    objects: &[u16],
    values: &[u16],
    out: &mut [u8],
    answer: &mut [u16],
) -> u8
    ensures { TextWritten objects.now values.now out.old answer.old result out.new answer.new }
{
    if answer.len() < 4 {
        return late_size(records::text_size(objects, values));
    }
    hand_size(records::write_text(objects, values, out), answer)
}

// Reads a text: its data bytes at the front of `bytes`, one run after the other, and at the front of `runs` a row of two for each run. How many
// bytes and how many runs is the answer.
#[unsafe(no_mangle)]
pub extern "C" fn jw_read_text(
    text: &[u8],
    bytes: &mut [u8],
    runs: &mut [u16],
    answer: &mut [u16],
) -> u8
    ensures { TextRead text.now bytes.old runs.old answer.old result bytes.new runs.new answer.new }
{
    if answer.len() < 8 {
        return late(refusal_of(text));
    }
    match reader::read_text(text, bytes, runs) {
        Ok(read) => hand_both(0, &size(read.bytes), &size(read.runs), answer),
        Err(refusal) => refusal.number(),
    }
}

// What a text is refused for by itself, or for want of any room: its number, 0 for none, as C gets it.
fn refusal_of(text: &[u8]) -> u8
    ensures { result ≡ (read_said (read_of text.now 0 0)).refusal }
{
    let mut nowhere = [0; 0];
    let mut none = [0; 0];
    match reader::read_text(text, &mut nowhere, &mut none) {
        Ok(_) => 0,
        Err(refusal) => refusal.number(),
    }
}
