// Segments, in a table whose first cell is the number of starts; the starts follow it, sorted. 0 is always a start and is never stored.
ghost use Rattle.std.specs.Prelude.{◌≡◌, length};
ghost use Rattle.answers.specs.Said.{refusal_of, cells_after};
ghost use Rattle.joltwagon.specs.Placing.{add_refusal, segments_after, segment_said};

use answers::hand;
use ground::refusals::Refusal;

// Adds a start: 1 if the table has no cell, 12 if the start is there, 17 if 64 segments are counted, 9 if the table is full. 0 again is free.
#[unsafe(no_mangle)]
pub extern "C" fn jw_add_segment(segments: &mut [u16], start: u16) -> u8
    ensures value { result ≡ add_refusal segments.old start }
    ensures segments_after { segments.new ≡ segments_after segments.old start }
{
    if segments.len() == 0 {
        return Refusal::Unknown as u8;
    }
    let count = segments[0] as usize;
    match segments::add(&mut segments[1..], count, start) {
        Ok(next) => {
            segments[0] = next as u16;
            0
        }
        Err(why) => why.number(),
    }
}

// The first and the last address of the segment that an address lies in.
#[unsafe(no_mangle)]
pub extern "C" fn jw_segment_of(segments: &[u16], address: u16, answer: &mut [u16]) -> u8
    ensures value { result ≡ refusal_of (segment_said segments.now address) (length answer.old) }
    ensures answer_after { answer.new ≡ cells_after (segment_said segments.now address) answer.old }
{
    if segments.len() == 0 {
        return Refusal::Unknown as u8;
    }
    let count = segments[0] as usize;
    let found = segments::segment_of(&segments[1..], count, address);
    let cells = [found.left, found.right];
    hand(0, &cells, answer)
}
