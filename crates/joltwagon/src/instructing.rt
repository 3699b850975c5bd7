// Instructions: made of a record, built fresh, and built again as kept.
ghost use Rattle.std.specs.Prelude.{◌≡◌, length};
ghost use Rattle.answers.specs.Said.{refusal_of, cells_after};
ghost use Rattle.instruction.specs.Sequences.{told_of};
ghost use Rattle.joltwagon.specs.Instructing.{front_cells, built_said, make_said, assemble_said, build_said};

use crate::kept::{is_kept, is_present, kept_cells, present_of};
use answers::{flag, hand, hand_both, wide};
use entries::{entry_of, kept_of, page_in};
use ground::refusals::Refusal;
use instruction::{Built, Instruction, Refused, assemble};

pub(crate) const RECORD: usize = 21;

pub(crate) const BUILD: usize = 25;

// The length, the five bytes, and whether this instruction leaves the page unknown: else the page is as before.
fn front_cells(b: Built) -> [u16; 7]
    ensures { result ≡ front_cells b }
{
    let bytes = b.bytes;
    [
        b.length as u16,
        wide(bytes[0]),
        wide(bytes[1]),
        wide(bytes[2]),
        wide(bytes[3]),
        wide(bytes[4]),
        flag(b.dirties),
    ]
}

pub(crate) fn hand_built(built: Result<Built, Refusal>, answer: &mut [u16]) -> u8
    ensures value { result ≡ refusal_of (built_said built) (length answer.old) }
    ensures answer_after { answer.new ≡ cells_after (built_said built) answer.old }
{
    match built {
        Ok(b) => {
            let instruction = b.instruction;
            let front = front_cells(b);
            let kept = kept_cells(instruction);
            hand_both(0, &front, &kept, answer)
        }
        Err(n) => n.number(),
    }
}

// Beside a refusal the kept instruction stays as it was, so its row is not handed out.
fn told(built: Result<Built, Refused>) -> Result<Built, Refusal>
    ensures { result ≡ told_of built }
{
    match built {
        Ok(b) => Ok(b),
        Err(refused) => Err(refused.refusal),
    }
}

// Makes an instruction of a record: the answer is its row.
#[unsafe(no_mangle)]
pub extern "C" fn jw_make(row: &[u16], answer: &mut [u16]) -> u8
    ensures value { result ≡ refusal_of (make_said row.now) (length answer.old) }
    ensures answer_after { answer.new ≡ cells_after (make_said row.now) answer.old }
{
    if row.len() < RECORD {
        return Refusal::Unknown as u8;
    }
    match Instruction::make(entry_of(row)) {
        Ok(instruction) => {
            let kept = kept_cells(instruction);
            hand(0, &kept, answer)
        }
        Err(n) => n.number(),
    }
}

// A fresh instruction, made and built from one record.
#[unsafe(no_mangle)]
pub extern "C" fn jw_assemble(row: &[u16], address: u16, answer: &mut [u16]) -> u8
    ensures value { result ≡ refusal_of (assemble_said row.now address) (length answer.old) }
    ensures answer_after { answer.new ≡ cells_after (assemble_said row.now address) answer.old }
{
    if row.len() < RECORD {
        return Refusal::Unknown as u8;
    }
    hand_built(assemble(entry_of(row), address), answer)
}

// Builds a kept instruction with the page and the values of the moment: the answer holds its bytes and its new row.
#[unsafe(no_mangle)]
pub extern "C" fn jw_build(kept: &[u16], present: &[u16], address: u16, answer: &mut [u16]) -> u8
    ensures value { result ≡ refusal_of (build_said kept.now present.now address) (length answer.old) }
    ensures answer_after { answer.new ≡ cells_after (build_said kept.now present.now address) answer.old }
{
    let sound = is_kept(kept) & is_present(present);
    if sound {
        let instruction = kept_of(kept);
        let values = present_of(present);
        let page = page_in(present, 0);
        return hand_built(told(instruction.build(values, page, address)), answer);
    }
    Refusal::Unknown as u8
}
