// A fresh build, and why it is as it is (02 a).
ghost use Rattle.std.specs.Prelude.{◌≡◌, length};
ghost use Rattle.answers.specs.Said.{refusal_of, beside, cells_after};
ghost use Rattle.why.specs.Numbers.{parts_of};
ghost use Rattle.joltwagon.specs.Explaining.{reason_cells, explained_said, why_said, field_told};

use crate::instructing::{BUILD, RECORD, hand_built};
use answers::{beside, flag, hand_both};
use ground::refusals::Refusal;
use why::{Explained, Parts, explain};

// The reason's number and its values; its field is told in the return.
fn reason_cells(p: Parts) -> [u16; 7]
    ensures { result ≡ reason_cells p }
{
    [
        p.kind as u16,
        flag(p.forced),
        flag(p.unknown),
        flag(p.elsewhere),
        p.number,
        flag(p.near),
        p.bits as u16,
    ]
}

// The build is handed out here first, so that the answer gets it with the reason behind it or not at all.
fn hand_explained(e: Explained, answer: &mut [u16]) -> u32
    ensures value { result ≡ beside (refusal_of (explained_said e) (length answer.old)) (parts_of e.reason).field }
    ensures answer_after { answer.new ≡ cells_after (explained_said e) answer.old }
{
    let mut build = [0; BUILD];
    let refused = hand_built(e.built, &mut build);
    let reason = e.reason;
    let parts = reason.in_parts();
    let cells = reason_cells(parts);
    let refusal = hand_both(refused, &build, &cells, answer);
    beside(refusal, parts.field)
}

// What jw_assemble answers, and why: the reason stands behind the build. The return has the refusal in its low 16 bits, and above them the field that it is about.
#[unsafe(no_mangle)]
pub extern "C" fn jw_why(row: &[u16], address: u16, answer: &mut [u16]) -> u32
    ensures value { result ≡ beside (refusal_of (why_said row.now address) (length answer.old)) (field_told row.now address) }
    ensures answer_after { answer.new ≡ cells_after (why_said row.now address) answer.old }
{
    if row.len() < RECORD {
        return beside(Refusal::Unknown as u8, 0);
    }
    hand_explained(explain(row, address), answer)
}
