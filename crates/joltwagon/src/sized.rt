// A size, or the refusal in its place: what those calls answer that write to a lent buffer.
ghost use Rattle.std.specs.Prelude.{◌≡◌, length};
ghost use Rattle.answers.specs.Said.{refusal_of, cells_after};
ghost use Rattle.answers.specs.Steps.{late_of};
ghost use Rattle.joltwagon.specs.Sizes.{size_said};

use answers::{hand, late, size};
use ground::refusals::Refusal;

// The refusal; or 9 where the slice is too short; else the size stands at its front, in four cells.
#[tactic(auto, using(crate::proofs::Sizes::size_refused), unfolding(crate::specs::Sizes::size_said))]
pub(crate) fn hand_size(sized: Result<usize, Refusal>, answer: &mut [u16]) -> u8
    ensures value { result ≡ refusal_of (size_said sized) (length answer.old) }
    ensures answer_after { answer.new ≡ cells_after (size_said sized) answer.old }
{
    match sized {
        Ok(n) => hand(0, &size(n), answer),
        Err(refusal) => refusal.number(),
    }
}

// The refusal where the slice is too short: its own, and 9 where it has none.
#[tactic(auto, unfolding(crate::specs::Sizes::size_said))]
pub(crate) fn late_size(sized: Result<usize, Refusal>) -> u8
    ensures { result ≡ late_of (size_said sized).refusal }
{
    match sized {
        Ok(_) => late(0),
        Err(refusal) => late(refusal.number()),
    }
}
