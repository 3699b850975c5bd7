// Of two refusals of one statement, which is given.
ghost use Rattle.std.specs.Prelude.{◌≡◌};
ghost use Rattle.statements.specs.Order.{place_of, earlier};

use ground::refusals::Refusal;

// The place of a refusal in 01's order. No refusal comes last.
#[tactic(auto, unfolding(crate::specs::Order::place_of, ground::specs::Choice::pick))]
fn place(refusal: Option<Refusal>) -> u8
    ensures { result ≡ place_of refusal }
{
    match refusal {
        Some(Refusal::Unknown) => 0,
        Some(Refusal::NoSuchMode) => 1,
        Some(Refusal::TooDeep) => 2,
        Some(Refusal::BadLabel) => 3,
        Some(Refusal::ValueMissing) => 4,
        Some(Refusal::SegmentRepeated) => 5,
        Some(Refusal::OverLimit) => 6,
        Some(Refusal::DirectNotAllowed) => 7,
        Some(Refusal::BadWidth) => 8,
        Some(Refusal::SingleStepIndirect) => 9,
        Some(Refusal::BadRegister) => 10,
        Some(Refusal::BranchTooFar) => 11,
        Some(Refusal::NoRoom) => 12,
        Some(_) => 13,
        None => 14,
    }
}

#[tactic(auto, unfolding(crate::specs::Order::earlier, ground::specs::Choice::pick))]
pub(crate) fn earlier(a: Option<Refusal>, b: Option<Refusal>) -> Option<Refusal>
    ensures { result ≡ earlier a b }
{
    let first = place(a) <= place(b);
    if first { a } else { b }
}
