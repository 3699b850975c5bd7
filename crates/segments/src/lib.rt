// Segments: the starts other than 0, sorted, in the first `count` places of a lent table. 0 is always a start and is never stored.
#![tactic(auto)]

ghost use Rattle.std.specs.Prelude.{◌≡◌, ◌<◌, ◌-◌, length, take};
ghost use Rattle.segments.specs.Segments.{holds_of, inserted, counted_of, added_to, table_after, segment_in, segment_of};
ghost use Rattle.segments.specs.Steps.{narrowed_by};

use ground::refusals::Refusal;

// With 0 they are 64 segments.
const MOST_STARTS: usize = 63;

#[derive(Clone, Copy)]
pub struct Segment {
    pub left: u16,
    pub right: u16,
}

// Adds a start, and gives the count after it: 12 if it is there, 17 if 64 segments are, 9 if the table is full. 0 again is free. A refusal leaves the
// table as it was.
// A buffer with the count beside it: it is lent, by callers in C too, and kept between the calls (docs/ROWS.md).
#[tactic(auto, using(crate::proofs::Laws::added_next, crate::proofs::Laws::lent_length, crate::proofs::Laws::take_front), unfolding(crate::specs::Segments::added_to, crate::specs::Segments::table_after, crate::specs::Segments::placed, ground::specs::Choice::pick))]
pub fn add(starts: &mut [u16], count: usize, start: u16) -> Result<usize, Refusal>
    ensures answer { result ≡ added_to starts.old count start }
    ensures table { starts.new ≡ table_after starts.old count start }
{
    if start == 0 {
        return Ok(count);
    }
    let next = counted(starts, count, start)?;
    insert(&mut starts[..next], start);
    Ok(next)
}

// The segment that an address lies in, both ends counted.
#[tactic(auto, using(crate::proofs::Laws::take_used), unfolding(crate::specs::Segments::segment_of))]
pub fn segment_of(starts: &[u16], count: usize, address: u16) -> Segment
    ensures { result ≡ segment_of starts.now count address }
{
    let used = count.min(starts.len());
    segment_in(&starts[..used], address)
}

// The count after a start other than 0, or why there is none.
#[tactic(auto, unfolding(crate::specs::Segments::counted_of, ground::specs::Choice::pick))]
fn counted(starts: &[u16], count: usize, start: u16) -> Result<usize, Refusal>
    ensures { result ≡ counted_of starts.now count start }
{
    if holds(starts, count, start) {
        return Err(Refusal::SegmentRepeated);
    }
    if MOST_STARTS <= count {
        return Err(Refusal::OverLimit);
    }
    if starts.len() <= count {
        return Err(Refusal::NoRoom);
    }
    Ok(count + 1)
}

// The start is in use. A count beyond the table is the whole table.
#[tactic(auto, using(crate::proofs::Laws::take_used), unfolding(crate::specs::Segments::holds_of))]
fn holds(starts: &[u16], count: usize, start: u16) -> bool
    ensures { result ≡ holds_of start (take count starts.now) }
{
    let used = count.min(starts.len());
    starts[..used].contains(&start)
}

// Puts a start among the numbers but the last, whose place is free: the lower one stays, the higher one is carried on.
#[tactic(auto, using(crate::proofs::Laws::put_more, crate::proofs::Laws::put_end))]
fn insert(starts: &mut [u16], start: u16)
    requires { 0 < length starts.old }
    ensures { starts.new ≡ inserted start (take (length starts.old - 1) starts.old) }
{
    let last = starts.len() - 1;
    let mut carry = start;
    for i in 0..last {
        let here = starts[i];
        starts[i] = carry.min(here);
        carry = carry.max(here);
    }
    starts[last] = carry;
}

#[tactic(auto, using(crate::proofs::Laws::onward_first, crate::proofs::Laws::onward_more, crate::proofs::Laws::onward_end))]
fn segment_in(starts: &[u16], address: u16) -> Segment
    ensures { result ≡ segment_in address starts.now }
{
    let mut found = Segment {
        left: 0,
        right: 65535,
    };
    for start in starts {
        found = narrowed(found, address, *start);
    }
    found
}

// A segment that holds the address, cut off at one start more.
#[tactic(auto, unfolding(crate::specs::Steps::narrowed_by, ground::specs::Choice::pick))]
fn narrowed(found: Segment, address: u16, start: u16) -> Segment
    ensures { result ≡ narrowed_by address start found }
{
    if start <= address {
        Segment {
            left: found.left.max(start),
            right: found.right,
        }
    } else {
        Segment {
            left: found.left,
            right: found.right.min(start - 1),
        }
    }
}
