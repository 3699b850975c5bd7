// The lent tables of objects and values: whether they say objects at all (1), and whether each byte has an address (18). Kinds, counts and
// widths are a caller's cells and no enum: a table may hold anything.
ghost use Rattle.std.specs.Prelude.{◌≡◌, false, ◌/◌, eqb, length};
ghost use Rattle.ground.specs.Choice.{pick};
ghost use Rattle.records.specs.Objects.{data_of, objects_of, count_of, fits, bad_values, bad_objects, faulty, too_far};

// A value's width is 8 or 16, and the number fits it.
#[tactic(auto, unfolding(crate::specs::Objects::fits))]
fn fits(number: u16, width: u16) -> bool
    ensures { result ≡ fits number width }
{
    if width == 8 {
        number < 256
    } else {
        width == 16
    }
}

// A value whose width is unknown or too narrow for it.
fn bad_values(mut values: &[u16]) -> bool
    ensures { result ≡ bad_values values.now }
{
    while let [number, width, rest @ ..] = values {
        if !fits(*number, *width) {
            return true;
        }
        values = rest;
    }
    false
}

// How many values an object has: its count, and none without data.
#[tactic(auto, unfolding(crate::specs::Objects::count_of, ground::specs::Choice::pick))]
pub(crate) fn count_of(kind: u16, count: u16) -> u16
    ensures { result ≡ count_of kind count }
{
    if kind == 1 { count } else { 0 }
}

// An object of unknown kind, or one that counts more values than are left.
#[tactic(auto, using(crate::proofs::Tables::bad_next))]
fn bad_objects(mut objects: &[u16], values: usize) -> bool
    ensures { result ≡ bad_objects values objects.now }
{
    let mut left = values;
    while let [kind, _, count, rest @ ..] = objects {
        let own = count_of(*kind, *count) as usize;
        if 1 < *kind || left < own {
            return true;
        }
        left -= own;
        objects = rest;
    }
    false
}

// Refusal 1.
#[tactic(auto, unfolding(crate::specs::Objects::faulty))]
pub(crate) fn is_faulty(objects: &[u16], values: &[u16]) -> bool
    ensures { result ≡ faulty objects.now values.now }
{
    bad_values(values) || bad_objects(objects, values.len() / 2)
}

// How many bytes a value has.
#[tactic(auto, unfolding(ground::specs::Choice::pick))]
fn size(width: u16) -> usize
    ensures { result ≡ pick (eqb width 16) 2 1 }
{
    if width == 16 { 2 } else { 1 }
}

// How many bytes some values have.
#[tactic(auto, using(crate::proofs::Tables::size_next, crate::proofs::Tables::data_short))]
fn size_of(mut values: &[u16]) -> usize
    ensures { result ≡ length (data_of values.now) }
{
    let mut total = 0;
    while let [_, width, rest @ ..] = values {
        total += size(*width);
        values = rest;
    }
    total
}

// Refusal 18. An object without data has no bytes, and its address is never beyond.
#[tactic(auto, using(crate::proofs::Tables::far_next, crate::proofs::Tables::values_there, crate::proofs::Tables::good_next, crate::proofs::Tables::data_short))]
pub(crate) fn is_too_far(mut objects: &[u16], mut values: &[u16]) -> bool
    requires { bad_objects (length values.now / 2) objects.now ≡ false }
    ensures { result ≡ too_far (objects_of objects.now values.now) }
{
    while let [kind, address, count, rest @ ..] = objects {
        let first = *address as usize;
        let count = count_of(*kind, *count) as usize;
        if 0 < count {
            let (own, later) = values.split_at(2 * count);
            if 65536 < first + size_of(own) {
                return true;
            }
            values = later;
        }
        objects = rest;
    }
    false
}
