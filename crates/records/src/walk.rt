// The walk over the objects and their values, from which the records come.
ghost use Rattle.std.specs.Prelude.{◌≡◌, false, [], ◌∷◌, map, ◌++◌, ◌+◌, ◌/◌, ◌^◌, ◌<◌, ◌≤◌, length};
ghost use Rattle.ground.specs.Stores.{Wrote};
ghost use Rattle.records.specs.Objects.{bytes_of, objects_of, bad_objects, too_far};
ghost use Rattle.records.specs.Text.{Start, Byte, events, text_of};
ghost use Rattle.records.specs.Steps.{holding, first, ahead, Restarted, Goes, Passed, Walked};

use super::lines::put_line;

// The present record: where it starts and how many bytes it has so far; and where the text goes on. Its bytes stand in a lent array of 32:
// in the record itself they would be copied for each byte. Each step states its own bounds: they differ from step to step.
#[derive(Clone, Copy)]
pub(crate) struct Open {
    start: usize,
    n: usize,
    at: usize,
}

impl Open {
    // Closes the record, which is written where it has bytes, and begins one at another address.
    fn restart(self, bytes: &[u8], out: &mut [u8], start: usize) -> Open
        requires { (length bytes.now ≡ 32) × (self.n ≤ 32) × (self.start + self.n ≤ 65536) × (self.at + 76 < 2 ^ 64) }
        ensures { Restarted out.old (holding self bytes.now) start (holding result bytes.now) out.new }
    {
        let n = self.n;
        let at = self.at;
        if n == 0 {
            return Open { start, n, at };
        }
        let next = put_line(out, at, 0, self.start as u16, &bytes[..n]);
        Open {
            start,
            n: 0,
            at: next,
        }
    }

    // An object with data at an address: a new record, where it is not the next one.
    fn begin(self, bytes: &[u8], out: &mut [u8], address: usize) -> Open
        requires { (length bytes.now ≡ 32) × (self.n < 32) × (self.start + self.n ≤ 65536) × (self.at + 76 < 2 ^ 64) }
        ensures { Goes out.old (holding self bytes.now) (λ es. Start address ∷ es) address (holding result bytes.now) out.new }
    {
        if address == self.start + self.n {
            self
        } else {
            self.restart(bytes, out, address)
        }
    }

    // One byte more; the record is closed the moment it has 32.
    fn byte(self, bytes: &mut [u8], out: &mut [u8], b: u8) -> Open
        requires { (length bytes.old ≡ 32) × (self.n < 32) × (self.start + self.n < 65536) × (self.at + 76 < 2 ^ 64) }
        ensures goes { Goes out.old (holding self bytes.old) (λ es. Byte b ∷ es) (self.start + self.n + 1) (holding result bytes.new) out.new }
        ensures at_bound { result.at ≤ self.at + 76 }
    {
        let start = self.start;
        let n = self.n;
        let at = self.at;
        bytes[n] = b;
        let grown = Open {
            start,
            n: n + 1,
            at,
        };
        if n + 1 == 32 {
            grown.restart(bytes, out, start + 32)
        } else {
            grown
        }
    }

    // The byte of a value of 8 bits, or the two of one of 16.
    #[tactic(auto, unfolding(crate::specs::Objects::bytes_of, ground::specs::Choice::pick))]
    fn value(self, bytes: &mut [u8], out: &mut [u8], number: u16, width: u16) -> Open
        requires { (length bytes.old ≡ 32) × (self.n < 32) × (self.start + self.n + length (bytes_of number width) ≤ 65536) × (self.at + 152 < 2 ^ 64) }
        ensures { Goes out.old (holding self bytes.old) (λ es. map Byte (bytes_of number width) ++ es) (self.start + self.n + length (bytes_of number width)) (holding result bytes.new) out.new }
    {
        let low = (number % 256) as u8;
        if width == 16 {
            let half = self.byte(bytes, out, (number / 256) as u8);
            half.byte(bytes, out, low)
        } else {
            self.byte(bytes, out, low)
        }
    }

    // Closes the last record and writes the end record; the answer is where the text ends.
    fn finish(self, bytes: &[u8], out: &mut [u8]) -> usize
        requires { (length bytes.now ≡ 32) × (self.n < 32) × (self.start + self.n ≤ 65536) × (self.at + 88 < 2 ^ 64) }
        ensures { Wrote out.old self.at (ahead (holding self bytes.now) []) result out.new }
    {
        let last = self.restart(bytes, out, 0);
        let at = last.at;
        put_line(out, at, 1, 0, &bytes[..0])
    }
}

// The records of the objects, but for the last; lent an array for the bytes of the present one. Once the walk is past the room, it leaves both
// loops: what the buffer holds then is of no use.
fn pass(
    mut objects: &[u16],
    mut values: &[u16],
    bytes: &mut [u8],
    out: &mut [u8],
    room: usize,
) -> Open
    requires { (length bytes.old ≡ 32) × (bad_objects (length values.now / 2) objects.now ≡ false) × (too_far (objects_of objects.now values.now) ≡ false) × (room < 2 ^ 63) }
    ensures { Passed out.old (first bytes.old) (events (objects_of objects.now values.now)) room (holding result bytes.new) out.new }
{
    let mut present = Open {
        start: 0,
        n: 0,
        at: 0,
    };
    // Labelled loops, one in the other, as document 01 asks: what ends the writing leaves both.
    'objects: while let [kind, address, count, rest @ ..] = objects {
        objects = rest;
        if *kind != 1 {
            continue 'objects;
        }
        present = present.begin(bytes, out, *address as usize);
        if room < present.at {
            break 'objects;
        }
        let (mut own, later) = values.split_at(2 * *count as usize);
        values = later;
        'values: while let [number, width, more @ ..] = own {
            present = present.value(bytes, out, *number, *width);
            if room < present.at {
                break 'objects;
            }
            own = more;
        }
    }
    present
}

// Writes the text of the objects, and says where it ends; where the text is longer than the room, the answer is some place past the room.
#[tactic(auto, using(crate::proofs::Rounds::walked_over, crate::proofs::Rounds::walked_done), unfolding(crate::specs::Text::text_of, crate::specs::Text::recs))]
pub(crate) fn walk(objects: &[u16], values: &[u16], out: &mut [u8], room: usize) -> usize
    requires { (bad_objects (length values.now / 2) objects.now ≡ false) × (too_far (objects_of objects.now values.now) ≡ false) × (room < 2 ^ 63) }
    ensures { Walked out.old (text_of objects.now values.now) room result out.new }
{
    let mut bytes = [0; 32];
    let last = pass(objects, values, &mut bytes, out, room);
    if room < last.at {
        last.at
    } else {
        last.finish(&bytes, out)
    }
}
