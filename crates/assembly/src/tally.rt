// How long the text of objects is, from their addresses and sizes alone, before any of them is stored.
ghost use Rattle.std.specs.Prelude.{◌≡◌, ◌+◌, ◌≤◌, ◌<◌};
ghost use Rattle.assembly.specs.Steps.{closed_length, started, grown, tallied, end_of};

// How many bytes a record has at most, and how many characters its line then has.
const MOST_BYTES: usize = 32;

const LONGEST_LINE: usize = 76;

// The colon, count, address, type, check and line feed of a line.
const LINE: usize = 12;

// The address after the present record, how many bytes it has, and how many characters the closed ones have.
#[derive(Clone, Copy)]
pub(crate) struct Tally {
    pub next: usize,
    pub held: usize,
    pub length: usize,
}

impl Tally {
    // The characters once the present record is closed.
    #[tactic(auto, unfolding(crate::specs::Steps::closed_length, ground::specs::Choice::pick))]
    fn closed(self) -> usize
        requires { (self.held < 32) × (self.length < 4294967296) }
        ensures { result ≡ closed_length self }
    {
        if self.held == 0 {
            return self.length;
        }
        self.length + LINE + 2 * self.held
    }

    // An object with data not at the next address starts a new record.
    #[tactic(auto, unfolding(crate::specs::Steps::started, ground::specs::Choice::pick))]
    fn start(self, address: usize) -> Tally
        requires { (self.held < 32) × (self.length < 4294967296) }
        ensures { result ≡ started address self }
    {
        if address == self.next {
            return self;
        }
        Tally {
            next: address,
            held: 0,
            length: self.closed(),
        }
    }

    // So many bytes more; a record is closed the moment it has 32.
    #[tactic(auto, unfolding(crate::specs::Steps::grown))]
    fn grow(self, size: usize) -> Tally
        requires { (self.next ≤ 131072) × (self.held < 32) × (self.length < 8589934592) × (size ≤ 65536) }
        ensures { result ≡ grown size self }
    {
        let bytes = self.held + size;
        Tally {
            next: self.next + size,
            held: bytes % MOST_BYTES,
            length: self.length + LONGEST_LINE * (bytes / MOST_BYTES),
        }
    }

    // An object at an address; only one with data is written. Its kind is a number and no enum: the rows that are lent hold it (docs/ROWS.md).
    #[tactic(auto, using(crate::proofs::Tallies::started_short, crate::proofs::Tallies::started_next), unfolding(crate::specs::Steps::tallied, ground::specs::Choice::pick))]
    pub(crate) fn object(self, kind: u16, address: usize, size: usize) -> Tally
        requires { (self.held < 32) × (self.length < 4294967296) × (address ≤ 65536) × (size ≤ 65536) }
        ensures answer { result ≡ tallied kind address size self }
        ensures bound { (result.held < 32) × (result.length ≤ self.length + 200000) }
    {
        if kind != 1 {
            return self;
        }
        self.start(address).grow(size)
    }

    // The length of the whole text: the end record comes last.
    #[tactic(auto, using(crate::proofs::Tallies::closed_short), unfolding(crate::specs::Steps::end_of))]
    pub(crate) fn end(self) -> usize
        requires { (self.held < 32) × (self.length < 4294967296) }
        ensures { result ≡ end_of self }
    {
        self.closed() + LINE
    }
}
