// The decoder: the instruction at the front of lent bytes, and the run of instructions in all of them.
#![tactic(auto)]

mod front;
mod operands;

ghost use Rattle.std.specs.Prelude.{◌≡◌, false};
ghost use Rattle.decoder.specs.Origin.{origin, outside};
ghost use Rattle.decoder.specs.Meaning.{parts, parts_of};
ghost use Rattle.decoder.specs.Front.{decode_of};
ghost use Rattle.decoder.specs.Run.{run_of, next_of, counted_of};

use front::{front, shift};
use ground::refusals::Refusal;
use values::pages::Page;

// What an instruction's operand is: its addressing kind, and only what that kind uses. Registers and steps go by the numbers that a row may hold
// (docs/ROWS.md).
#[derive(Clone, Copy, PartialEq, Eq)]
pub enum Kind {
    Inherent,
    Immediate {
        number: u16,
    },
    // Direct and extended are one.
    Memory {
        address: u16,
    },
    Branch {
        target: u16,
    },
    // A set: bit n is register n, D is A with B.
    Push {
        registers: u16,
    },
    Pair {
        source: u8,
        destination: u8,
    },
    // A constant offset from X, Y, U or S, sign-extended.
    Offset {
        register: u8,
        indirect: bool,
        offset: u16,
    },
    // Every form on the program counter.
    Counter {
        indirect: bool,
        target: u16,
    },
    Accumulator {
        register: u8,
        indirect: bool,
        accumulator: u8,
    },
    Step {
        register: u8,
        indirect: bool,
        step: u8,
    },
    // Extended indirect.
    Address {
        address: u16,
    },
}

// What an instruction means. Aliases are one operation.
#[derive(Clone, Copy, PartialEq, Eq)]
pub struct Meaning {
    pub operation: u8,
    pub kind: Kind,
}

// The instruction at the front of some bytes, and how many of them are its own.
#[derive(Clone, Copy, PartialEq, Eq)]
pub struct Decoded {
    pub length: u8,
    pub meaning: Meaning,
}

// A kind by its number, and its values one by one: 0 and false where the kind has none. Numbers, since C reads them (docs/ROWS.md).
#[derive(Clone, Copy)]
pub struct Parts {
    pub kind: u8,
    pub indirect: bool,
    pub step: u8,
    pub registers: u16,
    pub first: u8,
    pub second: u8,
    pub number: u16,
}

// What the reading of bytes hangs on beside them: the address at which they stand, and the page of direct addresses.
#[derive(Clone, Copy)]
pub struct Origin {
    pub address: u16,
    pub page: Page,
}

// A kind that uses nothing.
fn bare(kind: u8) -> Parts
    ensures { result ≡ parts kind false 0 0 0 0 0 }
{
    Parts {
        kind,
        indirect: false,
        step: 0,
        registers: 0,
        first: 0,
        second: 0,
        number: 0,
    }
}

impl Kind {
    pub fn in_parts(self) -> Parts
        ensures { result ≡ parts_of self }
    {
        match self {
            Kind::Inherent => bare(1),
            Kind::Immediate { number } => Parts { number, ..bare(2) },
            Kind::Memory { address } => Parts {
                number: address,
                ..bare(3)
            },
            Kind::Branch { target } => Parts {
                number: target,
                ..bare(4)
            },
            Kind::Push { registers } => Parts {
                registers,
                ..bare(5)
            },
            Kind::Pair {
                source,
                destination,
            } => Parts {
                first: source,
                second: destination,
                ..bare(6)
            },
            Kind::Offset {
                register,
                indirect,
                offset,
            } => Parts {
                indirect,
                first: register,
                number: offset,
                ..bare(7)
            },
            Kind::Counter { indirect, target } => Parts {
                indirect,
                number: target,
                ..bare(8)
            },
            Kind::Accumulator {
                register,
                indirect,
                accumulator,
            } => Parts {
                indirect,
                first: register,
                second: accumulator,
                ..bare(9)
            },
            Kind::Step {
                register,
                indirect,
                step,
            } => Parts {
                indirect,
                step,
                first: register,
                ..bare(10)
            },
            Kind::Address { address } => Parts {
                number: address,
                ..bare(11)
            },
        }
    }
}

// Some byte would lie beyond 65535.
#[tactic(auto, unfolding(crate::specs::Origin::outside))]
fn is_outside(bytes: &[u8], from: Origin) -> bool
    ensures { result ≡ outside bytes.now from }
{
    65536 < from.address as usize + bytes.len()
}

// The instruction at the front of bytes that stand from an address on.
#[tactic(auto, unfolding(crate::specs::Front::decode_of, ground::specs::Choice::pick))]
pub fn decode(bytes: &[u8], address: u16, page: Page) -> Result<Decoded, Refusal>
    ensures { result ≡ decode_of bytes.now (origin address page) }
{
    let from = Origin { address, page };
    if is_outside(bytes, from) {
        return Err(Refusal::Beyond);
    }
    front(bytes, 0, from)
}

// The instruction that begins at a place of a run, whose first byte stands at the address.
#[tactic(auto, using(crate::proofs::Origins::inside, crate::proofs::Origins::next_past), unfolding(crate::specs::Run::next_of, ground::specs::Choice::pick))]
pub fn next_of_run(bytes: &[u8], address: u16, page: Page, at: usize) -> Result<Decoded, Refusal>
    ensures { result ≡ next_of bytes.now (origin address page) at }
{
    let from = Origin { address, page };
    if is_outside(bytes, from) {
        return Err(Refusal::Beyond);
    }
    if bytes.len() <= at {
        return Err(Refusal::CutShort);
    }
    front(bytes, at, shift(from, at as u16))
}

// How many instructions a run has, from its first byte to its last.
pub fn count_run(bytes: &[u8], address: u16, page: Page) -> Result<usize, Refusal>
    ensures { result ≡ counted_of (run_of bytes.now (origin address page)) }
{
    let from = Origin { address, page };
    if is_outside(bytes, from) {
        return Err(Refusal::Beyond);
    }
    // A loop by hand: where the next instruction begins hangs on the one that was read.
    let mut at: usize = 0;
    let mut count: usize = 0;
    while at < bytes.len() {
        let read = front(bytes, at, shift(from, at as u16))?;
        at += read.length as usize;
        count += 1;
    }
    Ok(count)
}
