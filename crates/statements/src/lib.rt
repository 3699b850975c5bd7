// Statements: a row of a lent list, what it does at an address, and the values that it puts into its object.
#![tactic(auto)]

mod asking;
pub mod effects;
pub mod listing;
pub mod lone;
pub mod objects;
mod order;

ghost use Rattle.std.specs.Prelude.{◌≡◌};
ghost use Rattle.statements.specs.Turns.{turned};

use ground::refusals::Refusal;
use instruction::Operand;
use values::pages::Page;

// What a row is: `first` and `count` are places among the lent items, a `node` may be none, SETDP's `number` is itself.
#[derive(Clone, Copy)]
pub enum Statement {
    Label,
    Instruction { node: u16 },
    Rmb { node: u16 },
    Fcb { first: u16, count: u16 },
    Fdb { first: u16, count: u16 },
    Fcc { first: u16, count: u16 },
    Org { node: u16 },
    Setdp { number: u16 },
    Unknown,
}

// The operand of an instruction's row, of no known operation where a flag is neither 0 nor 1; and the number in the row, whose smallest size counts even then.
#[derive(Clone, Copy)]
pub struct Entry {
    pub operation: u8,
    pub operand: Operand,
}

// What an item stands for: a value of FCB, a value of FDB, or a character of FCC.
#[derive(Clone, Copy)]
pub(crate) enum Datum {
    Byte,
    Word,
    Character,
}

// What a statement does to the page: it keeps it, leaves it unknown, or sets it to a high byte.
#[derive(Clone, Copy)]
pub enum Turn {
    Keeps,
    Forgets,
    Sets(u8),
}

impl Turn {
    // The page after a statement.
    pub fn turns(self, page: Page) -> Page
        ensures { result ≡ turned self page }
    {
        match self {
            Turn::Keeps => page,
            Turn::Forgets => Page::Unknown,
            Turn::Sets(high) => Page::Known(high),
        }
    }
}

// What a statement does: its refusal, what it counts even beside one, where an ORG moves to, and what it does to the page.
#[derive(Clone, Copy)]
pub struct Effect {
    pub refusal: Option<Refusal>,
    pub size: u32,
    pub to: Option<u16>,
    pub turn: Turn,
}
