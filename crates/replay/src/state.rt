// What a line leaves for the lines after it.
use instruction::{Instruction, Operand, Values};
use values::Value;

// How many answers were compared, how many of them by a listed difference, and how many differ.
#[derive(Clone, Copy)]
pub(crate) struct Tally {
    pub(crate) compared: u64,
    pub(crate) listed: u64,
    pub(crate) differing: u64,
}

// The tally and the line's number; the instruction that is kept; the last pair of values; how much of the two tables is in use; and the text that was
// written.
#[derive(Clone, Copy)]
pub(crate) struct State {
    pub(crate) tally: Tally,
    pub(crate) line: u64,
    pub(crate) marked: bool,
    pub(crate) instruction: Instruction,
    pub(crate) values: Values,
    pub(crate) rows: usize,
    pub(crate) cells: usize,
    pub(crate) written: usize,
    pub(crate) read: usize,
    pub(crate) sound: bool,
}

fn no_values() -> Values {
    let none = Value {
        number: 0,
        width: 8,
    };
    Values {
        given: false,
        unsigned: none,
        signed: none,
    }
}

fn no_instruction() -> Instruction {
    let operand = Operand {
        operation: 255,
        mode: 0,
        indirect: false,
        forced: false,
        registers: [0; 8],
        count: 0,
        step: 0,
        widening: false,
    };
    Instruction {
        operand,
        form: 0,
        trial: false,
        widened: false,
    }
}

pub(crate) fn start() -> State {
    let tally = Tally {
        compared: 0,
        listed: 0,
        differing: 0,
    };
    State {
        tally,
        line: 0,
        marked: false,
        instruction: no_instruction(),
        values: no_values(),
        rows: 0,
        cells: 0,
        written: 0,
        read: 0,
        sound: true,
    }
}

// One more if so, as far as numbers go.
fn counted(n: u64, so: bool) -> u64 {
    if 4294967295 < n {
        return n;
    }
    if so { n + 1 } else { n }
}

impl State {
    // One line more.
    pub(crate) fn entered(mut self) -> State {
        self.line = counted(self.line, true);
        self
    }

    // The next answer is one where the Rust differs by a number of the list.
    pub(crate) fn mark(mut self) -> State {
        self.marked = true;
        self
    }

    // One answer compared.
    pub(crate) fn compared(mut self, differs: bool) -> State {
        let tally = self.tally;
        let next = Tally {
            compared: counted(tally.compared, true),
            listed: counted(tally.listed, self.marked),
            differing: counted(tally.differing, differs),
        };
        self.tally = next;
        self.marked = false;
        self
    }
}
