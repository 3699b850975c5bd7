// Builds, a line each. `>` and OPERATION MODE FLAGS STEP REGISTERS name the operand; `f` makes it fresh and builds it, `k` builds what is kept: ADDRESS
// FLAGS UNSIGNED SIGNED and what must come of it, `-` and a refusal's number, or FORM and BYTES. `r` before a build has the number of a listed
// difference and what the Rust answers; without it the answer is the Rust's own, or the rules' where the Rust is asked no further, after a refusal.
ghost use Rattle.std.specs.Prelude.{◌<◌};

use crate::lines::{four, has, number_in, one, two};
use crate::state::State;
use ground::refusals::Refusal;
use ground::tables::cell_or;
use instruction::{Built, Operand, Record, Values};
use values::Value;
use values::pages::Page;

// One digit for each register that is named.
fn count(line: &[u8]) -> u8 {
    let n = line.len();
    if n < 6 {
        return 0;
    }
    if 200 < n {
        return 255;
    }
    (n - 6) as u8
}

pub(crate) fn operand(line: &[u8]) -> Operand {
    let registers = [
        one(line, 6),
        one(line, 7),
        one(line, 8),
        one(line, 9),
        one(line, 10),
        one(line, 11),
        one(line, 12),
        one(line, 13),
    ];
    Operand {
        operation: two(line, 1),
        mode: one(line, 3),
        indirect: has(line, 4, 1),
        forced: has(line, 4, 2),
        registers,
        count: count(line),
        step: one(line, 5),
        widening: has(line, 4, 4),
    }
}

// The Rust has a flag: "Known 0 answers as clean did, unknown as dirty did".
fn page(line: &[u8]) -> Page {
    if has(line, 5, 1) {
        return Page::Unknown;
    }
    Page::Known(0)
}

fn width(wide: bool) -> u8 {
    if wide { 16 } else { 8 }
}

fn values(line: &[u8]) -> Values {
    let unsigned = Value {
        number: four(line, 6),
        width: width(has(line, 5, 4)),
    };
    let signed = Value {
        number: four(line, 10),
        width: width(has(line, 5, 8)),
    };
    Values {
        given: has(line, 5, 2),
        unsigned,
        signed,
    }
}

fn differing_bytes(bytes: [u8; 5], line: &[u8], at: usize) -> bool
    requires { at < 32 }
{
    let first = (bytes[0] == two(line, at)) & (bytes[1] == two(line, at + 2));
    let second = (bytes[2] == two(line, at + 4)) & (bytes[3] == two(line, at + 6));
    !(first & second & (bytes[4] == two(line, at + 8)))
}

// The form in a digit, with 1 for a page that is left unknown.
fn form_digit(form: u8, dirties: bool) -> u16 {
    let doubled = form as u16 * 2;
    if dirties { doubled + 1 } else { doubled }
}

// The answer is not the one that stands in the line from a place on.
pub(crate) fn differs(built: Result<Built, Refusal>, line: &[u8], at: usize) -> bool
    requires { at < 16 }
{
    if cell_or(line, at, 0) == b'-' {
        return number_in(built.err()) != one(line, at + 1);
    }
    match built {
        Ok(b) => differing(b, line, at),
        Err(_) => true,
    }
}

fn differing(built: Built, line: &[u8], at: usize) -> bool
    requires { at < 16 }
{
    let instruction = built.instruction;
    let bytes = built.bytes;
    let form = form_digit(instruction.form, built.dirties);
    let alike = form == one(line, at) as u16;
    !(alike & (at + 1 + 2 * built.length as usize == line.len()))
        | differing_bytes(bytes, line, at + 1)
}

// The operand built fresh, with the values, the page and the address of the line.
fn assembled(operand: Operand, line: &[u8]) -> Result<Built, Refusal> {
    let record = Record {
        operand,
        page: page(line),
        values: values(line),
    };
    instruction::assemble(record, four(line, 1))
}

fn fresh(mut s: State, line: &[u8]) -> State {
    let i = s.instruction;
    let operand = i.operand;
    let built = assembled(operand, line);
    if let Ok(b) = built {
        s.instruction = b.instruction;
    }
    s.compared(differs(built, line, 14))
}

fn kept(mut s: State, line: &[u8]) -> State {
    let i = s.instruction;
    match i.build(values(line), page(line), four(line, 1)) {
        Ok(b) => {
            s.instruction = b.instruction;
            s.compared(differs(Ok(b), line, 14))
        }
        Err(refused) => {
            s.instruction = refused.instruction;
            s.compared(differs(Err(refused.refusal), line, 14))
        }
    }
}

pub(crate) fn named(mut s: State, line: &[u8]) -> State {
    let mut i = s.instruction;
    i.operand = operand(line);
    s.instruction = i;
    s
}

pub(crate) fn read(s: State, line: &[u8]) -> State {
    let kind = cell_or(line, 0, 0);
    match kind {
        b'>' => named(s, line),
        b'f' => fresh(s, line),
        b'k' => kept(s, line),
        b'r' => s.mark(),
        _ => s.compared(true),
    }
}
