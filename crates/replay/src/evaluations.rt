// Expressions by hand, a piece a line: `z` begins anew, `n` and `l` are rows of the two tables, `?` NODE LOCATION and the two values, each a number and 1
// where it is wide, or `-` and a refusal, asks a node; `>` names an operand, and `e` builds it with the values of the last question.
ghost use Rattle.std.specs.Prelude.{◌<◌};

use crate::builds;
use crate::lines::{four, has, number_in, one};
use crate::state::State;
use crate::tables::{store_row, used};
use expressions::Evaluated;
use ground::refusals::Refusal;
use ground::tables::cell_or;
use instruction::{Record, Values};
use values::Value;
use values::pages::Page;

// The row of a line.
fn row(table: &mut [u16], at: usize, line: &[u8]) -> usize {
    store_row(table, at, four(line, 1), four(line, 5), four(line, 9))
}

fn node(mut s: State, line: &[u8], nodes: &mut [u16]) -> State {
    s.rows = row(nodes, s.rows, line);
    s
}

fn label(mut s: State, line: &[u8], labels: &mut [u16]) -> State {
    s.cells = row(labels, s.cells, line);
    s
}

fn is_value(v: Value, line: &[u8], at: usize) -> bool
    requires { at < 20 }
{
    (v.number == four(line, at)) & ((v.width == 16) == has(line, at + 4, 1))
}

fn differs(found: Result<Evaluated, Refusal>, line: &[u8]) -> bool {
    if cell_or(line, 9, 0) == b'-' {
        return number_in(found.err()) != one(line, 10);
    }
    match found {
        Ok(both) => {
            let unsigned = both.unsigned;
            let signed = both.signed;
            !(is_value(unsigned, line, 9) & is_value(signed, line, 14))
        }
        Err(_) => true,
    }
}

// What a build takes of a question. A refused one has no values: 0 of no width, which every build refuses.
fn asked(found: Result<Evaluated, Refusal>) -> Values {
    let none = Value {
        number: 0,
        width: 0,
    };
    let both = found.unwrap_or(Evaluated {
        unsigned: none,
        signed: none,
    });
    Values {
        given: true,
        unsigned: both.unsigned,
        signed: both.signed,
    }
}

fn ask(mut s: State, line: &[u8], nodes: &[u16], labels: &[u16]) -> State {
    let rows = used(nodes, s.rows);
    let cells = used(labels, s.cells);
    let found = expressions::node_pair(
        &nodes[..rows],
        &labels[..cells],
        four(line, 1),
        four(line, 5),
    );
    s.values = asked(found);
    s.compared(differs(found, line))
}

fn build(s: State, line: &[u8]) -> State {
    let i = s.instruction;
    let operand = i.operand;
    let values = s.values;
    let record = Record {
        operand,
        page: Page::Known(0),
        values,
    };
    let built = instruction::assemble(record, 0);
    s.compared(builds::differs(built, line, 1))
}

fn anew(mut s: State) -> State {
    s.rows = 0;
    s.cells = 0;
    s
}

pub(crate) fn read(s: State, line: &[u8], nodes: &mut [u16], labels: &mut [u16]) -> State {
    let kind = cell_or(line, 0, 0);
    match kind {
        b'z' => anew(s),
        b'n' => node(s, line, nodes),
        b'l' => label(s, line, labels),
        b'?' => ask(s, line, nodes, labels),
        b'>' => builds::named(s, line),
        b'e' => build(s, line),
        b'r' => s.mark(),
        _ => s.compared(true),
    }
}
