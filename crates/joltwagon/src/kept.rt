// A kept instruction as a row of cells, and what a build takes anew (docs/ROWS.md).
ghost use Rattle.std.specs.Prelude.{◌≡◌};
ghost use Rattle.joltwagon.specs.Kept.{is_kept, kept_cells, is_present, present_of};

use answers::{flag, wide};
use entries::{byte_in, flag_in, is_flag, is_page_in};
use ground::tables::cell_or;
use instruction::{Instruction, Values};
use values::Value;

const KEPT: usize = 18;

const PRESENT: usize = 6;

pub(crate) fn is_kept(row: &[u16]) -> bool
    ensures { result ≡ is_kept row.now }
{
    KEPT <= row.len()
}

// The row that `entries::kept_of` reads.
pub(crate) fn kept_cells(i: Instruction) -> [u16; 18]
    ensures { result ≡ kept_cells i }
{
    let o = i.operand;
    let named = o.registers;
    [
        o.operation as u16,
        o.mode as u16,
        flag(o.indirect),
        flag(o.forced),
        o.step as u16,
        flag(o.widening),
        o.count as u16,
        wide(named[0]),
        wide(named[1]),
        wide(named[2]),
        wide(named[3]),
        wide(named[4]),
        wide(named[5]),
        wide(named[6]),
        wide(named[7]),
        i.form as u16,
        flag(i.trial),
        flag(i.widened),
    ]
}

pub(crate) fn is_present(row: &[u16]) -> bool
    ensures { result ≡ is_present row.now }
{
    if row.len() < PRESENT {
        return false;
    }
    is_page_in(row, 0) & is_flag(row, 1)
}

// The values of a build; the page is the row's first cell.
pub(crate) fn present_of(row: &[u16]) -> Values
    ensures { result ≡ present_of row.now }
{
    let given = flag_in(row, 1);
    let unsigned = Value {
        number: cell_or(row, 2, 0),
        width: byte_in(row, 3),
    };
    let signed = Value {
        number: cell_or(row, 4, 0),
        width: byte_in(row, 5),
    };
    Values {
        given,
        unsigned,
        signed,
    }
}
