// The sheet's opcode rows, looked up by operation and form (the encoder) or by page and code (the decoder), in the same tables.
// Each lookup reads one row, at its place in the one table that can have it.
#![tactic(auto)]

pub mod forms;
mod places;
pub mod sizes;
mod tables;

ghost use Rattle.std.specs.Prelude.{◌≡◌, slice_get};
ghost use Rattle.rows.specs.Sheet.{page0, page10, page11, table_of};
ghost use Rattle.rows.specs.Lookup.{merged_of, known_of, has_form_of, code_of, row_of};
ghost use Rattle.rows.specs.Quick.{of_operation, page_of};

use forms::*;
use ground::refusals::Refusal;
use places::{form_of, place_of_code, place_of_operation};
use sizes::is_formed;
use tables::*;

// The row at a place of the table of a page and form: the one place that says which table that is. A function for each page, since each has tables of its
// own: a generic one would be told them all.
#[tactic(auto, using(crate::proofs::At::item_copied), unfolding(crate::specs::Sheet::page0, ground::specs::Choice::pick))]
fn row_on_page_0(form: u8, at: usize) -> Option<u16>
    ensures { result ≡ slice_get (page0 form) at }
{
    match form {
        INHERENT => INHERENT_0.get(at).copied(),
        IMMEDIATE => IMMEDIATE_0.get(at).copied(),
        DIRECT => DIRECT_0.get(at).copied(),
        INDEXED => INDEXED_0.get(at).copied(),
        EXTENDED => EXTENDED_0.get(at).copied(),
        RELATIVE => RELATIVE_0.get(at).copied(),
        REGISTER => REGISTER_0.get(at).copied(),
        _ => None,
    }
}

#[tactic(auto, using(crate::proofs::At::item_copied), unfolding(crate::specs::Sheet::page10, ground::specs::Choice::pick))]
fn row_on_page_10(form: u8, at: usize) -> Option<u16>
    ensures { result ≡ slice_get (page10 form) at }
{
    match form {
        INHERENT => INHERENT_10.get(at).copied(),
        IMMEDIATE => IMMEDIATE_10.get(at).copied(),
        DIRECT => DIRECT_10.get(at).copied(),
        INDEXED => INDEXED_10.get(at).copied(),
        EXTENDED => EXTENDED_10.get(at).copied(),
        RELATIVE => RELATIVE_10.get(at).copied(),
        _ => None,
    }
}

#[tactic(auto, using(crate::proofs::At::item_copied), unfolding(crate::specs::Sheet::page11, ground::specs::Choice::pick))]
fn row_on_page_11(form: u8, at: usize) -> Option<u16>
    ensures { result ≡ slice_get (page11 form) at }
{
    match form {
        INHERENT => INHERENT_11.get(at).copied(),
        IMMEDIATE => IMMEDIATE_11.get(at).copied(),
        DIRECT => DIRECT_11.get(at).copied(),
        INDEXED => INDEXED_11.get(at).copied(),
        EXTENDED => EXTENDED_11.get(at).copied(),
        _ => None,
    }
}

// Page 0 is asked for first: most rows stand there.
#[tactic(auto, unfolding(crate::specs::Sheet::table_of, ground::specs::Choice::pick))]
fn row_at(page: u8, form: u8, at: usize) -> Option<u16>
    ensures { result ≡ slice_get (table_of page form) at }
{
    if page == 0x00 {
        return row_on_page_0(form, at);
    }
    match page {
        0x10 => row_on_page_10(form, at),
        0x11 => row_on_page_11(form, at),
        _ => None,
    }
}

// What is found, if it is a row of that operation.
#[tactic(auto, unfolding(ground::specs::Choice::pick))]
fn of_operation(found: Option<u16>, operation: u8) -> Option<u16>
    ensures { result ≡ of_operation operation found }
{
    found.filter(|row| (*row % 256) as u8 == operation)
}

// The operation that an alias stands for; any other number stands for itself.
#[tactic(auto, unfolding(crate::specs::Lookup::merged_of, ground::specs::Choice::pick))]
pub fn merged(operation: u8) -> u8
    ensures { result ≡ merged_of operation }
{
    match operation {
        146..=152 => ALIASES[(operation - 146) as usize],
        _ => operation,
    }
}

// Whether an operation has a row at all.
#[tactic(auto, using(crate::proofs::Quick::known_quick))]
pub fn known(operation: u8) -> bool
    ensures { result ≡ known_of operation }
{
    let step = operation % 16;
    let hole = (step == 1) | (step == 2) | (step == 5) | (step == 11);
    let jmp = (operation == 30) | (operation == 46);
    (operation < 153) & !((operation < 48) & hole) & !jmp
}

// The page of an operation that is no alias.
#[tactic(auto, unfolding(crate::specs::Quick::page_of, ground::specs::Choice::pick))]
fn page_of(operation: u8) -> u8
    ensures { result ≡ page_of operation }
{
    let long = (97 <= operation) & (operation <= 111);
    let second = long | ((114 <= operation) & (operation <= 120));
    let third = (121 <= operation) & (operation <= 123);
    if second {
        return 0x10;
    }
    if third {
        return 0x11;
    }
    0x00
}

// A code and the page that it stands on, 00, 10 or 11.
#[derive(Clone, Copy)]
pub struct Code {
    pub page: u8,
    pub code: u8,
}

// The code of an operation in a form (two numbers and no struct, since either may be anything: docs/ROWS.md), read in the one table of its page and
// form. Where that has none, the operation or the form is no number that there is, or else the operation has no row in that form.
#[tactic(auto, using(crate::proofs::Quick::code_found), unfolding(ground::specs::Choice::pick))]
pub fn code_of(operation: u8, form: u8) -> Result<Code, Refusal>
    ensures { result ≡ code_of operation form }
{
    let name = merged(operation);
    let page = page_of(name);
    let at = place_of_operation(name, form);
    let found = of_operation(row_at(page, form, at), name);
    match found {
        Some(row) => Ok(Code {
            page,
            code: (row / 256) as u8,
        }),
        None => if known(operation) & (form < 7) {
            Err(Refusal::NoSuchMode)
        } else {
            Err(Refusal::Unknown)
        },
    }
}

// Whether an operation has a form.
#[tactic(auto, using(crate::proofs::Bytes::form_quick))]
pub fn has_form(operation: u8, form: u8) -> bool
    ensures { result ≡ has_form_of operation form }
{
    known(operation) & is_formed(merged(operation), form)
}

// An operation, which is no alias, and a form that it has.
#[derive(Clone, Copy)]
pub struct Named {
    pub operation: u8,
    pub form: u8,
}

// The operation and the form of a code, read in the one table of its page and form; undefined where that has no row.
#[tactic(auto, using(crate::proofs::Quick::row_found))]
pub fn row_of(page: u8, code: u8) -> Result<Named, Refusal>
    ensures { result ≡ row_of page code }
{
    let form = form_of(code);
    let at = place_of_code(page, code);
    let row = row_at(page, form, at).ok_or(Refusal::Undefined)?;
    Ok(Named {
        operation: (row % 256) as u8,
        form,
    })
}
