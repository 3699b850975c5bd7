// The form that a record asks for, and what rows lack.
ghost use Rattle.std.specs.Prelude.{◌≡◌};
ghost use Rattle.instruction.specs.Forms.{becomes_direct, extended_form, register_form, form_of, strays, lacks, needs_value};

use crate::names::*;
use crate::{Operand, Values};
use rows::forms::*;
use values::pages::Page;

#[tactic(auto, unfolding(crate::specs::Forms::becomes_direct, ground::specs::Choice::pick))]
pub(crate) fn becomes_direct(o: Operand, v: Values, page: Page) -> bool
    ensures { result ≡ becomes_direct o v page }
{
    let u = v.unsigned;
    v.given & (!o.forced & page.reaches(u.number))
}

#[tactic(auto, unfolding(crate::specs::Forms::extended_form, ground::specs::Choice::pick))]
fn extended_form(o: Operand, v: Values, page: Page) -> u8
    ensures { result ≡ extended_form o v page }
{
    if o.indirect {
        return INDEXED;
    }
    let branches = !rows::has_form(o.operation, EXTENDED) & rows::has_form(o.operation, RELATIVE);
    if branches {
        return RELATIVE;
    }
    if becomes_direct(o, v, page) {
        return DIRECT;
    }
    EXTENDED
}

// A list of registers, or else an accumulator's offset.
#[tactic(auto, unfolding(crate::specs::Forms::register_form, ground::specs::Choice::pick))]
fn register_form(o: Operand) -> u8
    ensures { result ≡ register_form o }
{
    if rows::has_form(o.operation, REGISTER) {
        return REGISTER;
    }
    INDEXED
}

#[tactic(auto, unfolding(crate::specs::Forms::form_of, ground::specs::Choice::pick))]
pub(crate) fn form_for(o: Operand, v: Values, page: Page) -> u8
    ensures { result ≡ form_of o v page }
{
    let mode = o.mode;
    match mode {
        MODE_REGISTER => register_form(o),
        MODE_EXTENDED => extended_form(o, v, page),
        MODE_DIRECT => DIRECT,
        MODE_IMMEDIATE => IMMEDIATE,
        MODE_INHERENT => INHERENT,
        _ => INDEXED,
    }
}

// A form that the parser's mode never has.
#[tactic(auto, unfolding(crate::specs::Forms::strays, ground::specs::Choice::pick))]
pub(crate) fn is_stray(mode: u8, form: u8) -> bool
    ensures { result ≡ strays mode form }
{
    ((form == INDEXED) & (MODE_EXTENDED < mode)) | ((form == REGISTER) & !(mode == MODE_REGISTER))
}

#[tactic(auto, unfolding(crate::specs::Forms::lacks, ground::specs::Choice::pick))]
pub(crate) fn is_lacking(o: Operand, form: u8) -> bool
    ensures { result ≡ lacks o form }
{
    !rows::has_form(o.operation, form) | is_stray(o.mode, form)
}

#[tactic(auto, unfolding(crate::specs::Forms::needs_value, ground::specs::Choice::pick))]
pub(crate) fn needs_value(mode: u8, form: u8) -> bool
    ensures { result ≡ needs_value mode form }
{
    ((mode == MODE_PC_RELATIVE) | ((MODE_EXTENDED <= mode) & (mode <= MODE_IMMEDIATE)))
        | ((form == IMMEDIATE) | ((form == DIRECT) | ((form == EXTENDED) | (form == RELATIVE))))
}
