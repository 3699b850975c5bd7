// The field that a refusal is about.
ghost use Rattle.std.specs.Prelude.{◌≡◌, not};
ghost use Rattle.ground.specs.Refusals.{number_of};
ghost use Rattle.postbytes.specs.Lists.{strange_list};
ghost use Rattle.instruction.specs.Records.{stepped};
ghost use Rattle.entries.specs.Entries.{byte_in, registers_in, fields_in};
ghost use Rattle.why.specs.Fields.{if_wrong, first_wrong, page_or_values, field_of};

use crate::Field;
use entries::{byte_in, is_flag, is_page_in, operand_of, page_in};
use ground::refusals::Refusal;
use instruction::validity::is_stepped;
use postbytes::lists;

// An operand has its mode, its step and its registers whatever its flags are.
fn is_step_right(row: &[u16]) -> bool
    ensures { result ≡ stepped (fields_in row.now) }
{
    is_stepped(operand_of(row))
}

fn are_registers_known(row: &[u16]) -> bool
    ensures { result ≡ not (strange_list (registers_in row.now) (byte_in row.now 6)) }
{
    let o = operand_of(row);
    let registers = o.registers;
    !lists::strange(registers, o.count)
}

// The field itself if it is wrong, else what the fields after it say.
fn if_wrong(right: bool, field: Field, later: Field) -> Field
    ensures { result ≡ if_wrong right field later }
{
    if right { later } else { field }
}

// The first wrong field of a row that is refused 1: the last where no other is.
fn first_wrong(row: &[u16]) -> Field
    ensures { result ≡ first_wrong row.now }
{
    let from_page = if_wrong(is_page_in(row, 15), Field::Page, Field::Values);
    let from_registers = if_wrong(are_registers_known(row), Field::Registers, from_page);
    let from_widening = if_wrong(is_flag(row, 5), Field::Widening, from_registers);
    let from_step = if_wrong(is_step_right(row), Field::Step, from_widening);
    let from_forced = if_wrong(is_flag(row, 3), Field::Forced, from_step);
    let from_indirect = if_wrong(is_flag(row, 2), Field::Indirect, from_forced);
    let from_mode = if_wrong(byte_in(row, 1) < 8, Field::Mode, from_indirect);
    if_wrong(rows::known(byte_in(row, 0)), Field::Operation, from_mode)
}

// A Direct that the page does not reach: an unknown page reaches nothing, and of a known one the address lies elsewhere.
fn page_or_values(row: &[u16]) -> Field
    ensures { result ≡ page_or_values row.now }
{
    let page = page_in(row, 15);
    if page.is_unknown() {
        return Field::Page;
    }
    Field::Values
}

#[tactic(auto, using(crate::proofs::Told::values_blamed), unfolding(crate::specs::Fields::field_of, ground::specs::Choice::pick))]
pub(crate) fn field_of(row: &[u16], refusal: Refusal) -> Field
    ensures { result ≡ field_of row.now (number_of refusal) }
{
    match refusal {
        Refusal::Unknown => first_wrong(row),
        Refusal::NoSuchMode => Field::Mode,
        Refusal::BadRegister => Field::Registers,
        Refusal::SingleStepIndirect => Field::Indirect,
        Refusal::DirectNotAllowed => page_or_values(row),
        Refusal::BranchTooFar => Field::Widening,
        _ => Field::Values,
    }
}
