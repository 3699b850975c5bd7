// What one build settles on: a form with its argument, or a refusal.
ghost use Rattle.std.specs.Prelude.{◌≡◌};
ghost use Rattle.postbytes.specs.Registers.{not_indexing};
ghost use Rattle.instruction.specs.Choosing.{settled, inherent_of, immediate_of, forced_wide, leaves_direct, stays_direct, directly_of, anew_as, anew_of, address_of, long_branch, branch_of, offset_value, accumulator_index, offset_index, target_index, step_index, address_index, index_of, is_pair, own_stack, listed_of, registers_of, choose_of};

use crate::forms::becomes_direct;
use crate::names::*;
use crate::{Argument, Chosen, Instruction, Operand, Values};
use ground::refusals::Refusal;
use ground::words;
use postbytes::Index;
use postbytes::numbers::{PC, S, U, X};
use rows::forms::*;
use values::Value;
use values::pages::Page;

fn settle(i: Instruction, form: u8, argument: Argument) -> Chosen
    ensures { result ≡ settled i form argument }
{
    let o = i.operand;
    Chosen {
        operation: o.operation,
        form,
        trial: i.trial,
        widened: i.widened,
        argument,
    }
}

#[tactic(auto, unfolding(crate::specs::Choosing::inherent_of, ground::specs::Choice::pick))]
fn inherent(i: Instruction, v: Values) -> Result<Chosen, Refusal>
    ensures { result ≡ inherent_of i v }
{
    if v.given {
        return Err(Refusal::BadWidth);
    }
    Ok(settle(i, INHERENT, Argument::Nothing))
}

#[tactic(auto, unfolding(crate::specs::Choosing::immediate_of, ground::specs::Choice::pick))]
fn immediate(i: Instruction, v: Values) -> Result<Chosen, Refusal>
    ensures { result ≡ immediate_of i v }
{
    let o = i.operand;
    let u = v.unsigned;
    let narrow = rows::sizes::number_size(o.operation, IMMEDIATE) == 1;
    let wide = narrow & (255 < u.number);
    if wide {
        return Err(Refusal::BadWidth);
    }
    Ok(settle(i, IMMEDIATE, Argument::Number(u.number)))
}

// "under known page 0 only": under any other page every right value is wide.
#[tactic(auto, unfolding(crate::specs::Choosing::forced_wide, ground::specs::Choice::pick))]
fn is_forced_wide(i: Instruction, v: Values, page: Page) -> bool
    ensures { result ≡ forced_wide i v page }
{
    let o = i.operand;
    let u = v.unsigned;
    o.forced & ((u.width == 16) & page.is_zero())
}

// On trial an address that Direct does not reach is Extended after all. No call sets the mark in parser mode Direct; a row that has it is built by 01's rule.
#[tactic(auto, unfolding(crate::specs::Choosing::leaves_direct, ground::specs::Choice::pick))]
fn leave_direct(i: Instruction, v: Values) -> Result<Chosen, Refusal>
    ensures { result ≡ leaves_direct i v }
{
    let o = i.operand;
    let u = v.unsigned;
    if i.trial {
        return Ok(Chosen {
            operation: o.operation,
            form: EXTENDED,
            trial: false,
            widened: i.widened,
            argument: Argument::Number(u.number),
        });
    }
    Err(Refusal::DirectNotAllowed)
}

// What is Direct stays so where its page and its value allow.
#[tactic(auto, unfolding(crate::specs::Choosing::stays_direct, ground::specs::Choice::pick))]
fn stay_direct(i: Instruction, v: Values, page: Page) -> Result<Chosen, Refusal>
    ensures { result ≡ stays_direct i v page }
{
    let u = v.unsigned;
    if page.reaches(u.number) {
        if is_forced_wide(i, v, page) {
            return Err(Refusal::BadWidth);
        }
        return Ok(settle(i, DIRECT, Argument::Number(u.number)));
    }
    leave_direct(i, v)
}

// Parser mode Direct.
#[tactic(auto, unfolding(crate::specs::Choosing::directly_of, ground::specs::Choice::pick))]
fn directly(i: Instruction, v: Values, page: Page) -> Result<Chosen, Refusal>
    ensures { result ≡ directly_of i v page }
{
    let o = i.operand;
    let u = v.unsigned;
    let number = u.number;
    if becomes_direct(o, v, page) {
        return Ok(settle(i, DIRECT, Argument::Number(number)));
    }
    if i.form == DIRECT {
        return stay_direct(i, v, page);
    }
    Ok(settle(i, EXTENDED, Argument::Number(number)))
}

// A form that is chosen anew: the mark says that Direct was.
#[tactic(auto, unfolding(crate::specs::Choosing::anew_as, ground::specs::Choice::pick))]
fn anew_as(i: Instruction, v: Values, form: u8) -> Chosen
    ensures { result ≡ anew_as i v form }
{
    let o = i.operand;
    let u = v.unsigned;
    let trial = (o.mode == MODE_EXTENDED) & (form == DIRECT);
    Chosen {
        operation: o.operation,
        form,
        trial,
        widened: i.widened,
        argument: Argument::Number(u.number),
    }
}

// Any other mode: the form is chosen anew at each build, as a fresh instruction's is.
#[tactic(auto, unfolding(crate::specs::Choosing::anew_of, ground::specs::Choice::pick))]
fn anew(i: Instruction, v: Values, page: Page) -> Chosen
    ensures { result ≡ anew_of i v page }
{
    let o = i.operand;
    if becomes_direct(o, v, page) {
        return anew_as(i, v, DIRECT);
    }
    anew_as(i, v, EXTENDED)
}

#[tactic(auto, unfolding(crate::specs::Choosing::address_of, ground::specs::Choice::pick))]
fn address(i: Instruction, v: Values, page: Page) -> Result<Chosen, Refusal>
    ensures { result ≡ address_of i v page }
{
    let o = i.operand;
    if o.mode == MODE_DIRECT {
        return directly(i, v, page);
    }
    Ok(anew(i, v, page))
}

// A short branch that was made long, now or in an earlier build.
#[tactic(auto, unfolding(crate::specs::Choosing::long_branch, ground::specs::Choice::pick))]
fn long_branch(i: Instruction, v: Values) -> Chosen
    ensures { result ≡ long_branch i v }
{
    let o = i.operand;
    let u = v.unsigned;
    Chosen {
        operation: rows::sizes::long_of(o.operation),
        form: RELATIVE,
        trial: i.trial,
        widened: true,
        argument: Argument::Target(u.number),
    }
}

#[tactic(auto, unfolding(crate::specs::Choosing::branch_of, ground::specs::Choice::pick))]
fn branch(i: Instruction, v: Values, at: u16) -> Result<Chosen, Refusal>
    ensures { result ≡ branch_of i v at }
{
    let o = i.operand;
    let u = v.unsigned;
    let target = u.number;
    let long = rows::sizes::number_size(o.operation, RELATIVE) == 2;
    if long {
        return Ok(settle(i, RELATIVE, Argument::Target(target)));
    }
    if i.widened {
        return Ok(long_branch(i, v));
    }
    if postbytes::encoding::near(words::sub(target, words::add(at, 2))) {
        return Ok(settle(i, RELATIVE, Argument::Target(target)));
    }
    if o.widening {
        return Ok(long_branch(i, v));
    }
    Err(Refusal::BranchTooFar)
}

// None of X, Y, U, S.
fn is_misplaced(register: u8) -> bool
    ensures { result ≡ not_indexing register }
{
    (register < X) | (S < register)
}

// The width rule: an offset has the number and the width of its signed evaluation. A missing offset is an 8-bit zero.
#[tactic(auto, unfolding(crate::specs::Choosing::offset_value, ground::specs::Choice::pick))]
pub fn offset_value(v: Values) -> Value
    ensures { result ≡ offset_value v }
{
    if v.given {
        return v.signed;
    }
    Value {
        number: 0,
        width: 8,
    }
}

#[tactic(auto, unfolding(crate::specs::Choosing::accumulator_index, ground::specs::Choice::pick))]
fn accumulator_index(i: Instruction) -> Result<Chosen, Refusal>
    ensures { result ≡ accumulator_index i }
{
    let o = i.operand;
    let accumulator = o.registers[0];
    let register = o.registers[1];
    let wrong = !(o.count == 2) | ((3 <= accumulator) | is_misplaced(register));
    if wrong {
        return Err(Refusal::BadRegister);
    }
    let index = Index::Accumulator {
        register,
        indirect: o.indirect,
        accumulator,
    };
    Ok(settle(i, INDEXED, Argument::Indexed(index)))
}

#[tactic(auto, unfolding(crate::specs::Choosing::offset_index, ground::specs::Choice::pick))]
fn offset_index(i: Instruction, v: Values) -> Result<Chosen, Refusal>
    ensures { result ≡ offset_index i v }
{
    let o = i.operand;
    let register = o.registers[0];
    let offset = offset_value(v);
    let crowded = !(o.count == 1);
    if crowded {
        return Err(Refusal::BadRegister);
    }
    if register == PC {
        let index = Index::Counter {
            indirect: o.indirect,
            offset,
        };
        return Ok(settle(i, INDEXED, Argument::Indexed(index)));
    }
    if is_misplaced(register) {
        return Err(Refusal::BadRegister);
    }
    let index = Index::Offset {
        register,
        indirect: o.indirect,
        offset,
    };
    Ok(settle(i, INDEXED, Argument::Indexed(index)))
}

#[tactic(auto, unfolding(crate::specs::Choosing::target_index, ground::specs::Choice::pick))]
fn target_index(i: Instruction, v: Values) -> Result<Chosen, Refusal>
    ensures { result ≡ target_index i v }
{
    let o = i.operand;
    let u = v.unsigned;
    let right = (o.count == 1) & (o.registers[0] == PC);
    if right {
        let target = Argument::Relative {
            target: u.number,
            indirect: o.indirect,
        };
        return Ok(settle(i, INDEXED, target));
    }
    Err(Refusal::BadRegister)
}

#[tactic(auto, unfolding(crate::specs::Choosing::step_index, ground::specs::Choice::pick))]
fn step_index(i: Instruction) -> Result<Chosen, Refusal>
    ensures { result ≡ step_index i }
{
    let o = i.operand;
    let register = o.registers[0];
    let single = o.indirect & ((o.step == 1) | (o.step == 3));
    if single {
        return Err(Refusal::SingleStepIndirect);
    }
    let wrong = !(o.count == 1) | is_misplaced(register);
    if wrong {
        return Err(Refusal::BadRegister);
    }
    let index = Index::Step {
        register,
        indirect: o.indirect,
        step: o.step,
    };
    Ok(settle(i, INDEXED, Argument::Indexed(index)))
}

#[tactic(auto, unfolding(crate::specs::Choosing::address_index, ground::specs::Choice::pick))]
fn address_index(i: Instruction, v: Values) -> Chosen
    ensures { result ≡ address_index i v }
{
    let address = v.unsigned;
    let index = Index::Address {
        address: address.number,
    };
    settle(i, INDEXED, Argument::Indexed(index))
}

#[tactic(auto, unfolding(crate::specs::Choosing::index_of, ground::specs::Choice::pick))]
fn index(i: Instruction, v: Values) -> Result<Chosen, Refusal>
    ensures { result ≡ index_of i v }
{
    let o = i.operand;
    let mode = o.mode;
    match mode {
        MODE_REGISTER => accumulator_index(i),
        MODE_OFFSET => offset_index(i, v),
        MODE_PC_RELATIVE => target_index(i, v),
        MODE_INC_DEC => step_index(i),
        _ => Ok(address_index(i, v)),
    }
}

// The postbyte of a register list: a pair for EXG and TFR, else the list of a push or a pull.
#[tactic(auto, unfolding(crate::specs::Choosing::listed_of, ground::specs::Choice::pick))]
fn listed(o: Operand) -> Result<u8, Refusal>
    ensures { result ≡ listed_of o }
{
    let registers = o.registers;
    if is_pair(o.operation) {
        return postbytes::lists::pair(registers, o.count);
    }
    postbytes::lists::push(own_stack(o.operation), registers, o.count)
}

#[tactic(auto, unfolding(crate::specs::Choosing::is_pair, ground::specs::Choice::pick))]
pub(crate) fn is_pair(operation: u8) -> bool
    ensures { result ≡ is_pair operation }
{
    (operation == EXG) | (operation == TFR)
}

#[tactic(auto, unfolding(crate::specs::Choosing::own_stack, ground::specs::Choice::pick))]
fn own_stack(operation: u8) -> u8
    ensures { result ≡ own_stack operation }
{
    let on_s = (operation == PSHS) | (operation == PULS);
    if on_s { S } else { U }
}

#[tactic(auto, unfolding(crate::specs::Choosing::registers_of, ground::specs::Choice::pick))]
fn registers(i: Instruction) -> Result<Chosen, Refusal>
    ensures { result ≡ registers_of i }
{
    let o = i.operand;
    let byte = listed(o)?;
    Ok(settle(i, REGISTER, Argument::Registers(byte)))
}

#[tactic(auto, unfolding(crate::specs::Choosing::choose_of, ground::specs::Choice::pick))]
pub(crate) fn choose(i: Instruction, v: Values, page: Page, at: u16) -> Result<Chosen, Refusal>
    ensures { result ≡ choose_of i v page at }
{
    let form = i.form;
    match form {
        INHERENT => inherent(i, v),
        IMMEDIATE => immediate(i, v),
        DIRECT => address(i, v, page),
        EXTENDED => address(i, v, page),
        INDEXED => index(i, v),
        RELATIVE => branch(i, v, at),
        _ => registers(i),
    }
}
