// One instruction: its operand record, the form that is chosen for it, the kept instruction and its build.
#![tactic(auto)]

mod bytes;
pub mod choosing;
mod forms;
pub mod names;
pub mod validity;

ghost use Rattle.std.specs.Prelude.{◌≡◌, length};
ghost use Rattle.instruction.specs.Building.{no_values, instruction_of, make_of, operand_refusal, early_of, tried_of, dirties_of, build_of, fresh_of, placed_of, buffer_of};
ghost use Rattle.instruction.specs.Quick.{CodeTells, outcome_of, with_outcome};

use bytes::lay;
use choosing::choose;
use forms::{form_for, is_lacking};
use ground::buffers::store_all;
use ground::refusals::Refusal;
use names::*;
use postbytes::Index;
use postbytes::numbers::DP;
use rows::forms::DIRECT;
use validity::{is_fit, is_lawful, is_missing, is_recognised, is_sound};
use values::Value;
use values::pages::Page;

// What a build does not change: the operand as the parser saw it. Its operation, mode, registers and step are numbers and no enums: a caller's row may hold anything, and
// what is unknown is refused (docs/ROWS.md). Eight registers and how many count, as a row has them: memory is fixed.
#[derive(Clone, Copy)]
pub struct Operand {
    pub operation: u8,
    pub mode: u8,
    pub indirect: bool,
    pub forced: bool,
    pub registers: [u8; 8],
    pub count: u8,
    pub step: u8,
    pub widening: bool,
}

// The value of an operand, if it has one: its unsigned and its signed evaluation. A flag and no Option, since that is no plainer: a form is chosen before it is asked
// whether a value is missing, so that each choice would have to make up a number.
#[derive(Clone, Copy)]
pub struct Values {
    pub given: bool,
    pub unsigned: Value,
    pub signed: Value,
}

// The operand record: with the page and the values of one build.
#[derive(Clone, Copy)]
pub struct Record {
    pub operand: Operand,
    pub page: Page,
    pub values: Values,
}

// A kept instruction: with its form, its trial mark and whether its short branch was made long. Of one that was made, the last is all that is remembered: the form
// is what the operand asks for with the values and the page of the last accepted build, and the mark says that Direct was chosen for it (02 n). The form is a number: a
// caller's row may hold any (docs/ROWS.md).
#[derive(Clone, Copy)]
pub struct Instruction {
    pub operand: Operand,
    pub form: u8,
    pub trial: bool,
    pub widened: bool,
}

// An accepted build: the instruction with its new form, trial mark and widening, and its bytes. Five bytes and their number: an instruction has at most five.
#[derive(Clone, Copy)]
pub struct Built {
    pub instruction: Instruction,
    pub bytes: [u8; 5],
    pub length: u8,
    pub dirties: bool,
}

// A refused build: the instruction exactly as it came, and why.
#[derive(Clone, Copy)]
pub struct Refused {
    pub instruction: Instruction,
    pub refusal: Refusal,
}

// An accepted build but for the operand, which it never changes. So that is not carried along.
#[derive(Clone, Copy)]
struct Outcome {
    form: u8,
    trial: bool,
    widened: bool,
    bytes: [u8; 5],
    length: u8,
    dirties: bool,
}

// What an accepted build into a lent buffer answers beside the bytes stored.
#[derive(Clone, Copy)]
pub struct Placed {
    pub instruction: Instruction,
    pub length: u8,
    pub dirties: bool,
}

// What stands after the code, before it is bytes.
#[derive(Clone, Copy)]
pub enum Argument {
    Nothing,
    Number(u16),
    Target(u16),
    Indexed(Index),
    Relative { target: u16, indirect: bool },
    Registers(u8),
}

// What a build settles on: the operation whose bytes it emits, the form, the marks and the argument.
#[derive(Clone, Copy)]
pub struct Chosen {
    pub operation: u8,
    pub form: u8,
    pub trial: bool,
    pub widened: bool,
    pub argument: Argument,
}

// Five bytes, and how many there are: an instruction has at most five, and memory is fixed.
#[derive(Clone, Copy)]
pub struct Laid {
    pub bytes: [u8; 5],
    pub length: u8,
}

#[tactic(auto, unfolding(crate::specs::Building::no_values))]
fn no_values() -> Values
    ensures { result ≡ no_values }
{
    let none = Value {
        number: 0,
        width: 0,
    };
    Values {
        given: false,
        unsigned: none,
        signed: none,
    }
}

#[tactic(auto, unfolding(crate::specs::Building::instruction_of))]
fn instruction_of(operand: Operand, form: u8) -> Instruction
    ensures { result ≡ instruction_of operand form }
{
    let trial = (operand.mode == MODE_EXTENDED) & (form == DIRECT);
    Instruction {
        operand,
        form,
        trial,
        widened: false,
    }
}

// Whether an instruction that is accepted leaves the page unknown.
#[tactic(auto, unfolding(crate::specs::Building::dirties_of, ground::specs::Choice::pick))]
fn dirties(o: Operand) -> bool
    ensures { result ≡ dirties_of o }
{
    let registers = o.registers;
    let operation = o.operation;
    let transfer = operation == TFR;
    if transfer {
        return registers[1] == DP;
    }
    let names = (operation == EXG) | ((operation == PULS) | (operation == PULU));
    if names {
        return postbytes::lists::among(DP, registers, o.count);
    }
    false
}

impl Operand {
    // Unknown where a number is, no such mode where the row has none: what is told of an operand before any value is evaluated.
    #[tactic(auto, unfolding(crate::specs::Building::operand_refusal, ground::specs::Choice::pick))]
    pub fn refusal(self) -> Option<Refusal>
        ensures { result ≡ operand_refusal self }
    {
        if is_recognised(self) {
            let form = form_for(self, no_values(), Page::Unknown);
            if is_lacking(self, form) {
                return Some(Refusal::NoSuchMode);
            }
            return None;
        }
        Some(Refusal::Unknown)
    }
}

impl Instruction {
    // Makes an instruction of a record, in the form that it asks for: refused where a number is wrong, then where the row has no such mode.
    #[tactic(auto, unfolding(crate::specs::Building::make_of, crate::specs::Building::made_as, ground::specs::Choice::pick))]
    pub fn make(r: Record) -> Result<Instruction, Refusal>
        ensures { result ≡ make_of r }
    {
        let o = r.operand;
        let v = r.values;
        let page = r.page;
        let known = is_recognised(o) & is_lawful(v);
        if known {
            let form = form_for(o, v, page);
            if is_lacking(o, form) {
                return Err(Refusal::NoSuchMode);
            }
            return Ok(instruction_of(o, form));
        }
        Err(Refusal::Unknown)
    }

    // What 01 refuses before anything is chosen, in its order. A row whose code was found is known and has the form, so that the row is asked only if something is wrong.
    #[tactic(auto, using(crate::proofs::Quick::fit_early), unfolding(crate::specs::Building::early_of, crate::specs::Quick::misses, ground::specs::Choice::pick))]
    fn early(self, v: Values, found: bool) -> Result<(), Refusal>
        requires { CodeTells self v found }
        ensures { result ≡ early_of self v }
    {
        let o = self.operand;
        let fine = is_fit(self, v) & found;
        if fine {
            return Ok(());
        }
        let unsound = !is_sound(self, v);
        if unsound {
            return Err(Refusal::Unknown);
        }
        if is_lacking(o, self.form) {
            return Err(Refusal::NoSuchMode);
        }
        if is_missing(self, v) {
            return Err(Refusal::ValueMissing);
        }
        Ok(())
    }

    // What a build comes to: the first refusal, or what is chosen, with its bytes behind the row's code.
    #[tactic(auto, unfolding(crate::specs::Building::tried_of, crate::specs::Building::accepted_of, crate::specs::Bytes::laid_of))]
    fn outcome(self, v: Values, page: Page, address: u16) -> Result<Outcome, Refusal>
        ensures { result ≡ outcome_of (tried_of self v page address) }
    {
        let chosen = choose(self, v, page, address);
        match chosen {
            Ok(c) => {
                let coded = rows::code_of(c.operation, c.form);
                self.early(v, coded.is_ok())?;
                let o = self.operand;
                let laid = lay(c, coded, address);
                let bytes = laid.bytes;
                Ok(Outcome {
                    form: c.form,
                    trial: c.trial,
                    widened: c.widened,
                    bytes,
                    length: laid.length,
                    dirties: dirties(o),
                })
            }
            Err(later) => {
                self.early(v, false)?;
                Err(later)
            }
        }
    }

    // Takes on the form and the marks, and is handed back beside its bytes.
    fn with(mut self, out: Outcome) -> Built
        ensures { result ≡ with_outcome self out }
    {
        let bytes = out.bytes;
        self.form = out.form;
        self.trial = out.trial;
        self.widened = out.widened;
        Built {
            instruction: self,
            bytes,
            length: out.length,
            dirties: out.dirties,
        }
    }

    // The instruction is taken by value and handed back, with its new form, trial mark and widening beside its bytes. A refusal hands it back unchanged.
    #[tactic(auto, using(crate::proofs::Quick::accepted_whole, crate::proofs::Quick::refused_whole), unfolding(crate::specs::Building::build_of))]
    pub fn build(mut self, v: Values, page: Page, address: u16) -> Result<Built, Refused>
        ensures { result ≡ build_of self v page address }
    {
        let out = self.outcome(v, page, address);
        match out {
            Ok(accepted) => Ok(self.with(accepted)),
            Err(refusal) => Err(Refused {
                instruction: self,
                refusal,
            }),
        }
    }
}

// Builds into the front of a lent buffer: the refusal for want of room comes last, and each leaves the instruction and the buffer as they were.
#[tactic(auto, using(crate::proofs::Padded::built_within, crate::proofs::Padded::front_all), unfolding(crate::specs::Building::placed_as, crate::specs::Building::stored_of, ground::specs::Choice::pick))]
pub fn build_into(
    i: Instruction,
    v: Values,
    page: Page,
    address: u16,
    out: &mut [u8],
) -> Result<Placed, Refused>
    ensures answer { result ≡ placed_of i (build_of i v page address) (length out.old) }
    ensures buffer { out.new ≡ buffer_of (build_of i v page address) out.old }
{
    let built = i.build(v, page, address)?;
    let instruction = built.instruction;
    let bytes = built.bytes;
    let length = built.length;
    let end = length as usize;
    if out.len() < end {
        return Err(Refused {
            instruction: i,
            refusal: Refusal::NoRoom,
        });
    }
    store_all(out, 0, &bytes[..end]);
    Ok(Placed {
        instruction,
        length,
        dirties: built.dirties,
    })
}

// A fresh instruction, made and built from one record; beside a refusal nobody had one to hand back. What making refuses, the build refuses alike. It asks for the outcome
// itself, and not through `build`: what two ask for stays a function of its own, and `build` is then small enough to be compiled into its callers.
#[tactic(auto, using(crate::proofs::Ready::fresh_tried, crate::proofs::Quick::accepted_whole, crate::proofs::Quick::refused_whole))]
pub fn assemble(r: Record, address: u16) -> Result<Built, Refusal>
    ensures { result ≡ fresh_of r address }
{
    let o = r.operand;
    let v = r.values;
    let page = r.page;
    let i = instruction_of(o, form_for(o, v, page));
    let out = i.outcome(v, page, address)?;
    Ok(i.with(out))
}
