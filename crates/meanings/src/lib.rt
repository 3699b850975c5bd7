// What an accepted instruction means: from its record, its address, and the form and size that its build chose. Never from its bytes.
#![tactic(auto)]

ghost use Rattle.std.specs.Prelude.{◌≡◌};
ghost use Rattle.meanings.specs.Means.{offset_in, offset_kind, index_kind, list_kind, kind_of, operation_of, meaning_of};

use decoder::{Kind, Meaning};
use ground::words;
use instruction::names::*;
use instruction::{Instruction, Operand, Values};
use postbytes::numbers::PC;
use rows::forms::*;

// An offset is the signed evaluation; a missing one is zero.
fn offset_in(v: Values) -> u16
    ensures { result ≡ offset_in v }
{
    if v.given {
        let signed = v.signed;
        let wide = signed.sign_extended();
        return wide.number;
    }
    0
}

fn offset_kind(o: Operand, v: Values, end: u16) -> Kind
    ensures { result ≡ offset_kind o v end }
{
    let register = o.registers[0];
    let offset = offset_in(v);
    if register == PC {
        let target = words::add(end, offset);
        return Kind::Counter {
            indirect: o.indirect,
            target,
        };
    }
    Kind::Offset {
        register,
        indirect: o.indirect,
        offset,
    }
}

// By the parser's mode: the last is extended indirect.
fn index_kind(o: Operand, v: Values, end: u16) -> Kind
    ensures { result ≡ index_kind o v end }
{
    let mode = o.mode;
    let u = v.unsigned;
    let number = u.number;
    let first = o.registers[0];
    let second = o.registers[1];
    match mode {
        MODE_REGISTER => Kind::Accumulator {
            register: second,
            indirect: o.indirect,
            accumulator: first,
        },
        MODE_OFFSET => offset_kind(o, v, end),
        MODE_PC_RELATIVE => Kind::Counter {
            indirect: o.indirect,
            target: number,
        },
        MODE_INC_DEC => Kind::Step {
            register: first,
            indirect: o.indirect,
            step: o.step,
        },
        _ => Kind::Address { address: number },
    }
}

// EXG and TFR have a source and a destination; what a push or a pull names is a set.
fn list_kind(o: Operand) -> Kind
    ensures { result ≡ list_kind o }
{
    let registers = o.registers;
    let pair = (o.operation == EXG) | (o.operation == TFR);
    if pair {
        return Kind::Pair {
            source: registers[0],
            destination: registers[1],
        };
    }
    let set = postbytes::lists::set_of(registers, o.count);
    Kind::Push { registers: set }
}

fn kind(form: u8, o: Operand, v: Values, end: u16) -> Kind
    ensures { result ≡ kind_of form o v end }
{
    let u = v.unsigned;
    let number = u.number;
    match form {
        INHERENT => Kind::Inherent,
        IMMEDIATE => Kind::Immediate { number },
        DIRECT => Kind::Memory { address: number },
        EXTENDED => Kind::Memory { address: number },
        INDEXED => index_kind(o, v, end),
        RELATIVE => Kind::Branch { target: number },
        _ => list_kind(o),
    }
}

// Aliases are one, and a widened branch is its long one.
fn operation(i: Instruction) -> u8
    ensures { result ≡ operation_of i }
{
    let o = i.operand;
    let long = (i.form == RELATIVE) & i.widened;
    if long {
        return rows::sizes::long_of(o.operation);
    }
    rows::merged(o.operation)
}

// The meaning of an instruction that a build handed back, with the values, the address and the size of that build.
pub fn meaning(i: Instruction, v: Values, address: u16, size: u8) -> Meaning
    ensures { result ≡ meaning_of i v address size }
{
    let o = i.operand;
    let end = words::add(address, size as u16);
    let operation = operation(i);
    let kind = kind(i.form, o, v, end);
    Meaning { operation, kind }
}
