// Why an accepted instruction has its length.
ghost use Rattle.std.specs.Prelude.{◌≡◌, ◌≤◌};
ghost use Rattle.why.specs.Reasons.{elsewhere, address_reason, code_bytes, branch_distance, relative_distance, branch_reason, relative_reason, offset_number, offset_bits, offset_reason, extended_reason, reason_for};

use crate::Reason;
use ground::words;
use instruction::choosing::offset_value;
use instruction::names::*;
use instruction::{Operand, Record, Values};
use postbytes::encoding::{five_bits, near};
use postbytes::numbers::PC;
use rows::forms::*;
use rows::sizes::number_size;
use rows::{Code, code_of, has_form};
use values::pages::Page;

// A known page that is not the address's high byte.
fn is_elsewhere(page: Page, number: u16) -> bool
    ensures { result ≡ elsewhere page number }
{
    match page {
        Page::Unknown => false,
        Page::Known(high) => !(high as u16 == number / 256),
    }
}

fn address_reason(r: Record) -> Reason
    ensures { result ≡ address_reason r }
{
    let o = r.operand;
    let v = r.values;
    let u = v.unsigned;
    let page = r.page;
    Reason::Address {
        forced: o.forced,
        unknown: page.is_unknown(),
        elsewhere: is_elsewhere(page, u.number),
    }
}

// The bytes of a code, with its prefix on pages 10 and 11.
fn code_bytes(operation: u8, form: u8) -> u16
    ensures is { result ≡ code_bytes operation form }
    ensures most { result ≤ 2 }
{
    let coded = code_of(operation, form);
    match coded {
        Ok(Code { page, code: _ }) => if page == 0 { 1 } else { 2 },
        Err(_) => 0,
    }
}

// A short branch that is made long is told by the end of the short one, which decided.
fn branch_distance(r: Record, address: u16) -> u16
    ensures { result ≡ branch_distance r address }
{
    let o = r.operand;
    let v = r.values;
    let u = v.unsigned;
    let operation = o.operation;
    let size = code_bytes(operation, RELATIVE) + number_size(operation, RELATIVE) as u16;
    words::sub(u.number, words::add(address, size))
}

fn branch_reason(r: Record, address: u16) -> Reason
    ensures { result ≡ branch_reason r address }
{
    let distance = branch_distance(r, address);
    Reason::Branch {
        distance,
        near: near(distance),
    }
}

// From the end of the one-byte form, behind the postbyte and one byte.
fn relative_distance(r: Record, address: u16) -> u16
    ensures { result ≡ relative_distance r address }
{
    let o = r.operand;
    let v = r.values;
    let u = v.unsigned;
    let after = words::add(address, code_bytes(o.operation, INDEXED));
    words::sub(u.number, words::add(after, 2))
}

fn relative_reason(r: Record, address: u16) -> Reason
    ensures { result ≡ relative_reason r address }
{
    let distance = relative_distance(r, address);
    Reason::PcRelative {
        distance,
        near: near(distance),
    }
}

fn offset_number(v: Values) -> u16
    ensures { result ≡ offset_number v }
{
    let whole = offset_value(v).sign_extended();
    whole.number
}

fn offset_bits(o: Operand, v: Values) -> u8
    ensures { result ≡ offset_bits o v }
{
    let registers = o.registers;
    let by = offset_value(v);
    let number = offset_number(v);
    if registers[0] == PC {
        return by.width;
    }
    if number == 0 {
        return 0;
    }
    if five_bits(o.indirect, number) {
        return 5;
    }
    by.width
}

fn offset_reason(r: Record) -> Reason
    ensures { result ≡ offset_reason r }
{
    let o = r.operand;
    let v = r.values;
    Reason::Offset {
        number: offset_number(v),
        bits: offset_bits(o, v),
    }
}

// An address or a branch; extended indirect has one form.
fn extended_reason(r: Record, address: u16) -> Reason
    ensures { result ≡ extended_reason r address }
{
    let o = r.operand;
    if o.indirect {
        return Reason::Plain;
    }
    if has_form(o.operation, EXTENDED) {
        return address_reason(r);
    }
    if has_form(o.operation, RELATIVE) {
        return branch_reason(r, address);
    }
    Reason::Plain
}

pub(crate) fn reason_for(r: Record, address: u16) -> Reason
    ensures { result ≡ reason_for r address }
{
    let o = r.operand;
    let mode = o.mode;
    match mode {
        MODE_EXTENDED => extended_reason(r, address),
        MODE_PC_RELATIVE => relative_reason(r, address),
        MODE_OFFSET => offset_reason(r),
        _ => Reason::Plain,
    }
}
