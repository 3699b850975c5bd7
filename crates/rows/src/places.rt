// Where rows stand in the tables. A line has a hexadecimal digit for each of sixteen cases, the left digit for the first, so that the lines of the
// sixteens 00, 10, .. F0 of codes read like the sheet's map.
ghost use Rattle.std.specs.Prelude.{◌≡◌, ◌/◌, get_or};
ghost use Rattle.rows.specs.Quick.{digit_of, form_lines, form_of, firsts, step_lines, place_on_page0, prefixed_lines, place_of_code, sixteen_line, regular_code, other_line, place_of_operation};

use crate::forms::*;

// The digit of a line for a case.
#[tactic(auto, unfolding(crate::specs::Quick::digit_of))]
pub(crate) fn digit(line: u64, case: u8) -> u8
    ensures { result ≡ digit_of line case }
{
    ((line >> (60 - 4 * (case % 16))) % 16) as u8
}

// The forms of codes, which are the same on every page; 7 where the sheet has a hole.
const FORM_LINES: [u64; 16] = [
    0x2772_2722_2227_2222,
    0x7700_7755_7017_1066,
    0x5555_5555_5555_5555,
    0x3333_6666_7000_1070,
    0x0770_0700_0007_0070,
    0x0770_0700_0007_0070,
    0x3773_3733_3337_3333,
    0x4774_4744_4447_4444,
    0x1111_1117_1111_1517,
    0x2222_2222_2222_2222,
    0x3333_3333_3333_3333,
    0x4444_4444_4444_4444,
    0x1111_1117_1111_1717,
    0x2222_2222_2222_2222,
    0x3333_3333_3333_3333,
    0x4444_4444_4444_4444,
];

fn form_line(code: u8) -> u64
    ensures { result ≡ get_or form_lines (code / 16) 0 }
{
    FORM_LINES[(code / 16) as usize]
}

#[tactic(auto, unfolding(crate::specs::Quick::form_of))]
pub(crate) fn form_of(code: u8) -> u8
    ensures { result ≡ form_of code }
{
    digit(form_line(code), code)
}

// Page 0: the place from which the rows of a sixteen stand in the table of their form, and how many places on each code has its row. The rows of
// 10 and 30, which are of several forms, are counted from the front of each table. F is a hole, but for 8D: BSR does stand 15 places on.
// Two tables and none of pairs: the lines of the second read like the map.
const FIRSTS: [u8; 16] = [0, 0, 2, 0, 9, 20, 4, 0, 3, 12, 16, 12, 16, 28, 32, 28];

fn first_of(code: u8) -> u8
    ensures { result ≡ get_or firsts (code / 16) 0 }
{
    FIRSTS[(code / 16) as usize]
}

const STEP_LINES: [u64; 16] = [
    0x0FF1_2F34_567F_89AB,
    0xFF01_FF01_F20F_1301,
    0x0123_4567_89AB_CDEF,
    0x0123_2345_F456_27F8,
    0x0FF1_2F34_567F_89FA,
    0x0FF1_2F34_567F_89FA,
    0x0FF1_2F34_567F_89AB,
    0x0FF1_2F34_567F_89AB,
    0x0123_456F_789A_BFCF,
    0x0123_4567_89AB_CDEF,
    0x0123_4567_89AB_CDEF,
    0x0123_4567_89AB_CDEF,
    0x0123_456F_789A_BFCF,
    0x0123_4567_89AB_CDEF,
    0x0123_4567_89AB_CDEF,
    0x0123_4567_89AB_CDEF,
];

fn step_line(code: u8) -> u64
    ensures { result ≡ get_or step_lines (code / 16) 0 }
{
    STEP_LINES[(code / 16) as usize]
}

#[tactic(auto, using(crate::proofs::Lines::digit_small, crate::proofs::Lines::first_small_lem), unfolding(crate::specs::Quick::place_on_page0))]
fn place_on_page_0(code: u8) -> usize
    ensures { result ≡ place_on_page0 code }
{
    (first_of(code) + digit(step_line(code), code)) as usize
}

// The pages 10 and 11: the place of a code's row in the table of its form. What page 11 lacks of page 10 stands past the end of its tables, and so
// does F, a hole of both.
const PREFIXED_LINES: [u64; 16] = [
    0xFFFF_FFFF_FFFF_FFFF,
    0xFFFF_FFFF_FFFF_FFFF,
    0xF012_3456_789A_BCDE,
    0xFFFF_FFFF_FFFF_FFF0,
    0xFFFF_FFFF_FFFF_FFFF,
    0xFFFF_FFFF_FFFF_FFFF,
    0xFFFF_FFFF_FFFF_FFFF,
    0xFFFF_FFFF_FFFF_FFFF,
    0xFFF0_FFFF_FFFF_1F2F,
    0xFFF0_FFFF_FFFF_1F23,
    0xFFF0_FFFF_FFFF_1F23,
    0xFFF0_FFFF_FFFF_1F23,
    0xFFFF_FFFF_FFFF_FF3F,
    0xFFFF_FFFF_FFFF_FF45,
    0xFFFF_FFFF_FFFF_FF45,
    0xFFFF_FFFF_FFFF_FF45,
];

fn prefixed_line(code: u8) -> u64
    ensures { result ≡ get_or prefixed_lines (code / 16) 0 }
{
    PREFIXED_LINES[(code / 16) as usize]
}

#[tactic(auto, unfolding(crate::specs::Quick::place_of_code, ground::specs::Choice::pick))]
pub(crate) fn place_of_code(page: u8, code: u8) -> usize
    ensures { result ≡ place_of_code page code }
{
    if page == 0x00 {
        return place_on_page_0(code);
    }
    digit(prefixed_line(code), code) as usize
}

// The sixteens of the codes of the operations below 96, a digit for each form; 0 also where they lack it. NEG to CLR, the same on A and on B, SUBA
// to STX, SUBB to STU, BRA to BLE.
#[tactic(auto, unfolding(crate::specs::Quick::sixteen_line, ground::specs::Choice::pick))]
fn sixteen_line(operation: u8) -> u64
    ensures { result ≡ sixteen_line operation }
{
    match operation / 16 {
        0 => 0x0006_7000_0000_0000,
        1 => 0x4000_0000_0000_0000,
        2 => 0x5000_0000_0000_0000,
        3 => 0x089A_B000_0000_0000,
        4 => 0x0CDE_F000_0000_0000,
        _ => 0x0000_0200_0000_0000,
    }
}

// The code of an operation below 96 in a form that it has.
#[tactic(auto, using(crate::proofs::Lines::digit_small), unfolding(crate::specs::Quick::regular_code))]
fn regular_code(operation: u8, form: u8) -> u8
    ensures { result ≡ regular_code operation form }
{
    16 * digit(sixteen_line(operation), form) + operation % 16
}

// The places of the operations from 96 on in the tables of their pages: LBRA, LBRN to LBLE; LBSR, BSR, CMPD CMPY LDY LDS STY STS, SWI2, CMPU CMPS,
// SWI3, NOP SYNC DAA SEX; RTS ABX RTI MUL SWI, ORCC ANDCC CWAI, EXG TFR PSHS PULS PSHU PULU, LEAX LEAY; LEAS LEAU.
#[tactic(auto, unfolding(crate::specs::Quick::other_line, ground::specs::Choice::pick))]
fn other_line(operation: u8) -> u64
    ensures { result ≡ other_line operation }
{
    match operation / 16 {
        6 => 0x0012_3456_789A_BCDE,
        7 => 0x1F01_2435_0010_0123,
        8 => 0x4567_8012_0123_4501,
        _ => 0x2300_0000_0000_0000,
    }
}

// The place of an operation that is no alias in the table of its page and of a form that it has. BSR, 113, stands too far on for a digit, and LDS,
// 117, one place earlier among the immediates, which have no stores.
#[tactic(auto, unfolding(crate::specs::Quick::place_of_operation, ground::specs::Choice::pick))]
pub(crate) fn place_of_operation(operation: u8, form: u8) -> usize
    ensures { result ≡ place_of_operation operation form }
{
    if operation < 96 {
        return place_on_page_0(regular_code(operation, form));
    }
    if operation == 113 {
        return 18;
    }
    if (operation == 117) & (form == IMMEDIATE) {
        return 3;
    }
    digit(other_line(operation), operation) as usize
}
