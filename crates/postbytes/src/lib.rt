// Postbytes, written and read: the byte after a code that says what the operand is. Indexed operands, push lists, and the pairs of EXG and TFR.
// Registers: 0 A, 1 B, 2 D, 3 X, 4 Y, 5 U, 6 S, 7 PC, 8 CC, 9 DP. Steps: 1 `,R+`, 2 `,R++`, 3 `,-R`, 4 `,--R`.
#![tactic(auto)]

use values::Value;

pub mod encoding;
pub mod lists;
pub mod numbers;
pub mod shapes;

// An indexed operand to be written. Its numbers and values are a caller's and may be wrong.
#[derive(Clone, Copy)]
pub enum Index {
    // A constant offset from X, Y, U or S.
    Offset {
        register: u8,
        indirect: bool,
        offset: Value,
    },
    // A constant offset from PC.
    Counter {
        indirect: bool,
        offset: Value,
    },
    Accumulator {
        register: u8,
        indirect: bool,
        accumulator: u8,
    },
    Step {
        register: u8,
        indirect: bool,
        step: u8,
    },
    // Extended indirect, which is indirect always.
    Address {
        address: u16,
    },
}

// The postbyte and the bytes after it, zeros past the length.
// Three bytes and a length, and no list: document 01 asks for bytes and a length, and nothing here is allocated.
#[derive(Clone, Copy)]
pub struct Encoded {
    pub bytes: [u8; 3],
    pub length: u8,
}

// What a postbyte alone says: a line of the sheet's table, and what stands in the postbyte itself.
#[derive(Clone, Copy)]
pub enum Shape {
    NoOffset {
        register: u8,
        indirect: bool,
    },
    // The five bits, sign-extended.
    FiveBits {
        register: u8,
        offset: u16,
    },
    OneByte {
        register: u8,
        indirect: bool,
    },
    TwoBytes {
        register: u8,
        indirect: bool,
    },
    Accumulator {
        register: u8,
        indirect: bool,
        accumulator: u8,
    },
    Step {
        register: u8,
        indirect: bool,
        step: u8,
    },
    CounterByte {
        indirect: bool,
    },
    CounterWord {
        indirect: bool,
    },
    Address,
}

// What an indexed operand means: the sheet's indexed addressing, with an offset of 16 bits, sign-extended.
#[derive(Clone, Copy)]
pub enum Addressing {
    Offset {
        register: u8,
        indirect: bool,
        offset: u16,
    },
    Counter {
        indirect: bool,
        offset: u16,
    },
    Accumulator {
        register: u8,
        indirect: bool,
        accumulator: u8,
    },
    Step {
        register: u8,
        indirect: bool,
        step: u8,
    },
    Address {
        address: u16,
    },
}

// The two registers of EXG and TFR.
#[derive(Clone, Copy)]
pub struct Pair {
    pub source: u8,
    pub destination: u8,
}
