// The registers, by number.
// Registers, steps and accumulators are numbers and no enums: a caller's, garbage too (docs/ROWS.md).
pub const A: u8 = 0;

pub const B: u8 = 1;

pub const D: u8 = 2;

pub const X: u8 = 3;

pub const Y: u8 = 4;

pub const U: u8 = 5;

pub const S: u8 = 6;

pub const PC: u8 = 7;

pub const CC: u8 = 8;

pub const DP: u8 = 9;
