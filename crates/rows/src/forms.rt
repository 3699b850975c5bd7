// The forms of opcode rows, as docs/ROWS.md numbers them. Numbers and no enum, as the operations are: a caller or a lent row may hand in any (docs/ROWS.md).
pub const INHERENT: u8 = 0;

pub const IMMEDIATE: u8 = 1;

pub const DIRECT: u8 = 2;

pub const INDEXED: u8 = 3;

pub const EXTENDED: u8 = 4;

pub const RELATIVE: u8 = 5;

pub const REGISTER: u8 = 6;
