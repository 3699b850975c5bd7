// Parser modes, and rows of register lists, by number and no enum: a caller's row may hold any number (docs/ROWS.md).
pub const MODE_REGISTER: u8 = 0;

pub const MODE_OFFSET: u8 = 1;

pub const MODE_PC_RELATIVE: u8 = 2;

pub const MODE_INC_DEC: u8 = 3;

pub const MODE_EXTENDED: u8 = 4;

pub const MODE_DIRECT: u8 = 5;

pub const MODE_IMMEDIATE: u8 = 6;

pub const MODE_INHERENT: u8 = 7;

pub const EXG: u8 = 136;

pub const TFR: u8 = 137;

pub const PSHS: u8 = 138;

pub const PULS: u8 = 139;

pub const PULU: u8 = 141;
