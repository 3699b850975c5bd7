// The sheet's opcode rows, by page and mode, in the sheet's order. A row is its code times 256 plus its operation's number.

// Page 0: codes without a prefix.
pub const INHERENT_0: [u16; 31] = [
    // 10: one by one
    0x127C, // NOP
    0x137D, // SYNC
    0x197E, // DAA
    0x1D7F, // SEX
    // 30: one by one
    0x3980, // RTS
    0x3A81, // ABX
    0x3B82, // RTI
    0x3D83, // MUL
    0x3F84, // SWI
    // 40: NEG to CLR on A
    0x4010, // NEGA
    0x4313, // COMA
    0x4414, // LSRA
    0x4616, // RORA
    0x4717, // ASRA
    0x4818, // ASLA
    0x4919, // ROLA
    0x4A1A, // DECA
    0x4C1C, // INCA
    0x4D1D, // TSTA
    0x4F1F, // CLRA
    // 50: NEG to CLR on B
    0x5020, // NEGB
    0x5323, // COMB
    0x5424, // LSRB
    0x5626, // RORB
    0x5727, // ASRB
    0x5828, // ASLB
    0x5929, // ROLB
    0x5A2A, // DECB
    0x5C2C, // INCB
    0x5D2D, // TSTB
    0x5F2F, // CLRB
];

pub const IMMEDIATE_0: [u16; 29] = [
    // 10: one by one
    0x1A85, // ORCC
    0x1C86, // ANDCC
    // 30: one by one
    0x3C87, // CWAI
    // 80: SUBA to LDX
    0x8030, // SUBA
    0x8131, // CMPA
    0x8232, // SBCA
    0x8333, // SUBD
    0x8434, // ANDA
    0x8535, // BITA
    0x8636, // LDA
    0x8838, // EORA
    0x8939, // ADCA
    0x8A3A, // ORA
    0x8B3B, // ADDA
    0x8C3C, // CMPX
    0x8E3E, // LDX
    // C0: SUBB to LDU
    0xC040, // SUBB
    0xC141, // CMPB
    0xC242, // SBCB
    0xC343, // ADDD
    0xC444, // ANDB
    0xC545, // BITB
    0xC646, // LDB
    0xC848, // EORB
    0xC949, // ADCB
    0xCA4A, // ORB
    0xCB4B, // ADDB
    0xCC4C, // LDD
    0xCE4E, // LDU
];

pub const DIRECT_0: [u16; 44] = [
    // 00: NEG to CLR
    0x0000, // NEG
    0x0303, // COM
    0x0404, // LSR
    0x0606, // ROR
    0x0707, // ASR
    0x0808, // ASL
    0x0909, // ROL
    0x0A0A, // DEC
    0x0C0C, // INC
    0x0D0D, // TST
    0x0E0E, // JMP
    0x0F0F, // CLR
    // 90: SUBA to STX
    0x9030, // SUBA
    0x9131, // CMPA
    0x9232, // SBCA
    0x9333, // SUBD
    0x9434, // ANDA
    0x9535, // BITA
    0x9636, // LDA
    0x9737, // STA
    0x9838, // EORA
    0x9939, // ADCA
    0x9A3A, // ORA
    0x9B3B, // ADDA
    0x9C3C, // CMPX
    0x9D3D, // JSR
    0x9E3E, // LDX
    0x9F3F, // STX
    // D0: SUBB to STU
    0xD040, // SUBB
    0xD141, // CMPB
    0xD242, // SBCB
    0xD343, // ADDD
    0xD444, // ANDB
    0xD545, // BITB
    0xD646, // LDB
    0xD747, // STB
    0xD848, // EORB
    0xD949, // ADCB
    0xDA4A, // ORB
    0xDB4B, // ADDB
    0xDC4C, // LDD
    0xDD4D, // STD
    0xDE4E, // LDU
    0xDF4F, // STU
];

pub const INDEXED_0: [u16; 48] = [
    // 30: one by one
    0x308E, // LEAX
    0x318F, // LEAY
    0x3290, // LEAS
    0x3391, // LEAU
    // 60: NEG to CLR
    0x6000, // NEG
    0x6303, // COM
    0x6404, // LSR
    0x6606, // ROR
    0x6707, // ASR
    0x6808, // ASL
    0x6909, // ROL
    0x6A0A, // DEC
    0x6C0C, // INC
    0x6D0D, // TST
    0x6E0E, // JMP
    0x6F0F, // CLR
    // A0: SUBA to STX
    0xA030, // SUBA
    0xA131, // CMPA
    0xA232, // SBCA
    0xA333, // SUBD
    0xA434, // ANDA
    0xA535, // BITA
    0xA636, // LDA
    0xA737, // STA
    0xA838, // EORA
    0xA939, // ADCA
    0xAA3A, // ORA
    0xAB3B, // ADDA
    0xAC3C, // CMPX
    0xAD3D, // JSR
    0xAE3E, // LDX
    0xAF3F, // STX
    // E0: SUBB to STU
    0xE040, // SUBB
    0xE141, // CMPB
    0xE242, // SBCB
    0xE343, // ADDD
    0xE444, // ANDB
    0xE545, // BITB
    0xE646, // LDB
    0xE747, // STB
    0xE848, // EORB
    0xE949, // ADCB
    0xEA4A, // ORB
    0xEB4B, // ADDB
    0xEC4C, // LDD
    0xED4D, // STD
    0xEE4E, // LDU
    0xEF4F, // STU
];

pub const EXTENDED_0: [u16; 44] = [
    // 70: NEG to CLR
    0x7000, // NEG
    0x7303, // COM
    0x7404, // LSR
    0x7606, // ROR
    0x7707, // ASR
    0x7808, // ASL
    0x7909, // ROL
    0x7A0A, // DEC
    0x7C0C, // INC
    0x7D0D, // TST
    0x7E0E, // JMP
    0x7F0F, // CLR
    // B0: SUBA to STX
    0xB030, // SUBA
    0xB131, // CMPA
    0xB232, // SBCA
    0xB333, // SUBD
    0xB434, // ANDA
    0xB535, // BITA
    0xB636, // LDA
    0xB737, // STA
    0xB838, // EORA
    0xB939, // ADCA
    0xBA3A, // ORA
    0xBB3B, // ADDA
    0xBC3C, // CMPX
    0xBD3D, // JSR
    0xBE3E, // LDX
    0xBF3F, // STX
    // F0: SUBB to STU
    0xF040, // SUBB
    0xF141, // CMPB
    0xF242, // SBCB
    0xF343, // ADDD
    0xF444, // ANDB
    0xF545, // BITB
    0xF646, // LDB
    0xF747, // STB
    0xF848, // EORB
    0xF949, // ADCB
    0xFA4A, // ORB
    0xFB4B, // ADDB
    0xFC4C, // LDD
    0xFD4D, // STD
    0xFE4E, // LDU
    0xFF4F, // STU
];

pub const RELATIVE_0: [u16; 19] = [
    // 10: one by one
    0x1660, // LBRA
    0x1770, // LBSR
    // 20: the branches
    0x2050, // BRA
    0x2151, // BRN
    0x2252, // BHI
    0x2353, // BLS
    0x2454, // BCC
    0x2555, // BCS
    0x2656, // BNE
    0x2757, // BEQ
    0x2858, // BVC
    0x2959, // BVS
    0x2A5A, // BPL
    0x2B5B, // BMI
    0x2C5C, // BGE
    0x2D5D, // BLT
    0x2E5E, // BGT
    0x2F5F, // BLE
    // 80: SUBA to LDX
    0x8D71, // BSR
];

pub const REGISTER_0: [u16; 6] = [
    // 10: one by one
    0x1E88, // EXG
    0x1F89, // TFR
    // 30: one by one
    0x348A, // PSHS
    0x358B, // PULS
    0x368C, // PSHU
    0x378D, // PULU
];

// Page 10: codes after the prefix 10.
pub const INHERENT_10: [u16; 1] = [
    // 30
    0x3F78, // SWI2
];

pub const IMMEDIATE_10: [u16; 4] = [
    // 80
    0x8372, // CMPD
    0x8C73, // CMPY
    0x8E74, // LDY
    // C0
    0xCE75, // LDS
];

pub const DIRECT_10: [u16; 6] = [
    // 90
    0x9372, // CMPD
    0x9C73, // CMPY
    0x9E74, // LDY
    0x9F76, // STY
    // D0
    0xDE75, // LDS
    0xDF77, // STS
];

pub const INDEXED_10: [u16; 6] = [
    // A0
    0xA372, // CMPD
    0xAC73, // CMPY
    0xAE74, // LDY
    0xAF76, // STY
    // E0
    0xEE75, // LDS
    0xEF77, // STS
];

pub const EXTENDED_10: [u16; 6] = [
    // B0
    0xB372, // CMPD
    0xBC73, // CMPY
    0xBE74, // LDY
    0xBF76, // STY
    // F0
    0xFE75, // LDS
    0xFF77, // STS
];

pub const RELATIVE_10: [u16; 15] = [
    // 20
    0x2161, // LBRN
    0x2262, // LBHI
    0x2363, // LBLS
    0x2464, // LBCC
    0x2565, // LBCS
    0x2666, // LBNE
    0x2767, // LBEQ
    0x2868, // LBVC
    0x2969, // LBVS
    0x2A6A, // LBPL
    0x2B6B, // LBMI
    0x2C6C, // LBGE
    0x2D6D, // LBLT
    0x2E6E, // LBGT
    0x2F6F, // LBLE
];

// Page 11: codes after the prefix 11.
pub const INHERENT_11: [u16; 1] = [
    // 30
    0x3F7B, // SWI3
];

pub const IMMEDIATE_11: [u16; 2] = [
    // 80
    0x8379, // CMPU
    0x8C7A, // CMPS
];

pub const DIRECT_11: [u16; 2] = [
    // 90
    0x9379, // CMPU
    0x9C7A, // CMPS
];

pub const INDEXED_11: [u16; 2] = [
    // A0
    0xA379, // CMPU
    0xAC7A, // CMPS
];

pub const EXTENDED_11: [u16; 2] = [
    // B0
    0xB379, // CMPU
    0xBC7A, // CMPS
];

// The operations that LSL LSLA LSLB BHS BLO LBHS LBLO stand for: ASL ASLA ASLB BCC BCS LBCC LBCS.
pub const ALIASES: [u8; 7] = [8, 24, 40, 84, 85, 100, 101];
