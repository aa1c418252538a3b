// The bytes of records by name. A record is operation, unit, flags, condition, s1, s2, dst, count.

// Operations.
pub(crate) const NOP: u8 = 0;

pub(crate) const ADD: u8 = 1;

pub(crate) const SUB: u8 = 2;

pub(crate) const MV: u8 = 4;

pub(crate) const MPY: u8 = 7;

pub(crate) const SMPY2: u8 = 8;

pub(crate) const DOTP2: u8 = 9;

pub(crate) const AVG2: u8 = 10;

pub(crate) const LDW: u8 = 11;

pub(crate) const LDB: u8 = 12;

pub(crate) const LDNW: u8 = 13;

pub(crate) const LDDW: u8 = 14;

pub(crate) const STW: u8 = 15;

pub(crate) const STNW: u8 = 17;

pub(crate) const STDW: u8 = 18;

pub(crate) const STNDW: u8 = 19;

// Units.
pub(crate) const L1: u8 = 1;

pub(crate) const S1: u8 = 2;

pub(crate) const M1: u8 = 3;

pub(crate) const D1: u8 = 4;

pub(crate) const L2: u8 = 5;

pub(crate) const S2: u8 = 6;

pub(crate) const M2: u8 = 7;

pub(crate) const D2: u8 = 8;

// Flags, but for p: s2 over the cross path, data path T2, the base updated.
pub(crate) const X: u8 = 2;

pub(crate) const T2: u8 = 4;

pub(crate) const U: u8 = 8;

// Conditions.
pub(crate) const ALWAYS: u8 = 0;

pub(crate) const IF_B0: u8 = 2;

pub(crate) const UNLESS_B0: u8 = 3;

pub(crate) const UNLESS_B1: u8 = 5;

pub(crate) const IF_A1: u8 = 8;

pub(crate) const UNLESS_A1: u8 = 9;

pub(crate) const IF_A2: u8 = 10;

pub(crate) const UNLESS_A2: u8 = 11;

pub(crate) const IF_A0: u8 = 12;

pub(crate) const UNLESS_A0: u8 = 13;

// Registers.
pub(crate) const NONE: u8 = 255;

pub(crate) const A0: u8 = 0;

pub(crate) const A1: u8 = 1;

pub(crate) const A2: u8 = 2;

pub(crate) const A3: u8 = 3;

pub(crate) const A4: u8 = 4;

pub(crate) const A5: u8 = 5;

pub(crate) const A6: u8 = 6;

pub(crate) const A7: u8 = 7;

pub(crate) const A8: u8 = 8;

pub(crate) const A9: u8 = 9;

pub(crate) const A10: u8 = 10;

pub(crate) const B0: u8 = 32;

pub(crate) const B1: u8 = 33;

pub(crate) const B2: u8 = 34;

pub(crate) const B3: u8 = 35;

pub(crate) const B4: u8 = 36;

pub(crate) const B5: u8 = 37;

pub(crate) const B6: u8 = 38;

pub(crate) const B7: u8 = 39;

pub(crate) const B8: u8 = 40;

pub(crate) const B9: u8 = 41;

pub(crate) fn nop(count: u8) -> [u8; 8] {
    [NOP, 0, 0, ALWAYS, NONE, NONE, NONE, count]
}

// The record with p set: the next one belongs to the same packet.
pub(crate) fn p(record: [u8; 8]) -> [u8; 8] {
    let mut record = record;
    record[2] |= 1;
    record
}

// The record under a condition.
pub(crate) fn when(condition: u8, record: [u8; 8]) -> [u8; 8] {
    let mut record = record;
    record[3] = condition;
    record
}
