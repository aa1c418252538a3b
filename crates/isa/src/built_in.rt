// The repertoire that is built in: twenty-two operations, each on both sides.
ghost use Rattle.std.specs.Prelude.{◌≡◌};
ghost use Rattle.isa.specs.BuiltIn.{built_in_map};
ghost use Rattle.isa.specs.Lawfulness.{built_in_lawful};

use crate::class::Class;
use crate::repertoire::Repertoire;
use crate::row::Row;
use crate::unit::Units;
use crate::width::Width;

const NO_UNIT: Units = Units { mask: 0 };

const ON_LSD: Units = Units { mask: 0b1011_1011 };

const ON_S: Units = Units { mask: 0b0010_0010 };

const ON_M: Units = Units { mask: 0b0100_0100 };

const ON_D: Units = Units { mask: 0b1000_1000 };

const NOP: Row = Row {
    class: Class::Nop,
    units: NO_UNIT,
    nonaligned: false,
    s1: Width::Absent,
    s2: Width::Absent,
    dst: Width::Absent,
};

const ADD: Row = Row {
    class: Class::SingleCycle,
    units: ON_LSD,
    nonaligned: false,
    s1: Width::Single,
    s2: Width::Single,
    dst: Width::Single,
};

const MV: Row = Row {
    s1: Width::Absent,
    ..ADD
};

const SHL: Row = Row { units: ON_S, ..ADD };

const MPY: Row = Row {
    class: Class::TwoCycle,
    units: ON_M,
    ..ADD
};

const DOTP2: Row = Row {
    class: Class::FourCycle,
    ..MPY
};

const SMPY2: Row = Row {
    dst: Width::Pair,
    ..DOTP2
};

const LDW: Row = Row {
    class: Class::Load,
    units: ON_D,
    ..ADD
};

const LDNW: Row = Row {
    nonaligned: true,
    ..LDW
};

const LDDW: Row = Row {
    dst: Width::Pair,
    ..LDW
};

const STW: Row = Row {
    class: Class::Store,
    ..LDW
};

const STNW: Row = Row {
    nonaligned: true,
    ..STW
};

const STDW: Row = Row {
    dst: Width::Pair,
    ..STW
};

const STNDW: Row = Row {
    nonaligned: true,
    ..STDW
};

const SUB: Row = ADD;

const AND: Row = ADD;

const SHR: Row = SHL;

const CMPGT2: Row = SHL;

const AVG2: Row = MPY;

const AVGU4: Row = MPY;

const LDB: Row = LDW;

const STB: Row = STW;

// The row of operation n stands at place n.
const ROWS: [Row; 22] = [
    NOP, ADD, SUB, AND, MV, SHL, SHR, MPY, SMPY2, DOTP2, AVG2, LDW, LDB, LDNW, LDDW, STW, STB,
    STNW, STDW, STNDW, CMPGT2, AVGU4,
];

#[derive(Clone, Copy)]
pub struct BuiltIn;

impl Repertoire for BuiltIn {
    ghost map = { λ _. built_in_map };

    fn row(&self, operation: u8) -> Option<Row> {
        ROWS.get(usize::from(operation)).copied()
    }

    ghost lawful = { λ _. built_in_lawful };
}
