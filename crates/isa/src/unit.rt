// The two sides of the data path, and the four functional units of each.
ghost use Rattle.std.specs.Prelude.{◌≡◌};
ghost use Rattle.std.specs.Option.{ok_or};
ghost use Rattle.isa.specs.Units.{opposite, place, unit_of, permitted, permitted_kind, some_unit, other_than_d, unit_side};

use crate::unknown::UnknownByte;

#[derive(Clone, Copy, Debug, PartialEq, Eq)]
pub enum Side {
    A,
    B,
}

#[derive(Clone, Copy, Debug, PartialEq, Eq)]
pub enum UnitKind {
    L,
    S,
    M,
    D,
}

#[derive(Clone, Copy, Debug, PartialEq, Eq)]
pub struct FunctionalUnit {
    pub kind: UnitKind,
    pub side: Side,
}

// The units that an operation may name: unit u, counted from 1, is bit u - 1 of the mask.
#[derive(Clone, Copy, Debug, PartialEq, Eq)]
pub struct Units {
    pub mask: u8,
}

impl Side {
    // The side of a unit's number.
    pub fn of_unit(unit: u8) -> Side
        ensures value { result ≡ unit_side unit }
    {
        if unit < 5 { Side::A } else { Side::B }
    }

    pub fn opposite(self) -> Side
        ensures value { result ≡ opposite self }
    {
        match self {
            Side::A => Side::B,
            Side::B => Side::A,
        }
    }
}

// The unit of a number from 1 to 8; 0 is no unit.
impl TryFrom<u8> for FunctionalUnit {
    type Error = UnknownByte;

    ghost try_from_gives = { λ byte r. r ≡ ok_or (unit_of byte) (record { 0 = byte }) };

    fn try_from(byte: u8) -> Result<FunctionalUnit, UnknownByte> {
        let kind = match byte {
            1 | 5 => UnitKind::L,
            2 | 6 => UnitKind::S,
            3 | 7 => UnitKind::M,
            4 | 8 => UnitKind::D,
            _ => return Err(UnknownByte(byte)),
        };
        Ok(FunctionalUnit {
            kind,
            side: Side::of_unit(byte),
        })
    }
}

impl FunctionalUnit {
    // The bit of the unit in a mask.
    fn place(self) -> u8
        ensures value { result ≡ place self }
    {
        let first = match self.side {
            Side::A => 0,
            Side::B => 4,
        };
        match self.kind {
            UnitKind::L => first,
            UnitKind::S => first + 1,
            UnitKind::M => first + 2,
            UnitKind::D => first + 3,
        }
    }
}

impl Units {
    pub fn permit(self, unit: FunctionalUnit) -> bool
        ensures value { result ≡ permitted self unit }
    {
        (self.mask >> unit.place()) % 2 == 1
    }

    // Whether a unit of that kind is permitted, on either side.
    fn permit_kind(self, kind: UnitKind) -> bool
        ensures value { result ≡ permitted_kind self kind }
    {
        self.permit(FunctionalUnit {
            kind,
            side: Side::A,
        }) || self.permit(FunctionalUnit {
            kind,
            side: Side::B,
        })
    }

    // Whether a unit other than .D1 and .D2 is permitted.
    pub(crate) fn permit_other_than_d(self) -> bool
        ensures value { result ≡ other_than_d self }
    {
        self.permit_kind(UnitKind::L)
            || self.permit_kind(UnitKind::S)
            || self.permit_kind(UnitKind::M)
    }

    // Whether any unit is permitted.
    pub fn permit_some(self) -> bool
        ensures value { result ≡ some_unit self }
    {
        self.permit_other_than_d() || self.permit_kind(UnitKind::D)
    }
}
