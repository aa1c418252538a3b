// What a repertoire says of one operation, and the rule that every row keeps.
ghost use Rattle.std.specs.Prelude.{◌≡◌};
ghost use Rattle.isa.specs.Rows.{keeps_rule};

use crate::class::Class;
use crate::unit::Units;
use crate::width::Width;

#[derive(Clone, Copy, Debug, PartialEq, Eq)]
pub struct Row {
    pub class: Class,
    pub units: Units,
    pub nonaligned: bool,
    pub s1: Width,
    pub s2: Width,
    pub dst: Width,
}

impl Row {
    pub fn keeps_rule(self) -> bool
        ensures value { result ≡ keeps_rule self }
    {
        match self.class {
            Class::Load | Class::Store if self.units.permit_other_than_d() => false,
            Class::Load | Class::Store => {
                self.units.permit_some()
                    && self.s1 == Width::Single
                    && self.s2 == Width::Single
                    && self.dst != Width::Absent
            }
            _ if self.nonaligned => false,
            Class::Nop if self.units.permit_some() => false,
            Class::Nop => self.s1 == Width::Absent
                && self.s2 == Width::Absent
                && self.dst == Width::Absent,
            Class::SingleCycle | Class::TwoCycle | Class::FourCycle => {
                self.units.permit_some() && self.s2 != Width::Absent && self.dst != Width::Absent
            }
        }
    }
}
