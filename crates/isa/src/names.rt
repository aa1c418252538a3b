// The names of classes, widths and units, as they are printed.
ghost use Rattle.std.specs.Prelude.{◌≡◌, ◌≤◌, length, Some};
ghost use Rattle.isa.specs.Names.{class_name, width_name, unit_name};

use crate::class::Class;
use crate::unit::{FunctionalUnit, Side, UnitKind};
use crate::width::Width;
use std::fmt;

impl Class {
    pub fn name(self) -> &'static str
        ensures name { result.now ≡ class_name self }
        ensures short { length result.now ≤ 12 }
    {
        match self {
            Class::Nop => "NOP",
            Class::SingleCycle => "single cycle",
            Class::TwoCycle => "two cycle",
            Class::FourCycle => "four cycle",
            Class::Load => "load",
            Class::Store => "store",
        }
    }
}

impl Width {
    pub fn name(self) -> &'static str
        ensures name { result.now ≡ width_name self }
        ensures short { length result.now ≡ 1 }
    {
        match self {
            Width::Absent => "0",
            Width::Single => "1",
            Width::Pair => "2",
        }
    }
}

impl FunctionalUnit {
    pub fn name(self) -> &'static str
        ensures name { result.now ≡ unit_name self }
        ensures short { length result.now ≡ 3 }
    {
        match (self.kind, self.side) {
            (UnitKind::L, Side::A) => ".L1",
            (UnitKind::S, Side::A) => ".S1",
            (UnitKind::M, Side::A) => ".M1",
            (UnitKind::D, Side::A) => ".D1",
            (UnitKind::L, Side::B) => ".L2",
            (UnitKind::S, Side::B) => ".S2",
            (UnitKind::M, Side::B) => ".M2",
            (UnitKind::D, Side::B) => ".D2",
        }
    }
}

impl fmt::Display for Class {
    ghost output = { λ class. Some (class_name class) };

    fn fmt<W: fmt::Write>(&self, f: &mut fmt::Formatter<W>) -> fmt::Result {
        f.write_str(Class::name(*self))
    }
}

impl fmt::Display for Width {
    ghost output = { λ width. Some (width_name width) };

    fn fmt<W: fmt::Write>(&self, f: &mut fmt::Formatter<W>) -> fmt::Result {
        f.write_str(Width::name(*self))
    }
}

impl fmt::Display for FunctionalUnit {
    ghost output = { λ unit. Some (unit_name unit) };

    fn fmt<W: fmt::Write>(&self, f: &mut fmt::Formatter<W>) -> fmt::Result {
        f.write_str(FunctionalUnit::name(*self))
    }
}
