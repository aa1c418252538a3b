// The refusals 4 to 8 of a record on its row, one test each.
// Each test is told of the bytes themselves, as the rules tell it, so that no test relies on another.
ghost use Rattle.std.specs.Prelude.{◌≡◌};
ghost use Rattle.admission.specs.Refusals.{no_register, wrong_count, out_of_range, condition_forbidden, unit_forbidden, wrong_operand, wrong_first, operand_mismatch, flag_forbidden, wrong_side, path_of, side_of_s2, side_of_dst, side_or_flag};
ghost use Rattle.isa.specs.Records.{flags_of};

use isa::class::Class;
use isa::condition::Condition;
use isa::record::{Flags, Record};
use isa::register::Register;
use isa::row::Row;
use isa::unit::{FunctionalUnit, Side};
use isa::width::Width;

// The byte of an operand that is not there.
const ABSENT: u8 = 255;

// A record beside the row of its operation, before it is known whether it fits there.
#[derive(Clone, Copy)]
pub(crate) struct Candidate {
    pub(crate) row: Row,
    pub(crate) record: Record,
}

// Whether a byte is neither a register nor absent.
fn no_register(byte: u8) -> bool
    ensures value { result ≡ no_register byte }
{
    byte != ABSENT && Register::try_from(byte).is_err()
}

// Whether the count does not suit the class: 1 to 9 for a NOP, else 0.
fn wrong_count(class: Class, count: u8) -> bool
    ensures value { result ≡ wrong_count class count }
{
    match class {
        Class::Nop => count < 1 || count > 9,
        _ => count != 0,
    }
}

// Whether s2 or dst does not suit its width: absent, present where there is none, or an odd pair.
fn wrong_operand(width: Width, byte: u8) -> bool
    ensures value { result ≡ wrong_operand width byte }
{
    match width {
        Width::Absent => byte != ABSENT,
        Width::Single => byte == ABSENT,
        Width::Pair => byte % 2 == 1,
    }
}

// The same of s1, which may be absent: it is a constant then.
fn wrong_first(width: Width, byte: u8) -> bool
    ensures value { result ≡ wrong_first width byte }
{
    byte != ABSENT && wrong_operand(width, byte)
}

// Whether a register stands on another side.
fn wrong_side(byte: u8, side: Side) -> bool
    ensures value { result ≡ wrong_side byte side }
{
    Register::try_from(byte).is_ok_and(|register| register.side() != side)
}

impl Candidate {
    pub(crate) fn out_of_range(self) -> bool
        ensures value { result ≡ out_of_range self.row self.«record» }
    {
        let record = self.record;
        record.unit > 8
            || record.flags > 15
            || record.condition > 15
            || no_register(record.s1)
            || no_register(record.s2)
            || no_register(record.dst)
            || wrong_count(self.row.class, record.count)
    }

    pub(crate) fn condition_forbidden(self) -> bool
        ensures value { result ≡ condition_forbidden self.row self.«record» }
    {
        match self.row.class {
            Class::Nop => self.record.condition != 0,
            _ => Condition::try_from(self.record.condition).is_err(),
        }
    }

    pub(crate) fn unit_forbidden(self) -> bool
        ensures value { result ≡ unit_forbidden self.row self.«record» }
    {
        match self.row.class {
            Class::Nop => self.record.unit != 0,
            _ => match FunctionalUnit::try_from(self.record.unit) {
                Ok(unit) => !self.row.units.permit(unit),
                Err(_) => true,
            },
        }
    }

    pub(crate) fn operand_mismatch(self) -> bool
        ensures value { result ≡ operand_mismatch self.row self.«record» }
    {
        wrong_first(self.row.s1, self.record.s1)
            || wrong_operand(self.row.s2, self.record.s2)
            || wrong_operand(self.row.dst, self.record.dst)
    }

    fn flags(self) -> Flags
        ensures value { result ≡ flags_of self.«record».flags }
    {
        Flags::from(self.record.flags)
    }

    // Whether a flag is set that the row does not take.
    fn flag_forbidden(self) -> bool
        ensures value { result ≡ flag_forbidden self.row self.«record» }
    {
        let flags = self.flags();
        match self.row.class {
            Class::Nop => flags.x || flags.t || flags.u,
            Class::SingleCycle | Class::TwoCycle | Class::FourCycle => {
                flags.t || flags.u || (flags.x && self.row.s2 != Width::Single)
            }
            Class::Load | Class::Store => flags.x,
        }
    }

    // The side whose data path T names.
    pub(crate) fn path(self) -> Side
        ensures value { result ≡ path_of self.«record» }
    {
        if self.flags().t { Side::B } else { Side::A }
    }

    fn side_of_s2(self) -> Side
        ensures value { result ≡ side_of_s2 self.«record» }
    {
        let side = Side::of_unit(self.record.unit);
        if self.flags().x {
            side.opposite()
        } else {
            side
        }
    }

    fn side_of_dst(self) -> Side
        ensures value { result ≡ side_of_dst self.row self.«record» }
    {
        match self.row.class {
            Class::Load | Class::Store => self.path(),
            _ => Side::of_unit(self.record.unit),
        }
    }

    pub(crate) fn side_or_flag(self) -> bool
        ensures value { result ≡ side_or_flag self.row self.«record» }
    {
        self.flag_forbidden()
            || wrong_side(self.record.s1, Side::of_unit(self.record.unit))
            || wrong_side(self.record.s2, self.side_of_s2())
            || wrong_side(self.record.dst, self.side_of_dst())
    }
}
