// An instruction: a record that was admitted, by typed fields, with its row. p is not part of it.
ghost use Rattle.std.specs.Prelude.{◌≡◌, ◌+◌};
ghost use Rattle.isa.specs.Classes.{delay};
ghost use Rattle.admission.specs.Landings.{landing};
ghost use Rattle.admission.specs.Operands.{halves, stored_width, result_width, result_write, base_write, present, reads, read_places, writes, write_places};

use isa::class::Class;
use isa::condition::Condition;
use isa::register::Register;
use isa::row::Row;
use isa::unit::{FunctionalUnit, Side};
use isa::width::Width;

#[derive(Clone, Copy)]
pub struct Instruction {
    pub row: Row,
    pub unit: Option<FunctionalUnit>,
    pub condition: Condition,
    // s2 comes over the cross path
    pub cross: bool,
    // the side whose data path a load or a store uses
    pub path: Side,
    // the address register is updated
    pub update: bool,
    pub s1: Option<Register>,
    pub s2: Option<Register>,
    pub dst: Option<Register>,
    // the cycles of a NOP
    pub cycles: u8,
}

// A register that an instruction writes, so many cycles after its issue.
#[derive(Clone, Copy)]
pub struct Write {
    pub register: Register,
    pub delay: u8,
    pub load: bool,
}

// A register, and a cycle in which a write of it lands.
#[derive(Clone, Copy, PartialEq, Eq)]
pub struct Landing {
    pub register: Register,
    pub cycle: u64,
}

impl Write {
    // The write of a result.
    fn of_result(class: Class, register: Register) -> Write
        ensures value { result ≡ result_write class register }
    {
        Write {
            register,
            delay: class.delay(),
            load: class == Class::Load,
        }
    }

    // The write of an updated base register.
    fn of_base(register: Register) -> Write
        ensures value { result ≡ base_write register }
    {
        Write {
            register,
            delay: 0,
            load: false,
        }
    }

    // Where the write of an instruction that issues in a cycle lands.
    pub fn landing(self, issue: u32) -> Landing
        ensures value { result ≡ landing issue self }
    {
        Landing {
            register: self.register,
            cycle: u64::from(issue) + u64::from(self.delay),
        }
    }
}

// The registers of an operand: the one it names, and the odd one of a pair.
fn halves(width: Width, register: Option<Register>) -> [Option<Register>; 2]
    ensures value { result ≡ halves width register }
{
    match (width, register) {
        (Width::Single, named) => [named, None],
        (Width::Pair, Some(named)) => [Some(named), Some(named.odd_of_pair())],
        _ => [None, None],
    }
}

// The width of what a store reads at its dst.
fn stored_width(row: Row) -> Width
    ensures value { result ≡ stored_width row.class row.dst }
{
    match row.class {
        Class::Store => row.dst,
        _ => Width::Absent,
    }
}

// The width of what is written at dst.
fn result_width(row: Row) -> Width
    ensures value { result ≡ result_width row.class row.dst }
{
    match row.class {
        Class::Nop | Class::Store => Width::Absent,
        _ => row.dst,
    }
}

impl Instruction {
    // The cycle in which the result lands, if the instruction issues in a cycle.
    pub fn result_cycle(&self, issue: u32) -> u64
        ensures value { result ≡ issue + delay self.now.row.class }
    {
        u64::from(issue) + u64::from(self.row.class.delay())
    }

    // Each register that is read, at its own place: two for s1, two for s2, two for a store's dst.
    pub fn reads(self) -> [Option<Register>; 6]
        ensures places { result ≡ read_places self }
        ensures mentions { present result ≡ reads self }
    {
        let [s1, s1_odd] = halves(self.row.s1, self.s1);
        let [s2, s2_odd] = halves(self.row.s2, self.s2);
        let [data, data_odd] = halves(stored_width(self.row), self.dst);
        [s1, s1_odd, s2, s2_odd, data, data_odd]
    }

    // Each register that is written, at its own place: two for the result, one for the base register.
    pub fn writes(self) -> [Option<Write>; 3]
        ensures places { result ≡ write_places self }
        ensures mentions { present result ≡ writes self }
    {
        let class = self.row.class;
        let [low, odd] = halves(result_width(self.row), self.dst);
        let base = if self.update { self.s2 } else { None };
        [
            low.map(|register| Write::of_result(class, register)),
            odd.map(|register| Write::of_result(class, register)),
            base.map(Write::of_base),
        ]
    }
}
