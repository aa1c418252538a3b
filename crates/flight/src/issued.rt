// Instructions with the place and the cycle of their issue.
use admission::instruction::Instruction;
use bounded::list::Bounded;
use constraints::fault::Place;
use isa::class::Class;
use isa::condition::Condition;
use isa::row::Row;
use isa::unit::{Side, Units};
use isa::width::Width;
use runs::valuations::Valuations;

// The instructions of a packet, one in each slot.
pub type Packet = Bounded<Instruction, 8>;

// An instruction of an accepted packet or of the packet behind them, and the cycle in which it issues.
#[derive(Clone, Copy)]
pub struct Issued {
    pub place: Place,
    pub issue: u32,
    pub instruction: Instruction,
}

// An issued instruction, with the valuations that the packet behind can have in the runs that perform it.
#[derive(Clone, Copy)]
pub struct InFlight {
    pub issued: Issued,
    pub performed: Valuations,
}

// An instruction that does nothing.
const IDLE: Instruction = Instruction {
    row: Row {
        class: Class::Nop,
        units: Units { mask: 0 },
        nonaligned: false,
        s1: Width::Absent,
        s2: Width::Absent,
        dst: Width::Absent,
    },
    unit: None,
    condition: Condition::Always,
    cross: false,
    path: Side::A,
    update: false,
    s1: None,
    s2: None,
    dst: None,
    cycles: 1,
};

// What the places of a list hold before they are used.
pub const UNUSED: InFlight = InFlight {
    issued: Issued {
        place: Place { packet: 0, slot: 0 },
        issue: 0,
        instruction: IDLE,
    },
    performed: Valuations::NONE,
};
