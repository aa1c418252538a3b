// The two counts: uses of a cross path, and reads of a register.
ghost use Rattle.std.specs.Prelude.{◌≡◌, ℕ, ◌<◌, None, sum_by, slice_index_or, ◌↔◌, IsTrue};
ghost use Rattle.admission.specs.declared.instruction.Instruction.{Instruction};
ghost use Rattle.admission.specs.Operands.{read_places};
ghost use Rattle.hazards.specs.Counts.{cross_use, mentions, names, CrossExcess, ReadExcess, ExcessAt};
ghost use Rattle.hazards.specs.Empty.{no_cross_excess, no_read_excess};

use crate::fault::PacketFault;
use admission::instruction::Instruction;
use isa::register::Register;
use isa::unit::Side;

// What each instruction has some number of.
trait Counted {
    ghost amount: { Self → Instruction → ℕ };

    fn count(&self, instruction: &Instruction) -> usize
        ensures { result ≡ amount self.now instruction.now };
}

// Uses of the cross path to a side.
impl Counted for Side {
    ghost amount = { cross_use };

    fn count(&self, instruction: &Instruction) -> usize {
        let used = instruction.cross && instruction.unit.is_some_and(|unit| unit.side == *self);
        usize::from(used)
    }
}

// Whether a place has that register.
fn names(register: Register, place: Option<Register>) -> bool
    ensures value { result ≡ names register place }
{
    place == Some(register)
}

// Reads of a register.
impl Counted for Register {
    ghost amount = { mentions };

    fn count(&self, instruction: &Instruction) -> usize {
        let reads = instruction.reads();
        reads.iter().filter(|place| names(*self, **place)).count()
    }
}

// Whether a packet has more of it than a limit.
fn over<K: Counted>(key: &K, packet: &[Instruction], limit: u8) -> bool
    ensures decides { IsTrue result ↔ (limit < sum_by (K.amount key.now) packet.now) }
{
    let sum = packet.iter().fold(
        0usize,
        |sum, instruction| sum.saturating_add(key.count(instruction)),
    );
    sum > usize::from(limit)
}

// More than two instructions use the cross path to one side.
#[derive(Clone, Copy)]
pub struct CrossPathUses;

impl PacketFault for CrossPathUses {
    ghost fault = { λ _. CrossExcess };

    fn broken(&self, packet: &[Instruction]) -> bool {
        over(&Side::A, packet, 2) || over(&Side::B, packet, 2)
    }

    ghost none = { λ _. no_cross_excess };
}

// Whether the register of a place is read more than four times in a packet.
fn over_at(packet: &[Instruction], place: Option<Register>) -> bool
    ensures decides { IsTrue result ↔ ExcessAt packet.now place }
{
    match place {
        Some(register) => over(&register, packet, 4),
        None => false,
    }
}

// Whether a register that an instruction reads is read more than four times in a packet.
fn over_in(packet: &[Instruction], instruction: &Instruction) -> bool
    ensures decides { IsTrue result ↔ ((j : ℕ) × (j < 6) × ExcessAt packet.now (slice_index_or (read_places instruction.now) j None)) }
{
    let reads = instruction.reads();
    reads.iter().any(|place| over_at(packet, *place))
}

// A register is read more than four times.
#[derive(Clone, Copy)]
pub struct RegisterReads;

impl PacketFault for RegisterReads {
    ghost fault = { λ _. ReadExcess };

    fn broken(&self, packet: &[Instruction]) -> bool {
        packet
            .iter()
            .any(|instruction| over_in(packet, instruction))
    }

    ghost none = { λ _. no_read_excess };
}
