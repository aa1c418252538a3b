// The kinds of claims that the instructions of one packet make on each other.
ghost use Rattle.std.specs.Prelude.{◌≡◌, ◌↔◌, IsTrue};
ghost use Rattle.admission.specs.declared.instruction.Instruction.{Instruction};
ghost use Rattle.isa.specs.Classes.{accesses};
ghost use Rattle.claims.specs.Kinds.{SameUnit, TwoLongNops, SameDataPath, NonalignedPair, CrossOperands};
ghost use Rattle.claims.specs.Mutual.{same_unit_mutual, two_long_nops_mutual, same_data_path_mutual, nonaligned_pair_mutual, cross_operands_mutual};

use crate::claim::Claim;
use admission::instruction::Instruction;
use isa::class::Class;
use std::marker::PhantomData;

// A kind of clash between two instructions of a packet.
pub trait Kind {
    // When two instructions clash.
    ghost meeting: { Instruction → Instruction → Type 0 };

    fn meet(one: &Instruction, other: &Instruction) -> bool
        ensures { IsTrue result ↔ meeting one.now other.now };

    // Clashing is mutual.
    ghost both: { (a b : Instruction) → meeting a b → meeting b a };
}

// The claim of one kind that an instruction makes.
#[derive(Clone, Copy)]
pub struct InstructionClaim<K> {
    pub instruction: Instruction,
    pub kind: PhantomData<K>,
}

impl<K: Kind> InstructionClaim<K> {
    pub fn new(instruction: Instruction) -> InstructionClaim<K>
        ensures value { result ≡ record { instruction = instruction; kind = record {} } }
    {
        InstructionClaim {
            instruction,
            kind: PhantomData,
        }
    }
}

impl<K: Kind> Claim for InstructionClaim<K> {
    ghost clash = { λ a b. K.meeting a.instruction b.instruction };

    fn clashes(&self, other: &InstructionClaim<K>) -> bool {
        K::meet(&self.instruction, &other.instruction)
    }

    ghost mutual = { λ a b. K.both a.instruction b.instruction };
}

// The functional unit.
#[derive(Clone, Copy)]
pub struct UnitUse;

// The one multicycle NOP of a packet.
#[derive(Clone, Copy)]
pub struct LongNop;

// The data path to memory.
#[derive(Clone, Copy)]
pub struct DataPathUse;

// Memory as a whole, which a nonaligned access needs alone.
#[derive(Clone, Copy)]
pub struct Alignment;

// The one operand of a cross path.
#[derive(Clone, Copy)]
pub struct CrossPathUse;

pub type UnitClaim = InstructionClaim<UnitUse>;

pub type NopClaim = InstructionClaim<LongNop>;

pub type DataPathClaim = InstructionClaim<DataPathUse>;

pub type AlignmentClaim = InstructionClaim<Alignment>;

pub type CrossPathClaim = InstructionClaim<CrossPathUse>;

impl Kind for UnitUse {
    ghost meeting = { SameUnit };

    fn meet(one: &Instruction, other: &Instruction) -> bool {
        one.unit.is_some() && one.unit == other.unit
    }

    ghost both = { same_unit_mutual };
}

impl Kind for LongNop {
    ghost meeting = { TwoLongNops };

    fn meet(one: &Instruction, other: &Instruction) -> bool {
        one.row.class == Class::Nop
            && other.row.class == Class::Nop
            && one.cycles > 1
            && other.cycles > 1
    }

    ghost both = { two_long_nops_mutual };
}

// Whether an instruction is a load or a store.
fn accesses_memory(instruction: &Instruction) -> bool
    ensures value { result ≡ accesses instruction.now.row.class }
{
    matches!(instruction.row.class, Class::Load | Class::Store)
}

impl Kind for DataPathUse {
    ghost meeting = { SameDataPath };

    fn meet(one: &Instruction, other: &Instruction) -> bool {
        accesses_memory(one) && accesses_memory(other) && one.path == other.path
    }

    ghost both = { same_data_path_mutual };
}

impl Kind for Alignment {
    ghost meeting = { NonalignedPair };

    fn meet(one: &Instruction, other: &Instruction) -> bool {
        accesses_memory(one)
            && accesses_memory(other)
            && (one.row.nonaligned || other.row.nonaligned)
    }

    ghost both = { nonaligned_pair_mutual };
}

impl Kind for CrossPathUse {
    ghost meeting = { CrossOperands };

    fn meet(one: &Instruction, other: &Instruction) -> bool {
        match (one.unit, other.unit) {
            (Some(unit), Some(others)) => {
                unit.side == others.side && one.cross && other.cross && one.s2 != other.s2
            }
            _ => false,
        }
    }

    ghost both = { cross_operands_mutual };
}
