// The first slot that completes a fault of a packet as a whole: one search for every such fault.
ghost use Rattle.std.specs.Prelude.{List, [], MatchOption, ◌↔◌, IsTrue};
ghost use Rattle.admission.specs.declared.instruction.Instruction.{Instruction};
ghost use Rattle.hazards.specs.Faults.{FirstSlot};

use admission::instruction::Instruction;

pub trait PacketFault {
    // When a packet has the fault.
    ghost fault: { Self → List Instruction → Type 0 };

    fn broken(&self, packet: &[Instruction]) -> bool
        ensures { IsTrue result ↔ fault self.now packet.now };

    // A packet without instructions does not have it.
    ghost none: { (x : Self) → fault x [] → ⊥ };
}

// The first slot up to which the packet has the fault.
pub fn first_slot<F: PacketFault>(kind: &F, packet: &[Instruction]) -> Option<usize>
    ensures cases { MatchOption result (F.fault kind.now packet.now → ⊥) (FirstSlot (F.fault kind.now) packet.now) }
{
    (0..packet.len()).find(|slot| kind.broken(&packet[..*slot + 1]))
}
