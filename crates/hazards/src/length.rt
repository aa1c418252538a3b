// How many cycles a packet takes.
ghost use Rattle.std.specs.Prelude.{◌≡◌};
ghost use Rattle.hazards.specs.Lengths.{nop_cycles, packet_length};

use admission::instruction::Instruction;
use isa::class::Class;

fn nop_cycles(instruction: &Instruction) -> u8
    ensures value { result ≡ nop_cycles instruction.now }
{
    match instruction.row.class {
        Class::Nop => instruction.cycles,
        _ => 0,
    }
}

// The greatest count of a NOP in the packet, or 1 without one.
pub fn packet_length(packet: &[Instruction]) -> u8
    ensures value { result ≡ packet_length packet.now }
{
    packet.iter().fold(
        1,
        |longest, instruction| longest.max(nop_cycles(instruction)),
    )
}
