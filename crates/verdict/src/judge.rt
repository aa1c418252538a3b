// The verdict on a packet, constraint after constraint.
ghost use Rattle.std.specs.Prelude.{◌≡◌, ◌≤◌, List, map, length, MatchResult};
ghost use Rattle.admission.specs.declared.instruction.Instruction.{Instruction};
ghost use Rattle.runs.specs.declared.valuations.Valuations.{Valuations};
ghost use Rattle.constraints.specs.Schedules.{cycles};
ghost use Rattle.constraints.specs.Faults.{Judged};
ghost use Rattle.constraints.specs.Order.{SlotOrderFree};
ghost use Rattle.flight.specs.Issues.{slots, positions, kept};
ghost use Rattle.flight.specs.Kept.{Joined, StandsFor};
ghost use Rattle.verdict.specs.Parts.{Passes, FaultFrom};

use crate::search::{no_clash, no_excess};
use admission::instruction::Instruction;
use bounded::list::Bounded;
use claims::kinds::{AlignmentClaim, CrossPathClaim, DataPathClaim, NopClaim, UnitClaim};
use claims::port::PortClaim;
use claims::write::WriteClaim;
use constraints::fault::{Accepted, Fault};
use flight::history::History;
use flight::issued::{InFlight, Packet, UNUSED};
use hazards::counts::{CrossPathUses, RegisterReads};
use hazards::length::packet_length;
use isa::refusal::Refusal;

// 11 to 15: two instructions of the packet clash.
fn beside(own: &Bounded<InFlight, 8>) -> Result<(), Fault>
    ensures cases { (lawful start : Valuations) (past : List (List Instruction)) (xs : List Instruction) → map (λ e. e.issued) own.now ≡ slots (length past) (cycles past) 0 xs → MatchResult result (λ _. Passes lawful start past xs 11 16) (FaultFrom lawful start past xs 11) }
{
    no_clash::<UnitClaim, _>(Refusal::UnitTwice, own, 0)?;
    no_clash::<NopClaim, _>(Refusal::TwoLongNops, own, 0)?;
    no_clash::<DataPathClaim, _>(Refusal::DataPathTwice, own, 0)?;
    no_clash::<AlignmentClaim, _>(Refusal::NonalignedAccess, own, 0)?;
    no_clash::<CrossPathClaim, _>(Refusal::CrossPathOperands, own, 0)
}

// 16 and 17: the packet has too many uses of a cross path, or reads of a register.
fn counted(packet: &[Instruction], packets: usize) -> Result<(), Fault>
    ensures cases { (lawful start : Valuations) (past : List (List Instruction)) → packets ≡ length past → MatchResult result (λ _. Passes lawful start past packet.now 16 18) (FaultFrom lawful start past packet.now 16) }
{
    no_excess(&CrossPathUses, Refusal::CrossPathCount, packet, packets)?;
    no_excess(&RegisterReads, Refusal::ReadCount, packet, packets)
}

// 18 and 19: two results of one .M unit, or two writes of a register, land together.
fn flying(entries: &Bounded<InFlight, 48>, from: usize) -> Result<(), Fault>
    ensures cases { (lawful start : Valuations) (past : List (List Instruction)) (xs : List Instruction) → from ≡ length (kept (cycles past) (positions 0 0 past)) → Joined lawful start past xs entries.now → MatchResult result (λ _. Passes lawful start past xs 18 20) (FaultFrom lawful start past xs 18) }
{
    no_clash::<PortClaim, _>(Refusal::WritePort, entries, from)?;
    no_clash::<WriteClaim, _>(Refusal::DoubleWrite, entries, from)
}

// The verdict on a packet behind those accepted before it: the first constraint that it breaks, with both places, or when it issues, how long it takes and whether it stalls.
#[tactic(auto, using(constraints::proofs::Reordering::slot_order_free))]
pub fn judge(history: &History, packet: &Packet) -> Result<Accepted, Fault>
    ensures verdict { (start : Valuations) (past : List (List Instruction)) → StandsFor history.now start past → Judged history.now.lawful start past packet.now result }
    ensures order { SlotOrderFree }
{
    let instructions = packet.as_slice();
    let entries = history.joined(packet);
    let from = history.in_flight();
    let own = Bounded::from_slice(UNUSED, &entries.as_slice()[from..]);
    beside(&own)?;
    counted(instructions, history.packets())?;
    flying(&entries, from)?;
    Ok(Accepted {
        issue: history.cycle(),
        length: packet_length(instructions),
        stall: history.stalls(packet),
    })
}
