// What is kept of the accepted packets, from packet to packet.
ghost use Rattle.std.specs.Prelude.{◌≡◌, ◌+◌, ◌≤◌, List, [], ◌∷◌, ◌++◌, map, length, take, MatchResult, ◌↔◌, IsTrue};
ghost use Rattle.std.specs.List.{AllByRecursion};
ghost use Rattle.isa.specs.declared.refusal.Refusal.TheVariants.{ScheduleFull};
ghost use Rattle.admission.specs.declared.instruction.Instruction.{Instruction};
ghost use Rattle.runs.specs.declared.valuations.Valuations.{Valuations};
ghost use Rattle.constraints.specs.Schedules.{Stalls};
ghost use Rattle.flight.specs.Issues.{issued_at, slots};
ghost use Rattle.flight.specs.Kept.{Performed, StandsFor, Joined, Accepts};

use crate::changes::changes;
use crate::history::History;
use crate::issued::{InFlight, Issued, Packet, UNUSED};
use crate::onward::onward;
use crate::stall::some_waits;
use admission::instruction::Instruction;
use bounded::list::Bounded;
use constraints::fault::Place;
use hazards::length::packet_length;
use isa::refusal::Refusal;
use runs::valuations::Valuations;

impl History {
    // Nothing accepted yet; runs begin with a valuation of `start`.
    pub fn open(lawful: Valuations, start: Valuations) -> History
        ensures lawful { result.lawful ≡ lawful }
        ensures stands { StandsFor result start [] }
    {
        History {
            lawful,
            reachable: Valuations::at_start(lawful, start),
            packets: 0,
            cycle: 0,
            flight: Bounded::new(UNUSED),
        }
    }

    // The entry of an instruction in a slot of the packet behind.
    fn entry(&self, slot: usize, instruction: Instruction) -> InFlight
        ensures issued { result.issued ≡ issued_at self.now.packets self.now.cycle slot instruction }
        ensures performed { (start : Valuations) (past : List (List Instruction)) → StandsFor self.now start past → Performed self.now.lawful start past result }
    {
        InFlight {
            issued: Issued {
                place: Place {
                    packet: self.packets,
                    slot,
                },
                issue: self.cycle,
                instruction,
            },
            performed: self.reachable.performing(instruction.condition),
        }
    }

    // The entries in flight, and behind them those of the packet.
    pub fn joined(&self, packet: &Packet) -> Bounded<InFlight, 48>
        ensures issued { map (λ e. e.issued) result ≡ map (λ e. e.issued) self.now.flight ++ slots self.now.packets self.now.cycle 0 packet.now }
        ensures many { length result ≡ length self.now.flight + length packet.now }
        ensures few { length result ≤ 48 }
        ensures joined { (start : Valuations) (past : List (List Instruction)) → StandsFor self.now start past → Joined self.now.lawful start past packet.now result }
    {
        // at most forty are in flight and eight in a packet, so all have room
        let mut entries = Bounded::from_slice(UNUSED, self.flight.as_slice());
        let instructions = packet.as_slice();
        for (slot, instruction) in instructions.iter().enumerate() {
            let _ = entries.push(self.entry(slot, *instruction));
        }
        entries
    }

    // The packet joins the accepted ones, unless they are 512.
    pub fn accept(&mut self, packet: &Packet) -> Result<(), Refusal>
        ensures cases { MatchResult result (λ _. Accepts self.old packet.now self.new) (λ e. (e ≡ ScheduleFull) × (self.old.packets ≡ 512) × (self.new ≡ self.old)) }
    {
        if self.packets >= 512 {
            return Err(Refusal::ScheduleFull);
        }
        let entries = self.joined(packet);
        let next = self.cycle + u32::from(packet_length(packet.as_slice()));
        let freed = changes(
            entries.as_slice(),
            &(u64::from(self.cycle)..u64::from(next)),
        );
        self.flight = onward(entries.as_slice(), next, self.lawful, freed);
        self.reachable = self.reachable.step(self.lawful, freed);
        self.cycle = next;
        self.packets += 1;
        Ok(())
    }

    // Whether the packet behind stalls: an instruction brings over the cross path what landed just before.
    pub fn stalls(&self, packet: &Packet) -> bool
        ensures decides { (start : Valuations) (past : List (List Instruction)) → StandsFor self.now start past → IsTrue result ↔ Stalls past packet.now }
    {
        some_waits(packet.as_slice(), self.flight.as_slice(), self.cycle)
    }
}
