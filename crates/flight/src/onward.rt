// The entries in flight as a packet is accepted: those that still matter, with their sets one packet on.
ghost use Rattle.std.specs.Prelude.{◌≡◌, ℕ, ◌<◌, ◌≤◌, List, [], ◌∷◌, ◌++◌, map, length, take, ◌↔◌};
ghost use Rattle.std.specs.List.{AllByRecursion};
ghost use Rattle.admission.specs.declared.instruction.Instruction.{Instruction};
ghost use Rattle.runs.specs.declared.valuations.Valuations.{Valuations};
ghost use Rattle.runs.specs.Valuations.{ChangesJust};
ghost use Rattle.constraints.specs.Schedules.{May};
ghost use Rattle.flight.specs.Issues.{live, kept};
ghost use Rattle.flight.specs.Kept.{Performed};

use crate::issued::{InFlight, Issued, UNUSED};
use bounded::list::Bounded;
use runs::valuations::{Changes, Valuations};

// Whether an instruction may still meet a packet that issues in a cycle.
fn lives(issued: Issued, cycle: u32) -> bool
    ensures value { result ≡ live cycle issued }
{
    u64::from(cycle) <= issued.instruction.result_cycle(issued.issue) + 1
}

// The entry one packet on.
fn stepped(entry: InFlight, lawful: Valuations, changes: Changes) -> InFlight
    ensures issued { result.issued ≡ «entry».issued }
    ensures performed { (start : Valuations) (past : List (List Instruction)) (xs : List Instruction) → ChangesJust changes (May (past ++ xs ∷ []) (length past)) → «entry».issued.place.packet ≤ length past → Performed lawful start past «entry» → Performed lawful start (past ++ xs ∷ []) result }
{
    InFlight {
        issued: entry.issued,
        performed: entry.performed.step(lawful, changes),
    }
}

// The entries that may still meet the packet that issues in a cycle, one packet on.
pub(crate) fn onward(
    entries: &[InFlight],
    cycle: u32,
    lawful: Valuations,
    changes: Changes,
) -> Bounded<InFlight, 40>
    ensures issued { map (λ e. e.issued) result ≡ take 40 (kept cycle (map (λ e. e.issued) entries.now)) }
    ensures performed { (start : Valuations) (past : List (List Instruction)) (xs : List Instruction) → ChangesJust changes (May (past ++ xs ∷ []) (length past)) → AllByRecursion (λ e. e.issued.place.packet ≤ length past) entries.now → AllByRecursion (Performed lawful start past) entries.now → AllByRecursion (Performed lawful start (past ++ xs ∷ [])) result }
{
    let mut list = Bounded::new(UNUSED);
    for entry in entries {
        if lives(entry.issued, cycle) {
            // of packets of at most eight, no more than forty live
            let _ = list.push(stepped(*entry, lawful, changes));
        }
    }
    list
}
