// Writes that landed just before a packet issues.
ghost use Rattle.std.specs.Prelude.{◌≡◌, ◌+◌, ◌↔◌, IsTrue};
ghost use Rattle.flight.specs.Issues.{SettledBy, Settles, SomeSettles, Waits, SomeWaits};

use crate::issued::{InFlight, Issued};
use admission::instruction::{Instruction, Landing, Write};

// Whether one write is not load data, and landed there.
fn settled_by(write: Option<Write>, issue: u32, landing: Landing) -> bool
    ensures decides { IsTrue result ↔ SettledBy issue landing.register (landing.cycle + 1) write }
{
    write.is_some_and(|write| !write.load && write.landing(issue) == landing)
}

// Whether one of an instruction's writes did.
fn settles(issued: Issued, landing: Landing) -> bool
    ensures decides { IsTrue result ↔ Settles landing.register (landing.cycle + 1) issued }
{
    let writes = issued.instruction.writes();
    writes
        .iter()
        .any(|write| settled_by(*write, issued.issue, landing))
}

// Whether one of the entries did.
fn some_settles(entries: &[InFlight], landing: Landing) -> bool
    ensures decides { IsTrue result ↔ SomeSettles landing.register (landing.cycle + 1) entries.now }
{
    entries.iter().any(|entry| settles(entry.issued, landing))
}

// Whether an instruction brings over the cross path a register that was written in the cycle.
fn waits(instruction: &Instruction, entries: &[InFlight], cycle: u64) -> bool
    ensures decides { IsTrue result ↔ Waits (cycle + 1) entries.now instruction.now }
{
    match instruction.s2 {
        Some(register) if instruction.cross => some_settles(entries, Landing { register, cycle }),
        _ => false,
    }
}

// Whether one of the instructions of a packet that issues in a cycle does so of the cycle before.
pub(crate) fn some_waits(packet: &[Instruction], entries: &[InFlight], cycle: u32) -> bool
    ensures decides { IsTrue result ↔ SomeWaits cycle entries.now packet.now }
{
    let Some(before) = cycle.checked_sub(1) else {
        return false;
    };
    let before = u64::from(before);
    packet
        .iter()
        .any(|instruction| waits(instruction, entries, before))
}
