// The condition registers that may change while packets issue.
ghost use Rattle.std.specs.Prelude.{◌≡◌, ℕ, ◌<◌, ◌↔◌};
ghost use Rattle.runs.specs.Valuations.{ChangesJust};
ghost use Rattle.flight.specs.Issues.{FreedBy, Frees, SomeFrees};

use crate::issued::{InFlight, Issued};
use admission::instruction::Write;
use runs::valuations::Changes;
use std::ops::Range;

// What one write frees, if it lands in one of the cycles.
fn freed_by(write: Option<Write>, issue: u32, cycles: &Range<u64>) -> Changes
    ensures members { ChangesJust result (λ i. FreedBy issue cycles.now.start cycles.now.end i write) }
{
    let Some(write) = write else {
        return Changes::NONE;
    };
    let landing = write.landing(issue);
    match landing.register.condition_register() {
        Some(register) if cycles.contains(&landing.cycle) => Changes::of(register),
        _ => Changes::NONE,
    }
}

// What one instruction's writes free.
fn freed(issued: Issued, cycles: &Range<u64>) -> Changes
    ensures members { ChangesJust result (λ i. Frees cycles.now.start cycles.now.end i issued) }
{
    let mut freed = Changes::NONE;
    for write in issued.instruction.writes() {
        freed = freed.union(freed_by(write, issued.issue, cycles));
    }
    freed
}

// The condition registers of which a write lands in one of the cycles.
pub(crate) fn changes(entries: &[InFlight], cycles: &Range<u64>) -> Changes
    ensures members { ChangesJust result (λ i. SomeFrees cycles.now.start cycles.now.end i entries.now) }
{
    let mut changes = Changes::NONE;
    for entry in entries {
        changes = changes.union(freed(entry.issued, cycles));
    }
    changes
}
