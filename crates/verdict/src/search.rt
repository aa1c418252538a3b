// The first clash among entries, for every kind of claim, and the first slot that completes a fault of a packet as a whole.
ghost use Rattle.std.specs.Prelude.{◌≡◌, ◌<◌, ◌≤◌, map, length, Some, MatchResult};
ghost use Rattle.std.specs.List.{slice_get};
ghost use Rattle.claims.specs.Claims.{FreeFrom};
ghost use Rattle.flight.specs.declared.issued.InFlight.{InFlight};
ghost use Rattle.verdict.specs.Search.{FirstFault, SlotFault, ClaimsFitInMemory};

use crate::entry_claim::EntryClaim;
use admission::instruction::Instruction;
use bounded::list::Bounded;
use claims::claim::first_clash;
use constraints::fault::{Fault, Place};
use flight::issued::{InFlight, UNUSED};
use hazards::fault::{PacketFault, first_slot};
use isa::refusal::Refusal;

// The claims of entries.
fn claims_of<C: EntryClaim, const N: usize>(entries: &Bounded<InFlight, N>) -> Bounded<C, N>
    ensures claims { result ≡ map C.EntryClaim.claimed entries.now }
{
    let mut claims = Bounded::new(C::of(&UNUSED));
    for flying in entries.as_slice() {
        let _ = claims.push(C::of(flying));
    }
    claims
}

// The place of an entry that a search found.
fn place_at(entries: &[InFlight], index: usize) -> Place
    requires inside { index < length entries.now }
    ensures value { (e : InFlight) × (slice_get entries.now index ≡ Some e) × (result ≡ e.issued.place) }
{
    entries[index].issued.place
}

// Refuses the first two entries, from a place on, whose claims clash.
pub(crate) fn no_clash<C: EntryClaim, const N: usize>(
    refusal: Refusal,
    entries: &Bounded<InFlight, N>,
    from: usize,
) -> Result<(), Fault>
    requires fits { ClaimsFitInMemory C.row N.row }
    ensures cases { MatchResult result (λ _. FreeFrom (λ x y. C.Claim.clash (C.EntryClaim.claimed x) (C.EntryClaim.claimed y)) entries.now from (length entries.now)) (FirstFault (λ x y. C.Claim.clash (C.EntryClaim.claimed x) (C.EntryClaim.claimed y)) entries.now from refusal) }
{
    let claims = claims_of::<C, N>(entries);
    match first_clash(claims.as_slice(), from) {
        Some(clash) => Err(Fault {
            refusal,
            later: place_at(entries.as_slice(), clash.later),
            earlier: place_at(entries.as_slice(), clash.earlier),
        }),
        None => Ok(()),
    }
}

// Refuses the first slot up to which a packet has a fault as a whole.
pub(crate) fn no_excess<F: PacketFault>(
    kind: &F,
    refusal: Refusal,
    packet: &[Instruction],
    packets: usize,
) -> Result<(), Fault>
    ensures cases { MatchResult result (λ _. F.PacketFault.fault kind.now packet.now → ⊥) (SlotFault (F.PacketFault.fault kind.now) packet.now packets refusal) }
{
    match first_slot(kind, packet) {
        Some(slot) => Err(Fault::at(
            refusal,
            Place {
                packet: packets,
                slot,
            },
        )),
        None => Ok(()),
    }
}
