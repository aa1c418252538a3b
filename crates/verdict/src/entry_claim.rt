// The claim of each kind that an entry makes.
ghost use Rattle.std.specs.Prelude.{◌≡◌};
ghost use Rattle.claims.specs.Landings.{landings, port_claim};
ghost use Rattle.flight.specs.declared.issued.InFlight.{InFlight};

use claims::claim::Claim;
use claims::kinds::{InstructionClaim, Kind};
use claims::port::PortClaim;
use claims::write::WriteClaim;
use flight::issued::InFlight;

pub trait EntryClaim: Claim + Copy {
    // The claim of an entry.
    ghost claimed: { InFlight → Self };

    fn of(flying: &InFlight) -> Self
        ensures { result ≡ claimed flying.now };
}

impl<K: Kind + Copy> EntryClaim for InstructionClaim<K> {
    ghost claimed = { λ e. record { instruction = e.issued.instruction; kind = record {} } };

    fn of(flying: &InFlight) -> InstructionClaim<K> {
        InstructionClaim::new(flying.issued.instruction)
    }
}

impl EntryClaim for PortClaim {
    ghost claimed = { λ e. port_claim e.issued.instruction e.issued.issue };

    fn of(flying: &InFlight) -> PortClaim {
        PortClaim::new(&flying.issued.instruction, flying.issued.issue)
    }
}

impl EntryClaim for WriteClaim {
    ghost claimed = { λ e. record { landings = landings e.issued.instruction e.issued.issue; performed = e.performed } };

    fn of(flying: &InFlight) -> WriteClaim {
        WriteClaim::new(
            flying.issued.instruction,
            flying.issued.issue,
            flying.performed,
        )
    }
}
