// Writes of registers, with the valuations in which they are performed.
ghost use Rattle.std.specs.Prelude.{◌≡◌, ℕ, ◌<◌, Some, None, slice_index_or, ◌↔◌, IsTrue};
ghost use Rattle.std.specs.Option.{option_map};
ghost use Rattle.admission.specs.Landings.{landing};
ghost use Rattle.claims.specs.Landings.{landings, DoubleWrite};
ghost use Rattle.claims.specs.Mutual.{double_write_mutual};

use crate::claim::Claim;
use admission::instruction::{Instruction, Landing, Write};
use runs::valuations::Valuations;

// The claim of one instruction on the registers that it writes, and the valuations in which it is performed.
#[derive(Clone, Copy)]
pub struct WriteClaim {
    pub landings: [Option<Landing>; 3],
    pub performed: Valuations,
}

// Where a write lands, if there is one.
fn landing_of(issue: u32, write: Option<Write>) -> Option<Landing>
    ensures value { result ≡ option_map (landing issue) write }
{
    write.map(|write| write.landing(issue))
}

impl WriteClaim {
    // The claim of an instruction that issues in a cycle.
    pub fn new(instruction: Instruction, issue: u32, performed: Valuations) -> WriteClaim
        ensures landings { result.landings ≡ landings instruction issue }
        ensures performed { result.performed ≡ performed }
    {
        let landings = instruction.writes().map(|write| landing_of(issue, write));
        WriteClaim {
            landings,
            performed,
        }
    }
}

// Whether one of three writes lands there.
fn lands_among(landing: Landing, others: &[Option<Landing>; 3]) -> bool
    ensures decides { IsTrue result ↔ ((j : ℕ) × (j < 3) × (slice_index_or others.now j None ≡ Some landing)) }
{
    others.contains(&Some(landing))
}

impl Claim for WriteClaim {
    ghost clash = { DoubleWrite };

    fn clashes(&self, other: &WriteClaim) -> bool {
        self.performed.meets(other.performed)
            && self
                .landings
                .iter()
                .flatten()
                .any(|landing| lands_among(*landing, &other.landings))
    }

    ghost mutual = { double_write_mutual };
}
