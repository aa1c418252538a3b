// What is kept of the accepted packets.
ghost use Rattle.std.specs.Prelude.{◌*◌, ◌≤◌, length};

use crate::issued::InFlight;
use bounded::list::Bounded;
use runs::valuations::Valuations;

pub mod calls;
pub mod numbers;

// The accepted packets by what later packets can still meet of them.
#[derive(Drop)]
pub struct History {
    // the valuations that can occur
    lawful: Valuations,
    // those that runs can have in the packet behind
    reachable: Valuations,
    packets: usize,
    // the cycle in which the packet behind issues
    cycle: u32,
    flight: Bounded<InFlight, 40>,
    ghost few: { packets ≤ 512 },
    ghost short: { cycle ≤ 255 * packets },
    ghost held: { length flight ≤ 40 },
}
