// What is told of a packet that was judged.
ghost use Rattle.std.specs.Prelude.{◌≡◌};

use isa::refusal::Refusal;

// A record's place in a schedule. Packets and slots count from 0.
#[derive(Clone, Copy, Debug, PartialEq, Eq)]
pub struct Place {
    pub packet: usize,
    pub slot: usize,
}

// Why something is refused, and where: the later of the two places that a refusal names, and the earlier one.
#[derive(Clone, Copy, Debug, PartialEq, Eq)]
pub struct Fault {
    pub refusal: Refusal,
    pub later: Place,
    pub earlier: Place,
}

impl Fault {
    // A fault of one place, which stands for both.
    pub fn at(refusal: Refusal, place: Place) -> Fault
        ensures reason { result.refusal ≡ refusal }
        ensures place { (result.later ≡ place) × (result.earlier ≡ place) }
    {
        Fault {
            refusal,
            later: place,
            earlier: place,
        }
    }
}

// An accepted packet: the cycle in which it issues, how many it takes, and whether it stalls.
#[derive(Clone, Copy, Debug, PartialEq, Eq)]
pub struct Accepted {
    pub issue: u32,
    pub length: u8,
    pub stall: bool,
}
