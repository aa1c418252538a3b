// Sets of valuations, and the steps of a set from packet to packet.
ghost use Rattle.std.specs.Prelude.{◌≡◌, ℕ, ◌+◌, ◌^◌, ◌<◌, ◌≤◌, ◌⊎◌, max, List, [], ◌∷◌, ◌++◌, length, bit_xor, ◌↔◌, IsTrue};
ghost use Rattle.isa.specs.Bits.{bit};
ghost use Rattle.isa.specs.declared.condition.Condition.{Condition};
ghost use Rattle.runs.specs.declared.valuations.Valuations.{Valuations};
ghost use Rattle.runs.specs.declared.valuations.Changes.{Changes};
ghost use Rattle.runs.specs.Runs.{Both, Carries, Reaches, MayOf};
ghost use Rattle.runs.specs.Valuations.{place, Meets, Has, MayChange, ChangesJust, HoldsJust, After};

use isa::condition::{Condition, ConditionRegister};

// A set of valuations: bit v is 1 where valuation v belongs to it.
#[derive(Clone, Copy, PartialEq, Eq)]
pub struct Valuations {
    pub bits: u64,
}

// The condition registers that may change: each by the bit of its place.
#[derive(Clone, Copy, PartialEq, Eq)]
pub struct Changes {
    pub mask: u8,
}

// For each condition register, the valuations in which it is nonzero.
const NONZERO: [u64; 6] = [
    0xaaaa_aaaa_aaaa_aaaa,
    0xcccc_cccc_cccc_cccc,
    0xf0f0_f0f0_f0f0_f0f0,
    0xff00_ff00_ff00_ff00,
    0xffff_0000_ffff_0000,
    0xffff_ffff_0000_0000,
];

// The place of a condition register in valuations.
fn place(register: ConditionRegister) -> usize
    ensures value { result ≡ place register }
{
    match register {
        ConditionRegister::B0 => 0,
        ConditionRegister::B1 => 1,
        ConditionRegister::B2 => 2,
        ConditionRegister::A1 => 3,
        ConditionRegister::A2 => 4,
        ConditionRegister::A0 => 5,
    }
}

impl Changes {
    // No register may change.
    pub const NONE: Changes = Changes { mask: 0 };

    // One register may change.
    pub fn of(register: ConditionRegister) -> Changes
        ensures members { ChangesJust result (λ i. place register ≡ i) }
    {
        Changes {
            mask: 1 << place(register),
        }
    }

    // The registers of both may change.
    pub fn union(self, other: Changes) -> Changes
        ensures members { (i : ℕ) → MayChange result i ↔ (MayChange self i ⊎ MayChange other i) }
    {
        Changes {
            mask: self.mask | other.mask,
        }
    }

    fn contain(self, register: ConditionRegister) -> bool
        ensures decides { IsTrue result ↔ MayChange self (place register) }
    {
        (self.mask >> place(register)) % 2 == 1
    }
}

impl Valuations {
    // Each of the valuations.
    pub const ALL: Valuations = Valuations { bits: u64::MAX };

    // No valuation.
    pub const NONE: Valuations = Valuations { bits: 0 };

    // The valuations in which a condition holds.
    pub fn meeting(condition: Condition) -> Valuations
        ensures members { HoldsJust result (Meets condition) }
    {
        match condition {
            Condition::Always => Valuations::ALL,
            Condition::Nonzero(register) => Valuations {
                bits: NONZERO[place(register)],
            },
            Condition::Zero(register) => Valuations {
                bits: !NONZERO[place(register)],
            },
        }
    }

    // The valuations that are in both sets.
    pub fn common(self, other: Valuations) -> Valuations
        ensures members { (v : ℕ) → Has result v ↔ (Has self v × Has other v) }
    {
        Valuations {
            bits: self.bits & other.bits,
        }
    }

    // The valuations of the first packet: the lawful ones of those at the start.
    pub fn at_start(lawful: Valuations, start: Valuations) -> Valuations
        ensures members { (v : ℕ) → Has result v ↔ (Has lawful v × Has start v) }
        ensures reaches { Reaches lawful start (MayOf []) 0 result }
    {
        lawful.common(start)
    }

    // Of the valuations that runs can have in a packet, those in which its writes under a condition are performed.
    pub fn performing(self, condition: Condition) -> Valuations
        ensures members { HoldsJust result (λ v. Has self v × Meets condition v) }
        ensures carries { (lawful start : Valuations) (ms : List Changes) → Reaches lawful start (MayOf ms) (length ms) self → Carries lawful start (MayOf ms) (length ms) (length ms) condition result }
    {
        self.common(Valuations::meeting(condition))
    }

    // Whether some valuation is in both sets.
    pub fn meets(self, other: Valuations) -> bool
        ensures decides { IsTrue result ↔ ((v : ℕ) × (v < 64) × Has self v × Has other v) }
        ensures both { (lawful start : Valuations) (ms : List Changes) (j : ℕ) (c d : Condition) → Carries lawful start (MayOf ms) (length ms) j c self → Carries lawful start (MayOf ms) (length ms) (length ms) d other → IsTrue result ↔ Both lawful start (MayOf ms) (length ms) j c (length ms) d }
    {
        self.bits & other.bits != 0
    }

    // The valuations that may follow one of the set, where only some registers may change, within the lawful ones.
    pub fn step(self, lawful: Valuations, changes: Changes) -> Valuations
        ensures members { HoldsJust result (λ w. Has lawful w × After self changes w) }
        ensures carries { (start : Valuations) (ms : List Changes) (j : ℕ) (c : Condition) → j ≤ length ms → Carries lawful start (MayOf ms) (length ms) j c self → Carries lawful start (MayOf (ms ++ changes ∷ [])) (length ms + 1) j c result }
    {
        lawful.common(expand(self, changes))
    }
}

// The set with each valuation joined by the one that differs in the register.
fn spread(set: Valuations, register: ConditionRegister) -> Valuations
    ensures bits { (v : ℕ) → v < 64 → bit result.bits v ≡ max (bit set.bits v) (bit set.bits (bit_xor v (2 ^ place register))) }
{
    let place = place(register);
    let high = NONZERO[place];
    let shift = 1u32 << place;
    Valuations {
        bits: set.bits | ((set.bits & high) >> shift) | ((set.bits << shift) & high),
    }
}

// The valuations that may follow one of the set, lawful or not: one register after the other.
fn expand(set: Valuations, changes: Changes) -> Valuations
    ensures members { HoldsJust result (After set changes) }
{
    let mut all = set;
    for register in ConditionRegister::ALL {
        if changes.contain(register) {
            all = spread(all, register);
        }
    }
    all
}
