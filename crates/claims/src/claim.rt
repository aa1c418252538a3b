// The first clash among claims of any kind: one search for all of them.
ghost use Rattle.std.specs.Prelude.{◌≡◌, ℕ, ◌<◌, ◌≤◌, length, MatchOption, take, ◌↔◌, IsTrue};
ghost use Rattle.std.specs.List.{All, HoldsAt};
ghost use Rattle.claims.specs.Claims.{FreeFrom, FirstClash};

pub trait Claim {
    // When two claims clash.
    ghost clash: { Self → Self → Type 0 };

    fn clashes(&self, other: &Self) -> bool
        ensures { IsTrue result ↔ clash self.now other.now };

    // Clashing is mutual.
    ghost mutual: { (a b : Self) → clash a b → clash b a };
}

// The places of two claims that clash.
#[derive(Clone, Copy)]
pub struct Clash {
    pub earlier: usize,
    pub later: usize,
}

// The first of some claims that clashes with one.
fn first_with<C: Claim>(claims: &[C], claim: &C) -> Option<usize>
    ensures cases { MatchOption result (All (λ x. C.clash x claim.now → ⊥) claims.now) (λ a. (a < length claims.now) × HoldsAt (λ x. C.clash x claim.now) claims.now a × All (λ x. C.clash x claim.now → ⊥) (take a claims.now)) }
{
    claims.iter().position(|earlier| earlier.clashes(claim))
}

// The least place from `from` on whose claim clashes with an earlier one, and the earliest that it clashes with.
pub fn first_clash<C: Claim>(claims: &[C], from: usize) -> Option<Clash>
    ensures cases { MatchOption result (FreeFrom C.clash claims.now from (length claims.now)) (λ p. FirstClash C.clash claims.now from p.earlier p.later) }
{
    // by places, since they are the answer; no lemma of the library tells of `find_map` over a range
    for later in from..claims.len() {
        if let Some(earlier) = first_with(&claims[..later], &claims[later]) {
            return Some(Clash { earlier, later });
        }
    }
    None
}
