// A list of at most N entries, kept in place.
ghost use Rattle.std.specs.Prelude.{◌≡◌, ◌≤◌, length};

use std::marker::Model;

pub mod calls;

#[derive(Drop)]
pub struct Bounded<T: Copy, const N: usize> {
    count: usize,
    entries: [T; N],
}

// Clauses see the entries that were added, in order.
impl<T: Copy, const N: usize> Model for Bounded<T, N> {
    ghost use Rattle.std.specs.Prelude.{List, ◌≤◌, take};

    ghost Value = { List T };

    ghost view = { λ b. take b.count b.entries };

    ghost invariant = { λ b. b.count ≤ N };
}
