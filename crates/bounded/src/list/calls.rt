// What a list of at most N entries answers.
ghost use Rattle.std.specs.Prelude.{◌≡◌, ◌≤◌, ◌==◌, [], ◌∷◌, ◌++◌, length, take, nat_lt, is_ok, IfErr};

use crate::list::Bounded;

impl<T: Copy, const N: usize> Bounded<T, N> {
    // A list without entries; the places hold `fill` until they are used.
    pub fn new(fill: T) -> Bounded<T, N>
        ensures none { result ≡ [] }
    {
        Bounded {
            count: 0,
            entries: [fill; N],
        }
    }

    // The first N of some entries; the other places hold `fill`.
    pub fn from_slice(fill: T, entries: &[T]) -> Bounded<T, N>
        ensures entries { result ≡ take N entries.now }
    {
        let mut list = Bounded::new(fill);
        for entry in entries {
            let _ = list.push(*entry);
        }
        list
    }

    pub fn as_slice(&self) -> &[T]
        ensures entries { result.now ≡ self.now }
        ensures few { length self.now ≤ N }
    {
        let places = &self.entries[..];
        &places[0..self.count]
    }

    pub fn len(&self) -> usize
        ensures value { result ≡ length self.now }
        ensures few { length self.now ≤ N }
    {
        self.as_slice().len()
    }

    pub fn is_empty(&self) -> bool
        ensures value { result ≡ (length self.now == 0) }
    {
        self.count == 0
    }

    // One entry more, unless N are there: then it is handed back.
    pub fn push(&mut self, entry: T) -> Result<(), T>
        ensures few { length self.old ≤ N }
        ensures added { is_ok result ≡ nat_lt (length self.old) N }
        ensures returned { IfErr result (λ e. e ≡ «entry») }
        ensures entries { self.new ≡ take N (self.old ++ «entry» ∷ []) }
    {
        if self.count >= N {
            return Err(entry);
        }
        self.entries[self.count] = entry;
        self.count += 1;
        Ok(())
    }

    pub fn clear(&mut self)
        ensures none { self.new ≡ [] }
    {
        self.count = 0;
    }
}
