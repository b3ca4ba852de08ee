//! Counted comparisons.
ghost use Rattle.std.specs.Prelude.{◌≡◌, ◌+◌, ◌-◌, ◌^◌, min};

use std::cmp::Ordering;

/// How many comparisons a search took.
#[derive(Clone, Copy, Debug, PartialEq, Eq)]
pub struct Steps {
    pub taken: u64,
}

impl Steps {
    /// Answers the order of the two, and counts one comparison; at the greatest count it stays.
    pub fn compare<T: Ord>(&mut self, a: &T, b: &T) -> Ordering
        ensures order { result ≡ T.cmp a.now b.now }
        ensures counted { self.new.taken ≡ min (self.old.taken + 1) (2 ^ 64 - 1) }
    {
        self.taken = self.taken.saturating_add(1);
        a.cmp(b)
    }
}
