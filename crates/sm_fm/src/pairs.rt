// Pairs of places, which are told one after the other and never stored.
ghost use Rattle.std.specs.Prelude.{◌≡◌, ◌≢◌, ◌↔◌, true, [], ◌∷◌};
ghost use Rattle.sm_fm.specs.Places.{crossed_places};

use std::alloc::Global;
use std::marker::Model;

// The pairs that are left of some places with others.
#[derive(Drop)]
pub(crate) struct Pairs {
    firsts: Vec<u64>,
    seconds: Vec<u64>,
    first: usize,
    second: usize,
}

impl Model for Pairs {
    ghost use Rattle.std.specs.Prelude.{ℕ, List, ◌<◌, ◌≤◌, length, drop};
    ghost use Rattle.sm_fm.specs.Places.{crossed_from};

    ghost Value = { List (ℕ × ℕ) };

    ghost view = { λ p.
        crossed_from
        (drop p.first p.firsts.items) (drop p.second p.seconds.items) p.seconds.items };

    ghost invariant = { λ p.
        (p.first ≤ length p.firsts.items)
        × (p.first < length p.firsts.items → p.second < length p.seconds.items) };
}

impl Pairs {
    // Each of some places with each of others.
    pub(crate) fn new(firsts: Vec<u64>, seconds: Vec<u64>) -> Pairs
        ensures { result ≡ crossed_places firsts.items seconds.items }
    {
        let first = if seconds.is_empty() { firsts.len() } else { 0 };
        Pairs {
            firsts,
            seconds,
            first,
            second: 0,
        }
    }

    // No pairs.
    pub(crate) fn none(alloc: Global) -> Pairs
        ensures { result ≡ [] }
    {
        Pairs {
            firsts: Vec::new(alloc),
            seconds: Vec::new(alloc),
            first: 0,
            second: 0,
        }
    }

    // Whether no pair is left.
    pub(crate) fn is_empty(&self) -> bool
        ensures { (result ≡ true) ↔ (self.now ≡ []) }
    {
        self.first == self.firsts.len()
    }

    // Takes the first pair.
    pub(crate) fn take(&mut self) -> (u64, u64)
        requires { self.old ≢ [] }
        ensures { self.old ≡ result ∷ self.new }
    {
        let pair = (self.firsts[self.first], self.seconds[self.second]);
        self.second += 1;
        if self.second == self.seconds.len() {
            self.second = 0;
            self.first += 1;
        }
        pair
    }

    // Leaves no pair.
    pub(crate) fn clear(&mut self)
        ensures { self.new ≡ [] }
    {
        self.first = self.firsts.len();
    }
}
