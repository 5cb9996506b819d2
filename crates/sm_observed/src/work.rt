// How much a search may do.
ghost use Rattle.std.specs.Prelude.{◌≡◌, ◌≤◌, nat_eq};

/// How much work is left to all of a search: a bound on the time that it takes. A unit is about a
/// formula at a visit.
#[derive(Clone, Copy)]
pub struct Work {
    pub left: u64,
}

impl Work {
    /// Takes work from what is left.
    pub fn spend(&mut self, more: usize)
        ensures { self.new.left ≤ self.old.left }
    {
        self.left = self.left.saturating_sub(more as u64);
    }

    /// Whether nothing is left.
    pub fn is_spent(&self) -> bool
        ensures { result ≡ nat_eq self.now.left 0 }
    {
        self.left == 0
    }
}
