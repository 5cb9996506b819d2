// A theory with the exact line.
ghost use Rattle.std.specs.Prelude.{◌≡◌, List, length, IfOk};
ghost use Rattle.sm_term.specs.Tables.{trees_in, sorts_in};
ghost use Rattle.sm_theory.specs.Facts.{BranchFact};
ghost use Rattle.sm_theory.specs.ExactLine.{with_exact};
ghost use Rattle.sm_theory.specs.SortedFacts.{AreFactsSorted};
ghost use Rattle.sm_theory.specs.Views.{line_in, IsLineWithin, AllStand, StandsIf};
ghost use Rattle.sm_theory.proofs.ExactLineSound.{with_exact_holds, with_exact_sorted, with_exact_below, with_exact_anywhere};

use crate::line::check_exact;
use sm_term::TermTable;
use sm_theory::{Branch, CertLine, Fact, Theory};
use std::alloc::{AllocError, Global};

/// A theory with the exact line, which goes to the exact decision; all others go to the theory.
#[derive(Drop)]
pub struct With<L> {
    pub inner: L,
}

impl<L> With<L> {
    /// The theory with the exact line.
    pub fn new(inner: L) -> With<L>
        ensures { result.inner ≡ inner }
    {
        With { inner }
    }
}

impl<L: Theory> Theory for With<L> {
    ghost adds = { λ w. with_exact (L.adds w.inner) };

    ghost holds = { λ w. with_exact_holds (L.adds w.inner) (L.holds w.inner) };

    ghost sorted = { λ w. with_exact_sorted (L.adds w.inner) (L.sorted w.inner) };

    ghost below = { λ w. with_exact_below (L.adds w.inner) (L.below w.inner) };

    ghost anywhere = { λ w. with_exact_anywhere (L.adds w.inner) (L.anywhere w.inner) };

    fn check_line(
        &self,
        alloc: Global,
        table: &TermTable,
        branch: &Branch,
        line: &CertLine,
    ) -> Result<Option<Fact>, AllocError> {
        match line {
            CertLine::Exact(n) => check_exact(alloc, table, branch, *n),
            _ => self.inner.check_line(alloc, table, branch, line),
        }
    }
}
