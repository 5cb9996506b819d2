// The theory of linear arithmetic over whole numbers.
ghost use Rattle.std.specs.Prelude.{List, length, IfOk};
ghost use Rattle.sm_term.specs.Tables.{trees_in, sorts_in};
ghost use Rattle.sm_theory.specs.Facts.{BranchFact};
ghost use Rattle.sm_theory.specs.Arithmetic.{arithmetic_adds};
ghost use Rattle.sm_theory.specs.Views.{line_in, IsLineWithin, AllStand, StandsIf};
ghost use Rattle.sm_theory.proofs.ArithmeticSound.{arithmetic_holds};
ghost use Rattle.sm_theory.proofs.ArithmeticKept.{arithmetic_sorted, arithmetic_below, arithmetic_moves};

use crate::cancelling::{elim, tight};
use crate::comparing::{apart, same};
use crate::subtracting::lin;
use sm_term::TermTable;
use sm_theory::{Branch, CertLine, Fact, Theory};
use std::alloc::{AllocError, Global};

/// The theory of linear arithmetic: its lines are `same`, `apart`, `lin`, `elim` and `tight`.
#[derive(Drop)]
pub struct Lia;

impl Lia {
    /// The theory.
    pub fn new() -> Lia {
        Lia
    }
}

impl Theory for Lia {
    ghost adds = { λ _. arithmetic_adds };

    ghost holds = { λ _. arithmetic_holds };

    ghost sorted = { λ _. arithmetic_sorted };

    ghost below = { λ _. arithmetic_below };

    ghost anywhere = { λ _. arithmetic_moves };

    fn check_line(
        &self,
        alloc: Global,
        table: &TermTable,
        branch: &Branch,
        line: &CertLine,
    ) -> Result<Option<Fact>, AllocError> {
        match line {
            CertLine::Same(t, u) => same(alloc, table, *t, *u),
            CertLine::Apart(t, u) => apart(alloc, table, *t, *u),
            CertLine::Lin(n) => lin(alloc, table, branch, *n),
            CertLine::Elim(m, n, t) => elim(alloc, table, branch, *m, *n, *t),
            CertLine::Tight(n) => tight(alloc, table, branch, *n),
            _ => Ok(None),
        }
    }
}
