// The theory of arrays.
ghost use Rattle.std.specs.Prelude.{List, length, IfOk, IsOk};
ghost use Rattle.sm_term.specs.Tables.{trees_in, sorts_in};
ghost use Rattle.sm_theory.specs.Facts.{BranchFact};
ghost use Rattle.sm_theory.specs.Elements.{element_adds};
ghost use Rattle.sm_theory.specs.SortedFacts.{AreFactsSorted};
ghost use Rattle.sm_theory.specs.Views.{line_in, IsLineWithin, AllStand, StandsIf};
ghost use Rattle.sm_theory.proofs.ElementsLemmas.{arrays_hold, arrays_sorted, arrays_below, arrays_anywhere};

use crate::reads::{hit, missed};
use sm_term::TermTable;
use sm_theory::{Branch, CertLine, Fact, Theory};
use std::alloc::{AllocError, Global};

/// The theory of arrays. It answers the lines hit and miss.
#[derive(Clone, Copy)]
pub struct Rows;

impl Rows {
    /// The theory, which has no state.
    pub fn new() -> Rows {
        Rows
    }
}

impl Theory for Rows {
    ghost adds = { λ e sorts. element_adds };

    fn check_line(
        &self,
        alloc: Global,
        table: &TermTable,
        branch: &Branch,
        line: &CertLine,
    ) -> Result<Option<Fact>, AllocError>
        requires { IsLineWithin (length (trees_in table.now)) line.now }
        ensures added { let trees = trees_in table.now in let sorts = sorts_in table.now in
            (facts : List BranchFact) → AllStand sorts trees branch.now.list.items facts →
            AreFactsSorted sorts facts →
            IfOk result (λ o. StandsIf sorts trees o (element_adds facts (line_in trees line.now))) }

        // No memory is asked for, so there always is an answer.
        ensures memory { IsOk result }
    {
        Ok(added(table, branch, line))
    }

    ghost holds = { λ e. arrays_hold };

    ghost sorted = { λ e. arrays_sorted };

    ghost below = { λ e. arrays_below };

    ghost anywhere = { λ e. arrays_anywhere };
}

// The fact that a line adds to a branch.
fn added(table: &TermTable, branch: &Branch, line: &CertLine) -> Option<Fact>
    requires { IsLineWithin (length (trees_in table.now)) line.now }
    ensures { let trees = trees_in table.now in let sorts = sorts_in table.now in
        (facts : List BranchFact) → AllStand sorts trees branch.now.list.items facts →
        StandsIf sorts trees result (element_adds facts (line_in trees line.now)) }
{
    match line {
        CertLine::Hit(t, n) => hit(table, branch, *t, *n),
        CertLine::Miss(t, u, n) => missed(table, branch, *t, *u, *n),
        CertLine::Both(_) | CertLine::Either(_) | CertLine::Order(_) => None,
        CertLine::Refl(_) | CertLine::Sym(_) => None,
        CertLine::Trans(_, _) | CertLine::Subst(_, _) | CertLine::Cong(_, _, _) => None,
        CertLine::Cases(_, _) | CertLine::Same(_, _) | CertLine::Apart(_, _) => None,
        CertLine::Lin(_) | CertLine::Elim(_, _, _) | CertLine::Tight(_) => None,
        CertLine::Exact(_) => None,
        CertLine::Close(_) | CertLine::Clash(_, _) => None,
    }
}
