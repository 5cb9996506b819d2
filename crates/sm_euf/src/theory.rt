// The theory of equality.
ghost use Rattle.std.specs.Prelude.{List, length, IfOk, IsOk};
ghost use Rattle.sm_term.specs.Tables.{trees_in, sorts_in};
ghost use Rattle.sm_theory.specs.Facts.{BranchFact};
ghost use Rattle.sm_theory.specs.Equality.{equality_adds};
ghost use Rattle.sm_theory.specs.SortedFacts.{AreFactsSorted};
ghost use Rattle.sm_theory.specs.Views.{line_in, IsLineWithin, AllStand, StandsIf};
ghost use Rattle.sm_theory.proofs.EqualitySound.{equality_holds};
ghost use Rattle.sm_theory.proofs.EqualityLemmas.{equality_sorted, equality_below, equality_anywhere};

use crate::congruence::congruent;
use crate::equations::{chained, substituted, turned};
use sm_term::{Formula, TermTable};
use sm_theory::{Branch, CertLine, Fact, Theory};
use std::alloc::{AllocError, Global};

/// The theory of equality. It answers the lines refl, sym, trans, subst and cong.
#[derive(Clone, Copy)]
pub struct Euf;

impl Euf {
    /// The theory, which has no state.
    pub fn new() -> Euf {
        Euf
    }
}

impl Theory for Euf {
    ghost adds = { λ e. equality_adds };

    fn check_line(
        &self,
        alloc: Global,
        table: &TermTable,
        branch: &Branch,
        line: &CertLine,
    ) -> Result<Option<Fact>, AllocError>
        requires { IsLineWithin (length (trees_in table.now)) line.now }
        ensures added { let trees = trees_in table.now in let sorts = sorts_in table.now in
            (facts : List BranchFact) → AllStand sorts trees branch.now.list.items facts →
            AreFactsSorted sorts facts →
            IfOk result (λ o. StandsIf sorts trees o
            (equality_adds sorts facts (line_in trees line.now))) }

        // No memory is asked for, so there always is an answer.
        ensures memory { IsOk result }
    {
        Ok(added(table, branch, line))
    }

    ghost holds = { λ e. equality_holds };

    ghost sorted = { λ e. equality_sorted };

    ghost below = { λ e. equality_below };

    ghost anywhere = { λ e. equality_anywhere };
}

// The fact that a line adds to a branch.
fn added(table: &TermTable, branch: &Branch, line: &CertLine) -> Option<Fact>
    requires { IsLineWithin (length (trees_in table.now)) line.now }
    ensures { let trees = trees_in table.now in let sorts = sorts_in table.now in
        (facts : List BranchFact) → AllStand sorts trees branch.now.list.items facts →
        AreFactsSorted sorts facts →
        StandsIf sorts trees result (equality_adds sorts facts (line_in trees line.now)) }
{
    match line {
        CertLine::Refl(t) => Some(Fact::Form(Formula::Eq(*t, *t))),
        CertLine::Sym(n) => turned(branch, *n),
        CertLine::Trans(m, n) => chained(table, branch, *m, *n),
        CertLine::Subst(m, n) => substituted(table, branch, *m, *n),
        CertLine::Cong(t, u, numbers) => congruent(table, branch, *t, *u, &numbers.list),
        CertLine::Both(_) | CertLine::Either(_) | CertLine::Order(_) => None,
        CertLine::Cases(_, _) | CertLine::Same(_, _) | CertLine::Apart(_, _) => None,
        CertLine::Hit(_, _) | CertLine::Miss(_, _, _) => None,
        CertLine::Lin(_) | CertLine::Elim(_, _, _) | CertLine::Tight(_) => None,
        CertLine::Exact(_) => None,
        CertLine::Close(_) | CertLine::Clash(_, _) => None,
    }
}
