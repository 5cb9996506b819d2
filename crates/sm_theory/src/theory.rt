// What a theory is.
ghost use Rattle.std.specs.Prelude.{IfOk, List, Option, length};
ghost use Rattle.sm_syntax.specs.text.Sorts.{Sorts};
ghost use Rattle.sm_term.specs.Tables.{trees_in, sorts_in};
ghost use Rattle.sm_theory.specs.Facts.{BranchFact};
ghost use Rattle.sm_theory.specs.Lines.{CertificateLine};
ghost use Rattle.sm_theory.specs.Laws.{AddsWhatHolds, AddsWhatIsSorted, AddsWhatIsBelow, AddsAnywhere};
ghost use Rattle.sm_theory.specs.SortedFacts.{AreFactsSorted};
ghost use Rattle.sm_theory.specs.Views.{line_in, IsLineWithin, AllStand, StandsIf};

use crate::fact::{Branch, Fact};
use crate::line::CertLine;
use sm_term::TermTable;
use std::alloc::{AllocError, Global};

/// A theory: what it derives from a line and the facts of a branch.
pub trait Theory {
    // the fact that a line adds, none where it is no line of the theory or its condition fails
    ghost adds: { Self → Sorts → List BranchFact → CertificateLine → Option BranchFact };

    /// The fact that a line adds to a branch, None where it is no line of this theory or where its
    /// condition fails.
    fn check_line(
        &self,
        alloc: Global,
        table: &TermTable,
        branch: &Branch,
        line: &CertLine,
    ) -> Result<Option<Fact>, AllocError>
        requires { IsLineWithin (length (trees_in table.now)) line.now }
        ensures { let trees = trees_in table.now in let sorts = sorts_in table.now in
            (facts : List BranchFact) → AllStand sorts trees branch.now.list.items facts →
            AreFactsSorted sorts facts →
            IfOk result (λ o. StandsIf sorts trees o
            (adds self.now sorts facts (line_in trees line.now))) };

    // what is added holds wherever the facts of the branch do
    ghost holds: { (e : Self) → AddsWhatHolds (adds e) };

    // what is added is sorted where the facts of the branch and the line are
    ghost sorted: { (e : Self) → AddsWhatIsSorted (adds e) };

    // what is added names no new value but of nodes that the facts and the line may name
    ghost below: { (e : Self) → AddsWhatIsBelow (adds e) };

    // what is added is added on each other branch on which the line reads the same
    ghost anywhere: { (e : Self) → AddsAnywhere (adds e) };
}
