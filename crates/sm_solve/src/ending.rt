// How the walk from a branch ends.
ghost use Rattle.std.specs.Prelude.{◌≡◌, ◌≤◌, ◌+◌, ℕ, List, [], ◌∷◌, ◌++◌, length, IfOk};
ghost use Rattle.sm_syntax.specs.text.Sorts.{Sorts};
ghost use Rattle.sm_term.specs.Terms.{Tree};
ghost use Rattle.sm_term.specs.Assertions.{Assertion};
ghost use Rattle.sm_theory.specs.Facts.{as_facts};
ghost use Rattle.sm_theory.specs.Views.{line_in, IsLineWithin};
ghost use Rattle.sm_theory.specs.Ways.{ways, splitting};
ghost use Rattle.sm_list.specs.Branches.{with_parts};
ghost use Rattle.sm_list.specs.Parts.{all_numbered, assertions_in};
ghost use Rattle.sm_judge.specs.Forms.{Walked};
ghost use Rattle.sm_solve.specs.Walking.{ClosesIn, TellsEnd, ShowsEnd, IsEndCounted};

use crate::branching::{led_tree, split_tree};
use crate::solving::Leaf;
use sm_cert::CertTree;
use sm_num::Op;
use sm_term::Formula;
use sm_theory::CertLine;
use std::alloc::{AllocError, Global};

// How the walk from a branch ends.
#[derive(Drop)]
pub(crate) enum WalkEnd {
    // Each branch is closed, with the count of steps so far; the certificate shows it.
    Closed { count: u64, tree: CertTree },
    // The first branch that stays open.
    Open { leaf: Leaf },
    // The steps don't suffice, or there are too many splits.
    Steps,
    // The first operation that leaves the range of linear forms.
    Coefficient { op: Op, a: i128, b: i128 },
}

// The end of the walk from a branch as that of the branch without the parts of the formulas from a
// place on.
pub(crate) fn led_end(
    alloc: Global,
    facts: &[Formula],
    from: usize,
    end: WalkEnd,
) -> Result<WalkEnd, AllocError>
    requires { from ≤ length facts.now }
    ensures tells { (sorts : Sorts) (trees : List Tree) (w : Walked) → TellsEnd sorts trees end w →
        IfOk result (λ e. TellsEnd sorts trees e w) }
    ensures shows { (sorts : Sorts) (trees : List Tree) (room : ℕ) (before last : List Assertion) →
        from ≡ length before →
        assertions_in sorts trees (all_numbered facts.now) ≡ before ++ with_parts last →
        ShowsEnd sorts trees (before ++ with_parts last) room end →
        IfOk result (ShowsEnd sorts trees (before ++ last) room) }
    ensures counted { (steps : ℕ) → IsEndCounted steps end →
        IfOk result (λ e. IsEndCounted steps e) }
{
    match end {
        WalkEnd::Closed { count, tree } => {
            let led = led_tree(alloc, facts, from, tree)?;
            Ok(WalkEnd::Closed { count, tree: led })
        }
        WalkEnd::Open { leaf } => Ok(WalkEnd::Open { leaf }),
        WalkEnd::Steps => Ok(WalkEnd::Steps),
        WalkEnd::Coefficient { op, a, b } => Ok(WalkEnd::Coefficient { op, a, b }),
    }
}

// The end of the walk from the second part of a branch as that of the branch, of which the first
// part is closed.
pub(crate) fn split_end(
    alloc: Global,
    line: CertLine,
    first: CertTree,
    end: WalkEnd,
) -> Result<WalkEnd, AllocError>
    ensures tells { (sorts : Sorts) (trees : List Tree) (w : Walked) → TellsEnd sorts trees end w →
        IfOk result (λ e. TellsEnd sorts trees e w) }
    ensures shows { (sorts : Sorts) (trees : List Tree) (room : ℕ) (facts : List Assertion)
        (p q : Assertion) → IsLineWithin (length trees) line →
        ways sorts (as_facts facts) (line_in trees line) ≡ splitting p q →
        ClosesIn sorts trees (facts ++ p ∷ []) room first →
        ShowsEnd sorts trees (facts ++ q ∷ []) room end →
        IfOk result (ShowsEnd sorts trees facts (room + 1)) }
    ensures counted { (steps : ℕ) → IsEndCounted steps end →
        IfOk result (λ e. IsEndCounted steps e) }
{
    match end {
        WalkEnd::Closed { count, tree } => {
            let whole = split_tree(alloc, line, first, tree)?;
            Ok(WalkEnd::Closed { count, tree: whole })
        }
        WalkEnd::Open { leaf } => Ok(WalkEnd::Open { leaf }),
        WalkEnd::Steps => Ok(WalkEnd::Steps),
        WalkEnd::Coefficient { op, a, b } => Ok(WalkEnd::Coefficient { op, a, b }),
    }
}
