// How the walk of a goal ends.
ghost use Rattle.std.specs.Prelude.{ℕ, List, IfOk};
ghost use Rattle.sm_syntax.specs.text.Sorts.{Sorts};
ghost use Rattle.sm_term.specs.Assertions.{Assertion};
ghost use Rattle.sm_term.specs.Terms.{Tree};
ghost use Rattle.sm_list.specs.Renumbered.{AreTermsOf};
ghost use Rattle.sm_solve.specs.GoalEnds.{TellsGoal, ShowsGoal};
ghost use Rattle.sm_solve.specs.Answers.{Tells, NamesOnly};
ghost use Rattle.sm_judge.specs.Forms.{Walked};
ghost use Rattle.sm_solve.specs.Walking.{Shows};

use crate::ending::WalkEnd;
use crate::solving::{Answer, renumbered_end};
use sm_cert::CertTree;
use sm_list::renumbered_tree;
use sm_term::Terms;
use std::alloc::{AllocError, Global};

/// How the walk of a goal ends: closed as the facts of its node are, or as the walk finds.
#[derive(Drop)]
pub(crate) enum GoalEnd {
    Inconsistent(CertTree),
    Walked(WalkEnd),
}

/// The end of the walk of a goal as an answer, under the numbers that its terms have in another
/// table.
pub(crate) fn renumbered_goal_end(
    alloc: Global,
    end: GoalEnd,
    numbers: &Terms,
) -> Result<Answer, AllocError>
    ensures tells { (sorts : Sorts) (trees others : List Tree) (w : Walked) →
        AreTermsOf others numbers.now.list.items trees → TellsGoal sorts trees end w →
        IfOk result (λ a. Tells sorts others a w) }
    ensures shows { (sorts : Sorts) (trees others : List Tree) (room : ℕ) (given : List Assertion) →
        AreTermsOf others numbers.now.list.items trees → ShowsGoal sorts trees given room end →
        IfOk result (λ a. Shows sorts others given room a) }
    ensures names { (sorts : Sorts) (trees others : List Tree) (room : ℕ) (given : List Assertion) →
        AreTermsOf others numbers.now.list.items trees → ShowsGoal sorts trees given room end →
        IfOk result (NamesOnly trees others) }
{
    match end {
        GoalEnd::Inconsistent(tree) => {
            let other = renumbered_tree(alloc, &tree, &numbers.list)?;
            Ok(Answer::Closed(other))
        }
        GoalEnd::Walked(end) => renumbered_end(alloc, end, numbers),
    }
}
