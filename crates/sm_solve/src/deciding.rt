// The forms of a branch that nothing splits, decided exactly.
ghost use Rattle.std.specs.Prelude.{◌≡◌, ◌≤◌, ◌-◌, ℕ, min, List, length, IfOk};
ghost use Rattle.sm_num.specs.Combining.{Fits};
ghost use Rattle.sm_term.specs.declared.term.TermId.{TermId};
ghost use Rattle.sm_term.specs.Assertions.{Assertion};
ghost use Rattle.sm_term.specs.Tables.{trees_in, sorts_in};
ghost use Rattle.sm_cc.specs.Classes.{are_apart};
ghost use Rattle.sm_cc.specs.Rounds.{are_equal};
ghost use Rattle.sm_cc.specs.Views.{setting_of};
ghost use Rattle.sm_list.specs.Parts.{all_numbered, AreFormulasWithin};
ghost use Rattle.sm_judge.specs.AllForms.{AreAllForms};
ghost use Rattle.sm_judge.specs.Forms.{forms_of};
ghost use Rattle.sm_judge.specs.Holding.{Seen};
ghost use Rattle.sm_judge.specs.Refutations.{AreSources};
ghost use Rattle.sm_judge.specs.Seeing.{seen_in};
ghost use Rattle.sm_certify.specs.Given.{IsWhole, classes_by, branch_of};
ghost use Rattle.sm_solve.specs.Deciding.{TellsDecision, ShowsDecision};
ghost use Rattle.sm_solve.specs.Walk.{by_decision};

use sm_cc::Classes;
use sm_exact::{ExactAnswer, decide};
use sm_judge::{Source, SourcedForms, forms_of};
use sm_num::{LinForm, NumError, Op};
use sm_term::{Formula, TermTable};
use std::alloc::{AllocError, Global};

// What the exact decision of the forms of a branch comes to.
#[derive(Drop)]
pub(crate) enum Decision {
    // They have no solution, which takes so many steps to find; each form has its source.
    Refuted { count: u64, sources: Vec<Source> },
    // They have one.
    Solution,
    // The steps don't suffice.
    Steps,
    // An operation leaves the range of linear forms.
    Coefficient { op: Op, a: i128, b: i128 },
}

// Decides the forms of the branch of these facts in so many steps. Its terms are those of the
// table, and the forms those of the terms.
pub(crate) fn decide_forms<'a>(
    alloc: Global,
    classes: &Classes<'a>,
    table: &TermTable,
    forms: &[LinForm],
    facts: &[Formula],
    left: u64,
) -> Result<Decision, AllocError>
    requires forms { AreAllForms (trees_in table.now) forms.now }
    requires classes { (ids : List TermId) × IsWhole (trees_in table.now) ids
        × (classes.now ≡ classes_by table.now ids facts.now) }
    requires seen { seen_in (sorts_in table.now) (trees_in table.now) (trees_in table.now) facts.now
        (are_equal (setting_of classes.now))
        (are_apart (setting_of classes.now) (are_equal (setting_of classes.now)))
        ≡ branch_of table.now facts.now }
    requires within { AreFormulasWithin (length (trees_in table.now)) (all_numbered facts.now) }
    requires few { left ≤ 1000000 }
    ensures tells { let b = branch_of table.now facts.now in
        (steps count : ℕ) (all : List Assertion) → min (steps - count) 1000000 ≡ left →
        IfOk result (λ d. TellsDecision count all d (by_decision steps count all (forms_of b))) }
    ensures shows { IfOk result (ShowsDecision (branch_of table.now facts.now) left) }
{
    let labels = classes.labels(alloc)?;
    match forms_of(alloc, classes, &labels, table, forms, facts) {
        Ok(made) => decided(alloc, made, left),
        Err(NumError::Memory) => Err(AllocError),
        Err(NumError::Beyond { op, a, b }) => Ok(Decision::Coefficient { op, a, b }),
    }
}

// Decides forms in so many steps.
fn decided(alloc: Global, made: SourcedForms, left: u64) -> Result<Decision, AllocError>
    requires { left ≤ 1000000 }
    ensures tells { (steps count : ℕ) (all : List Assertion) → min (steps - count) 1000000 ≡ left →
        IfOk result (λ d. TellsDecision count all d
        (by_decision steps count all (Fits made.forms.list.items))) }
    ensures shows { (b : Seen) → AreSources b made.sources.items made.forms.list.items →
        IfOk result (ShowsDecision b left) }
{
    match decide(alloc, &made.forms.list, left)? {
        ExactAnswer::Refuted { count } => Ok(Decision::Refuted {
            count,
            sources: made.sources,
        }),
        ExactAnswer::Solution(_values) => Ok(Decision::Solution),
        ExactAnswer::Steps => Ok(Decision::Steps),
        ExactAnswer::Beyond { op, a, b } => Ok(Decision::Coefficient { op, a, b }),
    }
}
