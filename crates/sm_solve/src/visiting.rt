// A branch that is visited: its classes, its forms, then by what it is split.
ghost use Rattle.std.specs.Prelude.{◌≡◌, ◌≤◌, ◌<◌, ◌^◌, ℕ, true, List, length, IfOk};
ghost use Rattle.sm_term.specs.Assertions.{Assertion};
ghost use Rattle.sm_term.specs.Sorted.{AreFormsSorted};
ghost use Rattle.sm_term.specs.Tables.{trees_in, sorts_in};
ghost use Rattle.sm_cc.specs.Classes.{are_apart};
ghost use Rattle.sm_cc.specs.BaseClasses.{IsLedBy};
ghost use Rattle.sm_cc.specs.Rounds.{are_equal};
ghost use Rattle.sm_cc.specs.Views.{ClassesValue, setting_of};
ghost use Rattle.sm_judge.specs.AllForms.{AreAllForms};
ghost use Rattle.sm_certify.specs.Bases.{IsFrom};
ghost use Rattle.sm_judge.specs.Closings.{IsClosing};
ghost use Rattle.sm_certify.specs.Given.{IsWhole, classes_by, branch_of};
ghost use Rattle.sm_judge.specs.Holding.{split_of};
ghost use Rattle.sm_judge.specs.Labelled.{AreLabels};
ghost use Rattle.sm_list.specs.Parts.{all_numbered, assertions_in, AreFormulasWithin};
ghost use Rattle.sm_judge.specs.Refutations.{IsRefutation};
ghost use Rattle.sm_judge.specs.Seeing.{seen_in};
ghost use Rattle.sm_judge.specs.Forms.{Walked, by_forms, forms_of};
ghost use Rattle.sm_solve.specs.Naming.{AreNamed};
ghost use Rattle.sm_solve.specs.Walk.{by_classes, by_no_split, by_parts};
ghost use Rattle.sm_solve.specs.Walking.{TellsVisit, ShowsVisit, IsVisitCounted};

use crate::context::WalkContext;
use crate::deciding::{Decision, decide_forms};
use sm_cc::Classes;
use sm_cert::CertTree;
use sm_certify::{Base, closing_tree, exact_tree, refutation_tree};
use sm_judge::{BranchSplit, ByForms, Progress, by_forms, closed_by, split_of};
use sm_num::Op;
use sm_term::Formula;
use std::alloc::{AllocError, Global};

// What the visit of a branch comes to.
#[derive(Drop)]
pub(crate) enum Visit {
    // It is closed, with the count of steps so far.
    Closed { count: u64, tree: CertTree },
    // It stays open.
    Open,
    // It is split, with the count of steps so far.
    Split { count: u64, split: BranchSplit },
    // No step is left.
    Steps,
    // An operation leaves the range of linear forms.
    Coefficient { op: Op, a: i128, b: i128 },
}

// Visits the branch of these facts, after `count` of the steps with that of the visit. Its
// terms are those of the table, and the forms those of the terms; its classes begin with the base.
pub(crate) fn visit_branch(
    alloc: Global,
    base: &mut Base,
    cx: &WalkContext<'_>,
    facts: &[Formula],
    count: u64,
) -> Result<Visit, AllocError>
    requires forms { AreAllForms (trees_in cx.now.table.now) cx.now.forms.now }
    requires whole { IsWhole (trees_in cx.now.table.now) cx.now.terms.now.list.items }
    requires within { let count = length (trees_in cx.now.table.now) in
        AreFormulasWithin count (all_numbered facts.now) }
    requires sorted { let table = cx.now.table.now in AreFormsSorted (sorts_in table)
        (assertions_in (sorts_in table) (trees_in table) (all_numbered facts.now)) }
    requires counted { count ≤ cx.now.reach.steps }
    requires led { (v : ClassesValue) × IsFrom v base.old
        × IsLedBy v (classes_by cx.now.table.now cx.now.terms.now.list.items facts.now) }
    requires named { let table = cx.now.table.now in
        let sorts = sorts_in table in let trees = trees_in table in
        AreNamed trees (assertions_in sorts trees (all_numbered facts.now)) }
    ensures tells { let table = cx.now.table.now in
        let sorts = sorts_in table in let trees = trees_in table in
        let all = assertions_in sorts trees (all_numbered facts.now) in
        (go : ℕ → List Assertion → Walked) → IfOk result (λ v. TellsVisit sorts trees all go v
        (by_classes go cx.now.reach (branch_of table facts.now) count)) }
    ensures shows { let table = cx.now.table.now in
        let sorts = sorts_in table in let trees = trees_in table in
        let all = assertions_in sorts trees (all_numbered facts.now) in
        IfOk result (ShowsVisit sorts trees all) }
    ensures counted { IfOk result (IsVisitCounted cx.now.reach.steps) }
    ensures stays { (v : ClassesValue) → IsFrom v base.old → IsFrom v base.new }
{
    let classes = base.classes(alloc, cx.table, cx.forms, cx.terms, facts)?;
    visit_classes(alloc, &classes, cx, facts, count)
}

// Visits a branch by its classes.
pub(crate) fn visit_classes<'a>(
    alloc: Global,
    classes: &Classes<'a>,
    cx: &WalkContext<'_>,
    facts: &[Formula],
    count: u64,
) -> Result<Visit, AllocError>
    requires forms { AreAllForms (trees_in cx.now.table.now) cx.now.forms.now }
    requires whole { IsWhole (trees_in cx.now.table.now) cx.now.terms.now.list.items }
    requires classes { let ids = cx.now.terms.now.list.items in
        classes.now ≡ classes_by cx.now.table.now ids facts.now }
    requires seen { let table = cx.now.table.now in
        seen_in (sorts_in table) (trees_in table) (trees_in table) facts.now
        (are_equal (setting_of classes.now))
        (are_apart (setting_of classes.now) (are_equal (setting_of classes.now)))
        ≡ branch_of table facts.now }
    requires within { let count = length (trees_in cx.now.table.now) in
        AreFormulasWithin count (all_numbered facts.now) }
    requires sorted { let table = cx.now.table.now in AreFormsSorted (sorts_in table)
        (assertions_in (sorts_in table) (trees_in table) (all_numbered facts.now)) }
    requires counted { count ≤ cx.now.reach.steps }
    requires named { let table = cx.now.table.now in
        let sorts = sorts_in table in let trees = trees_in table in
        AreNamed trees (assertions_in sorts trees (all_numbered facts.now)) }
    ensures tells { let table = cx.now.table.now in
        let sorts = sorts_in table in let trees = trees_in table in
        let all = assertions_in sorts trees (all_numbered facts.now) in
        (go : ℕ → List Assertion → Walked) → IfOk result (λ v. TellsVisit sorts trees all go v
        (by_classes go cx.now.reach (branch_of table facts.now) count)) }
    ensures shows { let table = cx.now.table.now in
        let sorts = sorts_in table in let trees = trees_in table in
        let all = assertions_in sorts trees (all_numbered facts.now) in
        IfOk result (ShowsVisit sorts trees all) }
    ensures counted { IfOk result (IsVisitCounted cx.now.reach.steps) }
{
    if !are_few(facts) {
        return Err(AllocError);
    }
    let labels = classes.labels(alloc)?;
    match closed_by(alloc, classes, &labels, cx.table, cx.forms, facts)? {
        Some(why) => {
            let tree = closing_tree(alloc, classes, cx.table, cx.terms, facts, why)?;
            Ok(Visit::Closed { count, tree })
        }
        None => visit_forms(alloc, classes, &labels, cx, facts, count),
    }
}

// Whether there are fewer facts than any memory holds.
pub(crate) fn are_few(facts: &[Formula]) -> bool
    ensures { result ≡ true → length facts.now < 2 ^ 62 }
{
    facts.len() < 4_611_686_018_427_387_904
}

// Visits the forms of a branch that isn't closed at once; labels tell the classes of its terms.
fn visit_forms<'a>(
    alloc: Global,
    classes: &Classes<'a>,
    labels: &[u64],
    cx: &WalkContext<'_>,
    facts: &[Formula],
    count: u64,
) -> Result<Visit, AllocError>
    requires forms { AreAllForms (trees_in cx.now.table.now) cx.now.forms.now }
    requires whole { IsWhole (trees_in cx.now.table.now) cx.now.terms.now.list.items }
    requires classes { let ids = cx.now.terms.now.list.items in
        classes.now ≡ classes_by cx.now.table.now ids facts.now }
    requires seen { let table = cx.now.table.now in
        seen_in (sorts_in table) (trees_in table) (trees_in table) facts.now
        (are_equal (setting_of classes.now))
        (are_apart (setting_of classes.now) (are_equal (setting_of classes.now)))
        ≡ branch_of table facts.now }
    requires labels { let equal = are_equal (setting_of classes.now) in
        AreLabels (trees_in cx.now.table.now) equal labels.now }
    requires within { let count = length (trees_in cx.now.table.now) in
        AreFormulasWithin count (all_numbered facts.now) }
    requires sorted { let table = cx.now.table.now in AreFormsSorted (sorts_in table)
        (assertions_in (sorts_in table) (trees_in table) (all_numbered facts.now)) }
    requires few { length facts.now < 2 ^ 62 }
    requires counted { count ≤ cx.now.reach.steps }
    requires named { let table = cx.now.table.now in
        let sorts = sorts_in table in let trees = trees_in table in
        AreNamed trees (assertions_in sorts trees (all_numbered facts.now)) }
    ensures tells { let table = cx.now.table.now in
        let sorts = sorts_in table in let trees = trees_in table in
        let all = assertions_in sorts trees (all_numbered facts.now) in
        let b = branch_of table facts.now in
        (go : ℕ → List Assertion → Walked) → IfOk result (λ v. TellsVisit sorts trees all go v
        (by_forms cx.now.reach.steps count (length trees) (forms_of b)
        (by_parts go (by_no_split cx.now.reach b) all (split_of b)))) }
    ensures shows { let table = cx.now.table.now in
        let sorts = sorts_in table in let trees = trees_in table in
        let all = assertions_in sorts trees (all_numbered facts.now) in
        IfOk result (ShowsVisit sorts trees all) }
    ensures counted { IfOk result (IsVisitCounted cx.now.reach.steps) }
{
    let so_far = Progress {
        count,
        steps: cx.reach.steps,
    };
    match by_forms(alloc, classes, labels, cx.table, cx.forms, facts, so_far)? {
        ByForms::Contradiction {
            count: at,
            refutation,
        } => {
            let tree = refutation_tree(alloc, classes, cx.table, cx.terms, facts, &refutation)?;
            Ok(Visit::Closed { count: at, tree })
        }
        ByForms::GoesOn { count: at } => visit_split(alloc, classes, cx, facts, at),
        ByForms::Steps => Ok(Visit::Steps),
        ByForms::Coefficient { op, a, b } => Ok(Visit::Coefficient { op, a, b }),
    }
}

// Splits a branch that its forms don't close, or decides its forms exactly.
fn visit_split<'a>(
    alloc: Global,
    classes: &Classes<'a>,
    cx: &WalkContext<'_>,
    facts: &[Formula],
    count: u64,
) -> Result<Visit, AllocError>
    requires forms { AreAllForms (trees_in cx.now.table.now) cx.now.forms.now }
    requires whole { IsWhole (trees_in cx.now.table.now) cx.now.terms.now.list.items }
    requires classes { let ids = cx.now.terms.now.list.items in
        classes.now ≡ classes_by cx.now.table.now ids facts.now }
    requires seen { let table = cx.now.table.now in
        seen_in (sorts_in table) (trees_in table) (trees_in table) facts.now
        (are_equal (setting_of classes.now))
        (are_apart (setting_of classes.now) (are_equal (setting_of classes.now)))
        ≡ branch_of table facts.now }
    requires within { let count = length (trees_in cx.now.table.now) in
        AreFormulasWithin count (all_numbered facts.now) }
    requires sorted { let table = cx.now.table.now in AreFormsSorted (sorts_in table)
        (assertions_in (sorts_in table) (trees_in table) (all_numbered facts.now)) }
    requires few { length facts.now < 2 ^ 62 }
    requires counted { count ≤ cx.now.reach.steps }
    requires named { let table = cx.now.table.now in
        let sorts = sorts_in table in let trees = trees_in table in
        AreNamed trees (assertions_in sorts trees (all_numbered facts.now)) }
    ensures tells { let table = cx.now.table.now in
        let sorts = sorts_in table in let trees = trees_in table in
        let all = assertions_in sorts trees (all_numbered facts.now) in
        let b = branch_of table facts.now in
        (go : ℕ → List Assertion → Walked) → IfOk result (λ v. TellsVisit sorts trees all go v
        (by_parts go (by_no_split cx.now.reach b) all (split_of b) count)) }
    ensures shows { let table = cx.now.table.now in
        let sorts = sorts_in table in let trees = trees_in table in
        let all = assertions_in sorts trees (all_numbered facts.now) in
        IfOk result (ShowsVisit sorts trees all) }
    ensures counted { IfOk result (IsVisitCounted cx.now.reach.steps) }
{
    match split_of(alloc, classes, cx.table, facts)? {
        Some(split) => Ok(Visit::Split { count, split }),
        None => {
            if !cx.reach.exact {
                return Ok(Visit::Open);
            }
            let left = (cx.reach.steps - count).min(1_000_000);
            match decide_forms(alloc, classes, cx.table, cx.forms, facts, left)? {
                Decision::Refuted {
                    count: more,
                    sources,
                } => {
                    let tree = exact_tree(
                        alloc, classes, cx.table, cx.terms, facts, &sources, more,
                    )?;
                    Ok(Visit::Closed {
                        count: count + more,
                        tree,
                    })
                }
                Decision::Solution => Ok(Visit::Open),
                Decision::Steps => Ok(Visit::Steps),
                Decision::Coefficient { op, a, b } => Ok(Visit::Coefficient { op, a, b }),
            }
        }
    }
}
