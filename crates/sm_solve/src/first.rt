// The walk of all facts, from the first branch on: over a base, or over one that is made at a split.
ghost use Rattle.std.specs.Prelude.{◌≡◌, ◌≤◌, ℕ, List, length, IfOk, OnOk};
ghost use Rattle.std.specs.List.{range_with_len};
ghost use Rattle.sm_term.specs.Assertions.{Assertion};
ghost use Rattle.sm_term.specs.declared.term.TermId.{TermId};
ghost use Rattle.sm_term.specs.Sorted.{AreFormsSorted};
ghost use Rattle.sm_term.specs.Tables.{trees_in, sorts_in};
ghost use Rattle.sm_cc.specs.BaseClasses.{IsLedBy};
ghost use Rattle.sm_cc.specs.Views.{ClassesValue};
ghost use Rattle.sm_judge.specs.AllForms.{AreAllForms};
ghost use Rattle.sm_judge.specs.Forms.{Walked};
ghost use Rattle.sm_certify.specs.Bases.{IsFrom};
ghost use Rattle.sm_list.specs.Branches.{with_parts};
ghost use Rattle.sm_certify.specs.Given.{IsWhole, branch_of, classes_by};
ghost use Rattle.sm_terms.specs.Listing.{numbers_of};
ghost use Rattle.sm_list.specs.Parts.{all_numbered, assertions_in, AreFormulasWithin};
ghost use Rattle.sm_solve.specs.Naming.{AreNamed};
ghost use Rattle.sm_solve.specs.Walk.{by_classes, walk_from};
ghost use Rattle.sm_solve.specs.Walking.{IsVisitCounted, TellsEnd, TellsVisit, ShowsEnd, ShowsVisit};

use crate::context::WalkContext;
use crate::ending::{WalkEnd, led_end};
use crate::reach::Reach;
use crate::visiting::{Visit, visit_branch};
use crate::walking::{walk_from, walk_on};
use sm_certify::{Base, all_terms, base_of};
use sm_num::LinForm;
use sm_term::{Formula, TermTable};
use std::alloc::{AllocError, Global};

/// The walk of facts that are given with all parts of their conjunctions. Its classes begin with the
/// base, and its forms are those of all terms of the table. The certificate is of the branch of the
/// facts that are given alone. After want of memory more facts may be there.
pub(crate) fn walk_over(
    alloc: Global,
    base: &mut Base,
    table: &TermTable,
    forms: &[LinForm],
    facts: &mut Vec<Formula>,
    reach: Reach,
) -> Result<WalkEnd, AllocError>
    requires forms { AreAllForms (trees_in table.now) forms.now }
    requires within { let count = length (trees_in table.now) in
        AreFormulasWithin count (all_numbered facts.old.items) }
    requires sorted { AreFormsSorted (sorts_in table.now)
        (assertions_in (sorts_in table.now) (trees_in table.now) (all_numbered facts.old.items)) }
    requires led { (v : ClassesValue) × IsFrom v base.old
        × ((ids : List TermId) →
        numbers_of ids ≡ range_with_len 0 (length (trees_in table.now)) →
        IsLedBy v (classes_by table.now ids facts.old.items)) }
    requires named { let sorts = sorts_in table.now in let trees = trees_in table.now in
        AreNamed trees (assertions_in sorts trees (all_numbered facts.old.items)) }
    ensures tells { let sorts = sorts_in table.now in let trees = trees_in table.now in
        let all = assertions_in sorts trees (all_numbered facts.old.items) in
        IfOk result (λ e. TellsEnd sorts trees e (walk_from sorts trees reach 1001 0 all)) }
    ensures shows { let sorts = sorts_in table.now in let trees = trees_in table.now in
        (given : List Assertion) →
        assertions_in sorts trees (all_numbered facts.old.items) ≡ with_parts given →
        IfOk result (ShowsEnd sorts trees given 1001) }
    ensures kept { OnOk result (facts.new.items ≡ facts.old.items) }
    ensures stays { (v : ClassesValue) → IsFrom v base.old → IsFrom v base.new }
{
    let terms = all_terms(alloc, table)?;
    let cx = WalkContext {
        table,
        forms,
        terms: &terms,
        reach,
    };
    let end = walk_from(alloc, base, &cx, 1001, 0, facts)?;
    let led = led_end(alloc, facts.as_slice(), 0, end)?;
    Ok(led)
}

/// Walks from facts alone, with no base. Where the first branch is split, the branches below it
/// begin with its classes.
pub(crate) fn walk_alone(
    alloc: Global,
    table: &TermTable,
    forms: &[LinForm],
    facts: &mut Vec<Formula>,
    reach: Reach,
) -> Result<WalkEnd, AllocError>
    requires forms { AreAllForms (trees_in table.now) forms.now }
    requires within { let count = length (trees_in table.now) in
        AreFormulasWithin count (all_numbered facts.old.items) }
    requires sorted { AreFormsSorted (sorts_in table.now)
        (assertions_in (sorts_in table.now) (trees_in table.now) (all_numbered facts.old.items)) }
    requires named { let sorts = sorts_in table.now in let trees = trees_in table.now in
        AreNamed trees (assertions_in sorts trees (all_numbered facts.old.items)) }
    ensures tells { let sorts = sorts_in table.now in let trees = trees_in table.now in
        let all = assertions_in sorts trees (all_numbered facts.old.items) in
        IfOk result (λ e. TellsEnd sorts trees e (walk_from sorts trees reach 1001 0 all)) }
    ensures shows { let sorts = sorts_in table.now in let trees = trees_in table.now in
        (given : List Assertion) →
        assertions_in sorts trees (all_numbered facts.old.items) ≡ with_parts given →
        IfOk result (ShowsEnd sorts trees given 1001) }
{
    if reach.steps == 0 {
        return Ok(WalkEnd::Steps);
    }
    let terms = all_terms(alloc, table)?;
    let cx = WalkContext {
        table,
        forms,
        terms: &terms,
        reach,
    };
    let visit = visit_alone(alloc, &cx, facts.as_slice())?;
    let end = walk_below(alloc, &cx, facts, visit)?;
    let led = led_end(alloc, facts.as_slice(), 0, end)?;
    Ok(led)
}

// Visits the branch of facts alone, with no base.
fn visit_alone(alloc: Global, cx: &WalkContext<'_>, facts: &[Formula]) -> Result<Visit, AllocError>
    requires forms { AreAllForms (trees_in cx.now.table.now) cx.now.forms.now }
    requires whole { IsWhole (trees_in cx.now.table.now) cx.now.terms.now.list.items }
    requires within { let count = length (trees_in cx.now.table.now) in
        AreFormulasWithin count (all_numbered facts.now) }
    requires sorted { let table = cx.now.table.now in AreFormsSorted (sorts_in table)
        (assertions_in (sorts_in table) (trees_in table) (all_numbered facts.now)) }
    requires counted { 1 ≤ cx.now.reach.steps }
    requires named { let table = cx.now.table.now in
        let sorts = sorts_in table in let trees = trees_in table in
        AreNamed trees (assertions_in sorts trees (all_numbered facts.now)) }
    ensures tells { let table = cx.now.table.now in
        let sorts = sorts_in table in let trees = trees_in table in
        let all = assertions_in sorts trees (all_numbered facts.now) in
        (go : ℕ → List Assertion → Walked) → IfOk result (λ v. TellsVisit sorts trees all go v
        (by_classes go cx.now.reach (branch_of table facts.now) 1)) }
    ensures shows { let table = cx.now.table.now in
        let sorts = sorts_in table in let trees = trees_in table in
        let all = assertions_in sorts trees (all_numbered facts.now) in
        IfOk result (ShowsVisit sorts trees all) }
    ensures counted { IfOk result (IsVisitCounted cx.now.reach.steps) }
{
    let mut nothing = Base::Nothing;
    visit_branch(alloc, &mut nothing, cx, facts, 1)
}

// Walks on from the branch of facts alone after its visit. Where it is split, the branches below it
// begin with its classes.
fn walk_below(
    alloc: Global,
    cx: &WalkContext<'_>,
    facts: &mut Vec<Formula>,
    visit: Visit,
) -> Result<WalkEnd, AllocError>
    requires forms { AreAllForms (trees_in cx.now.table.now) cx.now.forms.now }
    requires whole { IsWhole (trees_in cx.now.table.now) cx.now.terms.now.list.items }
    requires within { let count = length (trees_in cx.now.table.now) in
        AreFormulasWithin count (all_numbered facts.old.items) }
    requires sorted { let table = cx.now.table.now in AreFormsSorted (sorts_in table)
        (assertions_in (sorts_in table) (trees_in table) (all_numbered facts.old.items)) }
    requires shows { let table = cx.now.table.now in
        let sorts = sorts_in table in let trees = trees_in table in
        ShowsVisit sorts trees (assertions_in sorts trees (all_numbered facts.old.items)) visit }
    requires counted { IsVisitCounted cx.now.reach.steps visit }
    requires named { let table = cx.now.table.now in
        let sorts = sorts_in table in let trees = trees_in table in
        AreNamed trees (assertions_in sorts trees (all_numbered facts.old.items)) }
    ensures tells { let table = cx.now.table.now in
        let sorts = sorts_in table in let trees = trees_in table in
        let all = assertions_in sorts trees (all_numbered facts.old.items) in
        let go = walk_from sorts trees cx.now.reach 1000 in
        (w : Walked) → TellsVisit sorts trees all go visit w →
        IfOk result (λ e. TellsEnd sorts trees e w) }
    ensures shows { let table = cx.now.table.now in
        let sorts = sorts_in table in let trees = trees_in table in
        let all = assertions_in sorts trees (all_numbered facts.old.items) in
        IfOk result (ShowsEnd sorts trees all 1001) }
    ensures kept { OnOk result (facts.new.items ≡ facts.old.items) }
{
    let mut base = base_after(alloc, cx, facts.as_slice(), &visit)?;
    walk_on(alloc, &mut base, cx, 1000, facts, visit)
}

// Where the branches below one begin: with its classes, where it is split.
fn base_after(
    alloc: Global,
    cx: &WalkContext<'_>,
    facts: &[Formula],
    visit: &Visit,
) -> Result<Base, AllocError>
    requires forms { AreAllForms (trees_in cx.now.table.now) cx.now.forms.now }
    requires whole { IsWhole (trees_in cx.now.table.now) cx.now.terms.now.list.items }
    requires within { let count = length (trees_in cx.now.table.now) in
        AreFormulasWithin count (all_numbered facts.now) }
    requires sorted { let table = cx.now.table.now in AreFormsSorted (sorts_in table)
        (assertions_in (sorts_in table) (trees_in table) (all_numbered facts.now)) }
    ensures { let ids = cx.now.terms.now.list.items in
        IfOk result (IsFrom (classes_by cx.now.table.now ids facts.now)) }
{
    match visit {
        Visit::Split {
            count: _count,
            split: _split,
        } => base_of(alloc, cx.table, cx.forms, cx.terms, facts),
        _ => Ok(Base::Nothing),
    }
}
