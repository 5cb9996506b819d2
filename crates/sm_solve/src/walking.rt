// The walk from a branch.
ghost use Rattle.std.specs.Prelude.{◌≡◌, ◌≤◌, ◌+◌, Some, List, [], ◌∷◌, ◌++◌, length, IfOk, OnOk};
ghost use Rattle.sm_term.specs.Formulas.{numbered, assertion_in, IsFormulaWithin};
ghost use Rattle.sm_term.specs.Sorted.{IsFormSorted, AreFormsSorted};
ghost use Rattle.sm_term.specs.Tables.{trees_in, sorts_in};
ghost use Rattle.sm_cc.specs.BaseClasses.{IsLedBy};
ghost use Rattle.sm_cc.specs.Views.{ClassesValue};
ghost use Rattle.sm_judge.specs.AllForms.{AreAllForms};
ghost use Rattle.sm_certify.specs.Bases.{IsFrom};
ghost use Rattle.sm_list.specs.Branches.{with_parts};
ghost use Rattle.sm_certify.specs.Given.{IsWhole, classes_by};
ghost use Rattle.sm_list.specs.Parts.{all_numbered, assertions_in, AreFormulasWithin};
ghost use Rattle.sm_judge.specs.Splits.{split_told, IsToldWithin, SplitsBranch};
ghost use Rattle.sm_judge.specs.Forms.{Walked};
ghost use Rattle.sm_solve.specs.Naming.{AreNamed, NamesNoMore, NameNoMore};
ghost use Rattle.sm_solve.specs.Walk.{walk_from};
ghost use Rattle.sm_solve.specs.Walking.{by_split, TellsVisit, ShowsVisit, IsVisitCounted, TellsEnd, ShowsEnd, IsEndCounted};

use crate::branching::copy_facts;
use crate::context::WalkContext;
use crate::ending::{WalkEnd, led_end, split_end};
use crate::solving::Leaf;
use crate::visiting::{Visit, visit_branch};
use sm_certify::Base;
use sm_judge::BranchSplit;
use sm_list::add_with_parts;
use sm_term::Formula;
use std::alloc::{AllocError, Global};

// Walks from the branch of these facts, after `count` of the steps. So many more splits may
// stand above a branch as there is room for. The forms are those of all terms of the table, and the
// classes of each branch begin with the base.
#[cycle(walk)]
pub(crate) fn walk_from(
    alloc: Global,
    base: &mut Base,
    cx: &WalkContext<'_>,
    room: u64,
    count: u64,
    facts: &mut Vec<Formula>,
) -> Result<WalkEnd, AllocError>
    requires forms { AreAllForms (trees_in cx.now.table.now) cx.now.forms.now }
    requires whole { IsWhole (trees_in cx.now.table.now) cx.now.terms.now.list.items }
    requires within { let count = length (trees_in cx.now.table.now) in
        AreFormulasWithin count (all_numbered facts.old.items) }
    requires sorted { let table = cx.now.table.now in AreFormsSorted (sorts_in table)
        (assertions_in (sorts_in table) (trees_in table) (all_numbered facts.old.items)) }
    requires counted { count ≤ cx.now.reach.steps }
    requires led { (v : ClassesValue) × IsFrom v base.old
        × IsLedBy v (classes_by cx.now.table.now cx.now.terms.now.list.items facts.old.items) }
    requires named { let table = cx.now.table.now in
        let sorts = sorts_in table in let trees = trees_in table in
        AreNamed trees (assertions_in sorts trees (all_numbered facts.old.items)) }
    ensures tells { let table = cx.now.table.now in
        let sorts = sorts_in table in let trees = trees_in table in
        let all = assertions_in sorts trees (all_numbered facts.old.items) in
        IfOk result (λ e. TellsEnd sorts trees e
        (walk_from sorts trees cx.now.reach room count all)) }
    ensures shows { let table = cx.now.table.now in
        let sorts = sorts_in table in let trees = trees_in table in
        let all = assertions_in sorts trees (all_numbered facts.old.items) in
        IfOk result (ShowsEnd sorts trees all room) }
    ensures counted { IfOk result (IsEndCounted cx.now.reach.steps) }
    ensures kept { OnOk result (facts.new.items ≡ facts.old.items) }
    ensures stays { (v : ClassesValue) → IsFrom v base.old → IsFrom v base.new }
{
    if room == 0 || count == cx.reach.steps {
        return Ok(WalkEnd::Steps);
    }
    let visit = visit_branch(alloc, base, cx, facts.as_slice(), count + 1)?;
    walk_on(alloc, base, cx, room - 1, facts, visit)
}

// Walks on from the branch of these facts after its visit.
#[cycle(walk)]
pub(crate) fn walk_on(
    alloc: Global,
    base: &mut Base,
    cx: &WalkContext<'_>,
    room: u64,
    facts: &mut Vec<Formula>,
    visit: Visit,
) -> Result<WalkEnd, AllocError>
    requires forms { AreAllForms (trees_in cx.now.table.now) cx.now.forms.now }
    requires whole { IsWhole (trees_in cx.now.table.now) cx.now.terms.now.list.items }
    requires within { let count = length (trees_in cx.now.table.now) in
        AreFormulasWithin count (all_numbered facts.old.items) }
    requires sorted { let table = cx.now.table.now in AreFormsSorted (sorts_in table)
        (assertions_in (sorts_in table) (trees_in table) (all_numbered facts.old.items)) }
    requires shows { let table = cx.now.table.now in
        let sorts = sorts_in table in let trees = trees_in table in
        ShowsVisit sorts trees (assertions_in sorts trees (all_numbered facts.old.items)) visit }
    requires counted { IsVisitCounted cx.now.reach.steps visit }
    requires led { (v : ClassesValue) × IsFrom v base.old
        × IsLedBy v (classes_by cx.now.table.now cx.now.terms.now.list.items facts.old.items) }
    requires named { let table = cx.now.table.now in
        let sorts = sorts_in table in let trees = trees_in table in
        AreNamed trees (assertions_in sorts trees (all_numbered facts.old.items)) }
    ensures tells { let table = cx.now.table.now in
        let sorts = sorts_in table in let trees = trees_in table in
        let all = assertions_in sorts trees (all_numbered facts.old.items) in
        let go = walk_from sorts trees cx.now.reach room in
        (w : Walked) → TellsVisit sorts trees all go visit w →
        IfOk result (λ e. TellsEnd sorts trees e w) }
    ensures shows { let table = cx.now.table.now in
        let sorts = sorts_in table in let trees = trees_in table in
        let all = assertions_in sorts trees (all_numbered facts.old.items) in
        IfOk result (ShowsEnd sorts trees all (room + 1)) }
    ensures counted { IfOk result (IsEndCounted cx.now.reach.steps) }
    ensures kept { OnOk result (facts.new.items ≡ facts.old.items) }
    ensures stays { (v : ClassesValue) → IsFrom v base.old → IsFrom v base.new }
{
    match visit {
        Visit::Closed { count: at, tree } => Ok(WalkEnd::Closed { count: at, tree }),
        Visit::Open => {
            let list = copy_facts(alloc, facts.as_slice())?;
            Ok(WalkEnd::Open {
                leaf: Leaf { list },
            })
        }
        Visit::Split { count: at, split } => { walk_parts(alloc, base, cx, room, at, facts, split) }
        Visit::Steps => Ok(WalkEnd::Steps),
        Visit::Coefficient { op, a, b } => Ok(WalkEnd::Coefficient { op, a, b }),
    }
}

// Walks from both parts of a branch, the first first.
#[cycle(walk)]
fn walk_parts(
    alloc: Global,
    base: &mut Base,
    cx: &WalkContext<'_>,
    room: u64,
    count: u64,
    facts: &mut Vec<Formula>,
    split: BranchSplit,
) -> Result<WalkEnd, AllocError>
    requires forms { AreAllForms (trees_in cx.now.table.now) cx.now.forms.now }
    requires whole { IsWhole (trees_in cx.now.table.now) cx.now.terms.now.list.items }
    requires within { let count = length (trees_in cx.now.table.now) in
        AreFormulasWithin count (all_numbered facts.old.items) }
    requires sorted { let table = cx.now.table.now in AreFormsSorted (sorts_in table)
        (assertions_in (sorts_in table) (trees_in table) (all_numbered facts.old.items)) }
    requires counted { count ≤ cx.now.reach.steps }
    requires led { (v : ClassesValue) × IsFrom v base.old
        × IsLedBy v (classes_by cx.now.table.now cx.now.terms.now.list.items facts.old.items) }
    requires split { IsToldWithin (length (trees_in cx.now.table.now)) (Some split) }
    requires line { let table = cx.now.table.now in
        let sorts = sorts_in table in let trees = trees_in table in
        SplitsBranch sorts trees (assertions_in sorts trees (all_numbered facts.old.items))
        (Some split) }
    requires named { let table = cx.now.table.now in
        let sorts = sorts_in table in let trees = trees_in table in
        AreNamed trees (assertions_in sorts trees (all_numbered facts.old.items)) }
    requires names { let table = cx.now.table.now in
        let sorts = sorts_in table in let trees = trees_in table in
        NameNoMore sorts trees (assertions_in sorts trees (all_numbered facts.old.items)) split }
    ensures tells { let table = cx.now.table.now in
        let sorts = sorts_in table in let trees = trees_in table in
        let all = assertions_in sorts trees (all_numbered facts.old.items) in
        IfOk result (λ e. TellsEnd sorts trees e
        (by_split (walk_from sorts trees cx.now.reach room) all
        (split_told sorts trees (Some split)) count)) }
    ensures shows { let table = cx.now.table.now in
        let sorts = sorts_in table in let trees = trees_in table in
        let all = assertions_in sorts trees (all_numbered facts.old.items) in
        IfOk result (ShowsEnd sorts trees all (room + 1)) }
    ensures counted { IfOk result (IsEndCounted cx.now.reach.steps) }
    ensures kept { OnOk result (facts.new.items ≡ facts.old.items) }
    ensures stays { (v : ClassesValue) → IsFrom v base.old → IsFrom v base.new }
{
    // The terms of a table are sorted, as its length ensures.
    cx.table.len();
    match walk_part(alloc, base, cx, room, count, facts, split.first)? {
        WalkEnd::Closed { count: at, tree } => {
            let end = walk_part(alloc, base, cx, room, at, facts, split.second)?;
            let whole = split_end(alloc, split.line, tree, end)?;
            Ok(whole)
        }
        WalkEnd::Open { leaf } => Ok(WalkEnd::Open { leaf }),
        WalkEnd::Steps => Ok(WalkEnd::Steps),
        WalkEnd::Coefficient { op, a, b } => Ok(WalkEnd::Coefficient { op, a, b }),
    }
}

// Walks from the branch with one more formula and its parts, and leaves the facts as they were.
#[cycle(walk)]
fn walk_part(
    alloc: Global,
    base: &mut Base,
    cx: &WalkContext<'_>,
    room: u64,
    count: u64,
    facts: &mut Vec<Formula>,
    f: Formula,
) -> Result<WalkEnd, AllocError>
    requires forms { AreAllForms (trees_in cx.now.table.now) cx.now.forms.now }
    requires whole { IsWhole (trees_in cx.now.table.now) cx.now.terms.now.list.items }
    requires within { let count = length (trees_in cx.now.table.now) in
        AreFormulasWithin count (all_numbered facts.old.items) }
    requires sorted { let table = cx.now.table.now in AreFormsSorted (sorts_in table)
        (assertions_in (sorts_in table) (trees_in table) (all_numbered facts.old.items)) }
    requires counted { count ≤ cx.now.reach.steps }
    requires led { (v : ClassesValue) × IsFrom v base.old
        × IsLedBy v (classes_by cx.now.table.now cx.now.terms.now.list.items facts.old.items) }
    requires formula { IsFormulaWithin (length (trees_in cx.now.table.now)) (numbered f) }
    requires formula_sorted { IsFormSorted (sorts_in cx.now.table.now)
        (assertion_in (sorts_in cx.now.table.now) (trees_in cx.now.table.now) (numbered f)) }
    requires named { let table = cx.now.table.now in
        let sorts = sorts_in table in let trees = trees_in table in
        AreNamed trees (assertions_in sorts trees (all_numbered facts.old.items)) }
    requires names { let table = cx.now.table.now in
        let sorts = sorts_in table in let trees = trees_in table in
        NamesNoMore (assertions_in sorts trees (all_numbered facts.old.items))
        (assertion_in sorts trees (numbered f)) }
    ensures tells { let table = cx.now.table.now in
        let sorts = sorts_in table in let trees = trees_in table in
        let all = assertions_in sorts trees (all_numbered facts.old.items) in
        let last = assertion_in sorts trees (numbered f) in
        IfOk result (λ e. TellsEnd sorts trees e
        (walk_from sorts trees cx.now.reach room count (all ++ with_parts (last ∷ [])))) }
    ensures shows { let table = cx.now.table.now in
        let sorts = sorts_in table in let trees = trees_in table in
        let all = assertions_in sorts trees (all_numbered facts.old.items) in
        let last = assertion_in sorts trees (numbered f) in
        IfOk result (ShowsEnd sorts trees (all ++ last ∷ []) room) }
    ensures counted { IfOk result (IsEndCounted cx.now.reach.steps) }
    ensures kept { OnOk result (facts.new.items ≡ facts.old.items) }
    ensures stays { (v : ClassesValue) → IsFrom v base.old → IsFrom v base.new }
{
    let from = facts.len();
    add_with_parts(alloc, facts, f)?;
    let end = walk_from(alloc, base, cx, room, count, facts)?;
    let led = led_end(alloc, facts.as_slice(), from, end)?;
    facts.truncate(from);
    Ok(led)
}
