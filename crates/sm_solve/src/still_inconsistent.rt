// Whether facts that can't hold together are among others: then the visit of these closes, too.
ghost use Rattle.std.specs.Prelude.{◌≡◌, ◌<◌, ◌≤◌, ℕ, true, List, [], ◌∷◌, ◌++◌, length, take, slice_set, IfOk, IfSome};
ghost use Rattle.std.specs.List.{range_with_len};
ghost use Rattle.sm_num.specs.Combining.{Fits};
ghost use Rattle.sm_term.specs.Assertions.{Assertion, Yes};
ghost use Rattle.sm_term.specs.declared.formula.Formula.TheVariants as tree;
ghost use Rattle.sm_term.specs.declared.term.TermId.{TermId};
ghost use Rattle.sm_term.specs.Sorted.{AreFormsSorted};
ghost use Rattle.sm_term.specs.Tables.{trees_in, sorts_in};
ghost use Rattle.sm_term.specs.Terms.{Tree};
ghost use Rattle.sm_cc.specs.BaseClasses.{AreBaseClasses, IsLedBy};
ghost use Rattle.sm_pairs.specs.Longer.{IsLonger};
ghost use Rattle.sm_cc.specs.Views.{ClassesValue};
ghost use Rattle.sm_judge.specs.AllForms.{AreAllForms};
ghost use Rattle.sm_certify.specs.Bases.{IsFrom};
ghost use Rattle.sm_list.specs.Branches.{with_parts};
ghost use Rattle.sm_certify.specs.Given.{given_from, classes_by, branch_of};
ghost use Rattle.sm_terms.specs.Listing.{numbers_of};
ghost use Rattle.sm_list.specs.Parts.{all_numbered, assertions_in, AreFormulasWithin};
ghost use Rattle.sm_solve.specs.declared.reach.Reach.{Reach};
ghost use Rattle.sm_solve.specs.Inconsistent.{IsInconsistent, IsBelow};
ghost use Rattle.sm_judge.specs.Forms.{Walked, Closes, by_forms};
ghost use Rattle.sm_solve.specs.Walk.{walk_from, by_classes};
ghost use Rattle.sm_solve.specs.Walking.{ClosesIn};

use crate::inconsistent::{Inconsistent, InconsistentBy};
use crate::reach::Reach;
use crate::same_forms::are_forms;
use sm_cc::NumberedBase;
use sm_cert::CertTree;
use sm_certify::{Base, all_terms, contraries, is_refuted_by};
use sm_list::renumbered_tree;
use sm_num::LinForm;
use sm_term::{Formula, TermTable};
use std::alloc::{AllocError, Global};

/// A branch of facts that has another one at a place and more behind: the table of its terms, their
/// linear forms, the facts, and that place.
#[derive(Clone, Copy)]
pub(crate) struct GoalBranch<'a> {
    pub(crate) table: &'a TermTable,
    pub(crate) forms: &'a [LinForm],
    pub(crate) facts: &'a [Formula],
    pub(crate) place: usize,
}

/// The certificate of facts that can't hold together, where it is told of others, too, which have
/// another one at a place and more behind: then the visit of their branch closes it.
pub(crate) fn inconsistent_tree(
    alloc: Global,
    inconsistent: &Inconsistent,
    base: &mut Base,
    branch: &GoalBranch<'_>,
    reach: Reach,
) -> Result<Option<CertTree>, AllocError>
    requires forms { AreAllForms (trees_in branch.now.table.now) branch.now.forms.now }
    requires within { let count = length (trees_in branch.now.table.now) in
        AreFormulasWithin count (all_numbered branch.now.facts.now) }
    requires sorted { let table = branch.now.table.now in AreFormsSorted (sorts_in table)
        (assertions_in (sorts_in table) (trees_in table) (all_numbered branch.now.facts.now)) }
    requires place { branch.now.place < inconsistent.now.facts }
    requires many { inconsistent.now.facts ≤ length branch.now.facts.now }
    requires led { let table = branch.now.table.now in let facts = branch.now.facts.now in
        let front = take inconsistent.now.facts facts in
        (v : ClassesValue) × IsFrom v base.old
        × (v.given ≡ given_from 0 (slice_set front branch.now.place tree.Yes))
        × ((ids : List TermId) → numbers_of ids ≡ range_with_len 0 (length (trees_in table)) →
        IsLedBy v (classes_by table ids facts)) }
    ensures tells { let table = branch.now.table.now in
        let sorts = sorts_in table in let trees = trees_in table in
        let all = assertions_in sorts trees (all_numbered branch.now.facts.now) in
        (first : List Tree) (given : List Assertion) → IsInconsistent sorts first given inconsistent.now →
        IsBelow first trees (with_parts given) all → IfOk result (λ o. IfSome o (λ t.
        (n : ℕ) × (walk_from sorts trees reach 1001 0 all ≡ Closes n))) }
    ensures shows { let table = branch.now.table.now in
        let sorts = sorts_in table in let trees = trees_in table in
        (first : List Tree) (given : List Assertion) (f : Assertion) →
        IsInconsistent sorts first (given ++ Yes ∷ []) inconsistent.now → IsLonger first trees →
        IfOk result (λ o. IfSome o (ClosesIn sorts trees (given ++ f ∷ []) 1001)) }
    ensures stays { (v : ClassesValue) → IsFrom v base.old → IsFrom v base.new }
{
    if inconsistent.steps != reach.steps {
        return Ok(None);
    }
    if !is_still_inconsistent(alloc, inconsistent, base, branch)? {
        return Ok(None);
    }
    let tree = renumbered_tree(alloc, &inconsistent.tree, &inconsistent.terms.list)?;
    Ok(Some(tree))
}

// Whether it is told that the visit of the branch of facts closes it.
fn is_still_inconsistent(
    alloc: Global,
    inconsistent: &Inconsistent,
    base: &mut Base,
    branch: &GoalBranch<'_>,
) -> Result<bool, AllocError>
    requires forms { AreAllForms (trees_in branch.now.table.now) branch.now.forms.now }
    requires within { let count = length (trees_in branch.now.table.now) in
        AreFormulasWithin count (all_numbered branch.now.facts.now) }
    requires sorted { let table = branch.now.table.now in AreFormsSorted (sorts_in table)
        (assertions_in (sorts_in table) (trees_in table) (all_numbered branch.now.facts.now)) }
    requires place { branch.now.place < inconsistent.now.facts }
    requires many { inconsistent.now.facts ≤ length branch.now.facts.now }
    requires led { let table = branch.now.table.now in let facts = branch.now.facts.now in
        let front = take inconsistent.now.facts facts in
        (v : ClassesValue) × IsFrom v base.old
        × (v.given ≡ given_from 0 (slice_set front branch.now.place tree.Yes))
        × ((ids : List TermId) → numbers_of ids ≡ range_with_len 0 (length (trees_in table)) →
        IsLedBy v (classes_by table ids facts)) }
    ensures closes { let table = branch.now.table.now in
        let sorts = sorts_in table in let trees = trees_in table in
        let all = assertions_in sorts trees (all_numbered branch.now.facts.now) in
        (first : List Tree) (given : List Assertion) (reach : Reach)
        (go : ℕ → List Assertion → Walked) → reach.steps ≡ inconsistent.now.steps →
        IsInconsistent sorts first given inconsistent.now → IsBelow first trees (with_parts given) all →
        IfOk result (λ b. b ≡ true → (n : ℕ) ×
        (by_classes go reach (branch_of table branch.now.facts.now) 1 ≡ Closes n)) }
    ensures stays { (v : ClassesValue) → IsFrom v base.old → IsFrom v base.new }
{
    match &inconsistent.by {
        InconsistentBy::Classes => Ok(true),
        InconsistentBy::Forms {
            count: _count,
            forms: known,
        } => {
            let from = inconsistent.facts;
            is_inconsistent_by_forms(alloc, base, branch, from, known)
        }
    }
}

// Whether forms of the facts that come to a contradiction close it.
fn is_inconsistent_by_forms(
    alloc: Global,
    base: &mut Base,
    branch: &GoalBranch<'_>,
    from: usize,
    known: &[LinForm],
) -> Result<bool, AllocError>
    requires forms { AreAllForms (trees_in branch.now.table.now) branch.now.forms.now }
    requires within { let count = length (trees_in branch.now.table.now) in
        AreFormulasWithin count (all_numbered branch.now.facts.now) }
    requires sorted { let table = branch.now.table.now in AreFormsSorted (sorts_in table)
        (assertions_in (sorts_in table) (trees_in table) (all_numbered branch.now.facts.now)) }
    requires place { branch.now.place < from }
    requires many { from ≤ length branch.now.facts.now }
    requires led { let table = branch.now.table.now in let facts = branch.now.facts.now in
        (v : ClassesValue) × IsFrom v base.old
        × (v.given ≡ given_from 0 (slice_set (take from facts) branch.now.place tree.Yes))
        × ((ids : List TermId) → numbers_of ids ≡ range_with_len 0 (length (trees_in table)) →
        IsLedBy v (classes_by table ids facts)) }
    ensures closes { let table = branch.now.table.now in
        (reach : Reach) (count : ℕ) (go : ℕ → List Assertion → Walked) →
        ((next : ℕ → Walked) →
        by_forms reach.steps 1 (length (trees_in table)) (Fits known.now) next ≡ Closes count) →
        IfOk result (λ b. b ≡ true → (n : ℕ) ×
        (by_classes go reach (branch_of table branch.now.facts.now) 1 ≡ Closes n)) }
    ensures stays { (v : ClassesValue) → IsFrom v base.old → IsFrom v base.new }
{
    match base {
        Base::Nothing => Ok(false),
        Base::Over(g) => is_inconsistent_over(alloc, g, branch, from, known),
    }
}

// Whether what one look tells of the terms behind those of the facts closes it.
fn is_inconsistent_over(
    alloc: Global,
    grounded: &mut NumberedBase,
    branch: &GoalBranch<'_>,
    from: usize,
    known: &[LinForm],
) -> Result<bool, AllocError>
    requires forms { AreAllForms (trees_in branch.now.table.now) branch.now.forms.now }
    requires within { let count = length (trees_in branch.now.table.now) in
        AreFormulasWithin count (all_numbered branch.now.facts.now) }
    requires sorted { let table = branch.now.table.now in AreFormsSorted (sorts_in table)
        (assertions_in (sorts_in table) (trees_in table) (all_numbered branch.now.facts.now)) }
    requires place { branch.now.place < from }
    requires many { from ≤ length branch.now.facts.now }
    requires led { let table = branch.now.table.now in let facts = branch.now.facts.now in
        (v : ClassesValue) × AreBaseClasses v grounded.old.ground grounded.old.numbering
        × (v.given ≡ given_from 0 (slice_set (take from facts) branch.now.place tree.Yes))
        × ((ids : List TermId) → numbers_of ids ≡ range_with_len 0 (length (trees_in table)) →
        IsLedBy v (classes_by table ids facts)) }
    ensures closes { let table = branch.now.table.now in
        (reach : Reach) (count : ℕ) (go : ℕ → List Assertion → Walked) →
        ((next : ℕ → Walked) →
        by_forms reach.steps 1 (length (trees_in table)) (Fits known.now) next ≡ Closes count) →
        IfOk result (λ b. b ≡ true → (n : ℕ) ×
        (by_classes go reach (branch_of table branch.now.facts.now) 1 ≡ Closes n)) }
    ensures stays { (v : ClassesValue) → AreBaseClasses v grounded.old.ground grounded.old.numbering →
        AreBaseClasses v grounded.new.ground grounded.new.numbering }
{
    let apart = match contraries(alloc, branch.facts, branch.place, from)? {
        Some(pairs) => pairs,
        None => return Ok(false),
    };
    let terms = all_terms(alloc, branch.table)?;
    let behind = grounded.ground.behind(
        alloc,
        &mut grounded.numbering,
        branch.table,
        branch.forms,
        &terms,
        &apart,
    )?;
    if is_refuted_by(&behind.labels, branch.facts) {
        return Ok(true);
    }
    if !behind.is_exact {
        return Ok(false);
    }
    are_forms(
        alloc,
        &behind.labels,
        branch.table,
        branch.forms,
        branch.facts,
        known,
    )
}
