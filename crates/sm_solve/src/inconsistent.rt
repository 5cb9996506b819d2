// Facts of a node that can't hold together, as the visit of their branch finds: so each goal closes.
ghost use Rattle.std.specs.Prelude.{◌≡◌, ◌<◌, ◌≤◌, ◌^◌, ℕ, List, length, IfOk, IfSome};
ghost use Rattle.std.specs.List.{range_with_len};
ghost use Rattle.sm_syntax.specs.text.Sorts.{Sorts};
ghost use Rattle.sm_term.specs.Assertions.{Assertion};
ghost use Rattle.sm_term.specs.declared.formula.Formula.TheVariants as tree;
ghost use Rattle.sm_term.specs.declared.term.TermId.{TermId};
ghost use Rattle.sm_term.specs.Sorted.{AreFormsSorted};
ghost use Rattle.sm_term.specs.Tables.{trees_in, sorts_in};
ghost use Rattle.sm_term.specs.Terms.{Tree};
ghost use Rattle.sm_cc.specs.Classes.{are_apart};
ghost use Rattle.sm_cc.specs.BaseClasses.{IsLedBy};
ghost use Rattle.sm_cc.specs.Rounds.{are_equal};
ghost use Rattle.sm_cc.specs.Views.{ClassesValue, setting_of};
ghost use Rattle.sm_judge.specs.AllForms.{AreAllForms};
ghost use Rattle.sm_certify.specs.Bases.{IsFrom};
ghost use Rattle.sm_list.specs.Branches.{with_parts};
ghost use Rattle.sm_certify.specs.Given.{IsWhole, classes_by, branch_of};
ghost use Rattle.sm_terms.specs.Listing.{numbers_of};
ghost use Rattle.sm_list.specs.Parts.{all_numbered, assertions_in, AreFormulasWithin};
ghost use Rattle.sm_judge.specs.Labelled.{AreLabels};
ghost use Rattle.sm_judge.specs.Seeing.{seen_in};
ghost use Rattle.sm_cert.specs.MovedTrees.{NamesWhatItReads};
ghost use Rattle.sm_cert.specs.Views.{certificate_in};
ghost use Rattle.sm_solve.specs.declared.reach.Reach.{Reach};
ghost use Rattle.sm_solve.specs.Naming.{AreNamed};
ghost use Rattle.sm_solve.specs.Inconsistent.{IsInconsistent, IsInconsistentBy};
ghost use Rattle.sm_judge.specs.Forms.{Walked, Closes, forms_of, by_forms};
ghost use Rattle.sm_solve.specs.Walking.{ClosesIn, ShowsVisit, ShowsEnd};

use crate::context::WalkContext;
use crate::ending::{WalkEnd, led_end};
use crate::reach::Reach;
use crate::reading::names_what_it_reads;
use crate::visiting::{Visit, are_few, visit_classes};
use sm_cc::Classes;
use sm_cert::CertTree;
use sm_certify::{Base, all_terms};
use sm_judge::{ByForms, Progress, by_forms, closed_by, forms_of};
use sm_num::{LinForm, NumError};
use sm_pairs::Sees;
use sm_term::{Formula, TermTable, Terms};
use std::alloc::{AllocError, Global};

/// By what facts can't hold together.
#[derive(Drop)]
pub(crate) enum InconsistentBy {
    // by the classes of their terms
    Classes,
    // by these forms, after so many steps
    Forms { count: u64, forms: Vec<LinForm> },
}

/// Facts can't hold together, as the visit of their branch finds within so many steps.
#[derive(Drop)]
pub(crate) struct Inconsistent {
    pub(crate) steps: u64,
    pub(crate) by: InconsistentBy,
    // how many facts the branch has
    pub(crate) facts: usize,
    // the terms of the branch, by their numbers
    pub(crate) terms: Terms,
    // closes the branch of the facts that are given, without the parts of conjunctions
    pub(crate) tree: CertTree,
}

/// Whether the facts can't hold together, as the visit of their branch finds; they are given with all
/// parts of their conjunctions, and their terms are those of the table.
pub(crate) fn inconsistent_of(
    alloc: Global,
    base: &mut Base,
    table: &TermTable,
    forms: &[LinForm],
    facts: &[Formula],
    steps: u64,
) -> Result<Option<Inconsistent>, AllocError>
    requires forms { AreAllForms (trees_in table.now) forms.now }
    requires within { AreFormulasWithin (length (trees_in table.now)) (all_numbered facts.now) }
    requires sorted { AreFormsSorted (sorts_in table.now)
        (assertions_in (sorts_in table.now) (trees_in table.now) (all_numbered facts.now)) }
    requires led { (v : ClassesValue) × IsFrom v base.old
        × ((ids : List TermId) →
        numbers_of ids ≡ range_with_len 0 (length (trees_in table.now)) →
        IsLedBy v (classes_by table.now ids facts.now)) }
    requires named { let sorts = sorts_in table.now in let trees = trees_in table.now in
        AreNamed trees (assertions_in sorts trees (all_numbered facts.now)) }
    ensures inconsistent { let sorts = sorts_in table.now in let trees = trees_in table.now in
        (given : List Assertion) →
        assertions_in sorts trees (all_numbered facts.now) ≡ with_parts given →
        IfOk result (λ o. IfSome o (IsInconsistent sorts trees given)) }
    ensures stays { (v : ClassesValue) → IsFrom v base.old → IsFrom v base.new }
{
    if steps == 0 || !are_few(facts) {
        return Ok(None);
    }
    let terms = all_terms(alloc, table)?;
    match found(alloc, base, table, forms, &terms, facts, steps)? {
        Some((by, tree)) => Ok(Some(Inconsistent {
            steps,
            by,
            facts: facts.len(),
            terms,
            tree,
        })),
        None => Ok(None),
    }
}

// By what they can't, with a certificate.
fn found(
    alloc: Global,
    base: &mut Base,
    table: &TermTable,
    forms: &[LinForm],
    terms: &Terms,
    facts: &[Formula],
    steps: u64,
) -> Result<Option<(InconsistentBy, CertTree)>, AllocError>
    requires forms { AreAllForms (trees_in table.now) forms.now }
    requires whole { IsWhole (trees_in table.now) terms.now.list.items }
    requires within { AreFormulasWithin (length (trees_in table.now)) (all_numbered facts.now) }
    requires sorted { AreFormsSorted (sorts_in table.now)
        (assertions_in (sorts_in table.now) (trees_in table.now) (all_numbered facts.now)) }
    requires counted { 1 ≤ steps }
    requires few { length facts.now < 2 ^ 62 }
    requires led { (v : ClassesValue) × IsFrom v base.old
        × IsLedBy v (classes_by table.now terms.now.list.items facts.now) }
    requires named { let sorts = sorts_in table.now in let trees = trees_in table.now in
        AreNamed trees (assertions_in sorts trees (all_numbered facts.now)) }
    ensures by { IfOk result (λ o. IfSome o (λ p.
        IsInconsistentBy steps (branch_of table.now facts.now) p.0)) }
    ensures closes { let sorts = sorts_in table.now in let trees = trees_in table.now in
        (given : List Assertion) →
        assertions_in sorts trees (all_numbered facts.now) ≡ with_parts given →
        IfOk result (λ o. IfSome o (λ p. ClosesIn sorts trees given 1 p.1)) }
    ensures named { let trees = trees_in table.now in
        IfOk result (λ o. IfSome o (λ p. NamesWhatItReads (certificate_in trees p.1))) }
    ensures stays { (v : ClassesValue) → IsFrom v base.old → IsFrom v base.new }
{
    let classes = base.classes(alloc, table, forms, terms, facts)?;
    match why_inconsistent(alloc, &classes, table, forms, facts, steps)? {
        Some(by) => {
            let reach = Reach {
                steps,
                exact: false,
            };
            let cx = WalkContext {
                table,
                forms,
                terms,
                reach,
            };
            let visit = visit_classes(alloc, &classes, &cx, facts, 1)?;
            match visited_tree(alloc, facts, visit)? {
                Some(tree) => {
                    if names_what_it_reads(&tree) {
                        Ok(Some((by, tree)))
                    } else {
                        Ok(None)
                    }
                }
                None => Ok(None),
            }
        }
        None => Ok(None),
    }
}

// By what facts with these classes can't hold together.
fn why_inconsistent<'a>(
    alloc: Global,
    classes: &Classes<'a>,
    table: &TermTable,
    forms: &[LinForm],
    facts: &[Formula],
    steps: u64,
) -> Result<Option<InconsistentBy>, AllocError>
    requires forms { AreAllForms (trees_in table.now) forms.now }
    requires classes { (ids : List TermId) × IsWhole (trees_in table.now) ids
        × (classes.now ≡ classes_by table.now ids facts.now) }
    requires seen { seen_in (sorts_in table.now) (trees_in table.now) (trees_in table.now) facts.now
        (are_equal (setting_of classes.now))
        (are_apart (setting_of classes.now) (are_equal (setting_of classes.now)))
        ≡ branch_of table.now facts.now }
    requires within { AreFormulasWithin (length (trees_in table.now)) (all_numbered facts.now) }
    requires counted { 1 ≤ steps }
    ensures { IfOk result (λ o. IfSome o (IsInconsistentBy steps (branch_of table.now facts.now))) }
{
    let labels = classes.labels(alloc)?;
    if closed_by(alloc, classes, &labels, table, forms, facts)?.is_some() {
        return Ok(Some(InconsistentBy::Classes));
    }
    let so_far = Progress { count: 1, steps };
    match by_forms(alloc, classes, &labels, table, forms, facts, so_far)? {
        ByForms::Contradiction {
            count,
            refutation: _refutation,
        } => after_sums(alloc, classes, &labels, table, forms, facts, count),
        ByForms::GoesOn { count: _count } => Ok(None),
        ByForms::Steps => Ok(None),
        ByForms::Coefficient { .. } => Ok(None),
    }
}

// By the forms of a branch, which come to a contradiction after so many steps.
fn after_sums<S: Sees>(
    alloc: Global,
    sees: &S,
    labels: &[u64],
    table: &TermTable,
    forms: &[LinForm],
    facts: &[Formula],
    count: u64,
) -> Result<Option<InconsistentBy>, AllocError>
    requires table { S.trees sees.now ≡ trees_in table.now }
    requires labels { AreLabels (trees_in table.now) (S.equal sees.now) labels.now }
    requires forms { AreAllForms (trees_in table.now) forms.now }
    requires facts { AreFormulasWithin (length (trees_in table.now)) (all_numbered facts.now) }
    ensures { let trees = trees_in table.now in
        let b = seen_in (sorts_in table.now) trees trees facts.now
        (S.equal sees.now) (S.apart sees.now) in (steps : ℕ) →
        ((next : ℕ → Walked) → by_forms steps 1 (length trees) (forms_of b) next ≡ Closes count) →
        IfOk result (λ o. IfSome o (IsInconsistentBy steps b)) }
{
    match forms_of(alloc, sees, labels, table, forms, facts) {
        Ok(made) => Ok(Some(InconsistentBy::Forms {
            count,
            forms: made.forms.list,
        })),
        Err(NumError::Memory) => Err(AllocError),
        Err(NumError::Beyond { .. }) => Ok(None),
    }
}

// The certificate of a branch that its visit closes, without the parts of conjunctions.
fn visited_tree(
    alloc: Global,
    facts: &[Formula],
    visit: Visit,
) -> Result<Option<CertTree>, AllocError>
    ensures { (sorts : Sorts) (trees : List Tree) (given : List Assertion) →
        assertions_in sorts trees (all_numbered facts.now) ≡ with_parts given →
        ShowsVisit sorts trees (with_parts given) visit →
        IfOk result (λ o. IfSome o (ClosesIn sorts trees given 1)) }
{
    match visit {
        Visit::Closed { count, tree } => {
            let end = led_end(alloc, facts, 0, WalkEnd::Closed { count, tree })?;
            Ok(tree_of(end))
        }
        Visit::Open => Ok(None),
        Visit::Split { .. } => Ok(None),
        Visit::Steps => Ok(None),
        Visit::Coefficient { .. } => Ok(None),
    }
}

// The certificate of a walk that closes each branch.
fn tree_of(end: WalkEnd) -> Option<CertTree>
    ensures { (sorts : Sorts) (trees : List Tree) (facts : List Assertion) (room : ℕ) →
        ShowsEnd sorts trees facts room end → IfSome result (ClosesIn sorts trees facts room) }
{
    match end {
        WalkEnd::Closed {
            count: _count,
            tree,
        } => Some(tree),
        WalkEnd::Open { .. } => None,
        WalkEnd::Steps => None,
        WalkEnd::Coefficient { .. } => None,
    }
}
