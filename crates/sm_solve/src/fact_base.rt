// The goals of a node, which share the terms and the classes of its facts.
ghost use Rattle.std.specs.Prelude.{◌≡◌, true, false, List, length, IfOk, OnErr, IfSome, IfNone};
ghost use Rattle.sm_syntax.specs.text.Sorts.{Sorts};
ghost use Rattle.sm_term.specs.Assertions.{Assertion};
ghost use Rattle.sm_term.specs.Formulas.{numbered, assertion_in, IsFormulaWithin};
ghost use Rattle.sm_term.specs.Sorted.{IsFormSorted, AreFormsSorted};
ghost use Rattle.sm_term.specs.Tables.{TableValue, trees_in, sorts_in};
ghost use Rattle.sm_term.specs.Terms.{Tree};
ghost use Rattle.sm_term.specs.TableLaws.{AddsTerms};
ghost use Rattle.sm_solve.specs.Answers.{Tells, Certifies, terms_walked, NamesOnly};
ghost use Rattle.sm_list.specs.Branches.{depth_of};
ghost use Rattle.sm_list.specs.Parts.{all_numbered, assertions_in, AreFormulasWithin};
ghost use Rattle.sm_solve.specs.Sharing.{IsFactBase};
ghost use Rattle.sm_solve.specs.Walk.{walk};

use crate::goal_end::renumbered_goal_end;
use crate::grounding::{facts_base, with_room};
use crate::inconsistent::{Inconsistent, inconsistent_of};
use crate::reach::Reach;
use crate::solving::Answer;
use sm_certify::{Base, count_named};
use sm_list::{SharedTerms, numbered_terms, shared_facts};
use sm_num::LinForm;
use sm_term::{Formula, TermTable, negate};
use std::alloc::{AllocError, Global};

/// Facts whose terms and classes are found once for all goals.
#[derive(Drop)]
pub struct FactBase {
    pub(crate) terms: SharedTerms,
    // the linear forms of the terms in the table of their own
    pub(crate) forms: Vec<LinForm>,
    // the facts with all parts of their conjunctions; where the contrary of a goal goes stands what
    // always holds
    pub(crate) facts: Vec<Formula>,
    pub(crate) place: usize,
    // the classes of the facts
    pub(crate) base: Base,
    // where the facts can't hold together
    pub(crate) inconsistent: Option<Inconsistent>,
}

impl FactBase {
    /// The facts of a node; none where an element that they read was written before, and what it
    /// was then isn't among their terms. Whether they can't hold together is looked for within so
    /// many steps. Without a node, and after want of memory, the table is as it was.
    pub fn of(
        alloc: Global,
        table: &mut TermTable,
        facts: &[Formula],
        steps: u64,
    ) -> Result<Option<FactBase>, AllocError>
        requires within { AreFormulasWithin (length (trees_in table.old)) (all_numbered facts.now) }
        requires sorted { AreFormsSorted (sorts_in table.old)
            (assertions_in (sorts_in table.old) (trees_in table.old) (all_numbered facts.now)) }
        ensures node { let given = assertions_in (sorts_in table.old) (trees_in table.old)
            (all_numbered facts.now) in
            IfOk result (λ o. IfSome o (IsFactBase table.new given)) }
        ensures grows { AddsTerms table.old table.new }
        ensures none { IfOk result (λ o. IfNone o (trees_in table.new ≡ trees_in table.old)) }
        ensures err { OnErr result (trees_in table.new ≡ trees_in table.old) }
    {
        let len = table.len();
        match FactBase::made(alloc, table, facts, steps) {
            Ok(Some(node)) => Ok(Some(node)),
            Ok(None) => {
                table.cut(len);
                Ok(None)
            }
            Err(e) => {
                table.cut(len);
                Err(e)
            }
        }
    }

    // The node of facts. The terms that were made stay in the table.
    fn made(
        alloc: Global,
        table: &mut TermTable,
        facts: &[Formula],
        steps: u64,
    ) -> Result<Option<FactBase>, AllocError>
        requires within { AreFormulasWithin (length (trees_in table.old)) (all_numbered facts.now) }
        requires sorted { AreFormsSorted (sorts_in table.old)
            (assertions_in (sorts_in table.old) (trees_in table.old) (all_numbered facts.now)) }
        ensures node { let given = assertions_in (sorts_in table.old) (trees_in table.old)
            (all_numbered facts.now) in
            IfOk result (λ o. IfSome o (IsFactBase table.new given)) }
        ensures grows { AddsTerms table.old table.new }
    {
        match FactBase::grounded(alloc, table, facts)? {
            Some(node) => {
                let whole = with_inconsistent(alloc, node, steps)?;
                Ok(Some(whole))
            }
            None => Ok(None),
        }
    }

    // The node of facts, without a look at whether they can't hold together.
    fn grounded(
        alloc: Global,
        table: &mut TermTable,
        facts: &[Formula],
    ) -> Result<Option<FactBase>, AllocError>
        requires within { AreFormulasWithin (length (trees_in table.old)) (all_numbered facts.now) }
        requires sorted { AreFormsSorted (sorts_in table.old)
            (assertions_in (sorts_in table.old) (trees_in table.old) (all_numbered facts.now)) }
        ensures node { let given = assertions_in (sorts_in table.old) (trees_in table.old)
            (all_numbered facts.now) in
            IfOk result (λ o. IfSome o (IsFactBase table.new given)) }
        ensures grows { AddsTerms table.old table.new }
    {
        let all = with_room(alloc, facts)?;
        let count = count_named(alloc, table, &all)?;
        let shared = shared_facts(alloc, table, &all)?;
        match facts_base(alloc, &shared.terms.own, &shared.facts, count)? {
            Some((forms, base)) => Ok(Some(FactBase {
                terms: shared.terms,
                forms,
                facts: shared.facts,
                place: facts.len(),
                base,
                inconsistent: None,
            })),
            None => Ok(None),
        }
    }

    // The answer to the obligation of these facts and a target, as `solve` gives it; none where
    // the contrary of the target is a conjunction and one of the facts is one, too. New terms go
    // last in the table. After want of memory nothing is known of the node.
    pub(crate) fn solve(
        &mut self,
        alloc: Global,
        table: &mut TermTable,
        target: &Formula,
        reach: Reach,
    ) -> Result<Option<Answer>, AllocError>
        requires within { IsFormulaWithin (length (trees_in table.old)) (numbered target.now) }
        requires sorted { IsFormSorted (sorts_in table.old)
            (assertion_in (sorts_in table.old) (trees_in table.old) (numbered target.now)) }
        requires node { (given : List Assertion) × IsFactBase table.old given self.old }
        ensures answer { let sorts = sorts_in table.old in
            let goal = assertion_in sorts (trees_in table.old) (numbered target.now) in
            (given : List Assertion) → IsFactBase table.old given self.old →
            IfOk result (λ o. IfSome o (λ a.
            Tells sorts (trees_in table.new) a (walk sorts reach given goal))) }
        ensures certifies { let sorts = sorts_in table.old in
            let goal = assertion_in sorts (trees_in table.old) (numbered target.now) in
            (given : List Assertion) → IsFactBase table.old given self.old →
            IfOk result (λ o. IfSome o (λ a.
            Certifies sorts (trees_in table.new) given goal a)) }
        ensures names { let sorts = sorts_in table.old in
            let goal = assertion_in sorts (trees_in table.old) (numbered target.now) in
            (given : List Assertion) → IsFactBase table.old given self.old →
            IfOk result (λ o. IfSome o
            (NamesOnly (terms_walked given goal) (trees_in table.new))) }
        ensures stays { (given : List Assertion) → IsFactBase table.old given self.old →
            IfOk result (λ o. IsFactBase table.new given self.new) }
        ensures grows { AddsTerms table.old table.new }
    {
        let contrary = negate(alloc, target)?;
        if !self.has_room(&contrary) {
            return Ok(None);
        }
        let count = self.facts.len();
        let len = self.terms.own.len();
        self.open_goal(alloc, table, &contrary)?;
        let end = self.end_of_goal(alloc, reach)?;
        let numbers = numbered_terms(alloc, self.terms.listed.as_slice())?;
        let answer = renumbered_goal_end(alloc, end, &numbers)?;
        self.close_goal(count, len);
        Ok(Some(answer))
    }

    // A node over a table that has got more terms.
    pub(crate) fn stays(&self, table: &TermTable)
        ensures { (old : TableValue) (given : List Assertion) → IsFactBase old given self.now →
            AddsTerms old table.now → IsFactBase table.now given self.now }
    {
        // No term is there twice.
        table.len();
    }
}

// The node with whether its facts can't hold together, as the visit of their branch finds within so
// many steps.
fn with_inconsistent(alloc: Global, node: FactBase, steps: u64) -> Result<FactBase, AllocError>
    requires { (table : TableValue) × (given : List Assertion) × IsFactBase table given node }
    ensures { (table : TableValue) (given : List Assertion) → IsFactBase table given node →
        IfOk result (IsFactBase table given) }
{
    let mut node = node;
    let inconsistent = inconsistent_of(
        alloc,
        &mut node.base,
        &node.terms.own,
        &node.forms,
        &node.facts,
        steps,
    )?;
    node.inconsistent = inconsistent;
    Ok(node)
}

/// Whether a formula is a conjunction.
pub(crate) fn is_conjunction(f: &Formula) -> bool
    ensures { result ≡ false → (sorts : Sorts) (trees : List Tree) →
        depth_of (assertion_in sorts trees (numbered f.now)) ≡ 0 }
{
    match f {
        Formula::And(_, _) => true,
        Formula::Yes | Formula::No | Formula::Or(_, _) => false,
        Formula::Eq(_, _) | Formula::Ne(_, _) => false,
        Formula::Le(_, _) | Formula::Lt(_, _) => false,
    }
}
