// The walk of one goal of a node, and what it ends with.
ghost use Rattle.std.specs.Prelude.{◌≡◌, ℕ, true, List, [], ◌∷◌, ◌++◌, length, IfOk, OnOk, IfSome};
ghost use Rattle.sm_syntax.specs.text.Sorts.{Sorts};
ghost use Rattle.sm_term.specs.Assertions.{Assertion};
ghost use Rattle.sm_term.specs.Formulas.{numbered, assertion_in, IsFormulaWithin};
ghost use Rattle.sm_term.specs.Sorted.{IsFormSorted};
ghost use Rattle.sm_term.specs.Tables.{TableValue, trees_in, sorts_in};
ghost use Rattle.sm_term.specs.Terms.{Tree};
ghost use Rattle.sm_term.specs.TableLaws.{AddsTerms};
ghost use Rattle.sm_solve.specs.AtGoal.{IsAtGoal, HasRoom};
ghost use Rattle.sm_theory.specs.TermsOfFormulas.{with_formulas};
ghost use Rattle.sm_list.specs.Branches.{with_parts, terms_of};
ghost use Rattle.sm_solve.specs.Sharing.{IsFactBase, room_for_goal};
ghost use Rattle.sm_solve.specs.GoalEnds.{TellsGoal, ShowsGoal};
ghost use Rattle.sm_judge.specs.Forms.{Closes};
ghost use Rattle.sm_solve.specs.Walk.{walk, walk_from};
ghost use Rattle.sm_solve.specs.Walking.{ClosesIn, TellsEnd, ShowsEnd};

use crate::ending::WalkEnd;
use crate::fact_base::{FactBase, is_conjunction};
use crate::first::walk_over;
use crate::goal_end::GoalEnd;
use crate::reach::Reach;
use crate::still_inconsistent::{GoalBranch, inconsistent_tree};
use sm_cert::CertTree;
use sm_judge::add_linear_forms;
use sm_list::add_parts;
use sm_term::{Formula, TermTable};
use std::alloc::{AllocError, Global};

impl FactBase {
    /// Whether the contrary of a goal can stand in its place with no fact at another: it has no
    /// parts, or none of a fact stand behind that place.
    pub(crate) fn has_room(&self, contrary: &Formula) -> bool
        requires { (table : TableValue) × (given : List Assertion) × IsFactBase table given self.now }
        ensures { result ≡ true → (sorts : Sorts) (trees : List Tree) →
            HasRoom self.now (assertion_in sorts trees (numbered contrary.now)) }
    {
        !is_conjunction(contrary) || self.place + 1 == self.facts.len()
    }

    /// Puts the contrary of a goal in its place with its parts behind the facts, and its terms behind
    /// those of the facts.
    pub(crate) fn open_goal(
        &mut self,
        alloc: Global,
        table: &mut TermTable,
        contrary: &Formula,
    ) -> Result<(), AllocError>
        requires within { IsFormulaWithin (length (trees_in table.old)) (numbered contrary.now) }
        requires sorted { IsFormSorted (sorts_in table.old)
            (assertion_in (sorts_in table.old) (trees_in table.old) (numbered contrary.now)) }
        requires room { HasRoom self.old
            (assertion_in (sorts_in table.old) (trees_in table.old) (numbered contrary.now)) }
        requires node { (given : List Assertion) × IsFactBase table.old given self.old }
        ensures goal { let form = assertion_in (sorts_in table.old) (trees_in table.old)
            (numbered contrary.now) in
            (given : List Assertion) → IsFactBase table.old given self.old →
            OnOk result (IsAtGoal table.new given form self.new) }
        ensures grows { AddsTerms table.old table.new }
    {
        let fact = self.terms.add(alloc, table, contrary)?;
        add_linear_forms(alloc, &self.terms.own, &mut self.forms)?;
        self.facts[self.place] = fact;
        if self.place + 1 == self.facts.len() {
            add_parts(alloc, &mut self.facts, self.place)?;
        }
        Ok(())
    }

    /// How the walk of the facts and the contrary of a goal ends.
    pub(crate) fn end_of_goal(&mut self, alloc: Global, reach: Reach) -> Result<GoalEnd, AllocError>
        requires { (table : TableValue) × (given : List Assertion) × (contrary : Assertion)
            × IsAtGoal table given contrary self.old }
        ensures tells { (table : TableValue) (given : List Assertion) (contrary : Assertion) →
            IsAtGoal table given contrary self.old →
            let all = with_parts (given ++ contrary ∷ []) in
            IfOk result (λ e. TellsGoal (sorts_in table) (trees_in self.new.terms.own) e
            (walk_from (sorts_in table) (terms_of all) reach 1001 0 all)) }
        ensures shows { (table : TableValue) (given : List Assertion) (contrary : Assertion) →
            IsAtGoal table given contrary self.old →
            IfOk result (ShowsGoal (sorts_in table) (trees_in self.new.terms.own)
            (given ++ contrary ∷ []) 1001) }
        ensures stays { (table : TableValue) (given : List Assertion) (contrary : Assertion) →
            IsAtGoal table given contrary self.old →
            OnOk result (IsAtGoal table given contrary self.new) }
    {
        match self.inconsistent_goal(alloc, reach)? {
            Some(tree) => Ok(GoalEnd::Inconsistent(tree)),
            None => {
                let end = self.walk_goal(alloc, reach)?;
                Ok(GoalEnd::Walked(end))
            }
        }
    }

    // A certificate where the facts alone can't hold together, and that is told of them with the
    // contrary, too: then the walk closes.
    fn inconsistent_goal(
        &mut self,
        alloc: Global,
        reach: Reach,
    ) -> Result<Option<CertTree>, AllocError>
        requires { (table : TableValue) × (given : List Assertion) × (contrary : Assertion)
            × IsAtGoal table given contrary self.old }
        ensures tells { (table : TableValue) (given : List Assertion) (contrary : Assertion) →
            IsAtGoal table given contrary self.old →
            let all = with_parts (given ++ contrary ∷ []) in
            IfOk result (λ o. IfSome o (λ t. (n : ℕ)
            × (walk_from (sorts_in table) (terms_of all) reach 1001 0 all ≡ Closes n))) }
        ensures shows { (table : TableValue) (given : List Assertion) (contrary : Assertion) →
            IsAtGoal table given contrary self.old →
            IfOk result (λ o. IfSome o (ClosesIn (sorts_in table) (trees_in self.new.terms.own)
            (given ++ contrary ∷ []) 1001)) }
        ensures stays { (table : TableValue) (given : List Assertion) (contrary : Assertion) →
            IsAtGoal table given contrary self.old →
            OnOk result (IsAtGoal table given contrary self.new) }
    {
        match &self.inconsistent {
            Some(inconsistent) => {
                let branch = GoalBranch {
                    table: &self.terms.own,
                    forms: &self.forms,
                    facts: &self.facts,
                    place: self.place,
                };
                inconsistent_tree(alloc, inconsistent, &mut self.base, &branch, reach)
            }
            None => Ok(None),
        }
    }

    // The walk of the facts and the contrary of a goal.
    fn walk_goal(&mut self, alloc: Global, reach: Reach) -> Result<WalkEnd, AllocError>
        requires { (table : TableValue) × (given : List Assertion) × (contrary : Assertion)
            × IsAtGoal table given contrary self.old }
        ensures tells { (table : TableValue) (given : List Assertion) (contrary : Assertion) →
            IsAtGoal table given contrary self.old →
            let all = with_parts (given ++ contrary ∷ []) in
            IfOk result (λ e. TellsEnd (sorts_in table) (trees_in self.new.terms.own) e
            (walk_from (sorts_in table) (terms_of all) reach 1001 0 all)) }
        ensures shows { (table : TableValue) (given : List Assertion) (contrary : Assertion) →
            IsAtGoal table given contrary self.old →
            IfOk result (ShowsEnd (sorts_in table) (trees_in self.new.terms.own)
            (given ++ contrary ∷ []) 1001) }
        ensures stays { (table : TableValue) (given : List Assertion) (contrary : Assertion) →
            IsAtGoal table given contrary self.old →
            OnOk result (IsAtGoal table given contrary self.new) }
    {
        walk_over(
            alloc,
            &mut self.base,
            &self.terms.own,
            &self.forms,
            &mut self.facts,
            reach,
        )
    }

    /// Takes the contrary of a goal out of its place and its parts from behind the facts, and its
    /// terms from behind those of the facts.
    pub(crate) fn close_goal(&mut self, count: usize, len: u64)
        requires { (table : TableValue) × (given : List Assertion) × (contrary : Assertion)
            × IsAtGoal table given contrary self.old × (length (room_for_goal given) ≡ count)
            × (length (with_formulas (room_for_goal given) []) ≡ len) }
        ensures { (table : TableValue) (given : List Assertion) (contrary : Assertion) →
            IsAtGoal table given contrary self.old → length (room_for_goal given) ≡ count →
            length (with_formulas (room_for_goal given) []) ≡ len → IsFactBase table given self.new }
    {
        self.facts.truncate(count);
        self.facts[self.place] = Formula::Yes;
        self.terms.cut(len);
        self.forms.truncate(len as usize);
    }
}
