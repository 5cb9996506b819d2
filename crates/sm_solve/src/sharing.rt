// Obligations of one node.
ghost use Rattle.std.specs.Prelude.{◌≡◌, length, IfOk, IfSome, OnErr};
ghost use Rattle.sm_term.specs.Formulas.{numbered, assertion_in, IsFormulaWithin};
ghost use Rattle.sm_term.specs.Sorted.{IsFormSorted, AreFormsSorted};
ghost use Rattle.sm_term.specs.Tables.{trees_in, sorts_in};
ghost use Rattle.sm_term.specs.TableLaws.{AddsTerms};
ghost use Rattle.sm_solve.specs.Answers.{Tells, Certifies, terms_walked, NamesOnly};
ghost use Rattle.sm_list.specs.Parts.{all_numbered, assertions_in, AreFormulasWithin};
ghost use Rattle.sm_solve.specs.Sharing.{IsFactBase};
ghost use Rattle.sm_solve.specs.Walk.{walk};

use crate::fact_base::FactBase;
use crate::reach::Reach;
use crate::solving::{Answer, solve};
use sm_term::{Formula, TermTable};
use std::alloc::{AllocError, Global};

/// The answer to an obligation as `solve` gives it, by a node of its facts where there is one. After
/// want of memory the table is as it was, and nothing is known of the node.
pub fn solve_at(
    alloc: Global,
    table: &mut TermTable,
    node: &mut Option<FactBase>,
    facts: &[Formula],
    target: &Formula,
    reach: Reach,
) -> Result<Answer, AllocError>
    requires facts { AreFormulasWithin (length (trees_in table.old)) (all_numbered facts.now) }
    requires target { IsFormulaWithin (length (trees_in table.old)) (numbered target.now) }
    requires facts_sorted { AreFormsSorted (sorts_in table.old)
        (assertions_in (sorts_in table.old) (trees_in table.old) (all_numbered facts.now)) }
    requires target_sorted { IsFormSorted (sorts_in table.old)
        (assertion_in (sorts_in table.old) (trees_in table.old) (numbered target.now)) }
    requires node { let given = assertions_in (sorts_in table.old) (trees_in table.old)
        (all_numbered facts.now) in
        IfSome node.old (IsFactBase table.old given) }
    ensures answer { let sorts = sorts_in table.old in let trees = trees_in table.old in
        let given = assertions_in sorts trees (all_numbered facts.now) in
        let goal = assertion_in sorts trees (numbered target.now) in
        IfOk result (λ a. Tells sorts (trees_in table.new) a (walk sorts reach given goal)) }
    ensures certifies { let sorts = sorts_in table.old in let trees = trees_in table.old in
        let given = assertions_in sorts trees (all_numbered facts.now) in
        let goal = assertion_in sorts trees (numbered target.now) in
        IfOk result (λ a. Certifies sorts (trees_in table.new) given goal a) }
    ensures names { let sorts = sorts_in table.old in let trees = trees_in table.old in
        let given = assertions_in sorts trees (all_numbered facts.now) in
        let goal = assertion_in sorts trees (numbered target.now) in
        IfOk result (NamesOnly (terms_walked given goal) (trees_in table.new)) }
    ensures node { let given = assertions_in (sorts_in table.old) (trees_in table.old)
        (all_numbered facts.now) in
        IfOk result (λ a. IfSome node.new (IsFactBase table.new given)) }
    ensures grows { AddsTerms table.old table.new }
    ensures err { OnErr result (trees_in table.new ≡ trees_in table.old) }
{
    let len = table.len();
    match answered_at(alloc, table, node, facts, target, reach) {
        Ok(answer) => Ok(answer),
        Err(e) => {
            table.cut(len);
            Err(e)
        }
    }
}

// The answer at a node, if there is one. An error leaves the terms that were made.
fn answered_at(
    alloc: Global,
    table: &mut TermTable,
    node: &mut Option<FactBase>,
    facts: &[Formula],
    target: &Formula,
    reach: Reach,
) -> Result<Answer, AllocError>
    requires facts { AreFormulasWithin (length (trees_in table.old)) (all_numbered facts.now) }
    requires target { IsFormulaWithin (length (trees_in table.old)) (numbered target.now) }
    requires facts_sorted { AreFormsSorted (sorts_in table.old)
        (assertions_in (sorts_in table.old) (trees_in table.old) (all_numbered facts.now)) }
    requires target_sorted { IsFormSorted (sorts_in table.old)
        (assertion_in (sorts_in table.old) (trees_in table.old) (numbered target.now)) }
    requires node { let given = assertions_in (sorts_in table.old) (trees_in table.old)
        (all_numbered facts.now) in
        IfSome node.old (IsFactBase table.old given) }
    ensures answer { let sorts = sorts_in table.old in let trees = trees_in table.old in
        let given = assertions_in sorts trees (all_numbered facts.now) in
        let goal = assertion_in sorts trees (numbered target.now) in
        IfOk result (λ a. Tells sorts (trees_in table.new) a (walk sorts reach given goal)) }
    ensures certifies { let sorts = sorts_in table.old in let trees = trees_in table.old in
        let given = assertions_in sorts trees (all_numbered facts.now) in
        let goal = assertion_in sorts trees (numbered target.now) in
        IfOk result (λ a. Certifies sorts (trees_in table.new) given goal a) }
    ensures names { let sorts = sorts_in table.old in let trees = trees_in table.old in
        let given = assertions_in sorts trees (all_numbered facts.now) in
        let goal = assertion_in sorts trees (numbered target.now) in
        IfOk result (NamesOnly (terms_walked given goal) (trees_in table.new)) }
    ensures node { let given = assertions_in (sorts_in table.old) (trees_in table.old)
        (all_numbered facts.now) in
        IfOk result (λ a. IfSome node.new (IsFactBase table.new given)) }
    ensures grows { AddsTerms table.old table.new }
{
    match node {
        Some(n) => solve_shared(alloc, table, n, facts, target, reach),
        None => solve(alloc, table, facts, target, reach.steps, reach.exact),
    }
}

// The answer by a node.
fn solve_shared(
    alloc: Global,
    table: &mut TermTable,
    node: &mut FactBase,
    facts: &[Formula],
    target: &Formula,
    reach: Reach,
) -> Result<Answer, AllocError>
    requires facts { AreFormulasWithin (length (trees_in table.old)) (all_numbered facts.now) }
    requires target { IsFormulaWithin (length (trees_in table.old)) (numbered target.now) }
    requires facts_sorted { AreFormsSorted (sorts_in table.old)
        (assertions_in (sorts_in table.old) (trees_in table.old) (all_numbered facts.now)) }
    requires target_sorted { IsFormSorted (sorts_in table.old)
        (assertion_in (sorts_in table.old) (trees_in table.old) (numbered target.now)) }
    requires node { IsFactBase table.old (assertions_in (sorts_in table.old) (trees_in table.old)
        (all_numbered facts.now)) node.old }
    ensures answer { let sorts = sorts_in table.old in let trees = trees_in table.old in
        let given = assertions_in sorts trees (all_numbered facts.now) in
        let goal = assertion_in sorts trees (numbered target.now) in
        IfOk result (λ a. Tells sorts (trees_in table.new) a (walk sorts reach given goal)) }
    ensures certifies { let sorts = sorts_in table.old in let trees = trees_in table.old in
        let given = assertions_in sorts trees (all_numbered facts.now) in
        let goal = assertion_in sorts trees (numbered target.now) in
        IfOk result (λ a. Certifies sorts (trees_in table.new) given goal a) }
    ensures names { let sorts = sorts_in table.old in let trees = trees_in table.old in
        let given = assertions_in sorts trees (all_numbered facts.now) in
        let goal = assertion_in sorts trees (numbered target.now) in
        IfOk result (NamesOnly (terms_walked given goal) (trees_in table.new)) }
    ensures node { let given = assertions_in (sorts_in table.old) (trees_in table.old)
        (all_numbered facts.now) in
        IfOk result (λ a. IsFactBase table.new given node.new) }
    ensures grows { AddsTerms table.old table.new }
{
    match node.solve(alloc, table, target, reach)? {
        Some(answer) => Ok(answer),
        None => {
            let answer = solve(alloc, table, facts, target, reach.steps, reach.exact)?;
            node.stays(table);
            Ok(answer)
        }
    }
}
