// The parts of conjunctions, which stand behind them in the order of a queue.
ghost use Rattle.std.specs.Prelude.{◌≡◌, ◌<◌, ◌≤◌, ℕ, List, [], ◌∷◌, ◌++◌, length, take, drop, IfOk, OnOk};
ghost use Rattle.sm_syntax.specs.text.Sorts.{Sorts};
ghost use Rattle.sm_term.specs.Terms.{Tree};
ghost use Rattle.sm_term.specs.Formulas.{numbered, assertion_in, IsFormulaWithin};
ghost use Rattle.sm_pairs.specs.Longer.{IsLonger};
ghost use Rattle.sm_list.specs.Branches.{with_parts};
ghost use Rattle.sm_list.specs.Parts.{all_numbered, assertions_in, AreFormulasWithin, numbered_parts, pair_numbered, numbered_at};

use sm_term::{Formula, copy_formula};
use std::alloc::{AllocError, Global};

/// Puts a formula behind others, and behind it all parts of its conjunctions. After want of memory
/// only some may be there.
pub fn add_with_parts(alloc: Global, facts: &mut Vec<Formula>, f: Formula) -> Result<(), AllocError>
    ensures added { (sorts : Sorts) (trees : List Tree) →
        let before = assertions_in sorts trees (all_numbered facts.old.items) in
        let added = with_parts (assertion_in sorts trees (numbered f) ∷ []) in
        OnOk result (assertions_in sorts trees (all_numbered facts.new.items) ≡ before ++ added) }
    ensures longer { OnOk result (IsLonger facts.old.items facts.new.items) }
    ensures within { (count : ℕ) →
        AreFormulasWithin count (all_numbered facts.old.items) →
        IsFormulaWithin count (numbered f) →
        OnOk result (AreFormulasWithin count (all_numbered facts.new.items)) }
{
    let from = facts.len();
    facts.push(f)?;
    add_parts(alloc, facts, from)
}

/// Puts all parts of the conjunctions that stand from a place on behind the formulas, each only
/// once for each conjunction that has it. After want of memory only some may be there.
pub fn add_parts(alloc: Global, facts: &mut Vec<Formula>, from: usize) -> Result<(), AllocError>
    requires { from ≤ length facts.old.items }
    ensures added { (sorts : Sorts) (trees : List Tree) →
        let before = assertions_in sorts trees (all_numbered facts.old.items) in
        let all = take from before ++ with_parts (drop from before) in
        OnOk result (assertions_in sorts trees (all_numbered facts.new.items) ≡ all) }
    ensures longer { OnOk result (IsLonger facts.old.items facts.new.items) }
    ensures within { (count : ℕ) →
        AreFormulasWithin count (all_numbered facts.old.items) →
        OnOk result (AreFormulasWithin count (all_numbered facts.new.items)) }
{
    let mut next = from;
    while next < facts.len() {
        push_parts(alloc, facts, next)?;
        next += 1;
    }
    Ok(())
}

// Puts the two parts of the formula at a place last, where it is a conjunction.
fn push_parts(alloc: Global, facts: &mut Vec<Formula>, n: usize) -> Result<(), AllocError>
    requires { n < length facts.old.items }
    ensures parts { let before = all_numbered facts.old.items in
        let parts = numbered_parts (numbered_at facts.old.items n) in
        OnOk result (all_numbered facts.new.items ≡ before ++ parts) }
    ensures longer { OnOk result (IsLonger facts.old.items facts.new.items) }
{
    match parts(alloc, &facts[n])? {
        Some((p, q)) => push_two(facts, p, q),
        None => Ok(()),
    }
}

// Puts two formulas last.
fn push_two(facts: &mut Vec<Formula>, p: Formula, q: Formula) -> Result<(), AllocError>
    ensures parts { let before = all_numbered facts.old.items in
        OnOk result (all_numbered facts.new.items
        ≡ before ++ (numbered p ∷ numbered q ∷ [])) }
    ensures longer { OnOk result (IsLonger facts.old.items facts.new.items) }
{
    facts.push(p)?;
    facts.push(q)?;
    Ok(())
}

// The two parts of a conjunction.
fn parts(alloc: Global, f: &Formula) -> Result<Option<(Formula, Formula)>, AllocError>
    ensures { IfOk result (λ o. pair_numbered o ≡ numbered_parts (numbered f.now)) }
{
    match f {
        Formula::And(p, q) => {
            let first = copy_formula(alloc, p)?;
            Ok(Some((first, copy_formula(alloc, q)?)))
        }
        _ => Ok(None),
    }
}
