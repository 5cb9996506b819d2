// By what a branch is split: the first element that is read, the first disjunction, the first
// contrary.
ghost use Rattle.std.specs.Prelude.{◌≡◌, ◌<◌, ℕ, List, length, IfOk};
ghost use Rattle.sm_term.specs.Assertions.{Assertion};
ghost use Rattle.sm_term.specs.Formulas.{numbered, Eq};
ghost use Rattle.sm_term.specs.Terms.{Tree};
ghost use Rattle.sm_term.specs.Tables.{trees_in, sorts_in};
ghost use Rattle.sm_pairs.specs.Pairs.{Pairs};
ghost use Rattle.sm_judge.specs.ByCases.{IsByCases};
ghost use Rattle.sm_judge.specs.Holding.{first_of, index_split, part_split, order_split};
ghost use Rattle.sm_list.specs.Parts.{all_numbered, assertions_in, AreFormulasWithin};
ghost use Rattle.sm_judge.specs.Seeing.{seen_in};
ghost use Rattle.sm_judge.specs.Splits.{split_told, IsToldWithin, SplitsBranch};

use crate::closing::BranchSplit;
use crate::holding::{index_split, order_split, part_split};
use crate::keyed::KeyedFacts;
use sm_pairs::Sees;
use sm_term::{Formula, TermId, TermTable};
use sm_theory::CertLine;
use std::alloc::{AllocError, Global};

/// The first split by the indices of an element, of the terms of a table in order.
pub(crate) fn first_index_split<S: Sees>(sees: &S, table: &TermTable) -> Option<BranchSplit>
    requires { S.trees sees.now ≡ trees_in table.now }
    ensures split { let trees = trees_in table.now in let sorts = sorts_in table.now in
        (facts : List Formula) →
        let b = seen_in sorts trees trees facts (S.equal sees.now) (S.apart sees.now) in
        split_told sorts trees result ≡ first_of (index_split b) trees }
    ensures within { IsToldWithin (length (trees_in table.now)) result }
    ensures line { (facts : List Assertion) →
        SplitsBranch (sorts_in table.now) (trees_in table.now) facts result }
{
    for n in 0..table.len() {
        if let Some((first, second)) = index_split(sees, table, TermId(n)) {
            return by_cases(first, second);
        }
    }
    None
}

// The split by an equation and another formula, its contrary; no other first formula gives one.
fn by_cases(first: Formula, second: Formula) -> Option<BranchSplit>
    ensures { (t u : ℕ) → numbered first ≡ Eq t u → IsByCases t u (numbered second) result }
{
    match first {
        Formula::Eq(t, u) => {
            let line = CertLine::Cases(t, u);
            let first = Formula::Eq(t, u);
            Some(BranchSplit {
                line,
                first,
                second,
            })
        }
        _ => None,
    }
}

/// The first split by the parts of a disjunction, of facts in order.
pub(crate) fn first_part_split<S: Sees>(
    alloc: Global,
    sees: &S,
    table: &TermTable,
    facts: &KeyedFacts<'_>,
) -> Result<Option<BranchSplit>, AllocError>
    requires table { S.trees sees.now ≡ trees_in table.now }
    requires facts { AreFormulasWithin (length (trees_in table.now)) (all_numbered facts.now) }
    ensures split { let trees = trees_in table.now in let sorts = sorts_in table.now in
        (terms : List Tree) →
        let b = seen_in sorts trees terms facts.now (S.equal sees.now) (S.apart sees.now) in
        let first = first_of (part_split b) (assertions_in sorts trees (all_numbered facts.now)) in
        IfOk result (λ o. split_told sorts trees o ≡ first) }
    ensures within { IfOk result (λ o. IsToldWithin (length (trees_in table.now)) o) }
    ensures line { let sorts = sorts_in table.now in let trees = trees_in table.now in
        let all = assertions_in sorts trees (all_numbered facts.now) in
        IfOk result (λ o. SplitsBranch sorts trees all o) }
{
    for n in 0..facts.len() {
        if let Some((first, second)) = part_split(alloc, sees, table, facts, facts.at(n))? {
            let line = CertLine::Either(n as u64);
            return Ok(Some(BranchSplit {
                line,
                first,
                second,
            }));
        }
    }
    Ok(None)
}

/// The first split by the order of two numbers that aren't equal, of facts in order.
pub(crate) fn first_order_split(table: &TermTable, facts: &KeyedFacts<'_>) -> Option<BranchSplit>
    requires { AreFormulasWithin (length (trees_in table.now)) (all_numbered facts.now) }
    ensures split { let trees = trees_in table.now in let sorts = sorts_in table.now in
        (terms : List Tree) (equal apart : Pairs) →
        let b = seen_in sorts trees terms facts.now equal apart in
        let first = first_of (order_split b) (assertions_in sorts trees (all_numbered facts.now)) in
        split_told sorts trees result ≡ first }
    ensures within { IsToldWithin (length (trees_in table.now)) result }
    ensures line { let sorts = sorts_in table.now in let trees = trees_in table.now in
        let all = assertions_in sorts trees (all_numbered facts.now) in
        SplitsBranch sorts trees all result }
{
    for n in 0..facts.len() {
        if let Some((first, second)) = order_split(table, facts, facts.at(n)) {
            let line = CertLine::Order(n as u64);
            return Some(BranchSplit {
                line,
                first,
                second,
            });
        }
    }
    None
}
