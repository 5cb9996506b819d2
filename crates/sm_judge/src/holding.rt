// What holds on a branch, and by what it is split.
ghost use Rattle.std.specs.Prelude.{◌≡◌, ◌<◌, ◌||◌, Bool, List, [], ◌∷◌, length, IfOk, if◌then◌else◌};
ghost use Rattle.sm_term.specs.Terms.{Tree};
ghost use Rattle.sm_term.specs.Tables.{trees_in, sorts_in, tree_at};
ghost use Rattle.sm_term.specs.Formulas.{numbered, assertion_in, IsFormulaWithin, Eq, Ne};
ghost use Rattle.sm_theory.specs.Arithmetic.{is_numeric};
ghost use Rattle.sm_judge.specs.Holding.{is_fact, is_held, is_refuted, index_split, part_split, order_split};
ghost use Rattle.sm_list.specs.Parts.{all_numbered, AreFormulasWithin, pair_numbered};
ghost use Rattle.sm_judge.specs.Seeing.{seen_in, split_in, IsSplitWithin, is_disjunction, disjuncts_of, split_under};

use crate::keyed::KeyedFacts;
use sm_pairs::Sees;
use sm_syntax::Sort;
use sm_term::{Formula, Term, TermId, TermTable, copy_formula};
use std::alloc::{AllocError, Global};

// Whether a formula is a fact.
pub(crate) fn is_fact(table: &TermTable, facts: &KeyedFacts<'_>, f: &Formula) -> bool
    requires facts { AreFormulasWithin (length (trees_in table.now)) (all_numbered facts.now) }
    requires formula { IsFormulaWithin (length (trees_in table.now)) (numbered f.now) }
    ensures { let trees = trees_in table.now in let sorts = sorts_in table.now in
        (terms : List Tree) (equal apart : Tree → Tree → Bool) →
        result ≡ is_fact (seen_in sorts trees terms facts.now equal apart)
        (assertion_in sorts trees (numbered f.now)) }
{
    // No term is there twice.
    let _count = table.len();
    facts.has(f)
}

// Whether a formula holds on a branch: by the classes, or by its parts, where a part may be a
// fact.
#[cycle(is_held)]
pub(crate) fn is_held<S: Sees>(
    sees: &S,
    table: &TermTable,
    facts: &KeyedFacts<'_>,
    f: &Formula,
) -> bool
    requires table { S.trees sees.now ≡ trees_in table.now }
    requires facts { AreFormulasWithin (length (trees_in table.now)) (all_numbered facts.now) }
    requires formula { IsFormulaWithin (length (trees_in table.now)) (numbered f.now) }
    ensures { let trees = trees_in table.now in let sorts = sorts_in table.now in
        (terms : List Tree) →
        result ≡ is_held
        (seen_in sorts trees terms facts.now (S.equal sees.now) (S.apart sees.now))
        (assertion_in sorts trees (numbered f.now)) }
{
    match f {
        Formula::Yes => true,
        Formula::No => false,
        Formula::Eq(t, u) => sees.equal(*t, *u),
        Formula::Ne(t, u) => sees.apart(*t, *u),
        Formula::Le(_, _) => is_fact(table, facts, f),
        Formula::Lt(_, _) => is_fact(table, facts, f),
        Formula::And(p, q) => {
            is_part_held(sees, table, facts, p) && is_part_held(sees, table, facts, q)
        }
        Formula::Or(p, q) => {
            is_part_held(sees, table, facts, p) || is_part_held(sees, table, facts, q)
        }
    }
}

// Whether a part of a formula is a fact or holds. A fact isn't looked into: a long disjunction may
// have facts for all its parts.
#[cycle(is_held)]
fn is_part_held<S: Sees>(sees: &S, table: &TermTable, facts: &KeyedFacts<'_>, f: &Formula) -> bool
    requires table { S.trees sees.now ≡ trees_in table.now }
    requires facts { AreFormulasWithin (length (trees_in table.now)) (all_numbered facts.now) }
    requires formula { IsFormulaWithin (length (trees_in table.now)) (numbered f.now) }
    ensures { let trees = trees_in table.now in let sorts = sorts_in table.now in
        (terms : List Tree) →
        let b = seen_in sorts trees terms facts.now (S.equal sees.now) (S.apart sees.now) in
        let part = assertion_in sorts trees (numbered f.now) in
        result ≡ (is_fact b part || is_held b part) }
{
    is_fact(table, facts, f) || is_held(sees, table, facts, f)
}

// Whether a fact can't hold by the classes.
pub(crate) fn is_refuted<S: Sees>(sees: &S, table: &TermTable, f: &Formula) -> bool
    requires table { S.trees sees.now ≡ trees_in table.now }
    requires formula { IsFormulaWithin (length (trees_in table.now)) (numbered f.now) }
    ensures { let trees = trees_in table.now in let sorts = sorts_in table.now in
        (terms : List Tree) (facts : List Formula) →
        result ≡ is_refuted
        (seen_in sorts trees terms facts (S.equal sees.now) (S.apart sees.now))
        (assertion_in sorts trees (numbered f.now)) }
{
    match f {
        Formula::No => true,
        Formula::Ne(t, u) => sees.equal(*t, *u),
        Formula::Yes | Formula::Eq(_, _) | Formula::Le(_, _) | Formula::Lt(_, _) => false,
        Formula::And(_, _) | Formula::Or(_, _) => false,
    }
}

// The parts of a disjunction that isn't held.
pub(crate) fn part_split<S: Sees>(
    alloc: Global,
    sees: &S,
    table: &TermTable,
    facts: &KeyedFacts<'_>,
    f: &Formula,
) -> Result<Option<(Formula, Formula)>, AllocError>
    requires table { S.trees sees.now ≡ trees_in table.now }
    requires facts { AreFormulasWithin (length (trees_in table.now)) (all_numbered facts.now) }
    requires formula { IsFormulaWithin (length (trees_in table.now)) (numbered f.now) }
    ensures split { let trees = trees_in table.now in let sorts = sorts_in table.now in
        (terms : List Tree) →
        let b = seen_in sorts trees terms facts.now (S.equal sees.now) (S.apart sees.now) in
        let split = part_split b (assertion_in sorts trees (numbered f.now)) in
        IfOk result (λ o. split_in sorts trees o ≡ split) }
    ensures within { IfOk result (λ o. IsSplitWithin (length (trees_in table.now)) o) }
{
    if is_disjunction(f) {
        if is_held(sees, table, facts, f) {
            return Ok(None);
        }
        let split = disjuncts(alloc, f)?;
        return Ok(split);
    }
    Ok(None)
}

// Whether a formula is a disjunction.
fn is_disjunction(f: &Formula) -> bool
    ensures { result ≡ is_disjunction (numbered f.now) }
{
    match f {
        Formula::Or(_, _) => true,
        _ => false,
    }
}

// The parts of a disjunction.
fn disjuncts(alloc: Global, f: &Formula) -> Result<Option<(Formula, Formula)>, AllocError>
    ensures { IfOk result (λ o. pair_numbered o ≡ disjuncts_of (numbered f.now)) }
{
    match f {
        Formula::Or(p, q) => {
            let first = copy_formula(alloc, p)?;
            Ok(Some((first, copy_formula(alloc, q)?)))
        }
        _ => Ok(None),
    }
}

// Of two numbers that aren't equal, that the first is less and that the second is, where neither
// is a fact.
pub(crate) fn order_split(
    table: &TermTable,
    facts: &KeyedFacts<'_>,
    f: &Formula,
) -> Option<(Formula, Formula)>
    requires facts { AreFormulasWithin (length (trees_in table.now)) (all_numbered facts.now) }
    requires formula { IsFormulaWithin (length (trees_in table.now)) (numbered f.now) }
    ensures split { let trees = trees_in table.now in let sorts = sorts_in table.now in
        (terms : List Tree) (equal apart : Tree → Tree → Bool) →
        let b = seen_in sorts trees terms facts.now equal apart in
        split_in sorts trees result ≡ order_split b (assertion_in sorts trees (numbered f.now)) }
    ensures within { IsSplitWithin (length (trees_in table.now)) result }
{
    match f {
        Formula::Ne(t, u) => orders(table, facts, *t, *u),
        _ => None,
    }
}

// The split of two terms that aren't equal.
fn orders(
    table: &TermTable,
    facts: &KeyedFacts<'_>,
    t: TermId,
    u: TermId,
) -> Option<(Formula, Formula)>
    requires facts { AreFormulasWithin (length (trees_in table.now)) (all_numbered facts.now) }
    requires left { t.0 < length (trees_in table.now) }
    requires right { u.0 < length (trees_in table.now) }
    ensures split { let trees = trees_in table.now in let sorts = sorts_in table.now in
        (terms : List Tree) (equal apart : Tree → Tree → Bool) →
        let b = seen_in sorts trees terms facts.now equal apart in
        split_in sorts trees result ≡ order_split b (assertion_in sorts trees (Ne t.0 u.0)) }
    ensures within { IsSplitWithin (length (trees_in table.now)) result }
{
    let first = Formula::Lt(t, u);
    let second = Formula::Lt(u, t);
    if !is_numeric(table, t) {
        return None;
    }
    if is_fact(table, facts, &first) || is_fact(table, facts, &second) {
        return None;
    }
    Some((first, second))
}

// Whether a term is a number.
pub(crate) fn is_numeric(table: &TermTable, t: TermId) -> bool
    requires { t.0 < length (trees_in table.now) }
    ensures { result ≡ is_numeric (sorts_in table.now) (tree_at (trees_in table.now) t.0) }
{
    table.sort(t) == Sort::Num
}

// That two indices are equal, and that they aren't: one at which an array was written, and one at
// which it is read then, where neither is known.
pub(crate) fn index_split<S: Sees>(
    sees: &S,
    table: &TermTable,
    t: TermId,
) -> Option<(Formula, Formula)>
    requires table { S.trees sees.now ≡ trees_in table.now }
    requires within { t.0 < length (trees_in table.now) }
    ensures split { let trees = trees_in table.now in let sorts = sorts_in table.now in
        (terms : List Tree) (facts : List Formula) →
        let b = seen_in sorts trees terms facts (S.equal sees.now) (S.apart sees.now) in
        split_in sorts trees result ≡ index_split b (tree_at trees t.0) }
    ensures within { IsSplitWithin (length (trees_in table.now)) result }
{
    match table.get(t) {
        Term::Read(a, j) => split_under(sees, table, *a, *j),
        _ => None,
    }
}

// The split of an array and the index at which it is read.
fn split_under<S: Sees>(
    sees: &S,
    table: &TermTable,
    a: TermId,
    j: TermId,
) -> Option<(Formula, Formula)>
    requires table { S.trees sees.now ≡ trees_in table.now }
    requires array { a.0 < length (trees_in table.now) }
    requires index { j.0 < length (trees_in table.now) }
    ensures split { let trees = trees_in table.now in let sorts = sorts_in table.now in
        (terms : List Tree) (facts : List Formula) →
        let b = seen_in sorts trees terms facts (S.equal sees.now) (S.apart sees.now) in
        split_in sorts trees result ≡ split_under b (tree_at trees a.0) (tree_at trees j.0) }
    ensures within { IsSplitWithin (length (trees_in table.now)) result }
{
    match table.get(a) {
        Term::Write(_, i, _) => undecided(sees, *i, j),
        _ => None,
    }
}

// That two terms are equal, and that they aren't, where neither is known.
fn undecided<S: Sees>(sees: &S, i: TermId, j: TermId) -> Option<(Formula, Formula)>
    requires left { i.0 < length (S.trees sees.now) }
    requires right { j.0 < length (S.trees sees.now) }
    ensures { let trees = S.trees sees.now in
        let known = S.equal sees.now (tree_at trees i.0) (tree_at trees j.0)
        || S.apart sees.now (tree_at trees i.0) (tree_at trees j.0) in
        pair_numbered result ≡ (if known then [] else Eq i.0 j.0 ∷ Ne i.0 j.0 ∷ []) }
{
    if sees.equal(i, j) || sees.apart(i, j) {
        return None;
    }
    Some((Formula::Eq(i, j), Formula::Ne(i, j)))
}
