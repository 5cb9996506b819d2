// What the contrary of a goal and its parts add to the facts: pairs of terms that aren't equal.
ghost use Rattle.std.specs.Prelude.{◌≡◌, ◌<◌, ◌≤◌, ◌++◌, ◌∷◌, [], true, not, map, length, take, slice_set, IfOk, IfSome};
ghost use Rattle.std.specs.List.{list_all};
ghost use Rattle.sm_term.specs.declared.formula.Formula.TheVariants as tree;
ghost use Rattle.sm_cc.specs.declared.classes.GivenFact.{GivenFact};
ghost use Rattle.sm_cc.specs.AddedTerms.{AddsOnly};
ghost use Rattle.sm_certify.specs.Given.{given_from};

use sm_term::{Formula, TermId};
use std::alloc::{AllocError, Global};

/// The pairs that aren't equal by the formula at a place and by those from another on; none where
/// one of these is an equation.
pub fn contraries(
    alloc: Global,
    facts: &[Formula],
    place: usize,
    from: usize,
) -> Result<Option<Vec<(TermId, TermId)>>, AllocError>
    requires place { place < from }
    requires from { from ≤ length facts.now }
    ensures { IfOk result (λ o. IfSome o (λ ps.
        AddsOnly (given_from 0 (slice_set (take from facts.now) place tree.Yes)) ps.items
        (given_from 0 facts.now))) }
{
    let mut pairs = Vec::new(alloc);
    if add_contrary(&mut pairs, &facts[place])? && add_contraries(&mut pairs, &facts[from..])? {
        return Ok(Some(pairs));
    }
    Ok(None)
}

// Adds the two terms of each contrary; whether no formula is an equation.
fn add_contraries(pairs: &mut Vec<(TermId, TermId)>, facts: &[Formula]) -> Result<bool, AllocError>
    ensures none { let given = given_from 0 facts.now in
        IfOk result (λ b. b ≡ list_all (λ (g : GivenFact). not g.are_equal) given) }
    ensures pairs { let given = given_from 0 facts.now in
        IfOk result (λ b. b ≡ true → pairs.new.items
        ≡ pairs.old.items ++ map (λ (g : GivenFact). (g.left, g.right)) given) }
{
    for f in facts {
        if !add_contrary(pairs, f)? {
            return Ok(false);
        }
    }
    Ok(true)
}

// Adds the two terms of a formula that is a contrary; whether it is no equation.
fn add_contrary(pairs: &mut Vec<(TermId, TermId)>, f: &Formula) -> Result<bool, AllocError>
    ensures none { let given = given_from 0 (f.now ∷ []) in
        IfOk result (λ b. b ≡ list_all (λ (g : GivenFact). not g.are_equal) given) }
    ensures pairs { let given = given_from 0 (f.now ∷ []) in
        IfOk result (λ b. b ≡ true → pairs.new.items
        ≡ pairs.old.items ++ map (λ (g : GivenFact). (g.left, g.right)) given) }
{
    match f {
        Formula::Eq(_, _) => Ok(false),
        Formula::Ne(t, u) => {
            pairs.push((*t, *u))?;
            Ok(true)
        }
        Formula::Yes => Ok(true),
        Formula::No => Ok(true),
        Formula::Le(_, _) => Ok(true),
        Formula::Lt(_, _) => Ok(true),
        Formula::And(_, _) => Ok(true),
        Formula::Or(_, _) => Ok(true),
    }
}
