// Goals that are known to close from the round before.
ghost use Rattle.std.specs.Prelude.{◌≡◌, ◌<◌, ℕ, Bool, true, Some, length, slice_get, IfOk};
ghost use Rattle.sm_term.specs.Formulas.{NumberedFormula};
ghost use Rattle.sm_term.specs.Tables.{TableValue, trees_in, sorts_in};
ghost use Rattle.sm_expand.specs.Views.{due_in};
ghost use Rattle.sm_list.specs.Parts.{all_numbered};
ghost use Rattle.sm_solve.specs.declared.reach.Reach.{Reach};
ghost use Rattle.sm_houdini.specs.Closing.{closes_at};
ghost use Rattle.sm_houdini.specs.Known.{IsAsked, IsAskedBefore, AreKnown, ClosesAll, is_flagged};
ghost use Rattle.sm_houdini.specs.Marks.{is_there};

use crate::asked::Asked;
use crate::marks::{Marked, is_marked};
use crate::owners::owner;
use sm_expand::Due;
use sm_goals::are_same;
use sm_pairs::is_same_formula;
use sm_term::Formula;
use std::alloc::{AllocError, Global};

/// Whether a flag is there.
pub(crate) fn is_flagged(flags: &[bool], at: usize) -> bool
    ensures { result ≡ is_flagged flags.now at }
{
    match flags.get(at) {
        Some(flag) => *flag,
        None => false,
    }
}

// Whether the formula at a place of a list is the one at a place of others, and that is marked.
fn is_next(list: &[Formula], found: usize, others: &[Formula], marks: &[Marked], at: usize) -> bool
    ensures there { result ≡ true → found < length list.now }
    ensures marked { result ≡ true → is_there (slice_get marks.now at) ≡ true }
    ensures same { result ≡ true →
        slice_get (all_numbered list.now) found ≡ slice_get (all_numbered others.now) at }
{
    if !is_marked(marks, at) {
        return false;
    }
    match (list.get(found), others.get(at)) {
        (Some(f), Some(g)) => is_same_formula(f, g),
        _ => false,
    }
}

// Whether all formulas of a list are among others that are marked, in order.
fn are_among(list: &[Formula], others: &[Formula], marks: &[Marked]) -> bool
    ensures { (closes : NumberedFormula → Bool) →
        ((j : ℕ) → (g : NumberedFormula) → is_there (slice_get marks.now j) ≡ true →
        slice_get (all_numbered others.now) j ≡ Some g → closes g ≡ true) →
        result ≡ true → (i : ℕ) → (g : NumberedFormula) →
        slice_get (all_numbered list.now) i ≡ Some g → closes g ≡ true }
{
    let mut found = 0;
    for at in 0..others.len() {
        if is_next(list, found, others, marks, at) {
            found += 1;
        }
    }
    found == list.len()
}

// Whether a node asks what it asked before, of the same facts, and all of that is marked.
fn is_asked_again(due: &Due, before: &Due, marks: &[Marked]) -> bool
    ensures { (v : TableValue) (reach : Reach) →
        ((j : ℕ) → is_there (slice_get marks.now j) ≡ true →
        closes_at (sorts_in v) reach (due_in (sorts_in v) (trees_in v) before.now) j ≡ true) →
        result ≡ true → ClosesAll v reach due.now }
{
    if !are_same(&due.facts.list, &before.facts.list) {
        return false;
    }
    are_among(&due.targets.list, &before.targets.list, marks)
}

// Whether all goals of what a node asks are known to close from the round before.
fn is_known(due: &Due, at: usize, before: &Asked, owners: &[Option<u64>]) -> bool
    ensures { (v : TableValue) (reach : Reach) → IsAsked v reach owners.now before.now →
        result ≡ true → ClosesAll v reach due.now }
{
    let old = match before.dues.get(at) {
        Some(old) => old,
        None => return false,
    };
    if old.node != due.node {
        return false;
    }
    let site = match owner(owners, due.node) {
        Some(site) => site as usize,
        None => return false,
    };
    match before.marks.sites.get(site) {
        Some(marks) => is_asked_again(due, old, marks),
        None => false,
    }
}

// For each node that asks, whether all its goals are known to close from the round before.
fn flags_of(
    alloc: Global,
    before: &Asked,
    owners: &[Option<u64>],
    dues: &[Due],
) -> Result<Vec<bool>, AllocError>
    ensures { (v : TableValue) (reach : Reach) → IsAsked v reach owners.now before.now →
        IfOk result (λ flags. AreKnown v reach dues.now flags.items) }
{
    let mut flags = Vec::new(alloc);
    for at in 0..dues.len() {
        flags.push(is_known(&dues[at], at, before, owners))?;
    }
    Ok(flags)
}

/// For each node that asks, whether all its goals are known to close from the round before, where
/// there was one: there it asked them of the same facts, and the marks of their templates stayed.
pub(crate) fn known_dues(
    alloc: Global,
    before: &Option<Asked>,
    owners: &[Option<u64>],
    dues: &[Due],
) -> Result<Vec<bool>, AllocError>
    ensures { (v : TableValue) (reach : Reach) → IsAskedBefore v reach owners.now before.now →
        IfOk result (λ flags. AreKnown v reach dues.now flags.items) }
{
    match before {
        Some(before) => flags_of(alloc, before, owners, dues),
        None => Ok(Vec::new(alloc)),
    }
}
