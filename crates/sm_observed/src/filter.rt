// Candidates that runs don't refute.
use crate::scene::Scene;
use crate::truth::holds_at_all;
use crate::work::Work;
use sm_pairs::is_same_formula;
use sm_plan::Formulas;
use sm_term::{Formula, TermTable, copy_formula};
use std::alloc::{AllocError, Global};

// How many candidates of a site are left at most.
const MOST_LEFT: usize = 600;

/// Whether a formula is in a list.
pub(crate) fn is_in(list: &[Formula], f: &Formula) -> bool {
    for g in list {
        if is_same_formula(g, f) {
            return true;
        }
    }
    false
}

/// Puts a formula behind others, where it is new.
pub(crate) fn put_new(list: &mut Vec<Formula>, f: Formula) -> Result<(), AllocError> {
    if !is_in(list.as_slice(), &f) {
        list.push(f)?;
    }
    Ok(())
}

// Whether a part of a disjunction is in a list.
fn has_part(list: &[Formula], f: &Formula) -> bool {
    match f {
        Formula::Or(p, q) => {
            is_in(list, p) || is_in(list, q) || has_part(list, p) || has_part(list, q)
        }
        _ => false,
    }
}

// Those that hold at each visit.
fn unrefuted(
    alloc: Global,
    table: &TermTable,
    scene: &Scene<'_>,
    list: Vec<Formula>,
) -> Result<Vec<Formula>, AllocError> {
    let mut left = Vec::new(alloc);
    for f in list {
        if holds_at_all(table, scene, &f) {
            left.push(f)?;
        }
    }
    Ok(left)
}

// Those of a list, but for disjunctions of which a part alone is there.
fn without_parts(alloc: Global, list: &[Formula]) -> Result<Formulas, AllocError> {
    let mut kept = Vec::new(alloc);
    for f in list {
        if kept.len() < MOST_LEFT && !has_part(list, f) {
            kept.push(copy_formula(alloc, f)?)?;
        }
    }
    Ok(Formulas { list: kept })
}

/// Those of some formulas that hold at each visit, but for disjunctions of which a part alone is
/// left. None are left where there is no visit, or where trying them costs more work than is left.
pub(crate) fn filtered(
    alloc: Global,
    table: &TermTable,
    scene: &Scene<'_>,
    list: Vec<Formula>,
    work: &mut Work,
) -> Result<Formulas, AllocError> {
    let count = list.len();
    let compared = count.saturating_mul(count) / 64;
    let tried = count.saturating_mul(scene.visits.list.len());
    work.spend(compared.saturating_add(tried));
    if work.is_spent() || scene.visits.list.is_empty() {
        let none = Vec::new(alloc);
        return Ok(Formulas { list: none });
    }
    let left = unrefuted(alloc, table, scene, list)?;
    without_parts(alloc, &left)
}
