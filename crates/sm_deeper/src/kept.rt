// The plan of a choice of candidates.
use sm_candidates::Candidates;
use sm_expand::{Last, Plan, Plans};
use sm_sketch::copied_simples;
use sm_term::{Formula, copy_formula};
use std::alloc::{AllocError, Global};

// The conjunction of formulas, by halves.
#[cycle(conjunction)]
fn conjunction(alloc: Global, fs: &[Formula]) -> Result<Formula, AllocError> {
    match fs.first() {
        None => Ok(Formula::Yes),
        Some(f) => {
            if fs.len() == 1 {
                return copy_formula(alloc, f);
            }
            let (front, back) = fs.split_at(fs.len() / 2);
            let front = boxed_conjunction(alloc, front)?;
            let back = boxed_conjunction(alloc, back)?;
            Ok(Formula::And(front, back))
        }
    }
}

// The conjunction of formulas, in a box.
#[cycle(conjunction)]
fn boxed_conjunction(alloc: Global, fs: &[Formula]) -> Result<Box<Formula>, AllocError> {
    let f = conjunction(alloc, fs)?;
    let boxed = Box::new(alloc, f)?;
    Ok(boxed)
}

// The formula that a site keeps.
fn kept_formula(
    alloc: Global,
    candidates: &Candidates,
    site: usize,
) -> Result<Formula, AllocError> {
    match candidates.sites.get(site) {
        Some(formulas) => conjunction(alloc, &formulas.list),
        None => Ok(Formula::Yes),
    }
}

/// A plan in which each loop keeps the candidates of its site. Sites are numbered from one on,
/// which is moved past them.
#[cycle(kept)]
pub(crate) fn plan_keeping(
    alloc: Global,
    plan: &Plan,
    candidates: &Candidates,
    site: &mut usize,
) -> Result<Plan, AllocError> {
    let straight = copied_simples(alloc, &plan.straight)?;
    let last = last_keeping(alloc, &plan.last, candidates, site)?;
    Ok(Plan { straight, last })
}

// A last node whose plans keep candidates.
#[cycle(kept)]
fn last_keeping(
    alloc: Global,
    last: &Last,
    candidates: &Candidates,
    site: &mut usize,
) -> Result<Last, AllocError> {
    match last {
        Last::Fork { copy, yes, no } => {
            let yes = boxed_keeping(alloc, yes, candidates, site)?;
            let no = boxed_keeping(alloc, no, candidates, site)?;
            Ok(Last::Fork {
                copy: *copy,
                yes,
                no,
            })
        }
        Last::Loop {
            set,
            turns,
            after,
            ..
        } => {
            let keep = kept_formula(alloc, candidates, *site)?;
            *site = site.saturating_add(1);
            let turns = all_keeping(alloc, turns, candidates, site)?;
            let after = boxed_keeping(alloc, after, candidates, site)?;
            Ok(Last::Loop {
                set: *set,
                keep,
                turns,
                after,
            })
        }
        Last::Block {
            k0,
            k1,
            k2,
            k3,
            inner,
            after,
            ..
        } => {
            let inner = boxed_keeping(alloc, inner, candidates, site)?;
            let after = boxed_keeping(alloc, after, candidates, site)?;
            Ok(Last::Block {
                k0: *k0,
                k1: *k1,
                k2: *k2,
                k3: *k3,
                keep: Formula::Yes,
                inner,
                after,
            })
        }
        Last::Dead => Ok(Last::Dead),
        Last::End => Ok(Last::End),
    }
}

// The plan that keeps candidates, in a box.
#[cycle(kept)]
fn boxed_keeping(
    alloc: Global,
    plan: &Plan,
    candidates: &Candidates,
    site: &mut usize,
) -> Result<Box<Plan>, AllocError> {
    let plan = plan_keeping(alloc, plan, candidates, site)?;
    let boxed = Box::new(alloc, plan)?;
    Ok(boxed)
}

// Plans that keep candidates, one after the other.
#[cycle(kept)]
fn all_keeping(
    alloc: Global,
    plans: &Plans,
    candidates: &Candidates,
    site: &mut usize,
) -> Result<Plans, AllocError> {
    let mut list = Vec::new(alloc);
    for plan in &plans.list {
        list.push(plan_keeping(alloc, plan, candidates, site)?)?;
    }
    Ok(Plans { list })
}
