// How many facts the nodes of a plan have.
use sm_candidates::Candidates;
use sm_expand::{Last, Plan, Plans};

// How many candidates a site has.
fn count_at(candidates: &Candidates, site: usize) -> usize {
    match candidates.sites.get(site) {
        Some(formulas) => formulas.list.len(),
        None => 0,
    }
}

/// About how many facts the nodes of a plan have together, where its loops keep candidates and so
/// many facts are known at its first node. Sites are numbered from one on, which is moved past
/// them.
#[cycle(facts)]
pub(crate) fn facts_in(
    plan: &Plan,
    candidates: &Candidates,
    known: usize,
    site: &mut usize,
) -> usize {
    let nodes = plan.straight.list.len().saturating_add(1);
    let below = facts_below(&plan.last, candidates, known, site);
    nodes.saturating_mul(known).saturating_add(below)
}

// About how many facts the nodes below a last node have together.
#[cycle(facts)]
fn facts_below(last: &Last, candidates: &Candidates, known: usize, site: &mut usize) -> usize {
    match last {
        Last::Fork { yes, no, .. } => {
            let more = known.saturating_add(1);
            let first = facts_in(yes, candidates, more, site);
            first.saturating_add(facts_in(no, candidates, more, site))
        }
        Last::Loop { turns, after, .. } => {
            let kept = count_at(candidates, *site);
            let more = known.saturating_add(kept).saturating_add(1);
            *site = site.saturating_add(1);
            let first = facts_in_all(turns, candidates, more, site);
            first.saturating_add(facts_in(after, candidates, more, site))
        }
        Last::Block { inner, after, .. } => {
            let first = facts_in(inner, candidates, known, site);
            first.saturating_add(facts_in(after, candidates, known, site))
        }
        Last::Dead => 0,
        Last::End => 0,
    }
}

// About how many facts the nodes of plans have together.
#[cycle(facts)]
fn facts_in_all(plans: &Plans, candidates: &Candidates, known: usize, site: &mut usize) -> usize {
    let mut count: usize = 0;
    for plan in &plans.list {
        count = count.saturating_add(facts_in(plan, candidates, known, site));
    }
    count
}
