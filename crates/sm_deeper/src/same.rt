// Whether two plans have the same nodes.
use sm_expand::{Last, Plan, Simple};

// Whether two simple nodes are the same.
fn are_same_simples(one: &Simple, other: &Simple) -> bool {
    match (one, other) {
        (Simple::Step { copy: c }, Simple::Step { copy: d }) => *c == *d,
        (Simple::Abs { copy: c, count: n }, Simple::Abs { copy: d, count: m }) => {
            *c == *d && *n == *m
        }
        _ => false,
    }
}

// Whether two plans have the same simple nodes.
fn have_same_simples(one: &[Simple], other: &[Simple]) -> bool {
    if one.len() != other.len() {
        return false;
    }
    for i in 0..one.len() {
        if !are_same_simples(&one[i], &other[i]) {
            return false;
        }
    }
    true
}

/// Whether two plans without blocks have the same nodes, but for what their loops keep.
#[cycle(same)]
pub(crate) fn are_same_plans(one: &Plan, other: &Plan) -> bool {
    have_same_simples(&one.straight.list, &other.straight.list)
        && are_same_ends(&one.last, &other.last)
}

// Whether two last nodes are the same.
#[cycle(same)]
fn are_same_ends(one: &Last, other: &Last) -> bool {
    match (one, other) {
        (Last::Dead, Last::Dead) => true,
        (Last::End, Last::End) => true,
        (
            Last::Fork {
                copy: c,
                yes: p,
                no: q,
            },
            Last::Fork {
                copy: d,
                yes: r,
                no: s,
            },
        ) => *c == *d && are_same_plans(p, r) && are_same_plans(q, s),
        (
            Last::Loop {
                set: c,
                turns: ps,
                after: p,
                ..
            },
            Last::Loop {
                set: d,
                turns: qs,
                after: q,
                ..
            },
        ) => *c == *d && are_all_same(&ps.list, &qs.list) && are_same_plans(p, q),
        _ => false,
    }
}

// Whether two lists of plans have the same nodes, but for what their loops keep.
#[cycle(same)]
fn are_all_same(plans: &[Plan], others: &[Plan]) -> bool {
    if plans.len() != others.len() {
        return false;
    }
    let mut place = 0;
    for plan in plans {
        if place >= others.len() || !are_same_plans(plan, &others[place]) {
            return false;
        }
        place += 1;
    }
    true
}
