// A plan, put together from its last node to the first.
use crate::arity::turns_of;
use crate::gathering::FlatNode;
use sm_expand::{Last, Plan, Plans, Simple, Simples};
use sm_proof::NodeLine;
use sm_term::Formula;
use std::alloc::{AllocError, Global};

// A plan of one node.
fn alone(alloc: Global, last: Last) -> Plan {
    Plan {
        straight: Simples {
            list: Vec::new(alloc),
        },
        last,
    }
}

// A plan whose first nodes stood in the other order.
fn turned(plan: Plan) -> Plan {
    let mut list = plan.straight.list;
    list.reverse();
    Plan {
        straight: Simples { list },
        last: plan.last,
    }
}

// Takes off the last plan, with its nodes in order.
fn taken(alloc: Global, plans: &mut Vec<Plan>) -> Result<Option<Box<Plan>>, AllocError> {
    match plans.pop() {
        Some(plan) => Ok(Some(Box::new(alloc, turned(plan))?)),
        None => Ok(None),
    }
}

// Takes off the last plans, so many, with their nodes in order.
fn all_taken(alloc: Global, plans: &mut Vec<Plan>, count: u8) -> Result<Option<Plans>, AllocError> {
    let mut list = Vec::new(alloc);
    for n in 0..count {
        match plans.pop() {
            Some(plan) => list.push(turned(plan))?,
            None => return Ok(None),
        }
    }
    Ok(Some(Plans { list }))
}

// Puts a node that one state follows before the last plan. It tells whether that is there.
fn add(plans: &mut Vec<Plan>, simple: Simple) -> Result<bool, AllocError> {
    match plans.pop() {
        Some(plan) => {
            let mut list = plan.straight.list;
            list.push(simple)?;
            plans.push(Plan {
                straight: Simples { list },
                last: plan.last,
            })?;
            Ok(true)
        }
        None => Ok(false),
    }
}

// Takes off the last two plans.
fn two_taken(
    alloc: Global,
    plans: &mut Vec<Plan>,
) -> Result<Option<(Box<Plan>, Box<Plan>)>, AllocError> {
    let first = match taken(alloc, plans)? {
        Some(first) => first,
        None => return Ok(None),
    };
    match taken(alloc, plans)? {
        Some(second) => Ok(Some((first, second))),
        None => Ok(None),
    }
}

// Puts a node of two branches before the last two plans. It tells whether these are there.
fn fork(alloc: Global, plans: &mut Vec<Plan>, copy: u8) -> Result<bool, AllocError> {
    match two_taken(alloc, plans)? {
        Some((yes, no)) => {
            plans.push(alone(alloc, Last::Fork { copy, yes, no }))?;
            Ok(true)
        }
        None => Ok(false),
    }
}

// Puts a node of loops before the last plans, those of their turns and that behind them. It tells
// whether these are there.
fn loops(alloc: Global, plans: &mut Vec<Plan>, set: u8, keep: Formula) -> Result<bool, AllocError> {
    let turns = match all_taken(alloc, plans, turns_of(set))? {
        Some(turns) => turns,
        None => return Ok(false),
    };
    let after = match taken(alloc, plans)? {
        Some(after) => after,
        None => return Ok(false),
    };
    let last = Last::Loop {
        set,
        keep,
        turns,
        after,
    };
    plans.push(alone(alloc, last))?;
    Ok(true)
}

// Puts a node of blocks before the last two plans. It tells whether these are there.
fn block(
    alloc: Global,
    plans: &mut Vec<Plan>,
    k: [u64; 4],
    keep: Formula,
) -> Result<bool, AllocError> {
    match two_taken(alloc, plans)? {
        Some((inner, after)) => {
            let last = Last::Block {
                k0: k[0],
                k1: k[1],
                k2: k[2],
                k3: k[3],
                keep,
                inner,
                after,
            };
            plans.push(alone(alloc, last))?;
            Ok(true)
        }
        None => Ok(false),
    }
}

// Puts a node that no state follows.
fn end(alloc: Global, plans: &mut Vec<Plan>, last: Last) -> Result<bool, AllocError> {
    plans.push(alone(alloc, last))?;
    Ok(true)
}

// Puts a node before the plans of the states that follow it. It tells whether these are there.
fn put(alloc: Global, plans: &mut Vec<Plan>, node: FlatNode) -> Result<bool, AllocError> {
    let keep = node.keep;
    match node.line {
        NodeLine::Step { copy } => add(plans, Simple::Step { copy }),
        NodeLine::Abs { copy, count } => add(plans, Simple::Abs { copy, count }),
        NodeLine::Fork { copy } => fork(alloc, plans, copy),
        NodeLine::Loop { set, .. } => loops(alloc, plans, set, keep),
        NodeLine::Block { k0, k1, k2, k3, .. } => block(alloc, plans, [k0, k1, k2, k3], keep),
        NodeLine::Dead => end(alloc, plans, Last::Dead),
        NodeLine::End => end(alloc, plans, Last::End),
    }
}

/// The plan whose nodes these are, None where they are none.
pub(crate) fn plan_of(alloc: Global, nodes: Vec<FlatNode>) -> Result<Option<Plan>, AllocError> {
    let mut rest = nodes;
    let mut plans = Vec::new(alloc);
    while let Some(node) = rest.pop() {
        if !put(alloc, &mut plans, node)? {
            return Ok(None);
        }
    }
    match plans.pop() {
        Some(plan) => Ok(Some(turned(plan))),
        None => Ok(None),
    }
}
