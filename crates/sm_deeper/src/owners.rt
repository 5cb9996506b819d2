// Who asks what the nodes of a plan ask.
use sm_expand::{Last, Plan, Plans};
use std::alloc::{AllocError, Global};

/// For each node of a plan the site whose formulas it asks, none where it asks the final target or
/// is a dead end.
#[derive(Drop)]
pub(crate) struct Owners {
    pub(crate) list: Vec<Option<usize>>,
    pub(crate) sites: usize,
}

// Puts the owners of the nodes of a plan, whose last nodes ask a target, behind others.
#[cycle(owners)]
fn add_plan(owners: &mut Owners, plan: &Plan, target: Option<usize>) -> Result<(), AllocError> {
    for _ in 0..plan.straight.list.len() {
        owners.list.push(target)?;
    }
    match &plan.last {
        Last::Fork { yes, no, .. } => {
            owners.list.push(target)?;
            add_plan(owners, yes, target)?;
            add_plan(owners, no, target)
        }
        Last::Loop { turns, after, .. } => {
            let site = owners.sites;
            owners.sites = site.saturating_add(1);
            owners.list.push(Some(site))?;
            add_plans(owners, turns, Some(site))?;
            add_plan(owners, after, target)
        }
        Last::Block { inner, after, .. } => {
            owners.list.push(None)?;
            add_plan(owners, inner, None)?;
            add_plan(owners, after, target)
        }
        Last::Dead => {
            owners.list.push(None)?;
            Ok(())
        }
        Last::End => {
            owners.list.push(target)?;
            Ok(())
        }
    }
}

// Puts the owners of the nodes of plans that ask one target behind others.
#[cycle(owners)]
fn add_plans(owners: &mut Owners, plans: &Plans, target: Option<usize>) -> Result<(), AllocError> {
    for plan in &plans.list {
        add_plan(owners, plan, target)?;
    }
    Ok(())
}

/// The owners of a plan's nodes.
pub(crate) fn owners_of(alloc: Global, plan: &Plan) -> Result<Owners, AllocError> {
    let mut owners = Owners {
        list: Vec::new(alloc),
        sites: 0,
    };
    add_plan(&mut owners, plan, None)?;
    Ok(owners)
}

/// The owner of a node.
pub(crate) fn owner(owners: &Owners, node: u64) -> Option<usize> {
    match owners.list.get(node as usize) {
        Some(owner) => *owner,
        None => None,
    }
}
