// What is told of the walks of a round before it asks for them.
use crate::closing::WalkEnd;
use sm_expand::Due;
use std::alloc::{AllocError, Global};

/// What the walk of a goal comes to, which is asked at a place of a round.
#[derive(Clone, Copy)]
pub(crate) struct Found {
    pub(crate) place: usize,
    pub(crate) at: usize,
    pub(crate) end: WalkEnd,
}

/// For each goal of a round that nothing is told of it.
pub(crate) fn nothing_told(
    alloc: Global,
    dues: &[Due],
) -> Result<Vec<Vec<Option<WalkEnd>>>, AllocError> {
    let mut told = Vec::new(alloc);
    for due in dues {
        let mut ends = Vec::new(alloc);
        for _ in 0..due.targets.list.len() {
            ends.push(None)?;
        }
        told.push(ends)?;
    }
    Ok(told)
}

/// Whether a walk showed already that a candidate falls.
pub(crate) fn is_refuted(told: &[Vec<Option<WalkEnd>>], lead: usize, at: usize) -> bool {
    match told.get(lead) {
        Some(ends) => match ends.get(at) {
            Some(Some(end)) => *end != WalkEnd::Closed,
            Some(None) => false,
            None => false,
        },
        None => false,
    }
}

// Tells what a walk comes to.
fn tell(told: &mut Vec<Vec<Option<WalkEnd>>>, found: Found) {
    if let Some(ends) = told.get_mut(found.place) {
        if found.at < ends.len() {
            ends[found.at] = Some(found.end);
        }
    }
}

/// Tells what walks come to.
pub(crate) fn tell_all(told: &mut Vec<Vec<Option<WalkEnd>>>, parts: &[Vec<Found>]) {
    for part in parts {
        for found in part {
            tell(told, *found);
        }
    }
}
