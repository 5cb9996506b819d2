// Marks at candidates: each is there as long as its goals close.
use sm_candidates::Candidates;
use sm_plan::Formulas;
use std::alloc::{AllocError, Global};
use std::mem;

// Marks at so many candidates.
fn marks_at(alloc: Global, count: usize) -> Result<Vec<bool>, AllocError> {
    let mut marks = Vec::new(alloc);
    for _ in 0..count {
        marks.push(true)?;
    }
    Ok(marks)
}

/// Marks at all candidates.
pub(crate) fn all_marked(
    alloc: Global,
    candidates: &Candidates,
) -> Result<Vec<Vec<bool>>, AllocError> {
    let mut sites = Vec::new(alloc);
    for formulas in &candidates.sites {
        sites.push(marks_at(alloc, formulas.list.len())?)?;
    }
    Ok(sites)
}

// Whether each mark of a site is there.
fn are_there(marks: &[bool]) -> bool {
    for mark in marks {
        if !*mark {
            return false;
        }
    }
    true
}

/// Whether each mark is there.
pub(crate) fn are_all_there(sites: &[Vec<bool>]) -> bool {
    for marks in sites {
        if !are_there(marks) {
            return false;
        }
    }
    true
}

/// Whether two marks or more are there.
pub(crate) fn are_several(marks: &[bool]) -> bool {
    let mut is_one = false;
    for mark in marks {
        if *mark {
            if is_one {
                return true;
            }
            is_one = true;
        }
    }
    false
}

// Those of some formulas whose marks are there.
fn marked(alloc: Global, formulas: Formulas, marks: &[bool]) -> Result<Formulas, AllocError> {
    let mut list = Vec::new(alloc);
    let mut place: usize = 0;
    for f in formulas.list {
        if place < marks.len() && marks[place] {
            list.push(f)?;
        }
        place = place.saturating_add(1);
    }
    Ok(Formulas { list })
}

/// Drops the candidates whose marks aren't there.
pub(crate) fn keep_marked(
    alloc: Global,
    candidates: &mut Candidates,
    marks: &[Vec<bool>],
) -> Result<(), AllocError> {
    let sites = mem::replace(&mut candidates.sites, Vec::new(alloc));
    let mut place: usize = 0;
    for formulas in sites {
        if place < marks.len() {
            candidates
                .sites
                .push(marked(alloc, formulas, &marks[place])?)?;
        }
        place = place.saturating_add(1);
    }
    Ok(())
}

/// How many candidates there are.
pub(crate) fn total(candidates: &Candidates) -> usize {
    let mut count: usize = 0;
    for formulas in &candidates.sites {
        count = count.saturating_add(formulas.list.len());
    }
    count
}
