// What runs show at loops of a drawing.
use crate::canvas::Canvas;
use crate::error::DrawingError;
use crate::lists::{Carried, carried_after};
use crate::looping::{Turned, no_visits, turn_loops};
use crate::moments::{Moments, no_moments};
use crate::works::LoopWork;
use std::alloc::Global;
use std::mem;

/// The lists of loops: those of their turns, by masks, and the one behind them.
#[derive(Drop)]
pub(crate) struct LoopLists {
    pub(crate) shown: Option<Vec<Moments>>,
    pub(crate) behind: Carried,
}

/// What the runs that come to loops show of them. The visits are kept.
pub(crate) fn run_loops(
    alloc: Global,
    canvas: &mut Canvas<'_>,
    loops: &LoopWork<'_>,
    carried: Carried,
) -> Result<LoopLists, DrawingError> {
    match carried {
        Some(moments) => lists_of(alloc, canvas, loops, moments),
        None => {
            canvas.sites.push(no_visits(alloc))?;
            Ok(LoopLists {
                shown: None,
                behind: None,
            })
        }
    }
}

// What the runs show that come to loops at some moments.
fn lists_of(
    alloc: Global,
    canvas: &mut Canvas<'_>,
    loops: &LoopWork<'_>,
    moments: Moments,
) -> Result<LoopLists, DrawingError> {
    let shown = turn_loops(alloc, &loops.heads, loops.set, moments, &mut canvas.bound)?;
    let Turned {
        visits,
        turns,
        after,
    } = shown;
    canvas.sites.push(visits)?;
    Ok(LoopLists {
        shown: Some(turns),
        behind: carried_after(after),
    })
}

/// Takes the list of the turn of some copies.
pub(crate) fn taken_turn(alloc: Global, turns: &mut Option<Vec<Moments>>, mask: u8) -> Carried {
    match turns {
        Some(list) => Some(taken_at(alloc, list, mask as usize)),
        None => None,
    }
}

// Takes the moments at a place.
fn taken_at(alloc: Global, list: &mut Vec<Moments>, place: usize) -> Moments {
    match list.get_mut(place) {
        Some(moments) => mem::replace(moments, no_moments(alloc)),
        None => no_moments(alloc),
    }
}
