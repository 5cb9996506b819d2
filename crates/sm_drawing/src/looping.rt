// Joint turns of loops along runs.
use crate::code::{Heads, loop_of};
use crate::error::DrawingError;
use crate::moments::{Moment, Moments, copy_moment, no_moments, truth_at, went_on};
use crate::running::{Bound, run_block};
use crate::sides::{COPIES, copy_stores, store_at};
use sm_moves::{has, is_empty, with_member};
use sm_observed::{Entry, Visit, Visits};
use sm_syntax::CopyName;
use std::alloc::Global;

/// How many joint turns loops take.
const MOST_TURNS: u32 = 40;

/// How many visits a site keeps.
const MOST_VISITS: usize = 1_200;

/// How many moments a turn keeps.
const MOST_MOMENTS: usize = 300;

/// How many masks four copies have.
const MASKS: u32 = 16;

/// What runs show of the loops of a set: the visits, the moments before each turn, by the mask of
/// the copies that take it, and the moments behind the loops.
#[derive(Drop)]
pub(crate) struct Turned {
    pub(crate) visits: Visits,
    pub(crate) turns: Vec<Moments>,
    pub(crate) after: Moments,
}

/// No visits.
pub(crate) fn no_visits(alloc: Global) -> Visits {
    Visits {
        entries: Vec::new(alloc),
        list: Vec::new(alloc),
    }
}

// Nothing shown yet.
fn nothing_shown(alloc: Global) -> Result<Turned, DrawingError> {
    let mut turns = Vec::new(alloc);
    for _ in 0..MASKS {
        turns.push(no_moments(alloc))?;
    }
    Ok(Turned {
        visits: no_visits(alloc),
        turns,
        after: no_moments(alloc),
    })
}

// Whether a copy is of a set and its guard holds, none where the guard can't be computed.
fn is_turning(
    heads: &Heads<'_>,
    set: u8,
    moment: &Moment,
    copy: CopyName,
) -> Result<Option<bool>, DrawingError> {
    if !has(set, copy) {
        return Ok(Some(false));
    }
    match loop_of(*heads.get(copy)) {
        Some((guard, _)) => truth_at(guard, moment.stores.get(copy)),
        None => Ok(Some(false)),
    }
}

// The copies of a set whose guards hold, none where one can't be computed.
fn turning(heads: &Heads<'_>, set: u8, moment: &Moment) -> Result<Option<u8>, DrawingError> {
    let mut mask = 0;
    for copy in COPIES {
        let Some(turns) = is_turning(heads, set, moment, copy)? else {
            return Ok(None);
        };
        if turns {
            mask = with_member(mask, copy);
        }
    }
    Ok(Some(mask))
}

// Runs the body of a copy, where it is of a set, and tells whether it went on.
fn run_body(
    heads: &Heads<'_>,
    mask: u8,
    moment: &mut Moment,
    copy: CopyName,
    bound: &mut Bound,
) -> Result<bool, DrawingError> {
    if !has(mask, copy) {
        return Ok(true);
    }
    match loop_of(*heads.get(copy)) {
        Some((_, body)) => went_on(run_block(body, store_at(&mut moment.stores, copy), bound)),
        None => Ok(true),
    }
}

// Runs the bodies of some copies, and tells whether all went on.
fn run_bodies(
    heads: &Heads<'_>,
    mask: u8,
    moment: &mut Moment,
    bound: &mut Bound,
) -> Result<bool, DrawingError> {
    for copy in COPIES {
        if !run_body(heads, mask, moment, copy, bound)? {
            return Ok(false);
        }
    }
    Ok(true)
}

// Keeps a visit, where there is room.
fn put_visit(alloc: Global, visits: &mut Visits, moment: &Moment) -> Result<(), DrawingError> {
    if visits.list.len() >= MOST_VISITS {
        return Ok(());
    }
    let Some(entry) = visits.entries.len().checked_sub(1) else {
        return Ok(());
    };
    let stores = copy_stores(alloc, &moment.stores)?;
    visits.list.push(Visit { entry, stores })?;
    Ok(())
}

// Keeps an entry, where there is room.
fn put_entry(alloc: Global, visits: &mut Visits, moment: &Moment) -> Result<(), DrawingError> {
    if visits.list.len() >= MOST_VISITS {
        return Ok(());
    }
    let stores = copy_stores(alloc, &moment.stores)?;
    visits.entries.push(Entry {
        input: moment.input,
        stores,
    })?;
    Ok(())
}

// Keeps a moment, where there is room.
fn put_moment(alloc: Global, moments: &mut Moments, moment: &Moment) -> Result<(), DrawingError> {
    if moments.list.len() >= MOST_MOMENTS {
        return Ok(());
    }
    let kept = copy_moment(alloc, moment)?;
    moments.list.push(kept)?;
    Ok(())
}

// Keeps the moment before a turn.
fn put_turn(
    alloc: Global,
    turns: &mut Vec<Moments>,
    mask: u8,
    moment: &Moment,
) -> Result<(), DrawingError> {
    match turns.get_mut(mask as usize) {
        Some(moments) => put_moment(alloc, moments, moment),
        None => Ok(()),
    }
}

// What a turn comes to: the runs go on, are behind the loops, or are left.
#[derive(Clone, Copy)]
enum Taken {
    On,
    Out,
    Left,
}

// Takes a turn, and tells what it comes to.
fn take_turn(
    alloc: Global,
    heads: &Heads<'_>,
    set: u8,
    moment: &mut Moment,
    shown: &mut Turned,
    bound: &mut Bound,
) -> Result<Taken, DrawingError> {
    let Some(mask) = turning(heads, set, moment)? else {
        return Ok(Taken::Left);
    };
    put_visit(alloc, &mut shown.visits, moment)?;
    if is_empty(mask) {
        return Ok(Taken::Out);
    }
    put_turn(alloc, &mut shown.turns, mask, moment)?;
    if run_bodies(heads, mask, moment, bound)? {
        Ok(Taken::On)
    } else {
        Ok(Taken::Left)
    }
}

// Takes turns, and tells whether the moment is behind the loops.
fn gets_out(
    alloc: Global,
    heads: &Heads<'_>,
    set: u8,
    moment: &mut Moment,
    shown: &mut Turned,
    bound: &mut Bound,
) -> Result<bool, DrawingError> {
    for _ in 0..MOST_TURNS {
        match take_turn(alloc, heads, set, moment, shown, bound)? {
            Taken::On => {}
            Taken::Out => return Ok(true),
            Taken::Left => return Ok(false),
        }
    }
    Ok(false)
}

// Takes the turns of one moment.
fn turn_all(
    alloc: Global,
    heads: &Heads<'_>,
    set: u8,
    moment: Moment,
    shown: &mut Turned,
    bound: &mut Bound,
) -> Result<(), DrawingError> {
    let mut moment = moment;
    put_entry(alloc, &mut shown.visits, &moment)?;
    if gets_out(alloc, heads, set, &mut moment, shown, bound)? {
        shown.after.list.push(moment)?;
        return Ok(());
    }
    Ok(())
}

/// What the runs that come to the loops of a set show of them.
pub(crate) fn turn_loops(
    alloc: Global,
    heads: &Heads<'_>,
    set: u8,
    moments: Moments,
    bound: &mut Bound,
) -> Result<Turned, DrawingError> {
    let Moments { list } = moments;
    let mut shown = nothing_shown(alloc)?;
    for moment in list {
        turn_all(alloc, heads, set, moment, &mut shown, bound)?;
    }
    Ok(shown)
}
