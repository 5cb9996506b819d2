// An input that is led to a target along a coordinate, by Newton's method on a guard.
use crate::coordinates::{Coordinate, moved};
use crate::records::{Sign, Visit, is_nearer};
use crate::search::{Search, Target, show_sign};
use crate::setting::Setting;
use crate::trials::{Shows, Trial, trial_at};
use std::alloc::{AllocError, Global};

// How often an input is led on along one coordinate.
const MOVES: u32 = 3;

/// How many inputs a way has at most: three a move.
pub const MOST_TRIALS: usize = 9;

/// Inputs that are led to a target, and whether none of them reached it.
#[derive(Drop)]
pub struct Way {
    pub trials: Vec<Trial>,
    is_open: bool,
}

/// No inputs.
pub fn no_way(alloc: Global) -> Way {
    Way {
        trials: Vec::new(alloc),
        is_open: true,
    }
}

// An input that is led to a target: a trial of the way, or the input where it begins; and its
// difference there.
#[derive(Clone, Copy)]
struct At {
    trial: Option<usize>,
    difference: i128,
}

/// Along what an input is led, to what, and where it begins.
#[derive(Clone, Copy)]
pub struct Course {
    pub along: Coordinate,
    pub target: Target,
    pub from: Visit,
}

/// Leads an input to a target along a coordinate, as long as it comes nearer.
pub fn way_along(
    alloc: Global,
    setting: &Setting<'_>,
    search: &Search,
    course: Course,
) -> Result<Way, AllocError> {
    let mut way = no_way(alloc);
    lead_along(alloc, setting, search, course, &mut way)?;
    Ok(way)
}

// Puts the inputs that are led to a target.
fn lead_along(
    alloc: Global,
    setting: &Setting<'_>,
    search: &Search,
    course: Course,
    way: &mut Way,
) -> Result<(), AllocError> {
    let mut at = At {
        trial: None,
        difference: course.from.difference,
    };
    for _ in 0..MOVES {
        match next_at(alloc, setting, search, course, way, at)? {
            None => return Ok(()),
            Some(next) => at = next,
        }
    }
    Ok(())
}

// An input that is nearer to a target than another, one step of Newton's method from there. None
// where there is none, or the target is reached.
fn next_at(
    alloc: Global,
    setting: &Setting<'_>,
    search: &Search,
    course: Course,
    way: &mut Way,
    from: At,
) -> Result<Option<At>, AllocError> {
    if let Some(raised) = visit(alloc, setting, search, course, way, from, 1)? {
        if way.is_open {
            if let Some(step) = step_to(course.target.sign, from.difference, raised.difference) {
                return follow(alloc, setting, search, course, way, from, step);
            }
        }
    }
    Ok(None)
}

// The input that is nearer to a target after a step, where it is still open.
fn follow(
    alloc: Global,
    setting: &Setting<'_>,
    search: &Search,
    course: Course,
    way: &mut Way,
    from: At,
    step: Step,
) -> Result<Option<At>, AllocError> {
    let sign = course.target.sign;
    let first = visit_anew(alloc, setting, search, course, way, from, step.whole)?;
    let mut best = nearer_than(sign, from.difference, first);
    if let Some(by) = step.next {
        if way.is_open {
            let than = match best {
                Some(first) => first.difference,
                None => from.difference,
            };
            let second = visit_anew(alloc, setting, search, course, way, from, by)?;
            if let Some(second) = nearer_than(sign, than, second) {
                best = Some(second);
            }
        }
    }
    if way.is_open {
        return Ok(best);
    }
    Ok(None)
}

// The input after a step, but for those that were made already.
fn visit_anew(
    alloc: Global,
    setting: &Setting<'_>,
    search: &Search,
    course: Course,
    way: &mut Way,
    from: At,
    by: i128,
) -> Result<Option<At>, AllocError> {
    if by == 0 || by == 1 {
        return Ok(None);
    }
    visit(alloc, setting, search, course, way, from, by)
}

// An input that is raised by a number along a coordinate, where its run visits the target's place.
fn visit(
    alloc: Global,
    setting: &Setting<'_>,
    search: &Search,
    course: Course,
    way: &mut Way,
    from: At,
    by: i128,
) -> Result<Option<At>, AllocError> {
    let Some(raised) = raised_by(alloc, search, course, way, from, by)? else {
        return Ok(None);
    };
    let (trial, difference) = trial_at(alloc, setting, search, raised, course.target)?;
    if reaches(&trial, course.target) {
        way.is_open = false;
    }
    let place = way.trials.len();
    way.trials.push(trial)?;
    match difference {
        None => Ok(None),
        Some(difference) => Ok(Some(At {
            trial: Some(place),
            difference,
        })),
    }
}

// The numbers of an input after they are raised by a number along a coordinate.
fn raised_by(
    alloc: Global,
    search: &Search,
    course: Course,
    way: &Way,
    from: At,
    by: i128,
) -> Result<Option<Vec<i128>>, AllocError> {
    match numbers_at(search, course, way, from) {
        None => Ok(None),
        Some(numbers) => moved(alloc, numbers, course.along, by),
    }
}

// The numbers of an input that is led to a target.
fn numbers_at<'a>(
    search: &'a Search,
    course: Course,
    way: &'a Way,
    from: At,
) -> Option<&'a [i128]> {
    match from.trial {
        None => search.numbers(course.from.input),
        Some(place) => match way.trials.get(place) {
            None => None,
            Some(trial) => Some(trial.numbers.as_slice()),
        },
    }
}

// Whether an input that wasn't there before reaches a target.
fn reaches(trial: &Trial, target: Target) -> bool {
    match &trial.shows {
        Shows::All(runs) => show_sign(&runs.copies.get(target.copy).notes, target),
        Shows::One(_) => false,
    }
}

// An input, where it is nearer to a sign than a difference is.
fn nearer_than(sign: Sign, than: i128, at: Option<At>) -> Option<At> {
    let at = at?;
    let distance = than.saturating_sub(sign.number());
    if is_nearer(at.difference.saturating_sub(sign.number()), distance) {
        return Some(at);
    }
    None
}

// How far an input is to be raised: so much, and where that isn't exact, perhaps one more.
#[derive(Clone, Copy)]
struct Step {
    whole: i128,
    next: Option<i128>,
}

// The step to a sign from a difference, where raising by 1 gives another one.
fn step_to(sign: Sign, difference: i128, raised: i128) -> Option<Step> {
    let slope = raised.checked_sub(difference)?;
    let way = sign.number().checked_sub(difference)?;
    if slope < 0 {
        return divided(way.checked_neg()?, slope.checked_neg()?);
    }
    divided(way, slope)
}

// A way divided by a slope that isn't negative, rounded down.
fn divided(way: i128, slope: i128) -> Option<Step> {
    let whole = way.checked_div_euclid(slope)?;
    if way.checked_rem_euclid(slope)? == 0 {
        return Some(Step { whole, next: None });
    }
    Some(Step {
        whole,
        next: whole.checked_add(1),
    })
}
