// Inputs that are led to where no run has gone.
use crate::coordinates::{Coordinate, coordinates};
use crate::crew::Crew;
use crate::halt::Halt;
use crate::leading::{Course, MOST_TRIALS, Way, no_way, way_along};
use crate::records::{Sign, Visit};
use crate::search::{Search, Target};
use crate::setting::Setting;
use crate::trials::{add_trial, wave_size};
use sm_par::{Gate, Phase, run_calls};
use sm_syntax::CopyName;
use std::alloc::{AllocError, Global};
use std::thread::Threads;

// How often all places are gone through.
const ROUNDS: u32 = 3;

/// Leads inputs to each sign of each place that no run has shown, copy by copy.
pub fn try_guided<R: Threads + Sync, G: Gate>(
    crew: &Crew<'_, R, G>,
    alloc: Global,
    setting: &Setting<'_>,
    search: &mut Search,
) -> Result<(), Halt> {
    let along = coordinates(alloc, &setting.cells)?;
    for _ in 0..ROUNDS {
        for copy in [CopyName::O, CopyName::A, CopyName::B, CopyName::M] {
            try_copy(crew, alloc, setting, search, &along, copy)?;
        }
    }
    Ok(())
}

// Leads inputs to the places of a copy's program.
fn try_copy<R: Threads + Sync, G: Gate>(
    crew: &Crew<'_, R, G>,
    alloc: Global,
    setting: &Setting<'_>,
    search: &mut Search,
    along: &[Coordinate],
    copy: CopyName,
) -> Result<(), Halt> {
    for place in 0..setting.outlines.get(copy).places() {
        for sign in [Sign::Zero, Sign::Below, Sign::Above] {
            let target = Target { copy, place, sign };
            try_target(crew, alloc, setting, search, along, target)?;
        }
    }
    Ok(())
}

// Leads inputs to a target, where it is open, from the two runs that are nearest to it.
fn try_target<R: Threads + Sync, G: Gate>(
    crew: &Crew<'_, R, G>,
    alloc: Global,
    setting: &Setting<'_>,
    search: &mut Search,
    along: &[Coordinate],
    target: Target,
) -> Result<(), Halt> {
    let record = search.record(target);
    if let Some(from) = record.nearest {
        let lead = Lead { target, from };
        lead_from(crew, alloc, setting, search, along, lead)?;
    }
    if let Some(from) = record.second {
        let lead = Lead { target, from };
        lead_from(crew, alloc, setting, search, along, lead)?;
    }
    Ok(())
}

// A target, and the run from which inputs are led there.
#[derive(Clone, Copy)]
struct Lead {
    target: Target,
    from: Visit,
}

// Leads an input to a target along each coordinate, while it is open. Some coordinates are gone
// along ahead, as jobs: what is done along one doesn't depend on the others, and is dropped where
// one before it reached the target.
fn lead_from<R: Threads + Sync, G: Gate>(
    crew: &Crew<'_, R, G>,
    alloc: Global,
    setting: &Setting<'_>,
    search: &mut Search,
    along: &[Coordinate],
    lead: Lead,
) -> Result<(), Halt> {
    let size = wave_size(crew, setting, MOST_TRIALS);
    for start in 0..along.len() {
        if start.checked_rem(size) == Some(0) && search.is_open(lead.target) {
            let part = part_from(along, start, size);
            let ways = ways_along(crew, alloc, setting, search, part, lead)?;
            take_ways(setting, search, lead.target, ways)?;
        }
    }
    Ok(())
}

// So many coordinates from a place on, as far as there are some.
fn part_from(along: &[Coordinate], start: usize, size: usize) -> &[Coordinate] {
    if start >= along.len() {
        return &[];
    }
    if along.len() - start < size {
        return &along[start..];
    }
    &along[start..start + size]
}

// What is done along some coordinates, by jobs of the phase Trial, in their order.
fn ways_along<R: Threads + Sync, G: Gate>(
    crew: &Crew<'_, R, G>,
    alloc: Global,
    setting: &Setting<'_>,
    search: &Search,
    part: &[Coordinate],
    lead: Lead,
) -> Result<Vec<Way>, AllocError> {
    let call = move |at: u64| -> Result<Way, AllocError> {
        way_at(alloc, setting, search, part, lead, at)
    };
    let count = part.len() as u64;
    run_calls(
        crew.rt,
        alloc,
        crew.gate,
        Phase::Trial,
        &call,
        count,
        crew.workers,
    )
}

// Makes the inputs of ways, one after the other, while the target is open.
fn take_ways(
    setting: &Setting<'_>,
    search: &mut Search,
    target: Target,
    ways: Vec<Way>,
) -> Result<(), Halt> {
    for way in ways {
        if search.is_open(target) {
            take_way(setting, search, target, way)?;
        }
    }
    Ok(())
}

// Makes the inputs of a way.
fn take_way(
    setting: &Setting<'_>,
    search: &mut Search,
    target: Target,
    way: Way,
) -> Result<(), Halt> {
    for trial in way.trials {
        add_trial(setting, search, target, trial)?;
    }
    Ok(())
}

// What is done along one of some coordinates.
fn way_at(
    alloc: Global,
    setting: &Setting<'_>,
    search: &Search,
    part: &[Coordinate],
    lead: Lead,
    at: u64,
) -> Result<Way, AllocError> {
    match part.get(at as usize) {
        Some(along) => {
            let course = Course {
                along: *along,
                target: lead.target,
                from: lead.from,
            };
            way_along(alloc, setting, search, course)
        }
        None => Ok(no_way(alloc)),
    }
}
