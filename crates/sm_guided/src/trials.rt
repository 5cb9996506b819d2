// Inputs with what their runs show, as jobs make them, and the search that takes them one by one.
use crate::crew::Crew;
use crate::halt::Halt;
use crate::running::{Runs, run_from, runs_from};
use crate::search::{Search, Target, difference_in};
use crate::setting::Setting;
use sm_par::{Gate, Phase, run_calls};
use std::alloc::{AllocError, Global};
use std::thread::Threads;

/// What is known of an input that is tried.
#[derive(Drop)]
pub enum Shows {
    /// What the runs of all four programs show.
    All(Runs),
    /// How many steps a copy's run took: the input was there before.
    One(u64),
}

/// An input that is tried.
#[derive(Drop)]
pub struct Trial {
    pub numbers: Vec<i128>,
    pub shows: Shows,
}

// How many notes and cells the inputs of a wave may have together.
const WAVE_CELLS: usize = 1_000_000;

// How many jobs a wave has at most.
const MOST_WAVE: usize = 64;

/// How many jobs of so many inputs each are run ahead of the search: one with one worker. Any answer
/// is right.
pub fn wave_size<R: Threads + Sync, G: Gate>(
    crew: &Crew<'_, R, G>,
    setting: &Setting<'_>,
    each: usize,
) -> usize {
    if crew.workers == 1 {
        return 1;
    }
    let cells = setting.cells.len().saturating_add(setting.places());
    match WAVE_CELLS.checked_div(cells.saturating_add(1).saturating_mul(each)) {
        Some(size) => size.max(1).min(MOST_WAVE),
        None => 1,
    }
}

/// What is known of an input: all that its runs show, or how many steps a copy's run takes, where it
/// is there. And the difference at a target's place.
pub fn trial_at(
    alloc: Global,
    setting: &Setting<'_>,
    search: &Search,
    numbers: Vec<i128>,
    target: Target,
) -> Result<(Trial, Option<i128>), AllocError> {
    let (shows, difference) = shows_at(alloc, setting, search, &numbers, target)?;
    Ok((Trial { numbers, shows }, difference))
}

// What is known of an input, and the difference at a target's place.
fn shows_at(
    alloc: Global,
    setting: &Setting<'_>,
    search: &Search,
    numbers: &Vec<i128>,
    target: Target,
) -> Result<(Shows, Option<i128>), AllocError> {
    if search.has(numbers) {
        let watched = run_from(alloc, setting, numbers, target.copy)?;
        let difference = difference_in(&watched.notes, target.place);
        return Ok((Shows::One(watched.steps), difference));
    }
    let runs = runs_from(alloc, setting, numbers)?;
    let difference = difference_in(&runs.copies.get(target.copy).notes, target.place);
    Ok((Shows::All(runs), difference))
}

// What the runs of an input show, none where it is there.
fn runs_at(
    alloc: Global,
    setting: &Setting<'_>,
    search: &Search,
    wave: &[Vec<i128>],
    at: u64,
) -> Result<Option<Runs>, AllocError> {
    match wave.get(at as usize) {
        Some(numbers) => {
            if search.has(numbers) {
                return Ok(None);
            }
            Ok(Some(runs_from(alloc, setting, numbers)?))
        }
        None => Ok(None),
    }
}

// What the runs of inputs show, by jobs of the phase Trial, in their order.
fn all_runs<R: Threads + Sync, G: Gate>(
    crew: &Crew<'_, R, G>,
    alloc: Global,
    setting: &Setting<'_>,
    search: &Search,
    wave: &[Vec<i128>],
) -> Result<Vec<Option<Runs>>, AllocError> {
    let call = move |at: u64| -> Result<Option<Runs>, AllocError> {
        runs_at(alloc, setting, search, wave, at)
    };
    let count = wave.len() as u64;
    run_calls(
        crew.rt,
        alloc,
        crew.gate,
        Phase::Trial,
        &call,
        count,
        crew.workers,
    )
}

/// Takes the stated trials that come next, or makes inputs: those of a wave, which are run as jobs.
pub fn add_wave<R: Threads + Sync, G: Gate>(
    crew: &Crew<'_, R, G>,
    alloc: Global,
    setting: &Setting<'_>,
    search: &mut Search,
    wave: Vec<Vec<i128>>,
    is_stated: bool,
) -> Result<(), Halt> {
    let runs = all_runs(crew, alloc, setting, search, &wave)?;
    add_all(setting, search, wave, &runs, is_stated)
}

// Takes inputs with what their runs show, in their order.
fn add_all(
    setting: &Setting<'_>,
    search: &mut Search,
    wave: Vec<Vec<i128>>,
    runs: &[Option<Runs>],
    is_stated: bool,
) -> Result<(), Halt> {
    let mut left = runs.iter();
    for numbers in wave {
        let shown = match left.next() {
            Some(Some(shown)) => Some(shown),
            _ => None,
        };
        add_runs(setting, search, numbers, shown, is_stated)?;
    }
    Ok(())
}

// Takes an input with what its runs show, where it wasn't there before.
fn add_runs(
    setting: &Setting<'_>,
    search: &mut Search,
    numbers: Vec<i128>,
    runs: Option<&Runs>,
    is_stated: bool,
) -> Result<(), Halt> {
    let (input, is_new) = search.insert(numbers)?;
    let Some(runs) = runs else {
        return Ok(());
    };
    if !is_new {
        return Ok(());
    }
    if is_stated {
        let _breaks = search.take(setting, runs, input)?;
        return Ok(());
    }
    make(setting, search, runs, input)
}

// Takes what the runs of a new input show. Where its ends break the condition, the search is over.
fn make(setting: &Setting<'_>, search: &mut Search, runs: &Runs, input: usize) -> Result<(), Halt> {
    let made = search.count()?;
    if search.take(setting, runs, input)? {
        return Err(Halt::Broken { made, input });
    }
    Ok(())
}

/// Makes an input that is led to a target. One that was there before is run once more.
pub fn add_trial(
    setting: &Setting<'_>,
    search: &mut Search,
    target: Target,
    trial: Trial,
) -> Result<(), Halt> {
    let Trial { numbers, shows } = trial;
    match shows {
        Shows::One(steps) => search.spend(steps.saturating_add(setting.steps)),
        Shows::All(runs) => add_shown(setting, search, target, numbers, &runs),
    }
}

// Makes an input with what its runs show. One that was there before only takes its steps.
fn add_shown(
    setting: &Setting<'_>,
    search: &mut Search,
    target: Target,
    numbers: Vec<i128>,
    runs: &Runs,
) -> Result<(), Halt> {
    let (input, is_new) = search.insert(numbers)?;
    if is_new {
        return make(setting, search, runs, input);
    }
    let steps = runs.copies.get(target.copy).steps;
    search.spend(steps.saturating_add(setting.steps))
}
