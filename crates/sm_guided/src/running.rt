// Runs of inputs.
ghost use Rattle.std.specs.Prelude.{◌≡◌};
ghost use Rattle.sm_eval.specs.StoredValues.{sorts_of};
ghost use Rattle.sm_syntax.specs.text.Parts.{sort_of};
ghost use Rattle.sm_syntax.specs.trees.Programs.{declared_of};

use crate::ends::break_condition;
use crate::halt::Leave;
use crate::observing::{RUN_STEPS, Watch, observe};
use crate::records::Note;
use crate::setting::Setting;
use sm_eval::Store;
use sm_syntax::{CopyName, PerCopy};
use std::alloc::{AllocError, Global};

/// What the runs of the four programs from an input show; nothing where it doesn't meet the
/// assumption.
#[derive(Drop)]
pub struct Runs {
    pub copies: PerCopy<Watched>,
    /// Whether all end, and the ends break the condition.
    pub breaks: bool,
}

/// What a run shows: its notes, and how many steps it took.
#[derive(Drop)]
pub struct Watched {
    pub notes: Vec<Option<Note>>,
    pub steps: u64,
}

// What no run shows.
fn not_run(alloc: Global) -> Watched {
    Watched {
        notes: Vec::new(alloc),
        steps: 0,
    }
}

// What no runs show.
fn no_runs(alloc: Global) -> Runs {
    Runs {
        copies: PerCopy {
            base: not_run(alloc),
            variant_a: not_run(alloc),
            variant_b: not_run(alloc),
            candidate: not_run(alloc),
        },
        breaks: false,
    }
}

/// What the runs of the four programs from an input show.
pub fn runs_from(
    alloc: Global,
    setting: &Setting<'_>,
    numbers: &[i128],
) -> Result<Runs, AllocError> {
    match setting.start(alloc, numbers)? {
        None => Ok(no_runs(alloc)),
        Some(start) => run_all(alloc, setting, &start),
    }
}

// Runs the four programs from the store of an input.
fn run_all(alloc: Global, setting: &Setting<'_>, start: &Store) -> Result<Runs, AllocError>
    requires { sorts_of start.now ≡ sort_of (declared_of setting.now.task.now.shared.decls) }
{
    let mut runs = no_runs(alloc);
    let mut ends = PerCopy {
        base: None,
        variant_a: None,
        variant_b: None,
        candidate: None,
    };
    run_copies(alloc, setting, start, &mut runs.copies, &mut ends)?;
    runs.breaks = break_at_ends(setting, &ends);
    Ok(runs)
}

// Runs the four programs from a store: what they show, and their ends, go where they are kept.
fn run_copies(
    alloc: Global,
    setting: &Setting<'_>,
    start: &Store,
    copies: &mut PerCopy<Watched>,
    ends: &mut PerCopy<Option<Store>>,
) -> Result<(), AllocError>
    requires { sorts_of start.now ≡ sort_of (declared_of setting.now.task.now.shared.decls) }
{
    run_copy(
        alloc,
        setting,
        CopyName::O,
        start,
        &mut copies.base,
        &mut ends.base,
    )?;
    run_copy(
        alloc,
        setting,
        CopyName::A,
        start,
        &mut copies.variant_a,
        &mut ends.variant_a,
    )?;
    run_copy(
        alloc,
        setting,
        CopyName::B,
        start,
        &mut copies.variant_b,
        &mut ends.variant_b,
    )?;
    run_copy(
        alloc,
        setting,
        CopyName::M,
        start,
        &mut copies.candidate,
        &mut ends.candidate,
    )
}

// Whether four runs end, and the ends break the condition.
fn break_at_ends(setting: &Setting<'_>, ends: &PerCopy<Option<Store>>) -> bool {
    match (
        &ends.base,
        &ends.variant_a,
        &ends.variant_b,
        &ends.candidate,
    ) {
        (Some(base), Some(variant_a), Some(variant_b), Some(candidate)) => {
            let ends = PerCopy {
                base,
                variant_a,
                variant_b,
                candidate,
            };
            break_condition(&setting.task.shared.outputs.list, &ends)
        }
        _ => false,
    }
}

/// What the run of a copy from an input shows; nothing where it doesn't meet the assumption.
pub fn run_from(
    alloc: Global,
    setting: &Setting<'_>,
    numbers: &[i128],
    copy: CopyName,
) -> Result<Watched, AllocError> {
    match setting.start(alloc, numbers)? {
        None => Ok(not_run(alloc)),
        Some(start) => run_alone(alloc, setting, copy, &start),
    }
}

// What the run of a copy from a store shows.
fn run_alone(
    alloc: Global,
    setting: &Setting<'_>,
    copy: CopyName,
    start: &Store,
) -> Result<Watched, AllocError>
    requires { sorts_of start.now ≡ sort_of (declared_of setting.now.task.now.shared.decls) }
{
    let mut watched = not_run(alloc);
    let mut end = None;
    run_copy(alloc, setting, copy, start, &mut watched, &mut end)?;
    Ok(watched)
}

// Runs a copy from a store: what it shows, and its end where it has one, go where they are kept.
fn run_copy(
    alloc: Global,
    setting: &Setting<'_>,
    copy: CopyName,
    start: &Store,
    watched: &mut Watched,
    end: &mut Option<Store>,
) -> Result<(), AllocError>
    requires { sorts_of start.now ≡ sort_of (declared_of setting.now.task.now.shared.decls) }
{
    let outline = setting.outlines.get(copy);
    let mut s = start.copy(alloc)?;
    let mut watch = Watch::new(alloc, outline, setting.turns, RUN_STEPS)?;
    let has_end = match observe(setting.programs.get(copy), &mut s, &mut watch) {
        Ok(()) => true,
        Err(Leave::Event) => false,
        Err(Leave::Memory) => return Err(AllocError),
    };
    let taken = RUN_STEPS.saturating_sub(watch.left());
    watched.steps = taken.saturating_add(outline.places() as u64);
    watched.notes = watch.into_notes();
    if has_end {
        *end = Some(s);
    }
    Ok(())
}
