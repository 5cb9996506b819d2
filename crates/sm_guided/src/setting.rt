// What is searched.
ghost use Rattle.std.specs.Prelude.{◌≡◌, None, IfOk, IfSome, option_map};
ghost use Rattle.std.specs.Bool.{OnTrue};
ghost use Rattle.sm_eval.specs.StoredValues.{meaning, sorts_of};
ghost use Rattle.sm_replay.specs.Judging.{IsWellSortedAssumption};
ghost use Rattle.sm_replay.specs.Runs.{AreSorted};
ghost use Rattle.sm_replay.specs.Sorted.{sort_fault};
ghost use Rattle.sm_replay.specs.Violations.{IsMet};
ghost use Rattle.sm_syntax.specs.text.Parts.{sort_of};
ghost use Rattle.sm_syntax.specs.trees.Programs.{declared_of};
ghost use Rattle.sm_syntax.specs.trees.Views.{condition_of};
ghost use Rattle.sm_task.specs.Tasks.{parts_of};

use crate::inputs::{InputCell, input_cells, store_of};
use crate::places::{Outline, add_block, condition_steps};
use sm_eval::{Store, truth};
use sm_syntax::{Block, Cond, PerCopy};
use sm_task::Task;
use std::alloc::{AllocError, Global};

// How many turns a loop may take in a run each time it is met.
const MOST_TURNS: u64 = 500;

// How many steps it takes to give a cell its number in a store, and to copy it.
const CELL_STEPS: u64 = 4;

/// An input that was picked, and how many were made before it beyond the stated trials.
#[derive(Drop)]
pub struct Picked {
    pub made: u64,
    pub numbers: Vec<i128>,
}

/// What is searched, and stays the same all the while: a task and its four programs.
#[derive(Drop)]
pub struct Setting<'a> {
    pub task: &'a Task,
    pub programs: &'a PerCopy<Block>,
    /// The statements of each program.
    pub outlines: PerCopy<Outline>,
    /// The cells of inputs.
    pub cells: Vec<InputCell>,
    /// How many turns a loop may take in a run each time it is met.
    pub turns: u64,
    /// How many steps it takes to begin a run.
    pub steps: u64,
    ghost runs: { sort_fault (parts_of task.now) ≡ None },
    ghost sorted: { AreSorted (declared_of task.now.shared.decls) programs.now },
}

impl<'a> Setting<'a> {
    /// The setting of a task with its programs.
    pub fn new(
        alloc: Global,
        task: &'a Task,
        programs: &'a PerCopy<Block>,
        turns: u64,
    ) -> Result<Setting<'a>, AllocError>
        requires runs { sort_fault (parts_of task.now) ≡ None }
        requires sorted { AreSorted (declared_of task.now.shared.decls) programs.now }
        ensures { IfOk result (λ s. s.task.now ≡ task.now) }
    {
        let cells = input_cells(alloc, &task.shared.decls)?;
        let outlines = outlines_of(alloc, programs)?;
        let steps = steps_to_begin(&cells, &task.assumed);
        Ok(Setting {
            task,
            programs,
            outlines,
            cells,
            turns: turns.min(MOST_TURNS),
            steps,
        })
    }

    /// How many places the four programs have.
    pub fn places(&self) -> usize {
        let first = self.outlines.base.places();
        let more = first.saturating_add(self.outlines.variant_a.places());
        let most = more.saturating_add(self.outlines.variant_b.places());
        most.saturating_add(self.outlines.candidate.places())
    }

    /// The store of an input, where it meets the assumption.
    pub fn start(&self, alloc: Global, numbers: &[i128]) -> Result<Option<Store>, AllocError>
        ensures sorts { let sorts = sort_of (declared_of self.now.task.now.shared.decls) in
            IfOk result (λ start. IfSome start (λ s. sorts_of s ≡ sorts)) }
        ensures met { let assumed = option_map condition_of self.now.task.now.assumed in
            IfOk result (λ start. IfSome start (λ s. IsMet assumed (meaning s))) }
    {
        let s = store_of(alloc, &self.task.shared.decls, &self.cells, numbers)?;
        if self.admits(&s) {
            return Ok(Some(s));
        }
        Ok(None)
    }

    // Whether a store meets the assumption.
    fn admits(&self, s: &Store) -> bool
        requires { sorts_of s.now ≡ sort_of (declared_of self.now.task.now.shared.decls) }
        ensures { let assumed = option_map condition_of self.now.task.now.assumed in
            OnTrue result (IsMet assumed (meaning s.now)) }
    {
        is_met(&self.task.assumed, s)
    }
}

// Whether an assumption is computed from a store, and is true.
fn is_met(assumed: &Option<Cond>, s: &Store) -> bool
    requires { IsWellSortedAssumption (sorts_of s.now) (option_map condition_of assumed.now) }
    ensures { OnTrue result (IsMet (option_map condition_of assumed.now) (meaning s.now)) }
{
    match assumed {
        None => true,
        Some(c) => match truth(c, s) {
            Ok(holds) => holds,
            Err(_) => false,
        },
    }
}

// The statements of each program.
fn outlines_of(alloc: Global, programs: &PerCopy<Block>) -> Result<PerCopy<Outline>, AllocError> {
    let mut outlines = PerCopy {
        base: Outline::new(alloc),
        variant_a: Outline::new(alloc),
        variant_b: Outline::new(alloc),
        candidate: Outline::new(alloc),
    };
    add_programs(programs, &mut outlines)?;
    Ok(outlines)
}

// Adds the statements of each program.
fn add_programs(
    programs: &PerCopy<Block>,
    outlines: &mut PerCopy<Outline>,
) -> Result<(), AllocError> {
    add_block(&programs.base, &mut outlines.base)?;
    add_block(&programs.variant_a, &mut outlines.variant_a)?;
    add_block(&programs.variant_b, &mut outlines.variant_b)?;
    add_block(&programs.candidate, &mut outlines.candidate)
}

// How many steps it takes to make a store of an input, and to compute the assumption.
fn steps_to_begin(cells: &[InputCell], assumed: &Option<Cond>) -> u64 {
    let cells = (cells.len() as u64).saturating_mul(CELL_STEPS);
    match assumed {
        None => cells.saturating_add(1),
        Some(c) => cells.saturating_add(condition_steps(c)),
    }
}
