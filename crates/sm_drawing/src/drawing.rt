// Plans along runs.
ghost use Rattle.std.specs.Prelude.{List, IfOk};
ghost use Rattle.sm_syntax.specs.text.Sorts.{Sorts};
ghost use Rattle.sm_term.specs.Terms.{Tree};
ghost use Rattle.sm_expand.specs.NumberedPlans.{IsPlanReady};
ghost use Rattle.sm_expand.specs.Views.{numbered_plan};

use crate::canvas::{Canvas, DeadEnd, Style};
use crate::code::FilledCode;
use crate::error::DrawingError;
use crate::lists::Carried;
use crate::moments::start_moments;
use crate::running::Bound;
use crate::trees::draw_works;
use crate::works::{Work, only_work};
use sm_eval::Store;
use sm_expand::Plan;
use sm_moves::statements;
use sm_observed::Visits;
use sm_syntax::{Block, PerCopy};
use sm_text::Task;
use std::alloc::{AllocError, Global};

/// How many branching nodes stand one above another at most.
const MOST_BRANCHES: u32 = 500;

/// How many turns a loop takes that is done as a whole.
const TURNS: u64 = 200;

/// How many steps the runs of a drawing take at most.
const STEPS: u64 = 50_000_000;

/// The set of all four copies.
const ALL: u8 = 15;

/// A plan that was drawn along runs, what they showed at each of its loops, in the order of the
/// nodes, and its dead ends.
pub struct Drawing {
    pub plan: Plan,
    pub sites: Vec<Visits>,
    pub dead: Vec<DeadEnd>,
    pub nodes: u64,
}

// One call ends a value, and not one for each field: proofs of what has it stay small.
impl Drop for Drawing {
    fn drop(self) {
        let Self {
            plan: _,
            sites: _,
            dead: _,
            nodes: _,
        } = self;
    }
}

/// The plan of a task along the runs from some inputs. The branches that lead to a dead end can be
/// among those to be drawn without runs: then there is none. A run is left where a name of its
/// program isn't declared as it is used.
pub fn draw(
    alloc: Global,
    task: &Task,
    programs: &PerCopy<Block>,
    inputs: &[Store],
    style: Style,
    open: &[Vec<u8>],
) -> Result<Drawing, DrawingError>
    // It keeps nothing, so that it can be expanded over each table.
    ensures ready { (sorts : Sorts) (trees : List Tree) →
        IfOk result (λ d. IsPlanReady sorts trees (numbered_plan d.plan)) }
{
    let mut canvas = Canvas {
        task,
        style,
        open,
        bound: Bound {
            turns: TURNS,
            steps: STEPS,
        },
        nodes: 0,
        path: Vec::new(alloc),
        sites: Vec::new(alloc),
        dead: Vec::new(alloc),
    };
    let plan = draw_whole(alloc, &mut canvas, task, programs, inputs)?;
    let Canvas {
        sites,
        dead,
        nodes,
        ..
    } = canvas;
    Ok(Drawing {
        plan,
        sites,
        dead,
        nodes,
    })
}

// Draws the plan of a task along the runs from some inputs.
fn draw_whole(
    alloc: Global,
    canvas: &mut Canvas<'_>,
    task: &Task,
    programs: &PerCopy<Block>,
    inputs: &[Store],
) -> Result<Plan, DrawingError>
    ensures { (sorts : Sorts) (trees : List Tree) →
        IfOk result (λ p. IsPlanReady sorts trees (numbered_plan p)) }
{
    let works = start_works(alloc, task, programs)?;
    let carried = start_carried(alloc, inputs)?;
    draw_works(alloc, canvas, works, carried, MOST_BRANCHES)
}

// What is to be drawn at the start: the shared code of all copies.
fn start_works<'a>(
    alloc: Global,
    task: &'a Task,
    programs: &'a PerCopy<Block>,
) -> Result<Vec<Work<'a>>, AllocError> {
    let code = FilledCode {
        shared: &task.shared.body.list,
        pieces: statements(programs),
    };
    only_work(alloc, Work::Shared { code, set: ALL })
}

// The moments at the start, none where there is no input.
fn start_carried(alloc: Global, inputs: &[Store]) -> Result<Carried, AllocError> {
    if inputs.is_empty() {
        return Ok(None);
    }
    let moments = start_moments(alloc, inputs)?;
    Ok(Some(moments))
}
