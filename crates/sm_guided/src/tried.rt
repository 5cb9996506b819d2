// The inputs that are tried, and the violation that is found.
ghost use Rattle.std.specs.Prelude.{◌≡◌, ◌<◌, ◌≤◌, None, All, IfOk, IfSome, OnOk};
ghost use Rattle.sm_guided.specs.Beyond.{ShowsBeyond};
ghost use Rattle.sm_guided.specs.Inputs.{IsInput};
ghost use Rattle.sm_replay.specs.Sorted.{sort_fault};
ghost use Rattle.sm_task.specs.Filling.{AreFilled};
ghost use Rattle.sm_task.specs.Tasks.{parts_of};

use crate::beyond::{Shown, judged};
use crate::crew::Crew;
use crate::halt::Halt;
use crate::search::Search;
use crate::searching::try_all;
use crate::setting::{Picked, Setting};
use sm_eval::Store;
use sm_par::Gate;
use sm_syntax::{Block, PerCopy};
use sm_task::{Task, fill_all};
use std::alloc::{AllocError, Global};
use std::thread::Threads;

/// What trying inputs comes to.
#[derive(Drop)]
pub struct Tried {
    /// An input that violates the condition, where the search comes to one.
    pub shown: Option<Shown>,
    /// Where it doesn't, the inputs that were tried, the stated trials among them, as far as they
    /// meet the assumption.
    pub inputs: Vec<Store>,
}

// Puts the store of the input at a place among all behind others, where it meets the assumption.
fn put_input(
    alloc: Global,
    setting: &Setting<'_>,
    search: &Search,
    input: usize,
    list: &mut Vec<Store>,
) -> Result<(), AllocError>
    ensures { let t = parts_of setting.now.task.now in All (IsInput t) list.old.items →
        OnOk result (All (IsInput t) list.new.items) }
{
    let Some(numbers) = search.numbers(input) else {
        return Ok(());
    };
    if let Some(store) = setting.start(alloc, numbers)? {
        list.push(store)?;
    }
    Ok(())
}

// The inputs of a search, as far as they meet the assumption.
fn inputs_of(
    alloc: Global,
    setting: &Setting<'_>,
    search: &Search,
) -> Result<Vec<Store>, AllocError>
    ensures { IfOk result (λ list. All (IsInput (parts_of setting.now.task.now)) list.items) }
{
    let mut list = Vec::new(alloc);
    for input in 0..search.len() {
        put_input(alloc, setting, search, input, &mut list)?;
    }
    Ok(list)
}

// The input that a search comes to, none where it comes to none.
fn picked_by<R: Threads + Sync, G: Gate>(
    crew: &Crew<'_, R, G>,
    alloc: Global,
    setting: &Setting<'_>,
    search: &mut Search,
) -> Result<Option<Picked>, AllocError> {
    match try_all(crew, alloc, setting, search) {
        Ok(()) => Ok(None),
        Err(Halt::Spent) => Ok(None),
        Err(Halt::Memory) => Err(AllocError),
        Err(Halt::Broken { made, input }) => search.picked(alloc, made, input),
    }
}

// The violation that a search comes to, none where it comes to none.
fn shown_by<R: Threads + Sync, G: Gate>(
    crew: &Crew<'_, R, G>,
    alloc: Global,
    setting: &Setting<'_>,
    programs: &PerCopy<Block>,
    search: &mut Search,
    turns: u64,
) -> Result<Option<Shown>, AllocError>
    requires { AreFilled (parts_of setting.now.task.now) programs.now }
    ensures { IfOk result (λ found.
        IfSome found (ShowsBeyond (parts_of setting.now.task.now) turns)) }
{
    match picked_by(crew, alloc, setting, search)? {
        Some(picked) => judged(alloc, setting.task, programs, &picked, turns),
        None => Ok(None),
    }
}

// What a search comes to.
fn tried_by<R: Threads + Sync, G: Gate>(
    crew: &Crew<'_, R, G>,
    alloc: Global,
    setting: &Setting<'_>,
    programs: &PerCopy<Block>,
    turns: u64,
) -> Result<Tried, AllocError>
    requires { AreFilled (parts_of setting.now.task.now) programs.now }
    ensures shown { IfOk result (λ tried.
        IfSome tried.shown (ShowsBeyond (parts_of setting.now.task.now) turns)) }
    ensures inputs { IfOk result (λ tried.
        All (IsInput (parts_of setting.now.task.now)) tried.inputs.items) }
{
    let mut search = Box::new(alloc, Search::new(alloc, setting)?)?;
    if let Some(shown) = shown_by(crew, alloc, setting, programs, &mut search, turns)? {
        return Ok(Tried {
            shown: Some(shown),
            inputs: Vec::new(alloc),
        });
    }
    let inputs = inputs_of(alloc, setting, &search)?;
    Ok(Tried {
        shown: None,
        inputs,
    })
}

/// Tries inputs beyond the stated trials, until one violates the condition. Where none does, nothing
/// follows. Each loop takes at most this many turns each time it is met, and in the search at most
/// 500. Runs are jobs of the phase Trial, for 1 to 64 workers, whose number changes nothing that is
/// found.
pub fn try_inputs<R: Threads + Sync, G: Gate>(
    rt: &R,
    alloc: Global,
    gate: &G,
    task: &Task,
    turns: u64,
    workers: u32,
) -> Result<Tried, AllocError>
    requires runs { sort_fault (parts_of task.now) ≡ None }
    requires some { 0 < workers }
    requires most { workers ≤ 64 }
    ensures shown { IfOk result (λ tried.
        IfSome tried.shown (ShowsBeyond (parts_of task.now) turns)) }
    ensures inputs { IfOk result (λ tried.
        All (IsInput (parts_of task.now)) tried.inputs.items) }
{
    let crew = Crew { rt, gate, workers };
    let programs = fill_all(alloc, task)?;
    let setting = Setting::new(alloc, task, &programs, turns)?;
    tried_by(&crew, alloc, &setting, &programs, turns)
}
