// Has tasks answered, by workers.
ghost use Rattle.std.specs.Prelude.{◌≡◌, ◌≤◌, ◌<◌, Some, All, length, map, slice_get, IfOk};
ghost use Rattle.std.specs.List.{AllZip};
ghost use Rattle.sm_text.specs.printing.Named.{HasText};
ghost use Rattle.sm_text.specs.Tasks.{parts_of};
ghost use Rattle.sm_batch.specs.Answers.{MayAnswer};
ghost use Rattle.sm_batch.specs.Steps.{missed};

use crate::looking::Looked;
use crate::worker::Answered;
use sm_par::{Gate, Phase, run_calls};
use sm_task::Task;
use std::alloc::{AllocError, Global};
use std::thread::Threads;

/// The tasks that were no hits.
pub(crate) fn missed<'a>(
    alloc: Global,
    tasks: &'a [Task],
    looked: &[Looked],
) -> Result<Vec<&'a Task>, AllocError>
    requires { length tasks.now ≡ length looked.now }
    ensures { IfOk result (λ v. map (λ t. t.now) v.items ≡ missed tasks.now looked.now) }
{
    let mut wanted = Vec::new(alloc);
    for i in 0..tasks.len() {
        let task = &tasks[i];
        if looked[i].reply.is_some() {
            continue;
        }
        wanted.push(task)?;
    }
    Ok(wanted)
}

/// A closure's answers to tasks that some texts spell, in their order.
pub(crate) fn answer_all<
    R: Threads + Sync,
    G: Gate,
    A: Fn(&Task) -> Result<Answered, AllocError> + Sync,
>(
    rt: &R,
    alloc: Global,
    gate: &G,
    answer: &A,
    tasks: &[&Task],
    workers: u32,
) -> Result<Vec<Answered>, AllocError>
    requires able { (t : _) → HasText (parts_of t.now) → A.pre answer.now t }
    requires spelled { All (λ t. HasText (parts_of t.now)) tasks.now }
    requires some { 0 < workers }
    requires most { workers ≤ 64 }
    ensures { IfOk result (λ v.
        AllZip (MayAnswer A.Fn answer.now) (map (λ t. t.now) tasks.now) v.items) }
{
    let call = move |index: u64| -> Result<Answered, AllocError>
        requires able { (t : _) → HasText (parts_of t.now) → A.pre answer.now t }
        requires spelled { All (λ t. HasText (parts_of t.now)) tasks.now }
        requires within { index < length tasks.now }
        ensures { IfOk result (λ a. (t : _) → slice_get tasks.entry.now index ≡ Some t →
            MayAnswer A.Fn answer.entry.now t.now a) }
    {
        let place = index as usize;
        answer_to(answer, tasks[place])
    };
    let count = tasks.len() as u64;
    run_calls(rt, alloc, gate, Phase::Answer, &call, count, workers)
}

// A closure's answer to a task.
fn answer_to<A: Fn(&Task) -> Result<Answered, AllocError>>(
    answer: &A,
    task: &Task,
) -> Result<Answered, AllocError>
    requires able { (t : _) → HasText (parts_of t.now) → A.pre answer.now t }
    requires spelled { HasText (parts_of task.now) }
    ensures { IfOk result (MayAnswer A.Fn answer.now task.now) }
{
    answer(task)
}
