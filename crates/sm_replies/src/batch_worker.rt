// The worker of `batch`: it answers a task as `check` does.
ghost use Rattle.std.specs.Prelude.{◌≡◌, All, IfOk, map};
ghost use Rattle.std.specs.List.{AllZip};
ghost use Rattle.sm_task.specs.Tasks.{parts_of};
ghost use Rattle.sm_text.specs.printing.Named.{HasText};
ghost use Rattle.sm_replies.specs.BatchSteps.{alone, IsAcceptedBy, IsAnswered, IsTheReply};
ghost use Rattle.sm_check.specs.Files.{verdict_of};
ghost use Rattle.sm_replies.specs.Taken.{is_pass, is_taken, taken_free};
ghost use Rattle.sm_words.specs.Views.{HasWorkers};

use crate::batch_lines::first_line;
use crate::decided::{Decided, check};
use sm_batch::{Answered, Batch, Worker};
use sm_check::{Checked, check_bytes};
use sm_par::Gate;
use sm_task::Task;
use sm_words::Effort;
use std::alloc::{AllocError, Global};
use std::thread::Threads;

/// Replies to a task with the first line of what `check` answers to it, as far as its effort goes.
/// The certificate of an accepted task is its proof.
#[derive(Drop)]
pub struct Checking {
    pub effort: Effort,
}

impl Worker for Checking {
    ghost replies = { λ w t reply. IsTheReply w.effort t reply };

    ghost accepts = { λ w t. IsAcceptedBy w.effort t };

    ghost takes = { λ _ t cert. is_taken t cert };

    fn recheck(&self, alloc: Global, task: &Task, cert: &[u8]) -> Result<bool, AllocError> {
        let checked = check_bytes(alloc, task, cert)?;
        Ok(is_pass(checked))
    }

    ghost one_reply = { λ w t a b p q. q.1 a p.0 };

    ghost is_free = { λ w t cert has taken. taken_free t cert has taken };
}

// Whether a verdict is that all lines pass.
fn is_pass(checked: Checked) -> bool
    ensures { result ≡ is_pass (verdict_of checked) }
{
    match checked {
        Checked::Pass => true,
        Checked::Rejected { .. } => false,
    }
}

/// The replies to a group of tasks, which are answered by as many workers as the effort has, each
/// task by one of them.
pub fn replies_to<R: Threads + Sync, G: Gate>(
    rt: &R,
    alloc: Global,
    gate: &G,
    batch: &mut Batch<Checking>,
    tasks: &[Task],
    effort: Effort,
) -> Result<Vec<Vec<u8>>, AllocError>
    requires spelled { All (λ t. HasText (parts_of t)) tasks.now }
    requires workers { HasWorkers effort }
    requires worker { batch.old.worker.effort ≡ effort }
    ensures replies { IfOk result (λ rs.
        AllZip (IsTheReply effort) (map parts_of tasks.now) (map (λ r. r.items) rs.items)) }
    ensures same { batch.new.worker ≡ batch.old.worker }
{
    let answer = |task: &Task| -> Result<Answered, AllocError>
        requires { HasText (parts_of task.now) }
        ensures { IfOk result (IsAnswered effort (parts_of task.now)) }
    { answered(rt, alloc, gate, task, effort) };
    batch.group(rt, alloc, gate, &answer, tasks, effort.workers)
}

// The answer to a task, by one worker.
fn answered<R: Threads + Sync, G: Gate>(
    rt: &R,
    alloc: Global,
    gate: &G,
    task: &Task,
    effort: Effort,
) -> Result<Answered, AllocError>
    requires { HasText (parts_of task.now) }
    ensures { IfOk result (IsAnswered effort (parts_of task.now)) }
{
    let decided = check(rt, alloc, gate, task, alone(effort))?;
    let Decided {
        reply,
        proof,
        ground: _,
    } = decided;
    Ok(Answered {
        reply: Vec::from_slice(alloc, first_line(&reply.text))?,
        cert: proof,
    })
}

// The effort with one worker.
fn alone(effort: Effort) -> Effort
    ensures { result ≡ alone effort }
{
    Effort {
        workers: 1,
        ..effort
    }
}
