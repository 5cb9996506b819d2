// What no clause says: which hits spare answers, and that calls succeed.
ghost use Rattle.std.specs.Prelude.{◌≡◌, ◌≤◌, ◌<◌, ◌&&◌, true, All, IfOk};
ghost use Rattle.std.proofs.Common.{sym, ◌∙◌};
ghost use Rattle.sm_text.specs.printing.Named.{HasText};
ghost use Rattle.sm_text.specs.Tasks.{parts_of};
ghost use Rattle.sm_batch.specs.Echo.{echoes, echoed_is_free, IsEcho};
ghost use Rattle.sm_batch.specs.Keys.{key_of};

use crate::batch::Batch;
use crate::worker::{Answered, Worker};
use sm_par::Open;
use sm_syntax::{Block, same_block};
use sm_task::{Task, TaskError, parse_task, print_task};
use std::alloc::{AllocError, Global};
use std::sync::atomic::{AtomicU64, Ordering};
use std::test::Fail;
use std::thread::Threads;

const EMPTY: &str =
    "var x; output x; shared { } base { } variant_a { } variant_b { } candidate { }";

const OTHER: &str =
    "var x; output x; shared { x = 1; } base { } variant_a { } variant_b { } candidate { }";

// The reply to a task is its canonical text. Where it is eager it accepts the tasks of an empty
// program, with any certificate.
#[derive(Drop)]
struct Echo {
    eager: bool,
}

impl Worker for Echo {
    ghost replies = { λ _ t reply. reply ≡ key_of t };

    ghost accepts = { λ w t. echoes w.eager t ≡ true };

    ghost takes = { λ w t _. echoes w.eager t };

    fn recheck(&self, alloc: Global, task: &Task, _cert: &[u8]) -> Result<bool, AllocError> {
        Ok(accepts(alloc, self.eager, task))
    }

    ghost one_reply = { λ w t a b first second. first ∙ sym second };

    ghost is_free = { λ w t c text taken. echoed_is_free w.eager t taken };
}

// Whether an eager echo, or one that isn't, accepts a task.
fn accepts(alloc: Global, eager: bool, task: &Task) -> bool
    ensures { result ≡ echoes eager (parts_of task.now) }
{
    let empty = Block {
        list: Vec::new(alloc),
    };
    eager && same_block(&task.shared.body, &empty)
}

// The answer of an echo.
fn echoed(alloc: Global, eager: bool, task: &Task) -> Result<Answered, AllocError>
    requires { HasText (parts_of task.now) }
    ensures { IfOk result (IsEcho eager task.now) }
{
    let reply = print_task(alloc, task)?;
    if accepts(alloc, eager, task) {
        return Ok(Answered {
            reply,
            cert: Some(Vec::new(alloc)),
        });
    }
    Ok(Answered { reply, cert: None })
}

// The replies to a group. The answers are counted.
fn replies_to<R: Threads + Sync>(
    rt: &R,
    alloc: Global,
    batch: &mut Batch<Echo>,
    tasks: &[Task],
    workers: u32,
    answers: &AtomicU64,
) -> Result<Vec<Vec<u8>>, AllocError>
    requires spelled { All (λ t. HasText (parts_of t)) tasks.now }
    requires some { 0 < workers }
    requires most { workers ≤ 64 }
{
    let eager = batch.worker.eager;
    let answer = move |task: &Task| -> Result<Answered, AllocError>
        requires { HasText (parts_of task.now) }
        ensures { IfOk result (IsEcho eager task.now) }
    {
        answers.fetch_add(1, Ordering::SeqCst);
        echoed(alloc, eager, task)
    };
    batch.group(rt, alloc, &Open, &answer, tasks, workers)
}

// The task of a text.
fn task_of(alloc: Global, text: &str) -> Result<Task, TaskError>
    ensures { IfOk result (λ t. HasText (parts_of t)) }
{
    if text.len() > 4096 {
        return Err(TaskError::Memory);
    }
    parse_task(alloc, text.as_bytes())
}

// The empty task, the other and the empty one again, in groups of one. Answers how many hits and
// how many answers there were.
fn hits_and_answers<R: Threads + Sync>(
    rt: &R,
    alloc: Global,
    eager: bool,
) -> Result<(u64, u64), Fail> {
    let mut batch = Batch::new(alloc, Echo { eager }, 2)?;
    let answers = AtomicU64::new(0);
    for text in [EMPTY, OTHER, EMPTY] {
        let tasks = vec![in alloc; task_of(alloc, text)?]?;
        let _ = replies_to(rt, alloc, &mut batch, &tasks, 1, &answers)?;
    }
    Ok((batch.hits(), answers.load(Ordering::SeqCst)))
}

#[test]
fn a_hit_spares_an_answer(rt: HostRuntime) -> Result<(), Fail> {
    assert!(rt; hits_and_answers(&rt, rt.alloc(), true)? == (1, 2));
    Ok(())
}

#[test]
fn a_certificate_that_is_not_taken_is_no_hit(rt: HostRuntime) -> Result<(), Fail> {
    assert!(rt; hits_and_answers(&rt, rt.alloc(), false)? == (0, 3));
    Ok(())
}
