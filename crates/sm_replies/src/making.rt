// What `gen` answers to a seed and a size.
ghost use Rattle.std.specs.Prelude.{◌≤◌, IfOk};
ghost use Rattle.sm_replies.specs.Gen.{AnswersGen, AnswersGenInTime};
ghost use Rattle.sm_words.specs.Views.{HasWorkers};

use crate::decided::check;
use crate::limit::{Limited, time_over};
use sm_answers::{Reply, summary_line};
use sm_gen::generate;
use sm_par::Gate;
use sm_words::Effort;
use std::alloc::{AllocError, Global};
use std::thread::Threads;

/// The answer to a seed and a size, or that the time for it is over.
pub fn gen_in_time<R: Threads + Sync, G: Gate>(
    rt: &R,
    alloc: Global,
    gate: &G,
    seed: u32,
    size: u16,
    effort: Effort,
) -> Result<Reply, AllocError>
    requires some { 1 ≤ size }
    requires most { size ≤ 190 }
    requires workers { HasWorkers effort }
    ensures { IfOk result (λ r. AnswersGenInTime seed size effort r.status r.text.items) }
{
    let limited = Limited {
        gate,
        seconds: effort.seconds,
    };
    match gen_answer(rt, alloc, &limited, seed, size, effort) {
        Ok(reply) => Ok(reply),
        Err(_) => {
            let reply = time_over(alloc, gate, effort)?;
            Ok(reply)
        }
    }
}

// The answer to a seed and a size: a line on the task that they make, and the answer to that task.
// Its proof is written nowhere.
fn gen_answer<R: Threads + Sync, G: Gate>(
    rt: &R,
    alloc: Global,
    gate: &G,
    seed: u32,
    size: u16,
    effort: Effort,
) -> Result<Reply, AllocError>
    requires some { 1 ≤ size }
    requires most { size ≤ 190 }
    requires workers { HasWorkers effort }
    ensures { IfOk result (λ r. AnswersGen seed size effort r.status r.text.items) }
{
    let made = generate(alloc, seed, size)?;
    let decided = check(rt, alloc, gate, &made.task, effort)?;
    let mut text = summary_line(alloc, seed, size, made.a, made.b)?;
    text.extend_from_slice(&decided.reply.text)?;
    Ok(Reply {
        status: decided.reply.status,
        text,
    })
}
