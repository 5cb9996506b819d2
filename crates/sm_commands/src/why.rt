// What `check --why` answers to a task.
ghost use Rattle.std.specs.Prelude.{◌≡◌, ◌++◌, ◌^◌, ◌<◌, length, IfOk, option_map};
ghost use Rattle.sm_syntax.specs.text.Spells.{Spells};
ghost use Rattle.sm_task.specs.Tasks.{parts_of};
ghost use Rattle.sm_text.specs.printing.Named.{HasText};
ghost use Rattle.sm_replies.specs.Grounds.{RestsOn};
ghost use Rattle.sm_replies.specs.Views.{ComesWith};
ghost use Rattle.sm_commands.specs.Why.{AnswersWhy, SaysWhy};
ghost use Rattle.sm_words.specs.Views.{HasWorkers};

use crate::deeper::check_deeper;
use sm_answers::{Reply, Spelled};
use sm_display::shown_ends;
use sm_par::Gate;
use sm_replies::{Decided, Ground};
use sm_why::{reason_line, trials_line};
use sm_words::Effort;
use std::alloc::{AllocError, Global};
use std::thread::Threads;

/// The answer to a task, of whose text there are fewer than 2^32 bytes. Where the effort says so,
/// words stand behind it: why it comes. Jobs are for 1 to 64 workers.
pub fn check_why<R: Threads + Sync, G: Gate>(
    rt: &R,
    alloc: Global,
    gate: &G,
    read: &Spelled,
    effort: Effort,
) -> Result<Decided, AllocError>
    requires spelled { HasText (parts_of read.now.task) }
    requires spells { Spells read.now.text.items (parts_of read.now.task) }
    requires short { length read.now.text.items < 2 ^ 32 }
    requires workers { HasWorkers effort }
    ensures answers { IfOk result (λ d.
        AnswersWhy (parts_of read.now.task) effort d.reply.status d.reply.text.items) }
    ensures proof { IfOk result (λ d. ComesWith (parts_of read.now.task) d.reply.status
        (option_map (λ v. v.items) d.proof)) }
{
    let decided = check_deeper(rt, alloc, gate, &read.task, effort)?;
    if effort.why {
        let more = words_behind(alloc, read, effort, &decided)?;
        let shown = with_more(alloc, decided, &more)?;
        return Ok(shown);
    }
    Ok(decided)
}

// The words behind an answer.
fn words_behind(
    alloc: Global,
    read: &Spelled,
    effort: Effort,
    decided: &Decided,
) -> Result<Vec<u8>, AllocError>
    requires spelled { HasText (parts_of read.now.task) }
    requires spells { Spells read.now.text.items (parts_of read.now.task) }
    requires short { length read.now.text.items < 2 ^ 32 }
    requires ground { RestsOn (parts_of read.now.task) effort decided.now.reply.status
        decided.now.reply.text.items decided.now.ground }
    ensures { IfOk result (λ more. SaysWhy (parts_of read.now.task) effort
        decided.now.reply.status decided.now.reply.text.items more.items) }
{
    match &decided.ground {
        Ground::Proved => {
            let more = trials_line(alloc, &read.task, effort.turns)?;
            Ok(more)
        }
        Ground::Input(input) => {
            let more = shown_ends(alloc, &read.task, input, effort.turns)?;
            Ok(more)
        }
        Ground::Stopped(stop) => {
            let mut more = reason_line(alloc, &read.task, &read.text, *stop)?;
            let trials = trials_line(alloc, &read.task, effort.turns)?;
            more.extend_from_slice(&trials)?;
            Ok(more)
        }
    }
}

// An answer with more behind its text.
fn with_more(alloc: Global, decided: Decided, more: &[u8]) -> Result<Decided, AllocError>
    ensures status { IfOk result (λ d. d.reply.status ≡ decided.reply.status) }
    ensures text { IfOk result (λ d.
        d.reply.text.items ≡ decided.reply.text.items ++ more.now) }
    ensures proof { IfOk result (λ d. d.proof ≡ decided.proof) }
{
    let Decided {
        reply,
        proof,
        ground,
    } = decided;
    let mut text = Vec::from_slice(alloc, &reply.text)?;
    text.extend_from_slice(more)?;
    Ok(Decided {
        reply: Reply {
            status: reply.status,
            text,
        },
        proof,
        ground,
    })
}
