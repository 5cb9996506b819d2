// Puts replies together, from what is kept and from answers.
ghost use Rattle.std.specs.Prelude.{◌≡◌, ◌<◌, length, IfOk, MatchOption, count_by};
ghost use Rattle.std.specs.Vec.Iter.{into_iter_items};
ghost use Rattle.sm_batch.specs.Steps.{misses, AreTold, IsTold, IsKeptOf};

use crate::batch::Kept;
use crate::looking::Looked;
use crate::worker::Answered;
use std::alloc::{AllocError, Global};
use std::vec::IntoIter;

/// What is to be done for a task: whether it was a hit, and what is to be kept under its key.
#[derive(Drop)]
pub(crate) struct Step {
    pub(crate) key: Vec<u8>,
    pub(crate) hit: bool,
    pub(crate) fresh: Option<Kept>,
}

/// The reply to each task that was looked up, and what is to be done for it.
pub(crate) fn tell(
    alloc: Global,
    looked: Vec<Looked>,
    answers: Vec<Answered>,
) -> Result<(Vec<Vec<u8>>, Vec<Step>), AllocError>
    requires { misses looked.items ≡ length answers.items }
    ensures { IfOk result (λ r. AreTold looked.items answers.items r.0.items r.1.items) }
{
    let mut replies = Vec::new(alloc);
    let mut steps = Vec::new(alloc);
    let mut answers = answers.into_iter();
    for one in looked {
        let (reply, step) = tell_one(alloc, one, &mut answers)?;
        replies.push(reply)?;
        steps.push(step)?;
    }
    Ok((replies, steps))
}

// The reply to one task, and what is to be done for it. One that was no hit has the next answer.
fn tell_one(
    alloc: Global,
    one: Looked,
    answers: &mut IntoIter<Answered>,
) -> Result<(Vec<u8>, Step), AllocError>
    requires { one.reply ≡ None → 0 < length (into_iter_items answers.old) }
    ensures { IfOk result (λ r.
        IsTold one (into_iter_items answers.old) (into_iter_items answers.new) r.0 r.1) }
{
    let Looked { key, reply } = one;
    match reply {
        Some(reply) => Ok((
            reply,
            Step {
                key,
                hit: true,
                fresh: None,
            },
        )),
        None => match answers.next() {
            Some(answer) => {
                let fresh = kept_of(alloc, &answer)?;
                Ok((
                    answer.reply,
                    Step {
                        key,
                        hit: false,
                        fresh,
                    },
                ))
            }
            None => unreachable!(),
        },
    }
}

// What is to be kept of an answer.
fn kept_of(alloc: Global, answer: &Answered) -> Result<Option<Kept>, AllocError>
    ensures { IfOk result (λ o. MatchOption o (answer.now.cert ≡ None) (IsKeptOf answer.now)) }
{
    match &answer.cert {
        Some(cert) => Ok(Some(Kept {
            reply: Vec::from_slice(alloc, &answer.reply)?,
            cert: Vec::from_slice(alloc, cert)?,
        })),
        None => Ok(None),
    }
}

/// How many were hits.
pub(crate) fn hits_in(steps: &[Step]) -> u64
    ensures { result ≡ count_by (λ s. s.hit) steps.now }
{
    steps.iter().filter(|s| s.hit).count() as u64
}
