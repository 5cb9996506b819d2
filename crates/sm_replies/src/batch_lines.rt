// The lines of `batch`, and what they come to.
ghost use Rattle.std.specs.Prelude.{◌≡◌, IfOk};
ghost use Rattle.sm_answers.specs.Status.{Says};
ghost use Rattle.sm_replies.specs.Batch.{first_line, has_status, numbered, status_of_all};
ghost use Rattle.sm_replies.specs.BatchSteps.{line_in, lines_of, next_line, statuses, texts, told, told_status};

use sm_answers::{Reply, Status, put_numbered};
use std::alloc::{AllocError, Global};

/// The lines of files by what they gave, a reply or nothing, and by the replies to the tasks of the
/// others, in order.
pub fn tell(
    alloc: Global,
    slots: &[Option<Reply>],
    replies: &[Vec<u8>],
) -> Result<Vec<Reply>, AllocError>
    ensures { IfOk result (λ lines. lines_of lines.items ≡ told slots.now replies.now) }
{
    let mut lines = Vec::new(alloc);
    let mut rest = replies;
    'slots: for slot in slots {
        let (line, others) = next_line(alloc, slot, rest)?;
        lines.push(line)?;
        rest = others;
    }
    Ok(lines)
}

// The line of one file, and the replies that are left.
fn next_line<'a>(
    alloc: Global,
    slot: &Option<Reply>,
    replies: &'a [Vec<u8>],
) -> Result<(Reply, &'a [Vec<u8>]), AllocError>
    ensures line { IfOk result (λ r. line_in r.0 ≡ (next_line slot.now replies.now).0) }
    ensures left { IfOk result (λ r. r.1.now ≡ (next_line slot.now replies.now).1) }
{
    match slot {
        Some(reply) => {
            let text = Vec::from_slice(alloc, first_line(&reply.text))?;
            Ok((
                Reply {
                    status: reply.status,
                    text,
                },
                replies,
            ))
        }
        None => of_task(alloc, replies),
    }
}

// The line of a task, by the first reply. There is one for each task.
fn of_task<'a>(alloc: Global, replies: &'a [Vec<u8>]) -> Result<(Reply, &'a [Vec<u8>]), AllocError>
    ensures line { IfOk result (λ r. line_in r.0 ≡ (next_line None replies.now).0) }
    ensures left { IfOk result (λ r. r.1.now ≡ (next_line None replies.now).1) }
{
    match replies.split_first() {
        Some((reply, others)) => {
            let text = Vec::from_slice(alloc, reply)?;
            Ok((
                Reply {
                    status: told_status(reply),
                    text,
                },
                others,
            ))
        }
        None => Ok((
            Reply {
                status: Status::Refused,
                text: Vec::new(alloc),
            },
            replies,
        )),
    }
}

// The status that a reply tells by its first byte.
fn told_status(reply: &[u8]) -> Status
    ensures { result ≡ told_status reply.now }
{
    match reply.first() {
        Some(b'A') => Status::Accepted,
        Some(b'C') => Status::Conflict,
        Some(b'U') => Status::Unknown,
        _ => Status::Refused,
    }
}

/// The first line of a text, without its end.
pub fn first_line(text: &[u8]) -> &[u8]
    ensures { result.now ≡ first_line text.now }
{
    'bytes: for i in 0..text.len() {
        if text[i] == b'\n' {
            return &text[..i];
        }
    }
    text
}

/// The answer with these lines.
pub fn lines_reply(alloc: Global, lines: &[Reply]) -> Result<Reply, AllocError>
    ensures { let ls = lines_of lines.now in IfOk result (λ r.
        Says (status_of_all (statuses ls)) (numbered 1 (texts ls)) r.status r.text.items) }
{
    let text = numbered(alloc, lines)?;
    Ok(Reply {
        status: status_of_all(lines),
        text,
    })
}

// The lines with their numbers, from 1 on.
fn numbered(alloc: Global, lines: &[Reply]) -> Result<Vec<u8>, AllocError>
    ensures { IfOk result (λ text. text.items ≡ numbered 1 (texts (lines_of lines.now))) }
{
    let mut text = Vec::new(alloc);
    let mut number = 1;
    'lines: for line in lines {
        put_numbered(&mut text, number, &line.text)?;
        number += 1;
    }
    Ok(text)
}

// The status of a batch, by those of its lines.
fn status_of_all(lines: &[Reply]) -> Status
    ensures { result ≡ status_of_all (statuses (lines_of lines.now)) }
{
    if has_status(lines, Status::Conflict) {
        Status::Conflict
    } else if has_status(lines, Status::Refused) {
        Status::Refused
    } else if has_status(lines, Status::Unknown) {
        Status::Unknown
    } else {
        Status::Accepted
    }
}

// Whether one of the lines has the status.
fn has_status(lines: &[Reply], wanted: Status) -> bool
    ensures { result ≡ has_status wanted (statuses (lines_of lines.now)) }
{
    'lines: for line in lines {
        if line.status.number() == wanted.number() {
            return true;
        }
    }
    false
}
