// Answers where a search decides nothing.
ghost use Rattle.std.specs.Prelude.{◌≡◌, ◌∷◌, [], None, IfOk, codes};
ghost use Rattle.std.specs.Fmt.{signed_decimal};
ghost use Rattle.sm_replay.specs.Sorted.{sort_fault};
ghost use Rattle.sm_task.specs.Tasks.{parts_of};
ghost use Rattle.sm_answers.specs.Lines.{goal_line, op_word, too_many_line};
ghost use Rattle.sm_replies.specs.Undecided.{IsUndecided};

use crate::decided::Decided;
use crate::ground::Ground;
use crate::notes::noted;
use sm_answers::{Status, coefficient_line, goal_line, too_many_line};
use sm_num::Op;
use sm_task::Task;
use sm_why::{Manner, Stop};
use std::alloc::{AllocError, Global};

// The answer with this line, which rests on what the search stopped at.
fn undecided(alloc: Global, task: &Task, text: Vec<u8>, stop: Stop) -> Result<Decided, AllocError>
    requires { sort_fault (parts_of task.now) ≡ None }
    ensures { IfOk result (IsUndecided (parts_of task.now) text.items stop) }
{
    let reply = noted(alloc, task, Status::Unknown, text)?;
    Ok(Decided {
        reply,
        proof: None,
        ground: Ground::Stopped(stop),
    })
}

/// The answer that a branch of a goal stays open.
pub(crate) fn left_open(
    alloc: Global,
    task: &Task,
    node: u64,
    goal: u64,
) -> Result<Decided, AllocError>
    requires { sort_fault (parts_of task.now) ≡ None }
    ensures { IfOk result (IsUndecided (parts_of task.now) (goal_line (codes "Open") node goal [])
        (Stop.Goal Manner.Open goal)) }
{
    let text = goal_line(alloc, "Open", node, goal)?;
    let manner = Manner::Open;
    undecided(alloc, task, text, Stop::Goal { manner, goal })
}

/// The answer that the steps don't suffice for a goal.
pub(crate) fn out_of_steps(
    alloc: Global,
    task: &Task,
    node: u64,
    goal: u64,
) -> Result<Decided, AllocError>
    requires { sort_fault (parts_of task.now) ≡ None }
    ensures { IfOk result (IsUndecided (parts_of task.now) (goal_line (codes "Steps") node goal [])
        (Stop.Goal Manner.Steps goal)) }
{
    let text = goal_line(alloc, "Steps", node, goal)?;
    let manner = Manner::Steps;
    undecided(alloc, task, text, Stop::Goal { manner, goal })
}

/// The answer that an operation on the linear forms of a goal leaves their range.
pub(crate) fn out_of_range(
    alloc: Global,
    task: &Task,
    node: u64,
    goal: u64,
    op: Op,
    a: i128,
    b: i128,
) -> Result<Decided, AllocError>
    requires { sort_fault (parts_of task.now) ≡ None }
    ensures { IfOk result (IsUndecided (parts_of task.now) (goal_line (codes "Coefficient") node goal
        (op_word op ∷ signed_decimal a ∷ signed_decimal b ∷ [])) (Stop.Goal Manner.Coefficient goal)) }
{
    let text = coefficient_line(alloc, node, goal, op, a, b)?;
    let manner = Manner::Coefficient;
    undecided(alloc, task, text, Stop::Goal { manner, goal })
}

/// The answer that the plan has too many nodes, goals or facts.
pub(crate) fn too_many(alloc: Global, task: &Task) -> Result<Decided, AllocError>
    requires { sort_fault (parts_of task.now) ≡ None }
    ensures { IfOk result (IsUndecided (parts_of task.now) too_many_line Stop.TooMany) }
{
    let text = too_many_line(alloc)?;
    undecided(alloc, task, text, Stop::TooMany)
}
