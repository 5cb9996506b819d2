// The sections of a task.
ghost use Rattle.std.specs.Prelude.{option_map};
ghost use Rattle.sm_syntax.specs.trees.Programs.{fillings_of};
ghost use Rattle.sm_syntax.specs.trees.Views.{condition_of, code_of};
ghost use Rattle.sm_text.specs.rules.Answers.{Gives};
ghost use Rattle.sm_text.specs.rules.Reading as spec;
ghost use Rattle.sm_text.specs.rules.Written.{filling_of};
ghost use Rattle.sm_text.specs.Tasks.{head_parts, lists_of, parts_of};

use crate::rules::conditions::condition;
use crate::rules::names::{GROUP_LIMIT, declarations, hole_number, outputs, stands};
use crate::rules::reading::{FaultKind, ReadError, beside, expect, first, followed, refusal, rest};
use crate::rules::statements::block;
use crate::task::Task;
use sm_syntax::{Block, Cond, Filling, Fillings, Mark, NameTable, PerCopy, Program, Symbol};
use std::alloc::Global;

/// How many more may be open inside a list.
const LIST_LIMIT: u64 = 63;

/// A filling.
#[tactic(auto, unfolding(crate::specs::rules::Reading::hole_filling), using(crate::proofs::Sound::Limits::limits))]
fn filling(alloc: Global, symbols: &[Symbol]) -> Result<(Filling, &[Symbol]), ReadError>
    ensures { Gives (λ x. (filling_of x.0, x.1.now)) result (spec.hole_filling symbols.now) }
{
    let after = expect(Mark::Question, symbols)?;
    let (hole, after) = hole_number(after)?;
    let (block, after) = block(alloc, LIST_LIMIT, after)?;
    Ok((Filling { hole, block }, after))
}

/// All fillings of a list.
#[tactic(auto, unfolding(crate::specs::rules::Reading::fillings))]
fn fillings(alloc: Global, symbols: &[Symbol]) -> Result<(Fillings, &[Symbol]), ReadError>
    ensures { Gives (λ x. (fillings_of x.0, x.1.now)) result (spec.fillings symbols.now) }
{
    let mut list = Vec::new(alloc);
    let mut after = symbols;
    'fillings: while stands(Mark::Question, first(after)) {
        let (one, behind) = filling(alloc, after)?;
        list.push(one)?;
        after = behind;
    }
    Ok((Fillings { list }, after))
}

/// The list of fillings that begins with a word.
#[tactic(auto, unfolding(crate::specs::rules::Reading::list))]
fn list(alloc: Global, mark: Mark, symbols: &[Symbol]) -> Result<(Fillings, &[Symbol]), ReadError>
    ensures { Gives (λ x. (fillings_of x.0, x.1.now)) result (spec.list mark symbols.now) }
{
    let after = expect(mark, symbols)?;
    let after = expect(Mark::OpenCurly, after)?;
    let (fillings, after) = fillings(alloc, after)?;
    followed(fillings, Mark::CloseCurly, after)
}

/// The shared block.
#[tactic(auto, unfolding(crate::specs::rules::Reading::shared), using(crate::proofs::Sound::Limits::limits))]
pub(crate) fn shared(alloc: Global, symbols: &[Symbol]) -> Result<(Block, &[Symbol]), ReadError>
    ensures { Gives (λ x. (code_of x.0, x.1.now)) result (spec.shared symbols.now) }
{
    block(alloc, GROUP_LIMIT, expect(Mark::Shared, symbols)?)
}

/// An assumption, after its word.
#[tactic(auto, unfolding(crate::specs::rules::Reading::assumption_line), using(crate::proofs::Sound::Limits::limits))]
fn assumption_line(
    alloc: Global,
    symbols: &[Symbol],
) -> Result<(Option<Cond>, &[Symbol]), ReadError>
    ensures { Gives
        (λ x. (option_map condition_of x.0, x.1.now))
        result
        (spec.assumption_line symbols.now) }
{
    let (test, after) = condition(alloc, GROUP_LIMIT, symbols)?;
    let (assumed, after) = followed(test, Mark::Semicolon, after)?;
    Ok((Some(assumed), after))
}

/// What is assumed, if anything is.
#[tactic(auto, unfolding(crate::specs::rules::Reading::assumed))]
pub(crate) fn assumed(
    alloc: Global,
    symbols: &[Symbol],
) -> Result<(Option<Cond>, &[Symbol]), ReadError>
    ensures { Gives
        (λ x. (option_map condition_of x.0, x.1.now))
        result
        (spec.assumed symbols.now) }
{
    if stands(Mark::Assume, first(symbols)) {
        assumption_line(alloc, rest(symbols))
    } else {
        Ok((None, symbols))
    }
}

/// The front of a task, with the table of its names: the shared program, and what is assumed.
#[tactic(auto, unfolding(crate::specs::rules::Reading::head))]
pub(crate) fn head(
    alloc: Global,
    names: NameTable,
    symbols: &[Symbol],
) -> Result<((Program, Option<Cond>), &[Symbol]), ReadError>
    ensures { Gives
        (λ x. (head_parts x.0.0 x.0.1, x.1.now))
        result
        (spec.head names symbols.now) }
{
    let (declared, after) = beside(names, declarations(alloc, symbols))?;
    let (named, after) = beside(declared, outputs(alloc, after))?;
    let (front, after) = beside(named, assumed(alloc, after))?;
    let (parts, after) = beside(front, shared(alloc, after))?;
    let ((((names, decls), outputs), assumed), body) = parts;
    let program = Program {
        names,
        decls,
        outputs,
        body,
    };
    Ok(((program, assumed), after))
}

/// The lists of the four copies.
#[tactic(auto, unfolding(crate::specs::rules::Reading::lists))]
pub(crate) fn four_lists(
    alloc: Global,
    symbols: &[Symbol],
) -> Result<(PerCopy<Fillings>, &[Symbol]), ReadError>
    ensures { Gives (λ x. (lists_of x.0, x.1.now)) result (spec.lists symbols.now) }
{
    let (base, after) = list(alloc, Mark::Base, symbols)?;
    let (variant_a, after) = list(alloc, Mark::VariantA, after)?;
    let (variant_b, after) = list(alloc, Mark::VariantB, after)?;
    let (candidate, after) = list(alloc, Mark::Candidate, after)?;
    Ok((
        PerCopy {
            base,
            variant_a,
            variant_b,
            candidate,
        },
        after,
    ))
}

/// A task with the table of its names, and the symbols after it.
#[tactic(auto, unfolding(crate::specs::rules::Reading::task))]
fn task(alloc: Global, names: NameTable, symbols: &[Symbol]) -> Result<(Task, &[Symbol]), ReadError>
    ensures { Gives (λ x. (parts_of x.0, x.1.now)) result (spec.task names symbols.now) }
{
    let (front, after) = head(alloc, names, symbols)?;
    let (parts, after) = beside(front, four_lists(alloc, after))?;
    let ((shared, assumed), lists) = parts;
    let task = Task {
        shared,
        assumed,
        lists,
    };
    Ok((task, after))
}

/// A whole task, with no symbol after it.
pub(crate) fn whole(alloc: Global, names: NameTable, symbols: &[Symbol]) -> Result<Task, ReadError>
    ensures { Gives parts_of result (spec.whole names symbols.now) }
{
    match task(alloc, names, symbols) {
        Ok((task, after)) => match first(after) {
            None => Ok(task),
            Some(_) => Err(refusal(FaultKind::Expected, after)),
        },
        Err(error) => Err(error),
    }
}
