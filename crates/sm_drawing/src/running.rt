// Runs within a bound of steps.
ghost use Rattle.std.specs.Prelude.{◌≡◌, OnOk};
ghost use Rattle.sm_eval.specs.StoredValues.{sorts_of};
ghost use Rattle.sm_syntax.specs.claim.Syntax.{End, Write};
ghost use Rattle.sm_syntax.specs.text.Sorts.{IsWellSorted, IsWellSortedCondition};
ghost use Rattle.sm_syntax.specs.trees.Views.{expression_of, condition_of, statement_of, code_of};

use crate::sorted::{is_block_sorted, is_condition_sorted, is_statement_sorted};
use sm_eval::{EvalError, Store, truth, value};
use sm_syntax::{Block, Cond, Expr, Name, Stmt};
use std::alloc::AllocError;

/// Why a run is left before its end.
#[derive(Clone, Copy)]
pub(crate) enum Leave {
    /// An operation leaves 128 bits, a loop takes too many turns, the runs take too many steps, or
    /// a name has no value.
    Event,
    Memory,
}

impl From<AllocError> for Leave {
    fn from(_e: AllocError) -> Leave {
        Leave::Memory
    }
}

impl From<EvalError> for Leave {
    fn from(e: EvalError) -> Leave {
        match e {
            EvalError::Memory => Leave::Memory,
            EvalError::OutOfTurns => Leave::Event,
            EvalError::Beyond { .. } => Leave::Event,
        }
    }
}

/// How many turns a loop may take each time it is met, and how many steps may still be taken.
#[derive(Clone, Copy)]
pub(crate) struct Bound {
    pub(crate) turns: u64,
    pub(crate) steps: u64,
}

impl Bound {
    // Takes a step.
    fn spend(&mut self) -> Result<(), Leave> {
        match self.steps.checked_sub(1) {
            None => Err(Leave::Event),
            Some(left) => {
                self.steps = left;
                Ok(())
            }
        }
    }
}

/// Whether a condition holds in a store.
pub(crate) fn is_true(c: &Cond, s: &Store) -> Result<bool, Leave> {
    if !is_condition_sorted(c, s) {
        return Err(Leave::Event);
    }
    Ok(truth(c, s)?)
}

/// Runs a block from a store.
pub(crate) fn run_block(b: &Block, s: &mut Store, bound: &mut Bound) -> Result<(), Leave> {
    if !is_block_sorted(b, s) {
        return Err(Leave::Event);
    }
    run_all(b, s, bound)
}

/// Runs a statement from a store.
pub(crate) fn run_statement(t: &Stmt, s: &mut Store, bound: &mut Bound) -> Result<(), Leave> {
    if !is_statement_sorted(t, s) {
        return Err(Leave::Event);
    }
    run_one(t, s, bound)
}

// Runs the statements of a block, one after the other.
#[cycle(run)]
fn run_all(b: &Block, s: &mut Store, bound: &mut Bound) -> Result<(), Leave>
    requires { IsWellSorted (sorts_of s.old) (code_of b.now) }
    ensures { OnOk result (sorts_of s.new ≡ sorts_of s.old) }
{
    for t in &b.list {
        run_one(t, s, bound)?;
    }
    Ok(())
}

// Runs a statement.
#[cycle(run)]
fn run_one(t: &Stmt, s: &mut Store, bound: &mut Bound) -> Result<(), Leave>
    requires { IsWellSorted (sorts_of s.old) (statement_of t.now End) }
    ensures { OnOk result (sorts_of s.new ≡ sorts_of s.old) }
{
    bound.spend()?;
    match t {
        Stmt::Skip | Stmt::Hole(_) => Ok(()),
        Stmt::Assign(x, e) => {
            let z = value(e, s)?;
            s.set(*x, z);
            Ok(())
        }
        Stmt::Store(a, i, e) => write(*a, i, e, s),
        Stmt::If(c, d, e) => {
            if truth(c, s)? {
                run_all(d, s, bound)
            } else {
                run_all(e, s, bound)
            }
        }
        Stmt::While(c, d) => run_loop(c, d, s, bound),
    }
}

// Runs a loop.
#[cycle(run)]
fn run_loop(c: &Cond, b: &Block, s: &mut Store, bound: &mut Bound) -> Result<(), Leave>
    requires guard { IsWellSortedCondition (sorts_of s.old) (condition_of c.now) }
    requires body { IsWellSorted (sorts_of s.old) (code_of b.now) }
    ensures { OnOk result (sorts_of s.new ≡ sorts_of s.old) }
{
    let mut left = bound.turns;
    while truth(c, s)? {
        if left == 0 {
            return Err(Leave::Event);
        }
        left -= 1;
        bound.spend()?;
        run_all(b, s, bound)?;
    }
    Ok(())
}

// Writes to an element of an array.
fn write(a: Name, i: &Expr, e: &Expr, s: &mut Store) -> Result<(), Leave>
    requires { let code = Write a.0 (expression_of i.now) (expression_of e.now) End in
        IsWellSorted (sorts_of s.old) code }
    ensures { OnOk result (sorts_of s.new ≡ sorts_of s.old) }
{
    let index = value(i, s)?;
    let z = value(e, s)?;
    s.set_cell(a, index, z)?;
    Ok(())
}
