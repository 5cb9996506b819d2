// Runs of programs.
ghost use Rattle.std.specs.Prelude.{◌≡◌, ◌⊎◌, Some, None, IfOk, IfErr, OnOk};
ghost use Rattle.sm_syntax.specs.claim.Meaning.{run};
ghost use Rattle.sm_syntax.specs.text.Sorts.{IsWellSortedExpression, IsWellSortedCondition, IsWellSorted};
ghost use Rattle.sm_syntax.specs.claim.Syntax.{Assign, End, Write, While};
ghost use Rattle.sm_syntax.specs.trees.Views.{expression_of, condition_of, statement_of, code_of};
ghost use Rattle.sm_eval.specs.Events.{event};
ghost use Rattle.sm_eval.specs.StoredValues.{meaning, sorts_of};

use crate::error::EvalError;
use crate::expression::{truth, value};
use crate::store::Store;
use sm_syntax::{Block, Cond, Expr, Name, Stmt};

/// The end store of a block from a store, where each loop takes at most this many turns each time
/// it is met. Otherwise the first event: an operation whose exact result leaves 128 bits, or a loop
/// whose guard holds after all its turns. The index of a write is computed before its value.
pub fn run(b: &Block, s: Store, turns: u64) -> Result<Store, EvalError>
    requires { IsWellSorted (sorts_of s) (code_of b.now) }
    ensures event { IfOk result (λ _. event turns (code_of b.now) (meaning s) ≡ None) }
    ensures end { IfOk result (λ t. run turns (code_of b.now) (meaning s) ≡ Some (meaning t)) }
    ensures sorts { IfOk result (λ t. sorts_of t ≡ sorts_of s) }
    ensures err { let first = event turns (code_of b.now) (meaning s) in
        IfErr result (λ e. (e ≡ EvalError.Memory) ⊎ (first ≡ Some e)) }
{
    let mut s = s;
    run_block(b, &mut s, turns)?;
    Ok(s)
}

// A block's statements, one after the other.
#[cycle(run)]
fn run_block(b: &Block, s: &mut Store, turns: u64) -> Result<(), EvalError>
    requires { IsWellSorted (sorts_of s.old) (code_of b.now) }
    ensures event { OnOk result (event turns (code_of b.now) (meaning s.old) ≡ None) }
    ensures end { OnOk result (run turns (code_of b.now) (meaning s.old) ≡ Some (meaning s.new)) }
    ensures sorts { OnOk result (sorts_of s.new ≡ sorts_of s.old) }
    ensures err { let first = event turns (code_of b.now) (meaning s.old) in
        IfErr result (λ e. (e ≡ EvalError.Memory) ⊎ (first ≡ Some e)) }
{
    for t in &b.list {
        run_stmt(t, s, turns)?;
    }
    Ok(())
}

// A statement.
#[cycle(run)]
fn run_stmt(t: &Stmt, s: &mut Store, turns: u64) -> Result<(), EvalError>
    requires { IsWellSorted (sorts_of s.old) (statement_of t.now End) }
    ensures event { OnOk result (event turns (statement_of t.now End) (meaning s.old) ≡ None) }
    ensures end { let code = statement_of t.now End in
        OnOk result (run turns code (meaning s.old) ≡ Some (meaning s.new)) }
    ensures sorts { OnOk result (sorts_of s.new ≡ sorts_of s.old) }
    ensures err { let first = event turns (statement_of t.now End) (meaning s.old) in
        IfErr result (λ e. (e ≡ EvalError.Memory) ⊎ (first ≡ Some e)) }
{
    match t {
        Stmt::Skip | Stmt::Hole(_) => Ok(()),
        Stmt::Assign(x, e) => assign(*x, e, s),
        Stmt::Store(a, i, e) => write(*a, i, e, s),
        Stmt::If(c, d, e) => {
            if truth(c, s)? {
                run_block(d, s, turns)
            } else {
                run_block(e, s, turns)
            }
        }
        Stmt::While(c, d) => run_loop(c, d, s, turns),
    }
}

// A loop.
#[cycle(run)]
fn run_loop(c: &Cond, b: &Block, s: &mut Store, turns: u64) -> Result<(), EvalError>
    requires guard { IsWellSortedCondition (sorts_of s.old) (condition_of c.now) }
    requires body { IsWellSorted (sorts_of s.old) (code_of b.now) }
    ensures event { let code = While (condition_of c.now) (code_of b.now) End in
        OnOk result (event turns code (meaning s.old) ≡ None) }
    ensures end { let code = While (condition_of c.now) (code_of b.now) End in
        OnOk result (run turns code (meaning s.old) ≡ Some (meaning s.new)) }
    ensures sorts { OnOk result (sorts_of s.new ≡ sorts_of s.old) }
    ensures err { let code = While (condition_of c.now) (code_of b.now) End in
        IfErr result (λ e. (e ≡ EvalError.Memory) ⊎ (event turns code (meaning s.old) ≡ Some e)) }
{
    let mut left = turns;
    while truth(c, s)? {
        if left == 0 {
            return Err(EvalError::OutOfTurns);
        }
        left -= 1;
        run_block(b, s, turns)?;
    }
    Ok(())
}

// A number variable gets a new number.
fn assign(x: Name, e: &Expr, s: &mut Store) -> Result<(), EvalError>
    requires { IsWellSorted (sorts_of s.old) (Assign x.0 (expression_of e.now) End) }
    ensures event { let code = Assign x.0 (expression_of e.now) End in
        OnOk result (event 0 code (meaning s.old) ≡ None) }
    ensures end { let code = Assign x.0 (expression_of e.now) End in
        OnOk result (run 0 code (meaning s.old) ≡ Some (meaning s.new)) }
    ensures sorts { OnOk result (sorts_of s.new ≡ sorts_of s.old) }
    ensures err { let code = Assign x.0 (expression_of e.now) End in
        IfErr result (λ e'. (e' ≡ EvalError.Memory) ⊎ (event 0 code (meaning s.old) ≡ Some e')) }
{
    let z = value(e, s)?;
    s.set(x, z);
    Ok(())
}

// A write to an element of an array.
fn write(a: Name, i: &Expr, e: &Expr, s: &mut Store) -> Result<(), EvalError>
    requires { let code = Write a.0 (expression_of i.now) (expression_of e.now) End in
        IsWellSorted (sorts_of s.old) code }
    ensures event { let code = Write a.0 (expression_of i.now) (expression_of e.now) End in
        OnOk result (event 0 code (meaning s.old) ≡ None) }
    ensures end { let code = Write a.0 (expression_of i.now) (expression_of e.now) End in
        OnOk result (run 0 code (meaning s.old) ≡ Some (meaning s.new)) }
    ensures sorts { OnOk result (sorts_of s.new ≡ sorts_of s.old) }
    ensures err { let code = Write a.0 (expression_of i.now) (expression_of e.now) End in
        IfErr result (λ e'. (e' ≡ EvalError.Memory) ⊎ (event 0 code (meaning s.old) ≡ Some e')) }
{
    let index = value(i, s)?;
    let z = value(e, s)?;
    s.set_cell(a, index, z)?;
    Ok(())
}
