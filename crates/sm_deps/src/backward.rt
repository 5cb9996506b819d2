// What a block needs.
ghost use Rattle.std.specs.Prelude.{◌≡◌, IfOk, OnOk};
ghost use Rattle.sm_syntax.specs.trees.Programs.{outputs_of};
ghost use Rattle.sm_syntax.specs.claim.Syntax.{End, If, While};
ghost use Rattle.sm_syntax.specs.trees.Views.{condition_of, statement_of, code_of};
ghost use Rattle.sm_deps.specs.Inputs as plain;
ghost use Rattle.sm_deps.specs.Loops.{IsReady, GoesOver, Settles};
ghost use Rattle.sm_deps.specs.Members.{members};

use crate::loops::{Loops, keep, no_loops, resume};
use crate::members::{NameSet, add_all, add_name, list_of};
use crate::names::{add_cond, add_expr};
use sm_syntax::{Block, Cond, Name, Outputs, Stmt};
use std::alloc::{AllocError, Global};
use std::collections::BTreeSet;

/// The names whose values before a block decide whether it ends, and the value of `wanted` at its
/// end, by ascending number.
pub fn inputs(alloc: Global, b: &Block, wanted: Name) -> Result<Outputs, AllocError>
    ensures { IfOk result (λ o. outputs_of o ≡ plain.inputs (code_of b.now) wanted.0) }
{
    let mut names = BTreeSet::new(alloc);
    add_name(&mut names, wanted)?;
    let mut loops = no_loops(alloc);
    before_block(&mut names, &mut loops, b)?;
    list_of(alloc, &names)
}

// From the names that are wanted after a block to those that it needs.
#[cycle(before)]
fn before_block(names: &mut NameSet, loops: &mut Loops, b: &Block) -> Result<(), AllocError>
    requires { IsReady loops.old }
    ensures { let code = code_of b.now in
        OnOk result (GoesOver code (members names.old) (members names.new) loops.old loops.new) }
{
    let mut i = b.list.len();
    while i > 0 {
        i -= 1;
        before_stmt(names, loops, &b.list[i])?;
    }
    Ok(())
}

// From the names that are wanted after a statement to those that it needs.
#[cycle(before)]
fn before_stmt(names: &mut NameSet, loops: &mut Loops, s: &Stmt) -> Result<(), AllocError>
    requires { IsReady loops.old }
    ensures { let code = statement_of s.now End in
        OnOk result (GoesOver code (members names.old) (members names.new) loops.old loops.new) }
{
    match s {
        Stmt::Skip => Ok(()),
        Stmt::Hole(_) => Ok(()),
        Stmt::Assign(x, e) => {
            if names.remove(&x.0) {
                add_expr(names, e)?;
            }
            Ok(())
        }
        Stmt::Store(a, i, e) => {
            if names.contains(&a.0) {
                add_expr(names, i)?;
                add_expr(names, e)?;
            }
            Ok(())
        }
        Stmt::If(b, c, d) => before_choice(names, loops, b, c, d),
        Stmt::While(b, c) => before_loop(names, loops, b, c),
    }
}

// From the names that are wanted after a choice to those that it needs.
#[cycle(before)]
fn before_choice(
    names: &mut NameSet,
    loops: &mut Loops,
    b: &Cond,
    c: &Block,
    d: &Block,
) -> Result<(), AllocError>
    requires { IsReady loops.old }
    ensures { let code = If (condition_of b.now) (code_of c.now) (code_of d.now) End in
        OnOk result (GoesOver code (members names.old) (members names.new) loops.old loops.new) }
{
    let mut others = names.clone()?;
    before_block(names, loops, c)?;
    before_block(&mut others, loops, d)?;
    add_all(names, others)?;
    add_cond(names, b)
}

// From the names that are wanted after a loop to those that it needs.
#[cycle(before)]
fn before_loop(
    names: &mut NameSet,
    loops: &mut Loops,
    b: &Cond,
    c: &Block,
) -> Result<(), AllocError>
    requires { IsReady loops.old }
    ensures { let code = While (condition_of b.now) (code_of c.now) End in
        OnOk result (GoesOver code (members names.old) (members names.new) loops.old loops.new) }
{
    add_cond(names, b)?;
    let number = resume(loops, names)?;
    before_turns(names, loops, c)?;
    keep(loops, number, names)
}

// Adds what a block needs for the set itself, until that is in the set.
#[cycle(before)]
fn before_turns(names: &mut NameSet, loops: &mut Loops, c: &Block) -> Result<(), AllocError>
    requires { IsReady loops.old }
    ensures { let code = code_of c.now in
        OnOk result (Settles code (members names.old) (members names.new) loops.old loops.new) }
{
    let first = loops.next;
    loop {
        loops.next = first;
        let mut more = names.clone()?;
        before_block(&mut more, loops, c)?;
        let size = names.len();
        add_all(names, more)?;
        if names.len() == size {
            return Ok(());
        }
    }
}
