// What a block writes.
ghost use Rattle.std.specs.Prelude.{◌≡◌, ℕ, IfOk, OnOk};
ghost use Rattle.std.specs.List.Sorted.{IsStrictlyIncreasing};
ghost use Rattle.sm_syntax.specs.Assigns.{assigns};
ghost use Rattle.sm_syntax.specs.text.Conditions.{is_in};
ghost use Rattle.sm_syntax.specs.trees.Programs.{outputs_of};
ghost use Rattle.sm_syntax.specs.claim.Syntax.{End};
ghost use Rattle.sm_syntax.specs.trees.Views.{statement_of, code_of};
ghost use Rattle.sm_deps.specs.Members.{members, either};

use crate::members::{NameSet, add_name, list_of};
use sm_syntax::{Block, Outputs, Stmt};
use std::alloc::{AllocError, Global};
use std::collections::BTreeSet;

/// The names that are assigned anywhere in a block, by ascending number. An array is assigned where
/// one of its elements is.
pub fn writes(alloc: Global, b: &Block) -> Result<Outputs, AllocError>
    ensures ascending { IfOk result (λ o. IsStrictlyIncreasing (outputs_of o)) }
    ensures names { IfOk result (λ o.
        (x : ℕ) → is_in (outputs_of o) x ≡ assigns (code_of b.now) x) }
{
    let mut names = BTreeSet::new(alloc);
    add_block(&mut names, b)?;
    list_of(alloc, &names)
}

// Adds the names that a block assigns.
#[cycle(add_block)]
#[tactic(auto, using(crate::proofs::AssignsLemmas::assignments))]
fn add_block(names: &mut NameSet, b: &Block) -> Result<(), AllocError>
    ensures { let names_of_block = assigns (code_of b.now) in
        OnOk result (members names.new ≡ either (members names.old) names_of_block) }
{
    for s in &b.list {
        add_stmt(names, s)?;
    }
    Ok(())
}

// Adds those of a statement.
#[cycle(add_block)]
#[tactic(auto, using(crate::proofs::AssignsLemmas::assignments))]
fn add_stmt(names: &mut NameSet, s: &Stmt) -> Result<(), AllocError>
    ensures { let names_of_statement = assigns (statement_of s.now End) in
        OnOk result (members names.new ≡ either (members names.old) names_of_statement) }
{
    match s {
        Stmt::Skip => Ok(()),
        Stmt::Hole(_) => Ok(()),
        Stmt::Assign(x, _) | Stmt::Store(x, _, _) => add_name(names, *x),
        Stmt::If(_, c, d) => {
            add_block(names, c)?;
            add_block(names, d)
        }
        Stmt::While(_, c) => add_block(names, c),
    }
}
