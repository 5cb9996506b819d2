// The parts of a task.
ghost use Rattle.std.specs.Prelude.{◌≡◌, ◌+◌, ◌++◌, pos, map, codes, IfOk, OnOk};
ghost use Rattle.std.specs.Fmt.{decimal};
ghost use Rattle.std.specs.List.{range_with_len};
ghost use Rattle.std.specs.String.{string_bytes};
ghost use Rattle.sm_syntax.specs.claim.ConflictFree.{Copy};
ghost use Rattle.sm_syntax.specs.claim.Syntax.{Code, End, Assign, Hole, Var, Plus, Lit};
ghost use Rattle.sm_syntax.specs.declared.tree.Sort.TheVariants.{Num};
ghost use Rattle.sm_syntax.specs.text.TaskGrammar.{with_sort};
ghost use Rattle.sm_syntax.specs.trees.Copies.{copy_named};
ghost use Rattle.sm_syntax.specs.trees.Programs.{declared_of, outputs_of, fillings_of};
ghost use Rattle.sm_syntax.specs.trees.Views.{expression_of, sequence, statement_of, code_of};
ghost use Rattle.sm_text.specs.Tasks.{lists_of};
ghost use Rattle.sm_gen.specs.Drawing.{has_edits};
ghost use Rattle.sm_gen.specs.Generating.{name_of, counting, counted, holes, value_of, filling_of};

use crate::drawing::Edit;
use sm_syntax::{
    Block, Cmp, Cond, CopyName, Decls, Expr, Filling, Fillings, Name, NameTable, Outputs, PerCopy,
    Sort, Stmt,
};
use std::alloc::{AllocError, Global};

// The name that is counted up.
const COUNTER: Name = Name(0);

// The name that it is counted up to.
const LIMIT: Name = Name(1);

/// The texts of the names: i, n, x1, x2 and so on.
pub(crate) fn names(alloc: Global, size: u16) -> Result<NameTable, AllocError>
    ensures { IfOk result (λ t. t ≡ map name_of (range_with_len 0 (size + 2))) }
{
    let mut names = NameTable::new(alloc);
    for number in 0..u32::from(size) + 2 {
        let text = name_text(alloc, number)?;
        names.add(text.as_str())?;
    }
    Ok(names)
}

fn name_text(alloc: Global, number: u32) -> Result<String, AllocError>
    ensures { IfOk result (λ s. string_bytes s ≡ name_of number) }
{
    match number {
        0 => String::from_str(alloc, "i"),
        1 => String::from_str(alloc, "n"),
        _ => output_text(alloc, number - 1),
    }
}

fn output_text(alloc: Global, place: u32) -> Result<String, AllocError>
    ensures { IfOk result (λ s. string_bytes s ≡ codes "x" ++ decimal place) }
{
    format!(in alloc; "x{place}")
}

/// The declarations: all names are numbers.
pub(crate) fn decls(alloc: Global, size: u16) -> Result<Decls, AllocError>
    ensures { IfOk result (λ d. declared_of d ≡ with_sort Num (range_with_len 0 (size + 2))) }
{
    let mut list = Vec::new(alloc);
    for number in 0..u32::from(size) + 2 {
        list.push((Name(number), Sort::Num))?;
    }
    Ok(Decls { list })
}

/// The outputs: all names but the first two.
pub(crate) fn outputs(alloc: Global, size: u16) -> Result<Outputs, AllocError>
    ensures { IfOk result (λ o. outputs_of o ≡ range_with_len 2 size) }
{
    let mut list = Vec::new(alloc);
    for place in 0..size {
        list.push(Name(u32::from(place) + 2))?;
    }
    Ok(Outputs { list })
}

/// The shared statements: the loop, and then the holes.
pub(crate) fn shared_block(alloc: Global, size: u16) -> Result<Block, AllocError>
    ensures { IfOk result (λ b. code_of b ≡ counted (holes (range_with_len 1 size))) }
{
    let mut list = Vec::new(alloc);
    put(&mut list, Stmt::Assign(COUNTER, Expr::Num(0)))?;
    put(&mut list, counting_loop(alloc)?)?;
    for place in 0..size {
        put_hole(&mut list, u32::from(place) + 1)?;
    }
    Ok(Block { list })
}

// while (i < n) { i = i + 1; }
fn counting_loop(alloc: Global) -> Result<Stmt, AllocError>
    ensures { IfOk result (λ s. (k : Code) → statement_of s k ≡ counting k) }
{
    let test = Cond::Cmp(Cmp::Lt, Expr::Var(COUNTER), Expr::Var(LIMIT));
    let next = sum(alloc, COUNTER, 1)?;
    Ok(Stmt::While(test, assignment(alloc, COUNTER, next)?))
}

// The block that sets a name.
fn assignment(alloc: Global, name: Name, value: Expr) -> Result<Block, AllocError>
    ensures { IfOk result (λ b. code_of b ≡ Assign name.0 (expression_of value) End) }
{
    let mut list = Vec::new(alloc);
    put(&mut list, Stmt::Assign(name, value))?;
    Ok(Block { list })
}

// A name and a number.
fn sum(alloc: Global, name: Name, number: u8) -> Result<Expr, AllocError>
    ensures { IfOk result (λ e. expression_of e ≡ Plus (Var name.0) (Lit (pos number))) }
{
    let left = Box::new(alloc, Expr::Var(name))?;
    let right = Box::new(alloc, Expr::Num(i128::from(number)))?;
    Ok(Expr::Add(left, right))
}

// Puts a hole at the end of a list.
fn put_hole(out: &mut Vec<Stmt>, hole: u32) -> Result<(), AllocError>
    ensures { OnOk result ((k : Code) → sequence (map statement_of out.new.items) k
        ≡ sequence (map statement_of out.old.items) (Hole hole k)) }
{
    put(out, Stmt::Hole(hole))
}

// Puts the statement at the end of a list.
#[tactic(auto, using(sm_syntax::proofs::Blocks::pushes))]
fn put(out: &mut Vec<Stmt>, s: Stmt) -> Result<(), AllocError>
    ensures { OnOk result ((k : Code) → sequence (map statement_of out.new.items) k
        ≡ sequence (map statement_of out.old.items) (statement_of s k)) }
{
    out.push(s)?;
    Ok(())
}

/// The fillings of each copy.
pub(crate) fn lists(alloc: Global, edits: &[Edit]) -> Result<PerCopy<Fillings>, AllocError>
    ensures { IfOk result (λ l. (c : Copy) → lists_of l c ≡ map (filling_of c) edits.now) }
{
    Ok(PerCopy {
        base: fillings(alloc, edits, CopyName::O)?,
        variant_a: fillings(alloc, edits, CopyName::A)?,
        variant_b: fillings(alloc, edits, CopyName::B)?,
        candidate: fillings(alloc, edits, CopyName::M)?,
    })
}

// The fillings of a copy.
fn fillings(alloc: Global, edits: &[Edit], copy: CopyName) -> Result<Fillings, AllocError>
    ensures { IfOk result (λ f. fillings_of f ≡ map (filling_of (copy_named copy)) edits.now) }
{
    let mut list = Vec::new(alloc);
    for edit in edits {
        list.push(filling(alloc, *edit, copy)?)?;
    }
    Ok(Fillings { list })
}

// What a copy has for the hole of an edit.
fn filling(alloc: Global, edit: Edit, copy: CopyName) -> Result<Filling, AllocError>
    ensures { IfOk result (λ f. (f.hole, code_of f.block) ≡ filling_of (copy_named copy) edit) }
{
    let hole = u32::from(edit.hole);
    let value = value(alloc, edit, copy)?;
    Ok(Filling {
        hole,
        block: assignment(alloc, Name(hole + 1), value)?,
    })
}

// What the hole's name is set to.
fn value(alloc: Global, edit: Edit, copy: CopyName) -> Result<Expr, AllocError>
    ensures { let has = has_edits edit.editor (copy_named copy) in
        IfOk result (λ e. expression_of e ≡ value_of has edit.added) }
{
    if edit.editor.edits(copy) {
        return sum(alloc, LIMIT, edit.added);
    }
    Ok(Expr::Var(LIMIT))
}
