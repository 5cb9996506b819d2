// What is left of a certificate, from the leaves on.
ghost use Rattle.std.specs.Prelude.{◌≡◌, ℕ, suc, ◌+◌, List, IfOk, OnOk};
ghost use Rattle.sm_term.specs.Terms.{Tree};
ghost use Rattle.sm_theory.specs.Named.{facts_added};
ghost use Rattle.sm_theory.specs.Views.{line_in};
ghost use Rattle.sm_cert.specs.Certificates.{Certificate};
ghost use Rattle.sm_cert.specs.Views.{lines_before, certificate_in};
ghost use Rattle.sm_trim.specs.Pruned.{Pruned, LeftClosed, LeftSplit, with_line, with_split, pruned};
ghost use Rattle.sm_trim.specs.Views.{facts_past, pruned_in, Leaves};

use crate::left::{LeftEnd, LeftLine, LeftLines, LeftTree, Needing};
use crate::lines::{copy_line, facts_added, facts_past, more_facts};
use crate::marks::{join, mark_line, no_marks, take_mark, take_marks};
use sm_cert::{CertEnd, CertTree};
use sm_theory::CertLine;
use std::alloc::{AllocError, Global};

// A line that splits the branch, before what is left of its parts.
fn split_tree(
    alloc: Global,
    left: LeftLine,
    first: LeftTree,
    second: LeftTree,
) -> Result<LeftTree, AllocError>
    ensures { (trees : List Tree) → IfOk result (λ t. pruned_in trees t ≡
        LeftSplit left.before (line_in trees left.line) (pruned_in trees first)
        (pruned_in trees second)) }
{
    let one = Box::new(alloc, first)?;
    let two = Box::new(alloc, second)?;
    let last = LeftEnd::Split(left, one, two);
    let lines = LeftLines {
        list: Vec::new(alloc),
    };
    Ok(LeftTree { lines, last })
}

// A copy of a line that splits the branch after so many facts, before what is left of its parts.
fn split_by(
    alloc: Global,
    line: &CertLine,
    at: u64,
    first: LeftTree,
    second: LeftTree,
) -> Result<LeftTree, AllocError>
    ensures { (trees : List Tree) → IfOk result (λ t. pruned_in trees t ≡
        LeftSplit at (line_in trees line.now) (pruned_in trees first) (pruned_in trees second)) }
{
    let line = copy_line(alloc, line)?;
    split_tree(alloc, LeftLine { before: at, line }, first, second)
}

// A line that closes the branch is left.
fn leaf(alloc: Global, line: &CertLine, at: u64) -> Result<Needing, AllocError>
    ensures { (trees : List Tree) →
        IfOk result (Leaves trees at (LeftClosed at (line_in trees line.now))) }
{
    let mut marks = no_marks(alloc, at);
    mark_line(&mut marks, line)?;
    let line = copy_line(alloc, line)?;
    let last = LeftEnd::Close(LeftLine { before: at, line });
    let lines = LeftLines {
        list: Vec::new(alloc),
    };
    let tree = LeftTree { lines, last };
    Ok(Needing { tree, marks })
}

// Of a split the first part that doesn't need the fact that the split adds there takes its place.
fn split(
    alloc: Global,
    line: &CertLine,
    at: u64,
    first: Needing,
    second: Needing,
) -> Result<Needing, AllocError>
    ensures { (trees : List Tree) (p q : Pruned) → Leaves trees (suc at) p first →
        Leaves trees (suc at) q second →
        IfOk result (Leaves trees at (with_split at (line_in trees line.now) p q)) }
{
    let mut one = first;
    let mut two = second;
    if !take_mark(&mut one.marks) {
        return Ok(one);
    }
    if !take_mark(&mut two.marks) {
        return Ok(two);
    }
    let mut marks = join(one.marks, two.marks)?;
    mark_line(&mut marks, line)?;
    let tree = split_by(alloc, line, at, one.tree, two.tree)?;
    Ok(Needing { tree, marks })
}

// Puts a line before what is left, if that needs one of the facts that it adds.
fn prune_line(alloc: Global, line: &CertLine, below: &mut Needing) -> Result<(), AllocError>
    ensures { (trees : List Tree) (at : ℕ) (p : Pruned) →
        Leaves trees (at + facts_added (line_in trees line.now)) p below.old →
        OnOk result (Leaves trees at (with_line at (line_in trees line.now) p) below.new) }
{
    if take_marks(&mut below.marks, facts_added(line)) {
        mark_line(&mut below.marks, line)?;
        let before = below.marks.facts;
        let line = copy_line(alloc, line)?;
        below.tree.lines.list.push(LeftLine { before, line })?;
    }
    Ok(())
}

// Puts lines before what is left, as far as they are needed.
fn prune_lines(alloc: Global, lines: &[CertLine], below: Needing) -> Result<Needing, AllocError>
    ensures { (trees : List Tree) (at : ℕ) (c : Certificate) →
        let past = facts_past trees at lines.now in Leaves trees past (pruned past c) below →
        IfOk result (Leaves trees at (pruned at (lines_before trees lines.now c))) }
{
    let mut left = below;
    let mut i = lines.len();
    while i > 0 {
        i -= 1;
        prune_line(alloc, &lines[i], &mut left)?;
    }
    Ok(left)
}

// What is left of a certificate before which `at` facts stand.
pub(crate) fn pruned(alloc: Global, tree: &CertTree, at: u64) -> Result<Needing, AllocError>
    ensures { (trees : List Tree) →
        IfOk result (Leaves trees at (pruned at (certificate_in trees tree.now))) }
{
    let past = facts_past(&tree.lines.list, at)?;
    match &tree.last {
        CertEnd::Close(line) => {
            let below = leaf(alloc, line, past)?;
            prune_lines(alloc, &tree.lines.list, below)
        }
        CertEnd::Split(line, first, second) => {
            let next = more_facts(past, 1)?;
            let one = pruned(alloc, first, next)?;
            let two = pruned(alloc, second, next)?;
            let below = split(alloc, line, past, one, two)?;
            prune_lines(alloc, &tree.lines.list, below)
        }
    }
}
