// Terms and certificates of a size that is told.
use crate::certificate::{closed, ended, split, verdict};
use crate::printed::Printed;
use crate::refusal::Refusal;
use crate::scene::Scene;
use crate::word::natural;
use sm_cert::{CertEnd, CertTree};
use sm_syntax::Name;
use sm_term::{Formula, Term, TermId};
use sm_theory::{Branch, CertLine, Fact};
use std::alloc::Global;
use std::collections::VecDeque;

/// Prints what a command says that makes something of a size.
pub fn sized_answer(
    alloc: Global,
    scene: &mut Scene,
    word: &str,
    size: &str,
    out: &mut Printed,
) -> Result<(), Refusal> {
    let n = natural(size)?;
    if word == "intern" {
        intern_many(scene, n)?;
        write!(out, "{}", scene.table.len());
        return Ok(());
    }
    let tree = certificate(alloc, scene, word, n)?;
    verdict(alloc, scene, &tree, out)
}

// Puts so many sums into the table, each of the one before it and of the first term.
fn intern_many(scene: &mut Scene, n: u64) -> Result<(), Refusal> {
    let first = TermId(0);
    let mut last = first;
    for _ in 0..n {
        last = scene.intern(Term::Add(last, first))?;
    }
    Ok(())
}

// The certificate of a size.
fn certificate(alloc: Global, scene: &mut Scene, word: &str, n: u64) -> Result<CertTree, Refusal> {
    match word {
        "chain" => chain(alloc, scene, n),
        "sums" => sums(alloc, scene, n),
        _ => splits(alloc, word, n),
    }
}

// Puts a formula on the branch.
fn hold(branch: &mut Branch, f: Formula) -> Result<(), Refusal> {
    Ok(branch.list.push(Fact::Form(f))?)
}

// A certificate that chains so many equations one by one, and meets the contrary of what they say.
fn chain(alloc: Global, scene: &mut Scene, n: u64) -> Result<CertTree, Refusal> {
    let base = scene.branch.list.len() as u64;
    hold_chain(scene, n)?;
    let contrary = base.saturating_add(n);
    let mut lines = Vec::new(alloc);
    let mut so_far = base;
    for k in 1..n {
        lines.push(CertLine::Trans(so_far, base.saturating_add(k)))?;
        so_far = contrary.saturating_add(k);
    }
    Ok(ended(lines, CertEnd::Close(CertLine::Clash(so_far, contrary))))
}

// Puts the equations `0 = 1`, `1 = 2` and so on on the branch, and that the first number isn't equal
// to the last.
fn hold_chain(scene: &mut Scene, n: u64) -> Result<(), Refusal> {
    let first = scene.intern(Term::Lit(0))?;
    let mut last = first;
    for k in 0..n {
        let next = scene.intern(Term::Lit(k as i128 + 1))?;
        hold(&mut scene.branch, Formula::Eq(last, next))?;
        last = next;
    }
    hold(&mut scene.branch, Formula::Ne(first, last))
}

// A certificate of so many sums of two forms without an atom, which the fact `no` ends.
fn sums(alloc: Global, scene: &mut Scene, n: u64) -> Result<CertTree, Refusal> {
    let base = scene.branch.list.len() as u64;
    let atom = hold_sums(scene)?;
    let mut lines = Vec::new(alloc);
    lines.push(CertLine::Lin(base))?;
    lines.push(CertLine::Lin(base.saturating_add(1)))?;
    let (f, g) = (base.saturating_add(3), base.saturating_add(4));
    for _ in 0..n {
        lines.push(CertLine::Elim(f, g, atom))?;
    }
    Ok(ended(
        lines,
        CertEnd::Close(CertLine::Close(base.saturating_add(2))),
    ))
}

// Puts `x + y + z <= 0`, `y + z <= x` and `no` on the branch, of names 0 to 2, and answers x.
fn hold_sums(scene: &mut Scene) -> Result<TermId, Refusal> {
    let x = scene.intern(Term::Start(Name(0)))?;
    let y = scene.intern(Term::Start(Name(1)))?;
    let z = scene.intern(Term::Start(Name(2)))?;
    let part = scene.intern(Term::Add(y, z))?;
    let whole = scene.intern(Term::Add(x, part))?;
    let zero = scene.intern(Term::Lit(0))?;
    hold(&mut scene.branch, Formula::Le(whole, zero))?;
    hold(&mut scene.branch, Formula::Le(part, x))?;
    hold(&mut scene.branch, Formula::No)?;
    Ok(x)
}

// So many splits, each in the first part of the one above it where they go to the left, in the
// second where they go to the right, and else with as few above each line as can be. Fact 0 closes
// each branch.
fn splits(alloc: Global, side: &str, n: u64) -> Result<CertTree, Refusal> {
    let mut trees = VecDeque::new(alloc);
    trees.push_back(leaf(alloc))?;
    for _ in 0..n {
        trees.push_back(leaf(alloc))?;
    }
    for _ in 0..n {
        join(alloc, &mut trees, side)?;
    }
    next_of(&mut trees)
}

// Puts a split in the place of the two certificates that stand next.
fn join(alloc: Global, trees: &mut VecDeque<CertTree>, side: &str) -> Result<(), Refusal> {
    let one = boxed_next(alloc, trees)?;
    let other = boxed_next(alloc, trees)?;
    match side {
        "left" => Ok(trees.push_front(pair(alloc, one, other))?),
        "right" => Ok(trees.push_front(pair(alloc, other, one))?),
        _ => Ok(trees.push_back(pair(alloc, one, other))?),
    }
}

// The certificate that stands next, in a box.
fn boxed_next(alloc: Global, trees: &mut VecDeque<CertTree>) -> Result<Box<CertTree>, Refusal> {
    Ok(Box::new(alloc, next_of(trees)?)?)
}

// The certificate that stands next.
fn next_of(trees: &mut VecDeque<CertTree>) -> Result<CertTree, Refusal> {
    match trees.pop_front() {
        Some(tree) => Ok(tree),
        None => Err(Refusal::Bad),
    }
}

// A certificate that fact 0 closes.
fn leaf(alloc: Global) -> CertTree {
    closed(alloc, CertLine::Close(0))
}

// A certificate that splits by whether term 0 is equal to itself.
fn pair(alloc: Global, first: Box<CertTree>, second: Box<CertTree>) -> CertTree {
    split(alloc, CertLine::Cases(TermId(0), TermId(0)), first, second)
}
