// What the walk of an obligation comes to, as words.
ghost use Rattle.std.specs.Prelude.{◌≡◌, ◌<◌, length, IfOk};
ghost use Rattle.std.specs.Bool.{OnTrue};
ghost use Rattle.sm_term.specs.Formulas.{numbered, assertion_in, IsFormulaWithin};
ghost use Rattle.sm_syntax.specs.declared.tree.Sort.TheVariants.{Num};
ghost use Rattle.sm_term.specs.Sorted.{IsFormSorted, AreFormsSorted, tree_sort};
ghost use Rattle.sm_term.specs.Tables.{trees_in, sorts_in, tree_at};
ghost use Rattle.sm_list.specs.Parts.{all_numbered, assertions_in, AreFormulasWithin};

use crate::certificate::verdict;
use crate::fact::{put_formula, read_formula};
use crate::printed::Printed;
use crate::refusal::Refusal;
use crate::scene::Scene;
use crate::word::{natural, two};
use sm_cert::{CertEnd, CertTree};
use sm_solve::{Answer, solve};
use sm_syntax::Sort;
use sm_term::{Formula, TermId, copy_formula, negate};
use sm_theory::{CertLine, Fact};
use std::alloc::{AllocError, Global};

// How many lines of a certificate are printed one by one.
const MOST_LINES: u64 = 20;

/// Prints what the walk comes to in so many steps, from the facts of the branch to the formula of
/// words; branches that would stay open may be decided exactly. The certificate of a closed one is
/// checked.
pub fn solve_answer(
    alloc: Global,
    scene: &mut Scene,
    text: &str,
    exact: bool,
    out: &mut Printed,
) -> Result<(), Refusal> {
    let (steps, target) = two(text)?;
    let steps = natural(steps)?;
    let target = read_formula(alloc, target)?;
    let answer = walked(alloc, scene, &target, steps, exact)?;
    put_walk(alloc, scene, &target, &answer, out)
}

// What the walk comes to.
fn walked(
    alloc: Global,
    scene: &mut Scene,
    target: &Formula,
    steps: u64,
    exact: bool,
) -> Result<Answer, Refusal> {
    let facts = formulas(alloc, scene)?;
    if !fits(scene, target) {
        return Err(Refusal::Bad);
    }
    Ok(solve(alloc, &mut scene.table, &facts, target, steps, exact)?)
}

// Prints what the walk comes to.
fn put_walk(
    alloc: Global,
    scene: &mut Scene,
    target: &Formula,
    answer: &Answer,
    out: &mut Printed,
) -> Result<(), Refusal> {
    match answer {
        Answer::Closed(tree) => put_closed(alloc, scene, target, tree, out),
        Answer::Open { leaf } => {
            put_leaf(out, &leaf.list);
            Ok(())
        }
        Answer::Steps => {
            out.put("steps");
            Ok(())
        }
        Answer::Coefficient { op, a, b } => Err(Refusal::Beyond {
            op: *op,
            a: *a,
            b: *b,
        }),
    }
}

// The formulas of the branch, which must be over numbers and arrays as their kinds want.
fn formulas(alloc: Global, scene: &Scene) -> Result<Vec<Formula>, Refusal>
    ensures within { IfOk result (λ v.
        AreFormulasWithin (length (trees_in scene.now.table)) (all_numbered v.items)) }
    ensures sorted { IfOk result (λ v. AreFormsSorted (sorts_in scene.now.table)
        (assertions_in (sorts_in scene.now.table) (trees_in scene.now.table) (all_numbered v.items))) }
{
    let mut list = Vec::new(alloc);
    for fact in &scene.branch.list {
        list.push(formula(alloc, scene, fact)?)?;
    }
    Ok(list)
}

// The formula of a fact, where it is one.
fn formula(alloc: Global, scene: &Scene, fact: &Fact) -> Result<Formula, Refusal>
    ensures within { IfOk result (λ f.
        IsFormulaWithin (length (trees_in scene.now.table)) (numbered f)) }
    ensures sorted { IfOk result (λ f. IsFormSorted (sorts_in scene.now.table)
        (assertion_in (sorts_in scene.now.table) (trees_in scene.now.table) (numbered f))) }
{
    match fact {
        Fact::Form(f) => {
            let copy = copy_formula(alloc, f)?;
            if fits(scene, &copy) {
                Ok(copy)
            } else {
                Err(Refusal::Bad)
            }
        }
        Fact::Lin(_) => Err(Refusal::Bad),
    }
}

/// Whether the terms of a formula are in the table, each of the sort that it needs there.
pub fn fits(scene: &Scene, f: &Formula) -> bool
    ensures within { OnTrue result (IsFormulaWithin (length (trees_in scene.now.table)) (numbered f.now)) }
    ensures sorted { OnTrue result (IsFormSorted (sorts_in scene.now.table)
        (assertion_in (sorts_in scene.now.table) (trees_in scene.now.table) (numbered f.now))) }
{
    // The terms of a table are sorted, as its length ensures.
    let _count = scene.table.len();
    match f {
        Formula::Yes => true,
        Formula::No => true,
        Formula::Eq(t, u) => have_one_sort(scene, *t, *u),
        Formula::Ne(t, u) => have_one_sort(scene, *t, *u),
        Formula::Le(t, u) => are_numbers(scene, *t, *u),
        Formula::Lt(t, u) => are_numbers(scene, *t, *u),
        Formula::And(p, q) => fits(scene, p) && fits(scene, q),
        Formula::Or(p, q) => fits(scene, p) && fits(scene, q),
    }
}

// Whether two terms are in the table and have one sort.
fn have_one_sort(scene: &Scene, t: TermId, u: TermId) -> bool
    ensures left { OnTrue result (t.0 < length (trees_in scene.now.table)) }
    ensures right { OnTrue result (u.0 < length (trees_in scene.now.table)) }
    ensures sorts { let trees = trees_in scene.now.table in let sorts = sorts_in scene.now.table in
        OnTrue result (tree_sort sorts (tree_at trees t.0) ≡ tree_sort sorts (tree_at trees u.0)) }
{
    if !scene.has(t) || !scene.has(u) {
        return false;
    }
    match (scene.table.sort(t), scene.table.sort(u)) {
        (Sort::Num, Sort::Num) => true,
        (Sort::Arr, Sort::Arr) => true,
        _ => false,
    }
}

// Whether two terms are numbers of the table.
fn are_numbers(scene: &Scene, t: TermId, u: TermId) -> bool
    ensures left { OnTrue result (t.0 < length (trees_in scene.now.table)) }
    ensures right { OnTrue result (u.0 < length (trees_in scene.now.table)) }
    ensures left_sort { let trees = trees_in scene.now.table in
        OnTrue result (tree_sort (sorts_in scene.now.table) (tree_at trees t.0) ≡ Num) }
    ensures right_sort { let trees = trees_in scene.now.table in
        OnTrue result (tree_sort (sorts_in scene.now.table) (tree_at trees u.0) ≡ Num) }
{
    if !scene.has(t) || !scene.has(u) {
        return false;
    }
    match (scene.table.sort(t), scene.table.sort(u)) {
        (Sort::Num, Sort::Num) => true,
        _ => false,
    }
}

// Prints whether the certificate of a closed obligation closes its branch, and the words of its lines.
fn put_closed(
    alloc: Global,
    scene: &mut Scene,
    target: &Formula,
    tree: &CertTree,
    out: &mut Printed,
) -> Result<(), Refusal> {
    scene.branch.list.push(Fact::Form(negate(alloc, target)?))?;
    let said = verdict(alloc, scene, tree, out);
    scene.branch.list.pop();
    said?;
    let count = line_count(tree);
    if count > MOST_LINES {
        write!(out, " {count} lines");
        Ok(())
    } else {
        Ok(put_kinds(alloc, out, tree)?)
    }
}

// How many lines a certificate has.
fn line_count(tree: &CertTree) -> u64 {
    let own = tree.lines.list.len() as u64;
    let below = match &tree.last {
        CertEnd::Close(_) => 0,
        CertEnd::Split(_, first, second) => line_count(first).saturating_add(line_count(second)),
    };
    own.saturating_add(below).saturating_add(1)
}

// Prints the first words of the lines of a certificate, in preorder.
fn put_kinds(alloc: Global, out: &mut Printed, tree: &CertTree) -> Result<(), AllocError> {
    for line in &tree.lines.list {
        put_kind(alloc, out, line)?;
    }
    match &tree.last {
        CertEnd::Close(line) => put_kind(alloc, out, line),
        CertEnd::Split(line, first, second) => {
            put_kind(alloc, out, line)?;
            put_kinds(alloc, out, first)?;
            put_kinds(alloc, out, second)
        }
    }
}

// Prints the first word of a line.
fn put_kind(alloc: Global, out: &mut Printed, line: &CertLine) -> Result<(), AllocError> {
    let printed = format!(in alloc; " {line:?}")?;
    let (kind, _) = printed.split_once('(').unwrap_or((&printed, ""));
    out.put(&kind.to_lowercase(alloc)?);
    Ok(())
}

// Prints the formulas of a branch that stays open.
fn put_leaf(out: &mut Printed, leaf: &[Formula]) {
    out.put("open");
    for f in leaf {
        out.put("; ");
        put_formula(out, f);
    }
}
