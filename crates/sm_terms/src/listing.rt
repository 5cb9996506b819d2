// Terms listed by their numbers, each after its arguments. Terms may be deep, so the steps that are
// left stand on a stack.
ghost use Rattle.std.specs.Prelude.{◌≡◌, ◌<◌, ◌+◌, List, ◌++◌, ◌∷◌, [], length, OnOk};
ghost use Rattle.sm_term.specs.Terms.{Tree};
ghost use Rattle.sm_term.specs.Tables.{trees_in, sorts_in, tree_at};
ghost use Rattle.sm_term.specs.Formulas.{numbered, assertion_in, IsFormulaWithin};
ghost use Rattle.sm_euf.specs.Arguments.{argument_numbers};
ghost use Rattle.sm_theory.specs.TermsOfFormulas.{with_term, with_formula};
ghost use Rattle.sm_terms.specs.Listing.{trees_at, AreBelow, IsClosed, IsStepWithin, Leads, visits, cost_of_step, cost_of_steps};

use sm_numbering::Numbering;
use sm_term::{Formula, Term, TermId, TermTable};
use std::alloc::{AllocError, Global};

// A step of the walk through terms.
#[derive(Clone, Copy)]
enum Step {
    // the term is listed after its arguments
    Visit(u64),
    // the term, whose arguments are there, is listed
    Put(u64),
}

// Lists a term after its arguments.
fn list_term(
    alloc: Global,
    table: &TermTable,
    listed: &mut Numbering<u64>,
    t: TermId,
) -> Result<(), AllocError>
    requires within { t.0 < length (trees_in table.now) }
    requires listed { AreBelow (length (trees_in table.now)) listed.old }
    requires closed { IsClosed (trees_at (trees_in table.now) listed.old) }
    ensures terms { let trees = trees_in table.now in
        let terms = with_term (tree_at trees t.0) (trees_at trees listed.old) in
        OnOk result (trees_at trees listed.new ≡ terms) }
    ensures listed { OnOk result (AreBelow (length (trees_in table.now)) listed.new) }
    ensures closed { OnOk result (IsClosed (trees_at (trees_in table.now) listed.new)) }
{
    // No term is there twice.
    let _count = table.len();
    if listed.contains(&t.0) {
        return Ok(());
    }
    let mut steps = Vec::new(alloc);
    steps.push(Step::Visit(t.0))?;
    while let Some(step) = steps.pop() {
        take_step(table, listed, &mut steps, step)?;
    }
    Ok(())
}

// Takes the next step.
fn take_step(
    table: &TermTable,
    listed: &mut Numbering<u64>,
    steps: &mut Vec<Step>,
    step: Step,
) -> Result<(), AllocError>
    requires { IsStepWithin (length (trees_in table.now)) step }
    ensures leads { let trees = trees_in table.now in (terms : List Tree) →
        Leads trees listed.old (steps.old.items ++ step ∷ []) terms →
        OnOk result (Leads trees listed.new steps.new.items terms) }
    ensures less { let trees = trees_in table.now in
        let before = cost_of_steps trees steps.old.items + cost_of_step trees step in
        OnOk result (cost_of_steps trees steps.new.items < before) }
{
    match step {
        Step::Visit(n) => visit(table, listed, steps, n),
        Step::Put(n) => put(table, listed, n),
    }
}

// Lists a term whose arguments are there.
fn put(table: &TermTable, listed: &mut Numbering<u64>, n: u64) -> Result<(), AllocError>
    requires { n < length (trees_in table.now) }
    ensures { let trees = trees_in table.now in (steps : List Step) (terms : List Tree) →
        Leads trees listed.old (steps ++ Step.Put n ∷ []) terms →
        OnOk result (Leads trees listed.new steps terms) }
{
    // No term is there twice.
    let _count = table.len();
    listed.add(n)?;
    Ok(())
}

// Where a term isn't listed yet, its arguments are visited first.
fn visit(
    table: &TermTable,
    listed: &Numbering<u64>,
    steps: &mut Vec<Step>,
    n: u64,
) -> Result<(), AllocError>
    requires { n < length (trees_in table.now) }
    ensures leads { let trees = trees_in table.now in (terms : List Tree) →
        Leads trees listed.now (steps.old.items ++ Step.Visit n ∷ []) terms →
        OnOk result (Leads trees listed.now steps.new.items terms) }
    ensures less { let trees = trees_in table.now in
        let before = cost_of_steps trees steps.old.items + cost_of_step trees (Step.Visit n) in
        OnOk result (cost_of_steps trees steps.new.items < before) }
{
    // No term is there twice.
    let _count = table.len();
    if listed.contains(&n) {
        return Ok(());
    }
    steps.push(Step::Put(n))?;
    push_arguments(steps, table.get(TermId(n)))?;
    Ok(())
}

// Visits of the arguments of a term.
fn push_arguments(steps: &mut Vec<Step>, t: &Term) -> Result<(), AllocError>
    ensures { OnOk result (steps.new.items ≡ steps.old.items ++ visits (argument_numbers t.now)) }
{
    match t {
        Term::Neg(a) => push_visits(steps, &[*a]),
        Term::Read(a, i) => push_visits(steps, &[*a, *i]),
        Term::Add(a, b) => push_visits(steps, &[*a, *b]),
        Term::Sub(a, b) => push_visits(steps, &[*a, *b]),
        Term::Mul(a, b) => push_visits(steps, &[*a, *b]),
        Term::Write(a, i, e) => push_visits(steps, &[*a, *i, *e]),
        Term::Fun { args, .. } => push_visits(steps, &args.list),
        Term::Lit(_) | Term::Start(_) | Term::Cell => Ok(()),
        Term::Havoc { .. } | Term::Slot { .. } => Ok(()),
    }
}

// Visits of terms, the first of which is the next step.
fn push_visits(steps: &mut Vec<Step>, terms: &[TermId]) -> Result<(), AllocError>
    ensures { OnOk result (steps.new.items ≡ steps.old.items ++ visits terms.now) }
{
    let mut left = terms.len();
    while left > 0 {
        left -= 1;
        steps.push(Step::Visit(terms[left].0))?;
    }
    Ok(())
}

/// Lists the terms of a formula behind others, each after its arguments and once.
pub fn list_formula(
    alloc: Global,
    table: &TermTable,
    listed: &mut Numbering<u64>,
    f: &Formula,
) -> Result<(), AllocError>
    requires within { IsFormulaWithin (length (trees_in table.now)) (numbered f.now) }
    requires listed { AreBelow (length (trees_in table.now)) listed.old }
    requires closed { IsClosed (trees_at (trees_in table.now) listed.old) }
    ensures terms { let trees = trees_in table.now in
        let f = assertion_in (sorts_in table.now) trees (numbered f.now) in
        let terms = with_formula f (trees_at trees listed.old) in
        OnOk result (trees_at trees listed.new ≡ terms) }
    ensures listed { OnOk result (AreBelow (length (trees_in table.now)) listed.new) }
    ensures closed { OnOk result (IsClosed (trees_at (trees_in table.now) listed.new)) }
{
    match f {
        Formula::Yes | Formula::No => Ok(()),
        Formula::Eq(t, u) => list_two(alloc, table, listed, *t, *u),
        Formula::Ne(t, u) => list_two(alloc, table, listed, *t, *u),
        Formula::Le(t, u) => list_two(alloc, table, listed, *t, *u),
        Formula::Lt(t, u) => list_two(alloc, table, listed, *t, *u),
        Formula::And(p, q) => {
            list_formula(alloc, table, listed, p)?;
            list_formula(alloc, table, listed, q)?;
            Ok(())
        }
        Formula::Or(p, q) => {
            list_formula(alloc, table, listed, p)?;
            list_formula(alloc, table, listed, q)?;
            Ok(())
        }
    }
}

// Lists two terms.
fn list_two(
    alloc: Global,
    table: &TermTable,
    listed: &mut Numbering<u64>,
    t: TermId,
    u: TermId,
) -> Result<(), AllocError>
    requires first { t.0 < length (trees_in table.now) }
    requires second { u.0 < length (trees_in table.now) }
    requires listed { AreBelow (length (trees_in table.now)) listed.old }
    requires closed { IsClosed (trees_at (trees_in table.now) listed.old) }
    ensures terms { let trees = trees_in table.now in
        let first = with_term (tree_at trees t.0) (trees_at trees listed.old) in
        OnOk result
        (trees_at trees listed.new ≡ with_term (tree_at trees u.0) first) }
    ensures listed { OnOk result (AreBelow (length (trees_in table.now)) listed.new) }
    ensures closed { OnOk result (IsClosed (trees_at (trees_in table.now) listed.new)) }
{
    list_term(alloc, table, listed, t)?;
    list_term(alloc, table, listed, u)?;
    Ok(())
}
