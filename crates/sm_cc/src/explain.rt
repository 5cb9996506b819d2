// Steps that explain why two places are equal, taken from the log.
ghost use Rattle.std.specs.Prelude.{◌≡◌, ◌+◌, ◌^◌, ◌<◌, [], ◌∷◌, IfOk, OnOk, IsTrue, length, slice_get};
ghost use Rattle.sm_cc.specs.Closures.{IsSound, placed_of, are_together};
ghost use Rattle.sm_cc.specs.Merges.{IsLabel};
ghost use Rattle.sm_cc.specs.Steps.{ExplainPlaces, AreBelow, AreClosedFrom, AreMarked, AreNumbers, IsNumber, IsRenumbered, AddsStep, NumbersEntry, IsDraft, StepsFollow, RootHasNumber, numbers_of, numbers_in};

use crate::closure::Closure;
use crate::log::{Entry, Known, Rule, Step, Why};
use crate::marks::marked;
use std::alloc::{AllocError, Global};

/// Steps on their way, and the numbers of the entries that were passed.
#[derive(Drop)]
pub(crate) struct StepsBuilder {
    pub(crate) steps: Vec<Step>,
    pub(crate) numbers: Vec<u64>,
}

// A rule with the numbers that its entries have.
fn renumbered(alloc: Global, rule: &Rule, numbers: &[u64]) -> Result<Rule, AllocError>
    requires { AreBelow (length numbers.now) (numbers_of rule.now) }
    ensures { IfOk result (IsRenumbered numbers.now rule.now) }
{
    match rule {
        Rule::Refl => Ok(Rule::Refl),
        Rule::Sym(n) => Ok(Rule::Sym(numbers[*n as usize])),
        Rule::Trans(m, n) => Ok(Rule::Trans(numbers[*m as usize], numbers[*n as usize])),
        Rule::Subst(m, n) => Ok(Rule::Subst(numbers[*m as usize], numbers[*n as usize])),
        Rule::Alike => Ok(Rule::Alike),
        Rule::Apart => Ok(Rule::Apart),
        Rule::Cong(list) => {
            let list = renumbered_list(alloc, list, numbers)?;
            Ok(Rule::Cong(list))
        }
        Rule::Hit(n) => Ok(Rule::Hit(numbers[*n as usize])),
        Rule::Miss(n) => Ok(Rule::Miss(numbers[*n as usize])),
    }
}

// The number that an entry has.
fn number_of(numbers: &[u64], n: u64) -> u64
    requires { n < length numbers.now }
    ensures { IsNumber numbers.now n result }
{
    numbers[n as usize]
}

// The numbers that entries have.
fn renumbered_list(alloc: Global, list: &[u64], numbers: &[u64]) -> Result<Vec<u64>, AllocError>
    requires { AreBelow (length numbers.now) list.now }
    ensures { IfOk result (λ v. AreNumbers numbers.now list.now v.items) }
{
    let mut found = Vec::new(alloc);
    for n in list {
        let x = number_of(numbers, *n);
        found.push(x)?;
    }
    Ok(found)
}

// Adds the step of an entry, and gives its number.
fn add_step(
    alloc: Global,
    draft: &mut StepsBuilder,
    rule: &Rule,
    known: Known,
    start: u64,
) -> Result<u64, AllocError>
    requires below { AreBelow (length draft.old.numbers.items) (numbers_of rule.now) }
    requires small { start < 2 ^ 63 }
    ensures { IfOk result (λ n. AddsStep start draft.old draft.new n rule.now known) }
{
    let rule = renumbered(alloc, rule, &draft.numbers)?;
    let number = start + draft.steps.len() as u64;
    draft.steps.push(Step { rule, known })?;
    Ok(number)
}

// The number of an entry, with its step if it wasn't given.
fn number_entry(
    alloc: Global,
    draft: &mut StepsBuilder,
    e: &Entry,
    start: u64,
) -> Result<u64, AllocError>
    requires below { AreBelow (length draft.old.numbers.items) (numbers_in e.now.why) }
    requires small { start < 2 ^ 63 }
    ensures { IfOk result (λ n. NumbersEntry start draft.old draft.new n e.now.why e.now.known) }
{
    match &e.why {
        Why::Given(fact) => Ok(*fact),
        Why::By(rule) => add_step(alloc, draft, rule, e.known, start),
    }
}

// Numbers the next entry, if it is marked.
fn emit(
    alloc: Global,
    c: &Closure,
    marks: &[bool],
    start: u64,
    m: usize,
    draft: &mut StepsBuilder,
) -> Result<(), AllocError>
    requires sound { IsSound c.now }
    requires count { length marks.now ≡ length c.now.entries.items }
    requires closed { AreClosedFrom c.now.entries.items marks.now 0 }
    requires there { m < length c.now.entries.items }
    requires small { start < 2 ^ 63 }
    requires draft { IsDraft (placed_of c.now) c.now.entries.items marks.now start m draft.old }
    ensures { OnOk result
        (IsDraft (placed_of c.now) c.now.entries.items marks.now start (m + 1) draft.new) }
{
    if !marks[m] {
        draft.numbers.push(0)?;
        return Ok(());
    }
    let number = number_entry(alloc, draft, &c.entries[m], start)?;
    draft.numbers.push(number)?;
    Ok(())
}

// The steps of all marked entries.
fn emitted(
    alloc: Global,
    c: &Closure,
    marks: &[bool],
    start: u64,
) -> Result<StepsBuilder, AllocError>
    requires sound { IsSound c.now }
    requires count { length marks.now ≡ length c.now.entries.items }
    requires closed { AreClosedFrom c.now.entries.items marks.now 0 }
    requires small { start < 2 ^ 63 }
    ensures { let entries = c.now.entries.items in
        IfOk result (IsDraft (placed_of c.now) entries marks.now start (length entries)) }
{
    let mut draft = StepsBuilder {
        steps: Vec::new(alloc),
        numbers: Vec::with_capacity(alloc, c.entries.len())?,
    };
    for m in 0..c.entries.len() {
        emit(alloc, c, marks, start, m, &mut draft)?;
    }
    Ok(draft)
}

// The steps end with the equation of two places of a class.
fn finish(
    c: &Closure,
    draft: StepsBuilder,
    i: u64,
    j: u64,
    start: u64,
) -> Result<Vec<Step>, AllocError>
    requires sound { IsSound c.now }
    requires together { IsTrue (are_together c.now.roots.items i j) }
    requires small { start < 2 ^ 63 }
    requires follow { StepsFollow (placed_of c.now) start draft.steps.items }
    requires first { RootHasNumber c.now start draft i }
    requires second { RootHasNumber c.now start draft j }
    ensures { IfOk result (λ v. ExplainPlaces (placed_of c.now) start v.items i j) }
{
    let first = c.roots[i as usize];
    let second = c.roots[j as usize];
    let x = draft.numbers[first.entry as usize];
    let y = draft.numbers[second.entry as usize];
    let mut steps = draft.steps;
    let n = start + steps.len() as u64;
    steps.push(Step {
        rule: Rule::Sym(y),
        known: Known::Equal(second.right, second.left),
    })?;
    steps.push(Step {
        rule: Rule::Trans(x, n),
        known: Known::Equal(first.left, second.left),
    })?;
    Ok(steps)
}

// The steps end with the equation of a label and a place.
fn finish_turned(
    c: &Closure,
    draft: StepsBuilder,
    i: u64,
    j: u64,
    start: u64,
) -> Result<Vec<Step>, AllocError>
    requires sound { IsSound c.now }
    requires together { IsTrue (are_together c.now.roots.items i j) }
    requires label { IsLabel c.now.roots.items i i }
    requires follow { StepsFollow (placed_of c.now) start draft.steps.items }
    requires second { RootHasNumber c.now start draft j }
    ensures { IfOk result (λ v. ExplainPlaces (placed_of c.now) start v.items i j) }
{
    let second = c.roots[j as usize];
    let y = draft.numbers[second.entry as usize];
    let mut steps = draft.steps;
    steps.push(Step {
        rule: Rule::Sym(y),
        known: Known::Equal(second.right, second.left),
    })?;
    Ok(steps)
}

// Steps that explain why a label and a place are equal.
fn explanation_turned(
    alloc: Global,
    c: &Closure,
    i: u64,
    j: u64,
    start: u64,
) -> Result<Vec<Step>, AllocError>
    requires sound { IsSound c.now }
    requires together { IsTrue (are_together c.now.roots.items i j) }
    requires label { IsLabel c.now.roots.items i i }
    requires small { start < 2 ^ 63 }
    ensures { IfOk result (λ v. ExplainPlaces (placed_of c.now) start v.items i j) }
{
    let second = c.roots[j as usize];
    let marks = marked(alloc, c, second.entry, second.entry)?;
    let draft = emitted(alloc, c, &marks, start)?;
    finish_turned(c, draft, i, j, start)
}

/// Steps, of which the first has the number `start`, that explain why two places are equal.
pub(crate) fn explanation(
    alloc: Global,
    c: &Closure,
    i: u64,
    j: u64,
    start: u64,
) -> Result<Vec<Step>, AllocError>
    requires sound { IsSound c.now }
    requires together { IsTrue (are_together c.now.roots.items i j) }
    requires small { start < 2 ^ 63 }
    ensures { IfOk result (λ v. ExplainPlaces (placed_of c.now) start v.items i j) }
{
    let first = c.roots[i as usize];
    let second = c.roots[j as usize];
    if first.right == i {
        return explanation_turned(alloc, c, i, j, start);
    }
    let marks = marked(alloc, c, first.entry, second.entry)?;
    let draft = emitted(alloc, c, &marks, start)?;
    finish(c, draft, i, j, start)
}
