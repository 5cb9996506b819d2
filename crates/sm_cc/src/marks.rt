// Marks at the entries that an explanation needs.
ghost use Rattle.std.specs.Prelude.{◌≡◌, ◌+◌, ◌<◌, [], ◌∷◌, ◌++◌, IfOk, length, take};
ghost use Rattle.sm_cc.specs.Closures.{IsSound};
ghost use Rattle.sm_cc.specs.Steps.{Marks, MarksMore, AreMarked, AreBelow, AreClosedFrom, numbers_of, numbers_in};

use crate::closure::Closure;
use crate::log::{Rule, Why};
use std::alloc::{AllocError, Global};

// Marks an entry.
fn mark(marks: &mut [bool], n: u64)
    requires { n < length marks.old }
    ensures { Marks marks.old marks.new (n ∷ []) }
{
    marks[n as usize] = true;
}

// Marks two entries.
fn mark_both(marks: &mut [bool], m: u64, n: u64)
    requires first { m < length marks.old }
    requires second { n < length marks.old }
    ensures { Marks marks.old marks.new (m ∷ n ∷ []) }
{
    mark(marks, m);
    mark(marks, n);
}

// Marks entries.
fn mark_all(marks: &mut [bool], numbers: &[u64])
    requires { AreBelow (length marks.old) numbers.now }
    ensures { Marks marks.old marks.new numbers.now }
{
    for n in numbers {
        mark(marks, *n);
    }
}

// Marks the entries that a rule takes.
fn mark_rule(marks: &mut [bool], rule: &Rule)
    requires { AreBelow (length marks.old) (numbers_of rule.now) }
    ensures { Marks marks.old marks.new (numbers_of rule.now) }
{
    match rule {
        Rule::Sym(n) => mark(marks, *n),
        Rule::Trans(m, n) => mark_both(marks, *m, *n),
        Rule::Subst(m, n) => mark_both(marks, *m, *n),
        Rule::Cong(numbers) => mark_all(marks, numbers),
        Rule::Hit(n) => mark(marks, *n),
        Rule::Miss(n) => mark(marks, *n),
        Rule::Refl => {}
        Rule::Alike => {}
        Rule::Apart => {}
    }
}

// Marks the entries that one follows from.
fn mark_numbers(marks: &mut [bool], why: &Why)
    requires { AreBelow (length marks.old) (numbers_in why.now) }
    ensures { Marks marks.old marks.new (numbers_in why.now) }
{
    match why {
        Why::Given(_) => {}
        Why::By(rule) => mark_rule(marks, rule),
    }
}

// Marks what an entry follows from, if it is marked.
fn mark_entry(c: &Closure, marks: &mut [bool], m: usize)
    requires sound { IsSound c.now }
    requires count { length marks.old ≡ length c.now.entries.items }
    requires there { m < length c.now.entries.items }
    requires closed { AreClosedFrom c.now.entries.items marks.old (m + 1) }
    ensures closed { AreClosedFrom c.now.entries.items marks.new m }
    ensures more { MarksMore marks.old marks.new }
{
    if !marks[m] {
        return;
    }
    mark_numbers(marks, &c.entries[m].why);
}

// Marks what marked entries follow from.
fn mark_down(c: &Closure, marks: &mut [bool])
    requires sound { IsSound c.now }
    requires count { length marks.old ≡ length c.now.entries.items }
    ensures closed { AreClosedFrom c.now.entries.items marks.new 0 }
    ensures more { MarksMore marks.old marks.new }
{
    let mut m = c.entries.len();
    while m > 0 {
        m -= 1;
        mark_entry(c, marks, m);
    }
}

// No marks.
fn no_marks(alloc: Global, count: usize) -> Result<Vec<bool>, AllocError>
    ensures { IfOk result (λ marks. length marks.items ≡ count) }
{
    let mut marks = Vec::new(alloc);
    for _ in 0..count {
        marks.push(false)?;
    }
    Ok(marks)
}

/// Marks at two entries and all that they follow from.
pub(crate) fn marked(
    alloc: Global,
    c: &Closure,
    first: u64,
    second: u64,
) -> Result<Vec<bool>, AllocError>
    requires sound { IsSound c.now }
    requires first_there { first < length c.now.entries.items }
    requires second_there { second < length c.now.entries.items }
    ensures closed { IfOk result (λ marks. AreClosedFrom c.now.entries.items marks.items 0) }
    ensures marked { IfOk result (λ marks. AreMarked marks.items (first ∷ second ∷ [])) }
    ensures count { IfOk result (λ marks.
        length marks.items ≡ length c.now.entries.items) }
{
    let mut marks = no_marks(alloc, c.entries.len())?;
    mark_both(&mut marks, first, second);
    mark_down(c, &mut marks);
    Ok(marks)
}
