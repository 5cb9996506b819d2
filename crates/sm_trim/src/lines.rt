// Lines with other numbers of facts.
ghost use Rattle.std.specs.Prelude.{◌≡◌, ℕ, ◌+◌, ◌-◌, ◌++◌, List, map, IfOk, OnOk};
ghost use Rattle.std.specs.List.{range_with_len};
ghost use Rattle.sm_term.specs.Terms.{Tree};
ghost use Rattle.sm_theory.specs.Named.{facts_added};
ghost use Rattle.sm_theory.specs.Moved.{moved_line};
ghost use Rattle.sm_theory.specs.Views.{line_in};
ghost use Rattle.sm_trim.specs.Pruned.{new_number, numbered_on};
ghost use Rattle.sm_trim.specs.Views.{facts_past};

use sm_theory::{CertLine, FactNumbers};
use std::alloc::{AllocError, Global};

// How many facts a line adds in each way.
pub(crate) fn facts_added(line: &CertLine) -> u64
    ensures { (trees : List Tree) → result ≡ facts_added (line_in trees line.now) }
{
    match line {
        CertLine::Both(_) => 2,
        _ => 1,
    }
}

// A number of facts with so many more. There is no memory for more facts than a `u64` counts.
pub(crate) fn more_facts(count: u64, more: u64) -> Result<u64, AllocError>
    ensures { IfOk result (λ n. n ≡ count + more) }
{
    match count.checked_add(more) {
        Some(n) => Ok(n),
        None => Err(AllocError),
    }
}

// How many facts stand after lines, where `at` stand before them.
pub(crate) fn facts_past(lines: &[CertLine], at: u64) -> Result<u64, AllocError>
    ensures { (trees : List Tree) → IfOk result (λ n. n ≡ facts_past trees at lines.now) }
{
    let mut past = at;
    for line in lines {
        past = more_facts(past, facts_added(line))?;
    }
    Ok(past)
}

// The new number of fact n, where those of facts from 0 on are told. Another keeps its number.
fn new_number(moved: &[u64], n: u64) -> u64
    ensures { result ≡ new_number moved.now n }
{
    let place = n as usize;
    if place < moved.len() { moved[place] } else { n }
}

// The new numbers of facts.
fn new_numbers(alloc: Global, facts: &FactNumbers, moved: &[u64]) -> Result<FactNumbers, AllocError>
    ensures { IfOk result (λ ns. ns.list.items ≡ map (new_number moved.now) facts.now.list.items) }
{
    let mut list = Vec::with_capacity(alloc, facts.list.len())?;
    for n in &facts.list {
        list.push(new_number(moved, *n))?;
    }
    Ok(FactNumbers { list })
}

// A line with the new numbers of the facts that it names.
pub(crate) fn moved_line(
    alloc: Global,
    line: &CertLine,
    moved: &[u64],
) -> Result<CertLine, AllocError>
    ensures { (trees : List Tree) → IfOk result (λ l.
        line_in trees l ≡ moved_line (new_number moved.now) (line_in trees line.now)) }
{
    match line {
        CertLine::Both(n) => Ok(CertLine::Both(new_number(moved, *n))),
        CertLine::Either(n) => Ok(CertLine::Either(new_number(moved, *n))),
        CertLine::Cases(t, u) => Ok(CertLine::Cases(*t, *u)),
        CertLine::Order(n) => Ok(CertLine::Order(new_number(moved, *n))),
        CertLine::Refl(t) => Ok(CertLine::Refl(*t)),
        CertLine::Sym(n) => Ok(CertLine::Sym(new_number(moved, *n))),
        CertLine::Trans(m, n) => {
            Ok(CertLine::Trans(new_number(moved, *m), new_number(moved, *n)))
        }
        CertLine::Subst(m, n) => {
            Ok(CertLine::Subst(new_number(moved, *m), new_number(moved, *n)))
        }
        CertLine::Cong(t, u, ns) => Ok(CertLine::Cong(*t, *u, new_numbers(alloc, ns, moved)?)),
        CertLine::Same(t, u) => Ok(CertLine::Same(*t, *u)),
        CertLine::Apart(t, u) => Ok(CertLine::Apart(*t, *u)),
        CertLine::Hit(t, n) => Ok(CertLine::Hit(*t, new_number(moved, *n))),
        CertLine::Miss(t, u, n) => Ok(CertLine::Miss(*t, *u, new_number(moved, *n))),
        CertLine::Lin(n) => Ok(CertLine::Lin(new_number(moved, *n))),
        CertLine::Elim(m, n, t) => {
            Ok(CertLine::Elim(new_number(moved, *m), new_number(moved, *n), *t))
        }
        CertLine::Tight(n) => Ok(CertLine::Tight(new_number(moved, *n))),
        CertLine::Exact(n) => Ok(CertLine::Exact(*n)),
        CertLine::Close(n) => Ok(CertLine::Close(new_number(moved, *n))),
        CertLine::Clash(m, n) => {
            Ok(CertLine::Clash(new_number(moved, *m), new_number(moved, *n)))
        }
    }
}

// A copy of the line.
pub(crate) fn copy_line(alloc: Global, line: &CertLine) -> Result<CertLine, AllocError>
    ensures { (trees : List Tree) → IfOk result (λ l. line_in trees l ≡ line_in trees line.now) }
{
    moved_line(alloc, line, &[])
}

// Facts up to number `at` keep the numbers that they have, and so many facts from there on get
// numbers from `to` on.
pub(crate) fn number_on(
    moved: &mut Vec<u64>,
    at: u64,
    to: u64,
    count: u64,
) -> Result<(), AllocError>
    ensures { OnOk result (moved.new.items ≡ numbered_on moved.old.items at to count) }
{
    let told = moved.len() as u64;
    push_numbers(moved, told, at)?;
    push_numbers(moved, to, more_facts(to, count)?)
}

// Puts numbers up to an end behind others.
fn push_numbers(list: &mut Vec<u64>, from: u64, end: u64) -> Result<(), AllocError>
    ensures { OnOk result (list.new.items ≡ list.old.items ++ range_with_len from (end - from)) }
{
    for n in from..end {
        list.push(n)?;
    }
    Ok(())
}
