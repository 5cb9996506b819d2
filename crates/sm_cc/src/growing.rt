// Classes of places that begin with those of others: rows go behind copies of theirs.
ghost use Rattle.std.specs.Prelude.{◌≡◌, ◌≤◌, IfOk, length};
ghost use Rattle.sm_cc.specs.Log.{AllFollow};
ghost use Rattle.sm_cc.specs.Closures.{IsSound, AllRooted, placed_of};
ghost use Rattle.sm_cc.specs.Exact.{placed_with};
ghost use Rattle.sm_cc.specs.BaseClasses.{AreAllGiven};
ghost use Rattle.sm_cc.specs.Growing.{AreGrown, IsCopy, AreKept, IsSameRule, IsSameWhy, IsEntryCopy, AreEntriesKept};

use crate::closure::Closure;
use crate::log::{Entry, Equation, Given, Known, Rule, Why};
use crate::row::Row;
use std::alloc::{AllocError, Global};

// A copy of a row.
fn copy_row(alloc: Global, old: &Row) -> Result<Row, AllocError>
    ensures { IfOk result (λ r. IsCopy old.now r) }
{
    let arguments = old.arguments.as_slice().to_vec(alloc)?;
    Ok(Row {
        head: old.head,
        arguments,
        shape: old.shape,
        element: old.element,
    })
}

// A copy of rows.
fn copy_rows(alloc: Global, old: &[Row]) -> Result<Vec<Row>, AllocError>
    ensures count { IfOk result (λ rs. length rs.items ≡ length old.now) }
    ensures kept { IfOk result (λ rs. AreKept old.now rs.items) }
{
    let mut rows = Vec::with_capacity(alloc, old.len())?;
    for i in 0..old.len() {
        let row = copy_row(alloc, &old[i])?;
        rows.push(row)?;
    }
    Ok(rows)
}

// A copy of a rule.
fn copy_rule(alloc: Global, old: &Rule) -> Result<Rule, AllocError>
    ensures { IfOk result (λ r. IsSameRule old.now r) }
{
    match old {
        Rule::Refl => Ok(Rule::Refl),
        Rule::Sym(n) => Ok(Rule::Sym(*n)),
        Rule::Trans(m, n) => Ok(Rule::Trans(*m, *n)),
        Rule::Subst(m, n) => Ok(Rule::Subst(*m, *n)),
        Rule::Alike => Ok(Rule::Alike),
        Rule::Apart => Ok(Rule::Apart),
        Rule::Cong(ns) => {
            let same = ns.as_slice().to_vec(alloc)?;
            Ok(Rule::Cong(same))
        }
        Rule::Hit(n) => Ok(Rule::Hit(*n)),
        Rule::Miss(n) => Ok(Rule::Miss(*n)),
    }
}

// A copy of a reason.
fn copy_why(alloc: Global, old: &Why) -> Result<Why, AllocError>
    ensures { IfOk result (λ w. IsSameWhy old.now w) }
{
    match old {
        Why::Given(fact) => Ok(Why::Given(*fact)),
        Why::By(rule) => {
            let same = copy_rule(alloc, rule)?;
            Ok(Why::By(same))
        }
    }
}

// A copy of an entry.
fn copy_entry(alloc: Global, old: &Entry) -> Result<Entry, AllocError>
    ensures { IfOk result (λ e. IsEntryCopy old.now e) }
{
    let why = copy_why(alloc, &old.why)?;
    Ok(Entry {
        why,
        known: old.known,
    })
}

// A copy of entries.
fn copy_entries(alloc: Global, old: &[Entry]) -> Result<Vec<Entry>, AllocError>
    ensures count { IfOk result (λ es. length es.items ≡ length old.now) }
    ensures kept { IfOk result (λ es. AreEntriesKept old.now es.items) }
{
    let mut entries = Vec::with_capacity(alloc, old.len())?;
    for i in 0..old.len() {
        let entry = copy_entry(alloc, &old[i])?;
        entries.push(entry)?;
    }
    Ok(entries)
}

/// A copy of roots.
pub(crate) fn copy_roots(alloc: Global, old: &[Equation]) -> Result<Vec<Equation>, AllocError>
    ensures { IfOk result (λ rs. rs.items ≡ old.now) }
{
    let roots = old.to_vec(alloc)?;
    Ok(roots)
}

// Each place that has no root yet comes into a class of its own.
fn completed(
    rows: Vec<Row>,
    equal: Vec<Given>,
    unequal: Vec<Given>,
    log: Vec<Entry>,
    rooted: Vec<Equation>,
) -> Result<Closure, AllocError>
    requires follow { AllFollow (placed_with rows.items equal.items unequal.items) log.items }
    requires rooted { AllRooted log.items rooted.items }
    requires few { length rooted.items ≤ length rows.items }
    ensures sound { IfOk result IsSound }
    ensures rows { IfOk result (λ c. c.rows ≡ rows) }
    ensures equal { IfOk result (λ c. c.equal ≡ equal) }
    ensures unequal { IfOk result (λ c. c.unequal ≡ unequal) }
{
    let mut entries = log;
    let mut roots = rooted;
    for k in roots.len()..rows.len() {
        let i = k as u64;
        let entry = entries.len() as u64;
        entries.push(Entry {
            why: Why::By(Rule::Refl),
            known: Known::Equal(i, i),
        })?;
        roots.push(Equation {
            left: i,
            right: i,
            entry,
        })?;
    }
    Ok(Closure {
        rows,
        equal,
        unequal,
        entries,
        roots,
    })
}

/// Places with these rows, each in a class of its own, whatever is given of them.
pub(crate) fn unmerged(
    alloc: Global,
    rows: Vec<Row>,
    equal: Vec<Given>,
    unequal: Vec<Given>,
) -> Result<Closure, AllocError>
    ensures sound { IfOk result IsSound }
    ensures given { IfOk result (λ c.
        placed_of c ≡ placed_with rows.items equal.items unequal.items) }
{
    let made = completed(rows, equal, unequal, Vec::new(alloc), Vec::new(alloc))?;
    Ok(made)
}

/// The classes of places with more behind them, each of which is in a class of its own. All that
/// was given is given still; no rule is applied yet.
pub(crate) fn grown(
    alloc: Global,
    old: &Closure,
    more: Vec<Row>,
    equal: Vec<Given>,
    unequal: Vec<Given>,
) -> Result<Closure, AllocError>
    requires sound { IsSound old.now }
    requires equal { AreAllGiven old.now.equal.items equal.items }
    requires unequal { AreAllGiven old.now.unequal.items unequal.items }
    ensures sound { IfOk result IsSound }
    ensures rows { IfOk result (λ c. AreGrown old.now.rows.items more.items c.rows.items) }
    ensures equal { IfOk result (λ c. c.equal.items ≡ equal.items) }
    ensures unequal { IfOk result (λ c. c.unequal.items ≡ unequal.items) }
{
    let mut rows = copy_rows(alloc, &old.rows)?;
    let mut behind = more;
    rows.append(&mut behind)?;
    let entries = copy_entries(alloc, &old.entries)?;
    let roots = copy_roots(alloc, &old.roots)?;
    let made = completed(rows, equal, unequal, entries, roots)?;
    Ok(made)
}
