// The facts that lines name.
ghost use Rattle.std.specs.Prelude.{◌≡◌, ℕ, ◌||◌, Bool, false, true, nat_eq, List, IfOk, OnOk};
ghost use Rattle.std.specs.List.{list_any};
ghost use Rattle.sm_theory.specs.Named.{facts_named, reads_all};
ghost use Rattle.sm_proof.specs.Lines.{line_of, numbered_line};
ghost use Rattle.sm_prune.specs.UsedLines.{line_names_fact, term_names_fact};
ghost use Rattle.sm_used.specs.Names.{is_in, NamesMore};

use indexmap::IndexSet;
use sm_proof::{Line, TermLine};
use sm_theory::CertLine;
use std::alloc::{AllocError, Global};

// Numbers of facts that lines name.
pub(crate) struct Names {
    // Each number is named, since one of the lines is a line `exact`.
    pub(crate) all: bool,
    pub(crate) facts: IndexSet<u64>,
}

// One call ends a value, and not one for each field: proofs of what has it stay small.
impl Drop for Names {
    fn drop(self) {
        let Self { all: _, facts: _ } = self;
    }
}

/// No number.
pub(crate) fn no_names(alloc: Global) -> Names
    ensures { (n : ℕ) → is_in result n ≡ false }
{
    Names {
        all: false,
        facts: IndexSet::new(alloc),
    }
}

/// Whether a number is among names.
pub(crate) fn is_in(names: &Names, fact: u64) -> bool
    ensures { result ≡ is_in names.now fact }
{
    names.all || names.facts.contains(&fact)
}

// Puts a number to names.
fn add_fact(names: &mut Names, fact: u64) -> Result<(), AllocError>
    ensures { OnOk result (NamesMore (λ n. nat_eq n fact) names.old names.new) }
{
    names.facts.insert(fact)?;
    Ok(())
}

// Puts numbers to names.
fn add_each(names: &mut Names, facts: &[u64]) -> Result<(), AllocError>
    ensures { OnOk result (NamesMore (λ n. list_any (nat_eq n) facts.now) names.old names.new) }
{
    for fact in facts {
        add_fact(names, *fact)?;
    }
    Ok(())
}

// Puts all numbers to names.
fn add_all(names: &mut Names)
    ensures { NamesMore (λ n. true) names.old names.new }
{
    names.all = true;
}

// Puts the facts that a line of a certificate names to names.
fn add_cert(names: &mut Names, line: &CertLine) -> Result<(), AllocError>
    ensures { OnOk result (NamesMore
        (λ n. reads_all (numbered_line line.now)
        || list_any (nat_eq n) (facts_named (numbered_line line.now))) names.old names.new) }
{
    match line {
        CertLine::Both(n)
        | CertLine::Either(n)
        | CertLine::Order(n)
        | CertLine::Sym(n)
        | CertLine::Hit(_, n)
        | CertLine::Miss(_, _, n)
        | CertLine::Lin(n)
        | CertLine::Tight(n)
        | CertLine::Close(n) => add_each(names, &[*n]),
        CertLine::Trans(m, n)
        | CertLine::Subst(m, n)
        | CertLine::Elim(m, n, _)
        | CertLine::Clash(m, n) => add_each(names, &[*m, *n]),
        CertLine::Cong(_, _, ns) => add_each(names, &ns.list),
        CertLine::Exact(_) => {
            add_all(names);
            Ok(())
        }
        _ => add_each(names, &[]),
    }
}

// Puts the fact that a line `t` names, if it names one, to names.
fn add_term(names: &mut Names, line: &TermLine) -> Result<(), AllocError>
    ensures { OnOk result (NamesMore (λ n. term_names_fact n line.now) names.old names.new) }
{
    match line {
        TermLine::Of { fact, .. } => add_fact(names, *fact),
        _ => Ok(()),
    }
}

/// Puts the facts that a line names to names.
pub(crate) fn add_line(names: &mut Names, line: &Line) -> Result<(), AllocError>
    ensures { OnOk result (NamesMore
        (λ n. line_names_fact n (line_of line.now)) names.old names.new) }
{
    match line {
        Line::Header { .. } => Ok(()),
        Line::Term(line) => add_term(names, line),
        Line::Form(_) => Ok(()),
        Line::Node(_) => Ok(()),
        Line::Cert(line) => add_cert(names, line),
    }
}

// Puts names to others.
fn add_names(names: &mut Names, others: &Names) -> Result<(), AllocError>
    ensures { OnOk result (NamesMore (is_in others.now) names.old names.new) }
{
    add_each(names, others.facts.as_slice())?;
    if others.all {
        add_all(names);
    }
    Ok(())
}

/// Names of two kinds in one. The fewer go to the more, so that none moves often.
pub(crate) fn join(one: Names, two: Names) -> Result<Names, AllocError>
    ensures { IfOk result (λ both. (n : ℕ) → is_in both n ≡ (is_in one n || is_in two n)) }
{
    if one.facts.len() < two.facts.len() {
        let mut names = two;
        add_names(&mut names, &one)?;
        Ok(names)
    } else {
        let mut names = one;
        add_names(&mut names, &two)?;
        Ok(names)
    }
}
