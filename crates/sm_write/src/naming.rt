// Lines that make terms.
ghost use Rattle.std.specs.Prelude.{◌≡◌, ◌⊎◌, ◌<◌, List, Some, None, length, nat_eq, IfOk, IfErr, OnOk};
ghost use Rattle.std.specs.HashMap.{get};
ghost use Rattle.sm_term.specs.Tables.{trees_in, tree_at};
ghost use Rattle.sm_plan.specs.States.{State};
ghost use Rattle.sm_proof.specs.Passing.{Progress};
ghost use Rattle.sm_proof.specs.Verdicts.{Subject};
ghost use Rattle.sm_write.specs.Naming.{IsStep};
ghost use Rattle.sm_write.specs.Seen.{IsBuilt, Seen};
ghost use Rattle.sm_write.specs.Values.{value_of};
ghost use Rattle.sm_write.specs.Walked.{Extends, IsSet};
ghost use Rattle.sm_write.specs.Written.{IsNamed};

use crate::writer::{Writer, add_term};
use sm_proof::TermLine;
use sm_term::{Term, TermId, TermTable};
use std::alloc::{AllocError, Global};
use std::collections::HashMap;

// The line that makes a term, or a part of the term that has no number yet.
#[derive(Drop)]
pub(crate) enum Step {
    Line(TermLine),
    Part(u64),
}

// The numbers of two terms, or the first that has none.
fn pair(names: &HashMap<u64, TermId>, t: TermId, u: TermId) -> Result<(TermId, TermId), u64>
    ensures ok { IfOk result (λ p. (get nat_eq names.now t.0 ≡ Some p.0)
        × (get nat_eq names.now u.0 ≡ Some p.1)) }
    ensures err { IfErr result (λ n. ((n ≡ t.0) ⊎ (n ≡ u.0)) × (get nat_eq names.now n ≡ None)) }
{
    match names.get(&t.0) {
        Some(a) => match names.get(&u.0) {
            Some(b) => Ok((*a, *b)),
            None => Err(u.0),
        },
        None => Err(t.0),
    }
}

// The line of a term by the numbers of its parts. A new value and a summary have none.
pub(crate) fn step_of(names: &HashMap<u64, TermId>, table: &TermTable, t: TermId) -> Step
    requires { t.0 < length (trees_in table.now) }
    ensures { IsStep table.now (get nat_eq names.now) t.0 result }
{
    match table.get(t) {
        Term::Lit(value) => Step::Line(TermLine::Lit(*value)),
        Term::Start(name) => Step::Line(TermLine::Start(name.0 as u64)),
        Term::Havoc { .. } => Step::Line(TermLine::Cell),
        Term::Slot { copy, name } => Step::Line(TermLine::Slot {
            copy: *copy,
            name: name.0 as u64,
        }),
        Term::Cell => Step::Line(TermLine::Cell),
        Term::Read(a, i) => match pair(names, *a, *i) {
            Ok((a, i)) => Step::Line(TermLine::Read(a.0, i.0)),
            Err(p) => Step::Part(p),
        },
        Term::Write(a, i, e) => match pair(names, *a, *i) {
            Ok((a, i)) => match names.get(&e.0) {
                Some(e) => Step::Line(TermLine::Write(a.0, i.0, e.0)),
                None => Step::Part(e.0),
            },
            Err(p) => Step::Part(p),
        },
        Term::Neg(u) => match names.get(&u.0) {
            Some(u) => Step::Line(TermLine::Neg(u.0)),
            None => Step::Part(u.0),
        },
        Term::Add(u, v) => match pair(names, *u, *v) {
            Ok((u, v)) => Step::Line(TermLine::Add(u.0, v.0)),
            Err(p) => Step::Part(p),
        },
        Term::Sub(u, v) => match pair(names, *u, *v) {
            Ok((u, v)) => Step::Line(TermLine::Sub(u.0, v.0)),
            Err(p) => Step::Part(p),
        },
        Term::Mul(u, v) => match pair(names, *u, *v) {
            Ok((u, v)) => Step::Line(TermLine::Mul(u.0, v.0)),
            Err(p) => Step::Part(p),
        },
        Term::Fun { .. } => Step::Line(TermLine::Cell),
    }
}

/// Gives a term of the table a number in the file, with the lines that this takes, if it has none.
pub(crate) fn name_term(
    alloc: Global,
    w: &mut Writer,
    table: &TermTable,
    t: TermId,
) -> Result<(), AllocError>
    requires { t.0 < length (trees_in table.now) }
    ensures extends { let v = table.now in (s : Subject) (seen : List State) (p : Progress) →
        IsSet s v (value_of w.old) seen p → IsBuilt (Seen seen) (tree_at (trees_in v) t.0) →
        OnOk result (Extends s (trees_in v) (value_of w.old) (value_of w.new) p) }
    ensures named { OnOk result (IsNamed (get nat_eq w.new.names) t) }
{
    match w.names.get(&t.0) {
        Some(_) => Ok(()),
        None => walked(alloc, w, table, t),
    }
}

// Gives a number to a term that has none, with the lines that this takes.
fn walked(alloc: Global, w: &mut Writer, table: &TermTable, t: TermId) -> Result<(), AllocError>
    requires inside { t.0 < length (trees_in table.now) }
    requires open { get nat_eq w.old.names t.0 ≡ None }
    ensures extends { let v = table.now in (s : Subject) (seen : List State) (p : Progress) →
        IsSet s v (value_of w.old) seen p → IsBuilt (Seen seen) (tree_at (trees_in v) t.0) →
        OnOk result (Extends s (trees_in v) (value_of w.old) (value_of w.new) p) }
    ensures named { OnOk result (IsNamed (get nat_eq w.new.names) t) }
{
    // A table has no term twice, as its length ensures.
    table.len();
    // terms that wait for a part, each a part of the one before it
    let mut waiting = Vec::new(alloc);
    let mut next = t.0;
    'walk: loop {
        match step_of(&w.names, table, TermId(next)) {
            Step::Part(p) => {
                waiting.push(next)?;
                next = p;
            }
            Step::Line(line) => {
                add_term(w, TermId(next), line)?;
                match waiting.pop() {
                    Some(n) => next = n,
                    None => return Ok(()),
                }
            }
        }
    }
}
