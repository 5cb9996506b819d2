// Terms as words, the calls of a table, and terms of a copy as the table takes them.
ghost use Rattle.std.specs.Prelude.{OnOk};
ghost use Rattle.calls.specs.Scenes.{Continues};

use crate::printed::Printed;
use crate::refusal::Refusal;
use crate::scene::Scene;
use crate::summary::counting_loop;
use crate::word::{natural, term_id, two, whole};
use sm_proof::{Line, TermLine, line_from};
use sm_syntax::{Name, Outputs, Sort};
use sm_term::{BodyId, Term, TermId, Terms};
use std::alloc::Global;

/// Prints the number of the term of words, which is put into the table.
pub fn term_answer(
    alloc: Global,
    scene: &mut Scene,
    text: &str,
    out: &mut Printed,
) -> Result<(), Refusal> {
    let id = put_term(alloc, scene, text)?;
    write!(out, "{}", id.0);
    Ok(())
}

// Puts the term of words into the table.
fn put_term(alloc: Global, scene: &mut Scene, text: &str) -> Result<TermId, Refusal>
    ensures { OnOk result (Continues scene.old.table scene.new.table) }
{
    match text.split_once(' ') {
        Some(("loop", words)) => put_summary(alloc, scene, words),
        Some(("havoc", words)) => scene.intern(havoc(words)?),
        _ => scene.intern(read_term(alloc, text)?),
    }
}

// Puts in what a loop leaves at a name.
fn put_summary(alloc: Global, scene: &mut Scene, words: &str) -> Result<TermId, Refusal>
    ensures { OnOk result (Continues scene.old.table scene.new.table) }
{
    let summary = read_summary(words)?;
    let (x, y) = (summary.first.0, summary.second.0);
    let block = counting_loop(alloc, x, y, summary.step)?;
    scene.intern_summary(alloc, &block, summary.name, summary.first, summary.second)
}

// What a loop leaves at a name, from terms at the two names that it is of.
#[derive(Clone, Copy)]
struct Summary {
    first: (Name, TermId),
    second: (Name, TermId),
    step: i128,
    name: Name,
}

// Its words are the loop's names and step, a term for either name, and the name.
fn read_summary(words: &str) -> Result<Summary, Refusal> {
    let (x, words) = two(words)?;
    let (y, words) = two(words)?;
    let (step, words) = two(words)?;
    let (t, words) = two(words)?;
    let (u, n) = two(words)?;
    Ok(Summary {
        first: (name_of(x)?, term_id(t)?),
        second: (name_of(y)?, term_id(u)?),
        step: whole(step)?,
        name: name_of(n)?,
    })
}

// The new value that a node gives to a copy's name.
fn havoc(words: &str) -> Result<Term, Refusal> {
    let (node, words) = two(words)?;
    let (copy, x) = two(words)?;
    Ok(Term::Havoc {
        node: natural(node)?,
        copy: copy_number(copy)?,
        name: name_of(x)?,
    })
}

// The name whose number a word is.
fn name_of(word: &str) -> Result<Name, Refusal> {
    name(natural(word)?)
}

// The number of a copy, which may be none of the four.
fn copy_number(word: &str) -> Result<u8, Refusal> {
    match word.parse::<u8>() {
        Ok(n) => Ok(n),
        Err(_) => Err(Refusal::Bad),
    }
}

// The term of words that are those of a line of a proof file.
fn read_term(alloc: Global, text: &str) -> Result<Term, Refusal> {
    let words = format!(in alloc; "t {text}")?;
    match line_from(alloc, words.as_bytes())? {
        Line::Term(line) => term_of(line),
        _ => Err(Refusal::Bad),
    }
}

// The term of a line, whose numbers of terms are those of the table.
fn term_of(line: TermLine) -> Result<Term, Refusal> {
    match line {
        TermLine::Lit(z) => Ok(Term::Lit(z)),
        TermLine::Start(x) => Ok(Term::Start(name(x)?)),
        TermLine::Slot { copy, name: x } => Ok(Term::Slot {
            copy,
            name: name(x)?,
        }),
        TermLine::Cell => Ok(Term::Cell),
        TermLine::Read(a, i) => Ok(Term::Read(TermId(a), TermId(i))),
        TermLine::Write(a, i, e) => Ok(Term::Write(TermId(a), TermId(i), TermId(e))),
        TermLine::Neg(t) => Ok(Term::Neg(TermId(t))),
        TermLine::Add(t, u) => Ok(Term::Add(TermId(t), TermId(u))),
        TermLine::Sub(t, u) => Ok(Term::Sub(TermId(t), TermId(u))),
        TermLine::Mul(t, u) => Ok(Term::Mul(TermId(t), TermId(u))),
        _ => Err(Refusal::Bad),
    }
}

// The name of a number.
fn name(number: u64) -> Result<Name, Refusal> {
    match u32::try_from(number) {
        Ok(n) => Ok(Name(n)),
        Err(_) => Err(Refusal::Bad),
    }
}

/// Prints a term of the table.
pub fn get_answer(scene: &Scene, word: &str, out: &mut Printed) -> Result<(), Refusal> {
    let t = term_id(word)?;
    if !scene.has(t) {
        return Err(Refusal::Bad);
    }
    put_words(out, scene.table.get(t));
    Ok(())
}

// Prints a term.
fn put_words(out: &mut Printed, t: &Term) {
    match t {
        Term::Lit(z) => write!(out, "lit {z}"),
        Term::Start(x) => out.put_numbers("start", &[x.0 as u64]),
        Term::Havoc { node, copy, name } => {
            out.put_numbers("havoc", &[*node, *copy as u64, name.0 as u64])
        }
        Term::Slot { copy, name } => out.put_numbers("slot", &[*copy as u64, name.0 as u64]),
        Term::Cell => out.put("cell"),
        Term::Read(a, i) => out.put_numbers("read", &[a.0, i.0]),
        Term::Write(a, i, e) => out.put_numbers("write", &[a.0, i.0, e.0]),
        Term::Neg(t) => out.put_numbers("neg", &[t.0]),
        Term::Add(t, u) => out.put_numbers("add", &[t.0, u.0]),
        Term::Sub(t, u) => out.put_numbers("sub", &[t.0, u.0]),
        Term::Mul(t, u) => out.put_numbers("mul", &[t.0, u.0]),
        Term::Fun {
            body,
            name,
            from,
            args,
        } => put_function(out, *body, *name, from, args),
    }
}

// Prints a summary: its body, its name, the names that it is from, and their terms.
fn put_function(out: &mut Printed, body: BodyId, name: Name, from: &Outputs, args: &Terms) {
    out.put_numbers("fun", &[body.0, name.0 as u64]);
    for x in &from.list {
        write!(out, " {}", x.0);
    }
    put_ids(out, args);
}

// Prints the numbers of terms.
fn put_ids(out: &mut Printed, terms: &Terms) {
    for t in &terms.list {
        write!(out, " {}", t.0);
    }
}

/// Prints the sort of a term of the table.
pub fn sort_answer(scene: &Scene, word: &str, out: &mut Printed) -> Result<(), Refusal> {
    let t = term_id(word)?;
    if !scene.has(t) {
        return Err(Refusal::Bad);
    }
    let word = match scene.table.sort(t) {
        Sort::Num => "number",
        Sort::Arr => "array",
    };
    out.put(word);
    Ok(())
}

/// Prints the numbers that the table gives to the terms that a copy of it got, while the table itself
/// got others.
pub fn adopt_answer(
    alloc: Global,
    scene: &mut Scene,
    text: &str,
    out: &mut Printed,
) -> Result<(), Refusal> {
    let Some((theirs, ours)) = text.split_once('/') else {
        return Err(Refusal::Bad);
    };
    out.put("adopted");
    put_ids(out, &both_put(alloc, scene, theirs, ours)?);
    Ok(())
}

// The numbers that a table gives to the terms that a copy of it gets, once it has got others.
fn both_put(alloc: Global, scene: &mut Scene, theirs: &str, ours: &str) -> Result<Terms, Refusal> {
    let mut other = scene.copied(alloc)?;
    put_terms(alloc, &mut other, theirs)?;
    adopted(alloc, scene, &other, ours)
}

// The numbers that a table gives to the terms behind those that a copy of it began with, once it has
// got the terms of a text.
fn adopted(alloc: Global, scene: &mut Scene, copy: &Scene, text: &str) -> Result<Terms, Refusal>
    requires { Continues scene.old.table copy.now.table }
{
    let from = scene.table.len();
    put_terms(alloc, scene, text)?;
    let rows = copy.table.tail(alloc, from)?;
    let ids = scene.table.adopt(alloc, &rows, from)?;
    Ok(ids)
}

// Puts the terms of a text into the table, one after the other.
fn put_terms(alloc: Global, scene: &mut Scene, text: &str) -> Result<(), Refusal>
    ensures { OnOk result (Continues scene.old.table scene.new.table) }
{
    for part in text.split(',') {
        let words = part.trim();
        if !words.is_empty() {
            put_term(alloc, scene, words)?;
        }
    }
    Ok(())
}
