// Facts as words.
use crate::form::put_form;
use crate::printed::Printed;
use crate::refusal::Refusal;
use crate::scene::Scene;
use crate::solving::fits;
use crate::word::{natural, two};
use sm_proof::{FormLine, Line, line_from};
use sm_term::{Formula, TermId, copy_formula, negate};
use sm_theory::{Branch, Fact, fact_at, formula_at};
use std::alloc::Global;

/// Prints the number of the fact of words, which is put on the branch.
pub fn fact_answer(
    alloc: Global,
    scene: &mut Scene,
    text: &str,
    out: &mut Printed,
) -> Result<(), Refusal> {
    write!(out, "{}", scene.branch.list.len());
    let f = read_formula(alloc, text)?;
    if !fits(scene, &f) {
        return Err(Refusal::Bad);
    }
    Ok(scene.branch.list.push(Fact::Form(f))?)
}

/// The formula of words: a comparison, or two with a comma between them.
pub fn read_formula(alloc: Global, text: &str) -> Result<Formula, Refusal> {
    match text.split_once(',') {
        Some((first, second)) => read_pair(alloc, first, second.trim()),
        None => read_comparison(alloc, text),
    }
}

// The conjunction or the disjunction of two comparisons.
fn read_pair(alloc: Global, first: &str, second: &str) -> Result<Formula, Refusal> {
    let (word, first) = two(first)?;
    let p = boxed_comparison(alloc, first)?;
    let q = boxed_comparison(alloc, second)?;
    match word {
        "and" => Ok(Formula::And(p, q)),
        "or" => Ok(Formula::Or(p, q)),
        _ => Err(Refusal::Bad),
    }
}

// A part of a conjunction or a disjunction.
fn boxed_comparison(alloc: Global, text: &str) -> Result<Box<Formula>, Refusal> {
    Ok(Box::new(alloc, read_comparison(alloc, text)?)?)
}

// The comparison of words that are those of a line of a proof file.
fn read_comparison(alloc: Global, text: &str) -> Result<Formula, Refusal> {
    let words = format!(in alloc; "p {text}")?;
    match line_from(alloc, words.as_bytes())? {
        Line::Form(line) => comparison(line),
        _ => Err(Refusal::Bad),
    }
}

// The formula of a line, whose numbers are those of the table.
fn comparison(line: FormLine) -> Result<Formula, Refusal> {
    match line {
        FormLine::Yes => Ok(Formula::Yes),
        FormLine::No => Ok(Formula::No),
        FormLine::Eq(t, u) => Ok(Formula::Eq(TermId(t), TermId(u))),
        FormLine::Ne(t, u) => Ok(Formula::Ne(TermId(t), TermId(u))),
        FormLine::Le(t, u) => Ok(Formula::Le(TermId(t), TermId(u))),
        FormLine::Lt(t, u) => Ok(Formula::Lt(TermId(t), TermId(u))),
        _ => Err(Refusal::Bad),
    }
}

/// Prints the contrary of a fact, and puts it on the branch.
pub fn negate_answer(
    alloc: Global,
    scene: &mut Scene,
    word: &str,
    out: &mut Printed,
) -> Result<(), Refusal> {
    let g = contrary_at(alloc, &scene.branch, natural(word)?)?;
    put_on(&mut scene.branch, g, out)
}

// The contrary of the formula at a place of the branch.
fn contrary_at(alloc: Global, branch: &Branch, place: u64) -> Result<Formula, Refusal> {
    match formula_at(branch, place) {
        Some(f) => Ok(negate(alloc, &copy_formula(alloc, f)?)?),
        None => Err(Refusal::Bad),
    }
}

/// Prints a formula, and puts it on the branch.
pub fn put_on(branch: &mut Branch, f: Formula, out: &mut Printed) -> Result<(), Refusal> {
    put_formula(out, &f);
    Ok(branch.list.push(Fact::Form(f))?)
}

/// Prints a fact of the branch.
pub fn show_answer(scene: &Scene, word: &str, out: &mut Printed) -> Result<(), Refusal> {
    match fact_at(&scene.branch, natural(word)?) {
        Some(f) => {
            put_fact(out, f);
            Ok(())
        }
        None => Err(Refusal::Bad),
    }
}

/// Prints a fact.
pub fn put_fact(out: &mut Printed, f: &Fact) {
    match f {
        Fact::Form(f) => put_formula(out, f),
        Fact::Lin(f) => put_form(out, f),
    }
}

/// Prints a formula.
pub fn put_formula(out: &mut Printed, f: &Formula) {
    match f {
        Formula::Yes => out.put("yes"),
        Formula::No => out.put("no"),
        Formula::Eq(t, u) => out.put_numbers("eq", &[t.0, u.0]),
        Formula::Ne(t, u) => out.put_numbers("ne", &[t.0, u.0]),
        Formula::Le(t, u) => out.put_numbers("le", &[t.0, u.0]),
        Formula::Lt(t, u) => out.put_numbers("lt", &[t.0, u.0]),
        Formula::And(p, q) => {
            out.put("and ");
            put_formula(out, p);
            out.put(" ");
            put_formula(out, q);
        }
        Formula::Or(p, q) => {
            out.put("or ");
            put_formula(out, p);
            out.put(" ");
            put_formula(out, q);
        }
    }
}
