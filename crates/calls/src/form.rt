// Linear forms, the calls on them, and whether whole numbers satisfy them.
use crate::printed::Printed;
use crate::refusal::Refusal;
use crate::word::{kind, natural, two, whole};
use sm_exact::{ExactAnswer, decide};
use sm_num::{Kind, LinForm, NumError, cancels, combine, elim, is_contradiction, tighten};
use std::alloc::Global;

/// Prints what a command says that has forms behind bars.
pub fn form_answer(
    alloc: Global,
    word: &str,
    text: &str,
    out: &mut Printed,
) -> Result<(), Refusal> {
    let Some((numbers, forms)) = text.split_once('|') else {
        return Err(Refusal::Bad);
    };
    match forms.split_once('|') {
        Some((first, second)) => {
            let f = read_form(alloc, first)?;
            of_two(alloc, word, numbers.trim(), &f, second, out)
        }
        None => of_one(alloc, word, &read_form(alloc, forms)?, out),
    }
}

// Prints what a call on one form answers.
fn of_one(alloc: Global, word: &str, f: &LinForm, out: &mut Printed) -> Result<(), Refusal> {
    match word {
        "form" => put_form(out, &f.copy(alloc)?),
        "tight" => put_form(out, &tighten(alloc, f)?),
        "contradiction" => write!(out, "{}", is_contradiction(f)),
        _ => return Err(Refusal::Bad),
    }
    Ok(())
}

// Prints what a call on two forms and numbers answers, of which the second form is still to be read.
fn of_two(
    alloc: Global,
    word: &str,
    numbers: &str,
    f: &LinForm,
    second: &str,
    out: &mut Printed,
) -> Result<(), Refusal> {
    let g = read_form(alloc, second)?;
    match word {
        "cancels" => put_cancels(numbers, f, &g, out),
        "elim" => put_sum_without(alloc, numbers, f, &g, out),
        "combine" => put_sum(alloc, numbers, f, &g, out),
        _ => Err(Refusal::Bad),
    }
}

// Prints whether an atom cancels in a sum.
fn put_cancels(atom: &str, f: &LinForm, g: &LinForm, out: &mut Printed) -> Result<(), Refusal> {
    write!(out, "{}", cancels(f, g, natural(atom)?));
    Ok(())
}

// Prints the sum in which an atom cancels.
fn put_sum_without(
    alloc: Global,
    atom: &str,
    f: &LinForm,
    g: &LinForm,
    out: &mut Printed,
) -> Result<(), Refusal> {
    let t = natural(atom)?;
    if !cancels(f, g, t) {
        return Err(Refusal::Bad);
    }
    put_form(out, &elim(alloc, f, g, t)?);
    Ok(())
}

// Prints the sum of multiples, and what it says of itself.
fn put_sum(
    alloc: Global,
    numbers: &str,
    f: &LinForm,
    g: &LinForm,
    out: &mut Printed,
) -> Result<(), Refusal> {
    let (p, rest) = two(numbers)?;
    let (q, k) = two(rest)?;
    put_form(out, &combine(alloc, f, whole(p)?, g, whole(q)?, kind(k)?)?);
    Ok(())
}

// The form of words: what it says of its sum, its parts and its constant.
fn read_form(alloc: Global, text: &str) -> Result<LinForm, Refusal> {
    let (says, text) = two(text.trim())?;
    let (parts, constant) = text.rsplit_once(' ').unwrap_or(("", text));
    let form = equation(alloc, whole(constant)?, parts)?;
    Ok(saying(alloc, &form, kind(says)?)?)
}

// The form that says that the sum of parts and a constant is 0.
fn equation(alloc: Global, constant: i128, parts: &str) -> Result<LinForm, Refusal> {
    if constant == i128::MIN {
        return Err(Refusal::Bad);
    }
    let mut form = LinForm::number(alloc, constant)?;
    for part in parts.split_whitespace() {
        add_part(alloc, &mut form, part)?;
    }
    Ok(form)
}

// Adds one more part to a form.
fn add_part(alloc: Global, form: &mut LinForm, word: &str) -> Result<(), Refusal> {
    let Some((coefficient, atom)) = word.split_once('*') else {
        return Err(Refusal::Bad);
    };
    let (coefficient, atom) = (whole(coefficient)?, natural(atom)?);
    let single = LinForm::single(alloc, atom)?;
    *form = combine(alloc, form, 1, &single, coefficient, Kind::Eq)?;
    Ok(())
}

// A form with its sum, of which it says something else.
fn saying(alloc: Global, form: &LinForm, says: Kind) -> Result<LinForm, NumError> {
    let zero = LinForm::number(alloc, 0)?;
    combine(alloc, form, 1, &zero, 0, says)
}

/// Prints the words of a form.
pub fn put_form(out: &mut Printed, form: &LinForm) {
    let says = match form.kind() {
        Kind::Le => "le",
        Kind::Eq => "eq",
    };
    out.put(says);
    for part in form.parts() {
        write!(out, " {}*{}", part.1, part.0);
    }
    write!(out, " {}", form.constant());
}

/// Prints what the exact decision says of the forms of a text, in as many steps as stand before them.
pub fn decide_answer(alloc: Global, text: &str, out: &mut Printed) -> Result<(), Refusal> {
    let (steps, list) = text.split_once(' ').unwrap_or((text, ""));
    put_decision(out, &decided(alloc, steps, list)?)
}

// What the exact decision comes to.
fn decided(alloc: Global, steps: &str, list: &str) -> Result<ExactAnswer, Refusal> {
    let forms = read_forms(alloc, list)?;
    Ok(decide(alloc, &forms, natural(steps)?)?)
}

// Prints what the exact decision comes to.
fn put_decision(out: &mut Printed, answer: &ExactAnswer) -> Result<(), Refusal> {
    match answer {
        ExactAnswer::Refuted { count } => write!(out, "refuted {count}"),
        ExactAnswer::Solution(pairs) => put_solution(out, &pairs.list),
        ExactAnswer::Steps => out.put("steps"),
        ExactAnswer::Beyond { op, a, b } => {
            return Err(Refusal::Beyond {
                op: *op,
                a: *a,
                b: *b,
            });
        }
    }
    Ok(())
}

// The forms of a text, with commas between them; none where it is empty.
fn read_forms(alloc: Global, text: &str) -> Result<Vec<LinForm>, Refusal> {
    let mut forms = Vec::new(alloc);
    if text.is_empty() {
        return Ok(forms);
    }
    for part in text.split(',') {
        forms.push(read_form(alloc, part)?)?;
    }
    Ok(forms)
}

// Prints a solution: the value of each atom.
fn put_solution(out: &mut Printed, values: &[(u64, i128)]) {
    out.put("solution");
    for value in values {
        write!(out, " {}={}", value.0, value.1);
    }
}
