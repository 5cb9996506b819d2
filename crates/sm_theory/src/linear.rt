// Linear forms of terms, whose atoms are numbers of terms.
ghost use Rattle.std.specs.Prelude.{◌≡◌, ◌<◌, ℕ, pos, negsuc, List, length, Option, IsTrue, if◌then◌else◌, ◌⊎◌, nat_eq, Some, None, IfOk, IfErr};
ghost use Rattle.std.specs.HashMap.{get};
ghost use Rattle.sm_num.specs.declared.kind.Kind.TheVariants.{Eq};
ghost use Rattle.sm_num.specs.Forms.{Linear};
ghost use Rattle.sm_num.specs.Range.{fits_form};
ghost use Rattle.sm_num.specs.Combining.{Outcome, combined};
ghost use Rattle.sm_num.specs.Errors.{Returns};
ghost use Rattle.sm_term.specs.Tables.{trees_in, tree_at};
ghost use Rattle.sm_term.specs.Terms.{Tree};
ghost use Rattle.sm_theory.specs.LinearTerms.{linear_of, constant_form, atom_form, or_atom, scaled_form, product_form};
ghost use Rattle.sm_theory.specs.Standing.{IsKeptFor, AreLinearForms};
ghost use Rattle.sm_theory.specs.FormsOfTerms.{AreFormsOf, IsFound};

use sm_num::{Kind, LinForm, NumError, combine};
use sm_term::{Term, TermId, TermTable};
use std::alloc::{AllocError, Global};
use std::collections::HashMap;

// One atom.
fn atom(alloc: Global, n: u64) -> Result<LinForm, AllocError>
    ensures { IfOk result (λ h. h ≡ atom_form n) }
{
    match LinForm::single(alloc, n) {
        Ok(f) => Ok(f),
        Err(_) => Err(AllocError),
    }
}

// A number without parts.
fn number(alloc: Global, z: &i128) -> Result<LinForm, AllocError>
    requires { IsTrue (fits_form z.now) }
    ensures { IfOk result (λ h. h ≡ constant_form z.now) }
{
    match LinForm::number(alloc, *z) {
        Ok(f) => Ok(f),
        Err(_) => Err(AllocError),
    }
}

// A literal: a number in the range of forms, or else an atom.
fn literal(alloc: Global, n: u64, z: &i128) -> Result<LinForm, AllocError>
    ensures { IfOk result (λ h.
        h ≡ (if fits_form z.now then constant_form z.now else atom_form n)) }
{
    if *z == i128::MIN {
        atom(alloc, n)
    } else {
        number(alloc, z)
    }
}

// A form that was computed, or one atom where an operation leaves the range.
fn or_atom(
    alloc: Global,
    n: u64,
    computed: Result<LinForm, NumError>,
) -> Result<LinForm, AllocError>
    ensures { (o : Outcome (Linear ℕ)) → Returns o computed →
        IfOk result (λ h. h ≡ or_atom n o) }
{
    match computed {
        Ok(f) => Ok(f),
        Err(NumError::Beyond { .. }) => atom(alloc, n),
        Err(NumError::Memory) => Err(AllocError),
    }
}

// The sum of two forms.
fn sum(alloc: Global, n: u64, f: &LinForm, g: &LinForm) -> Result<LinForm, AllocError>
    ensures { IfOk result (λ h. h ≡ or_atom n (combined f.now (pos 1) g.now (pos 1) Eq)) }
{
    or_atom(alloc, n, combine(alloc, f, 1, g, 1, Kind::Eq))
}

// A form less another.
fn difference(alloc: Global, n: u64, f: &LinForm, g: &LinForm) -> Result<LinForm, AllocError>
    ensures { IfOk result (λ h. h ≡ or_atom n (combined f.now (pos 1) g.now (negsuc 0) Eq)) }
{
    or_atom(alloc, n, combine(alloc, f, 1, g, -1, Kind::Eq))
}

// z times a form.
fn multiple(alloc: Global, n: u64, z: &i128, f: &LinForm) -> Result<LinForm, AllocError>
    ensures { IfOk result (λ h. h ≡ or_atom n (scaled_form z.now f.now)) }
{
    let zero = number(alloc, &0)?;
    or_atom(alloc, n, combine(alloc, &zero, 0, f, *z, Kind::Eq))
}

// The product of two forms, where one is a number, and else one atom.
fn product(alloc: Global, n: u64, f: &LinForm, g: &LinForm) -> Result<LinForm, AllocError>
    ensures { IfOk result (λ h. h ≡ product_form n f.now g.now) }
{
    if f.parts().is_empty() {
        multiple(alloc, n, &f.constant(), g)
    } else if g.parts().is_empty() {
        multiple(alloc, n, &g.constant(), f)
    } else {
        atom(alloc, n)
    }
}

// The form of a term, or a part of it whose form isn't there yet.
#[derive(Drop)]
pub(crate) enum Found {
    Form(LinForm),
    Part(u64),
}

// The form of a term, from those of its parts, or the first part that has none.
fn form_of(
    alloc: Global,
    table: &TermTable,
    forms: &HashMap<u64, LinForm>,
    t: TermId,
) -> Result<Found, AllocError>
    requires within { t.0 < length (trees_in table.now) }
    requires forms { AreFormsOf (trees_in table.now) (get nat_eq forms.now) }
    ensures { IfOk result (λ found.
        IsFound (trees_in table.now) (get nat_eq forms.now) t.0 found) }
{
    // No term is there twice.
    let _count = table.len();
    match table.get(t) {
        Term::Lit(z) => found_form(literal(alloc, t.0, z)),
        Term::Neg(a) => match forms.get(&a.0) {
            Some(f) => found_form(multiple(alloc, t.0, &-1, f)),
            None => Ok(Found::Part(a.0)),
        },
        Term::Add(a, b) => match parts(forms, *a, *b) {
            Ok((f, g)) => found_form(sum(alloc, t.0, f, g)),
            Err(p) => Ok(Found::Part(p)),
        },
        Term::Sub(a, b) => match parts(forms, *a, *b) {
            Ok((f, g)) => found_form(difference(alloc, t.0, f, g)),
            Err(p) => Ok(Found::Part(p)),
        },
        Term::Mul(a, b) => match parts(forms, *a, *b) {
            Ok((f, g)) => found_form(product(alloc, t.0, f, g)),
            Err(p) => Ok(Found::Part(p)),
        },
        _ => found_form(atom(alloc, t.0)),
    }
}

// The form that was made for a term.
fn found_form(made: Result<LinForm, AllocError>) -> Result<Found, AllocError>
    ensures { (trees : List Tree) (forms : ℕ → Option (Linear ℕ)) (n : ℕ) →
        IfOk made (λ f. IsKeptFor trees f (linear_of (tree_at trees n))) →
        IfOk result (IsFound trees forms n) }
{
    let form = made?;
    Ok(Found::Form(form))
}

// The forms of two terms, or the first term that has none.
fn parts(forms: &HashMap<u64, LinForm>, t: TermId, u: TermId) -> Result<(&LinForm, &LinForm), u64>
    ensures ok { IfOk result (λ p. (get nat_eq forms.now t.0 ≡ Some p.0.now)
        × (get nat_eq forms.now u.0 ≡ Some p.1.now)) }
    ensures err { IfErr result (λ n. ((n ≡ t.0) ⊎ (n ≡ u.0)) × (get nat_eq forms.now n ≡ None)) }
{
    match forms.get(&t.0) {
        Some(f) => match forms.get(&u.0) {
            Some(g) => Ok((f, g)),
            None => Err(u.0),
        },
        None => Err(t.0),
    }
}

/// The linear form of a term: operations go part by part, every other term is an atom, and so is
/// one where an operation leaves the range of forms. An atom's number is that of the term. The form
/// of each term under it is computed once.
pub fn lin_of(alloc: Global, table: &TermTable, t: TermId) -> Result<LinForm, AllocError>
    requires { t.0 < length (trees_in table.now) }
    ensures { IfOk result (λ f.
        IsKeptFor (trees_in table.now) f (linear_of (tree_at (trees_in table.now) t.0))) }
{
    let mut forms = HashMap::new(alloc);
    // terms that wait for the form of a part, each a part of the one before it
    let mut waiting = Vec::new(alloc);
    let mut next = t.0;
    'walk: loop {
        match form_of(alloc, table, &forms, TermId(next))? {
            Found::Part(p) => {
                waiting.push(next)?;
                next = p;
            }
            Found::Form(form) => match waiting.pop() {
                Some(n) => {
                    forms.insert(next, form)?;
                    next = n;
                }
                None => return Ok(form),
            },
        }
    }
}

/// The linear form of the first term that has none among these, which are those of the terms before
/// it, in order. Its parts stand before it, so it takes one operation.
pub fn next_lin(alloc: Global, table: &TermTable, forms: &[LinForm]) -> Result<LinForm, AllocError>
    requires there { length forms.now < length (trees_in table.now) }
    requires forms { AreLinearForms (trees_in table.now) forms.now }
    ensures { let n = length forms.now in IfOk result (λ f.
        IsKeptFor (trees_in table.now) f (linear_of (tree_at (trees_in table.now) n))) }
{
    // No term is there twice.
    let _count = table.len();
    let n = forms.len() as u64;
    match table.get(TermId(n)) {
        Term::Lit(z) => literal(alloc, n, z),
        Term::Neg(a) => multiple(alloc, n, &-1, &forms[a.0 as usize]),
        Term::Add(a, b) => sum(alloc, n, &forms[a.0 as usize], &forms[b.0 as usize]),
        Term::Sub(a, b) => difference(alloc, n, &forms[a.0 as usize], &forms[b.0 as usize]),
        Term::Mul(a, b) => product(alloc, n, &forms[a.0 as usize], &forms[b.0 as usize]),
        _ => atom(alloc, n),
    }
}
