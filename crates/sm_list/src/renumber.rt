// Terms and formulas under other numbers: of each term its number in another table.
ghost use Rattle.std.specs.Prelude.{◌≡◌, List, length, map, IfOk};
ghost use Rattle.sm_syntax.specs.text.Sorts.{Sorts};
ghost use Rattle.sm_term.specs.Rows.{parts_in_list};
ghost use Rattle.sm_term.specs.RowLaws.{contents_of};
ghost use Rattle.sm_term.specs.Moves.{moved_contents};
ghost use Rattle.sm_term.specs.Terms.{Tree};
ghost use Rattle.sm_term.specs.Formulas.{numbered, assertion_in, IsFormulaWithin};
ghost use Rattle.sm_theory.specs.Views.{number_under};
ghost use Rattle.sm_list.specs.Parts.{all_numbered};
ghost use Rattle.sm_list.specs.Renumber.{formula_under};
ghost use Rattle.sm_list.specs.Renumbered.{AreTermsOf};

use sm_syntax::copy_outputs;
use sm_term::{Formula, Term, TermId, Terms};
use sm_theory::number_under;
use std::alloc::{AllocError, Global};

// A term under other numbers of its arguments.
pub(crate) fn renumbered_term(
    alloc: Global,
    term: &Term,
    numbers: &[TermId],
) -> Result<Term, AllocError>
    ensures { IfOk result (λ t.
        contents_of t ≡ moved_contents (number_under numbers.now) (λ body. body) term.now) }
{
    match term {
        Term::Lit(value) => Ok(Term::Lit(*value)),
        Term::Start(name) => Ok(Term::Start(*name)),
        Term::Havoc { node, copy, name } => Ok(Term::Havoc {
            node: *node,
            copy: *copy,
            name: *name,
        }),
        Term::Slot { copy, name } => Ok(Term::Slot {
            copy: *copy,
            name: *name,
        }),
        Term::Cell => Ok(Term::Cell),
        Term::Read(a, i) => {
            let a = number_under(*a, numbers);
            Ok(Term::Read(a, number_under(*i, numbers)))
        }
        Term::Write(a, i, e) => {
            let a = number_under(*a, numbers);
            let i = number_under(*i, numbers);
            Ok(Term::Write(a, i, number_under(*e, numbers)))
        }
        Term::Neg(t) => Ok(Term::Neg(number_under(*t, numbers))),
        Term::Add(t, u) => {
            let t = number_under(*t, numbers);
            Ok(Term::Add(t, number_under(*u, numbers)))
        }
        Term::Sub(t, u) => {
            let t = number_under(*t, numbers);
            Ok(Term::Sub(t, number_under(*u, numbers)))
        }
        Term::Mul(t, u) => {
            let t = number_under(*t, numbers);
            Ok(Term::Mul(t, number_under(*u, numbers)))
        }
        Term::Fun {
            body,
            name,
            from,
            args,
        } => {
            let list = new_numbers(alloc, &args.list, numbers)?;
            let from = copy_outputs(alloc, from)?;
            Ok(Term::Fun {
                body: *body,
                name: *name,
                from,
                args: Terms { list },
            })
        }
    }
}

// The new number of each term.
fn new_numbers(
    alloc: Global,
    terms: &[TermId],
    numbers: &[TermId],
) -> Result<Vec<TermId>, AllocError>
    ensures { let new = map (number_under numbers.now) (parts_in_list terms.now) in
        IfOk result (λ v. parts_in_list v.items ≡ new) }
{
    let mut list = Vec::new(alloc);
    for t in terms {
        list.push(number_under(*t, numbers))?;
    }
    Ok(list)
}

/// A formula under other numbers: of each term its number in another table.
pub fn renumbered(alloc: Global, f: &Formula, numbers: &[TermId]) -> Result<Formula, AllocError>
    ensures same { (sorts : Sorts) (trees others : List Tree) →
        AreTermsOf others numbers.now trees → IsFormulaWithin (length trees) (numbered f.now) →
        IfOk result (λ g. assertion_in sorts others (numbered g)
        ≡ assertion_in sorts trees (numbered f.now)) }
    ensures within { (trees others : List Tree) →
        AreTermsOf others numbers.now trees → IsFormulaWithin (length trees) (numbered f.now) →
        IfOk result (λ g. IsFormulaWithin (length others) (numbered g)) }
{
    let g = renumbered_formula(alloc, f, numbers)?;
    Ok(g)
}

// A formula under other numbers, by numbers alone.
#[cycle(renumber_form)]
pub(crate) fn renumbered_formula(
    alloc: Global,
    f: &Formula,
    numbers: &[TermId],
) -> Result<Formula, AllocError>
    ensures { IfOk result (λ g.
        numbered g ≡ formula_under (number_under numbers.now) (numbered f.now)) }
{
    match f {
        Formula::Yes => Ok(Formula::Yes),
        Formula::No => Ok(Formula::No),
        Formula::Eq(t, u) => {
            let t = number_under(*t, numbers);
            Ok(Formula::Eq(t, number_under(*u, numbers)))
        }
        Formula::Ne(t, u) => {
            let t = number_under(*t, numbers);
            Ok(Formula::Ne(t, number_under(*u, numbers)))
        }
        Formula::Le(t, u) => {
            let t = number_under(*t, numbers);
            Ok(Formula::Le(t, number_under(*u, numbers)))
        }
        Formula::Lt(t, u) => {
            let t = number_under(*t, numbers);
            Ok(Formula::Lt(t, number_under(*u, numbers)))
        }
        Formula::And(p, q) => {
            let p = boxed_formula(alloc, p, numbers)?;
            Ok(Formula::And(p, boxed_formula(alloc, q, numbers)?))
        }
        Formula::Or(p, q) => {
            let p = boxed_formula(alloc, p, numbers)?;
            Ok(Formula::Or(p, boxed_formula(alloc, q, numbers)?))
        }
    }
}

#[cycle(renumber_form)]
fn boxed_formula(alloc: Global, f: &Formula, numbers: &[TermId]) -> Result<Box<Formula>, AllocError>
    ensures { IfOk result (λ g.
        numbered g.value ≡ formula_under (number_under numbers.now) (numbered f.now)) }
{
    Ok(Box::new(alloc, renumbered_formula(alloc, f, numbers)?)?)
}

// Formulas under other numbers.
pub(crate) fn renumbered_formulas(
    alloc: Global,
    facts: &[Formula],
    numbers: &[TermId],
) -> Result<Vec<Formula>, AllocError>
    ensures { let new = map (formula_under (number_under numbers.now)) (all_numbered facts.now) in
        IfOk result (λ v. all_numbered v.items ≡ new) }
{
    let mut list = Vec::new(alloc);
    for f in facts {
        list.push(renumbered_formula(alloc, f, numbers)?)?;
    }
    Ok(list)
}
