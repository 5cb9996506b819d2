// A row of one table as a term of another.
ghost use Rattle.std.specs.Prelude.{◌≡◌, ◌++◌, map, IfOk};
ghost use Rattle.sm_term.specs.Rows.{kind_numbers, names_in_list, parts_in_list};
ghost use Rattle.sm_term.specs.RowLaws.{contents_of};
ghost use Rattle.sm_term.specs.Moves.{moved_part, moved_body, bodies_in_list, moved_contents};

use crate::term::{BodyId, Term, TermId, Terms};
use sm_syntax::{Name, Outputs, copy_outputs};
use std::alloc::{AllocError, Global};

// The term of a row, by the numbers of the rows before it and of the bodies.
pub(crate) fn moved(
    alloc: Global,
    term: &Term,
    from: u64,
    answers: &[TermId],
    numbers: &[BodyId],
) -> Result<Term, AllocError>
    ensures { let part = moved_part from (parts_in_list answers.now) in
        let body = moved_body (bodies_in_list numbers.now) in
        IfOk result (λ t. contents_of t ≡ moved_contents part body term.now) }
{
    match term {
        Term::Lit(value) => Ok(Term::Lit(*value)),
        Term::Start(name) => Ok(Term::Start(*name)),
        Term::Havoc { node, copy, name } => Ok(Term::Havoc {
            node: *node,
            copy: *copy,
            name: *name,
        }),
        Term::Slot { copy, name } => Ok(Term::Slot {
            copy: *copy,
            name: *name,
        }),
        Term::Cell => Ok(Term::Cell),
        Term::Read(a, i) => {
            let a = here(*a, from, answers);
            Ok(Term::Read(a, here(*i, from, answers)))
        }
        Term::Write(a, i, e) => {
            let a = here(*a, from, answers);
            let i = here(*i, from, answers);
            Ok(Term::Write(a, i, here(*e, from, answers)))
        }
        Term::Neg(t) => Ok(Term::Neg(here(*t, from, answers))),
        Term::Add(t, u) => {
            let t = here(*t, from, answers);
            Ok(Term::Add(t, here(*u, from, answers)))
        }
        Term::Sub(t, u) => {
            let t = here(*t, from, answers);
            Ok(Term::Sub(t, here(*u, from, answers)))
        }
        Term::Mul(t, u) => {
            let t = here(*t, from, answers);
            Ok(Term::Mul(t, here(*u, from, answers)))
        }
        Term::Fun {
            body,
            name,
            from: names,
            args,
        } => {
            let body = body_here(*body, numbers);
            let list = all_here(alloc, &args.list, from, answers)?;
            let from = copy_outputs(alloc, names)?;
            Ok(Term::Fun {
                body,
                name: *name,
                from,
                args: Terms { list },
            })
        }
    }
}

// The number here of a row's part.
fn here(part: TermId, from: u64, answers: &[TermId]) -> TermId
    ensures { result.0 ≡ moved_part from (parts_in_list answers.now) part.0 }
{
    if part.0 < from {
        return part;
    }
    match answers.get((part.0 - from) as usize) {
        Some(answer) => *answer,
        None => part,
    }
}

// The number here of each part of a list.
fn all_here(
    alloc: Global,
    parts: &[TermId],
    from: u64,
    answers: &[TermId],
) -> Result<Vec<TermId>, AllocError>
    ensures { let part = moved_part from (parts_in_list answers.now) in
        IfOk result (λ v. parts_in_list v.items ≡ map part (parts_in_list parts.now)) }
{
    let mut list = Vec::new(alloc);
    for part in parts {
        list.push(here(*part, from, answers))?;
    }
    Ok(list)
}

// The number here of a row's body.
fn body_here(body: BodyId, numbers: &[BodyId]) -> BodyId
    ensures { result.0 ≡ moved_body (bodies_in_list numbers.now) body.0 }
{
    match numbers.get(body.0 as usize) {
        Some(number) => *number,
        None => body,
    }
}
