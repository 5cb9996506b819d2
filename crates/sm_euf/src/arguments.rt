// The arguments of a term of a table, and whether two terms have one head.
ghost use Rattle.std.specs.Prelude.{◌≡◌, ◌<◌, Some, nat_eq, length, slice_get};
ghost use Rattle.std.specs.Cmp.Lexicographic.{pointwise};
ghost use Rattle.sm_term.specs.Rows.{names_in_list};
ghost use Rattle.sm_term.specs.Heads.{arguments_of};
ghost use Rattle.sm_term.specs.Tables.{trees_in, tree_at};
ghost use Rattle.sm_theory.specs.Sides.{OptionStands};
ghost use Rattle.sm_euf.specs.Arguments.{argument_numbers, have_one_head};

use sm_syntax::Name;
use sm_term::{Term, TermId, TermTable};

/// Argument `i` of a term of a table, from 0, None where it has no such.
pub fn argument_of(table: &TermTable, t: TermId, i: u64) -> Option<TermId>
    requires { t.0 < length (trees_in table.now) }
    ensures { let trees = trees_in table.now in
        OptionStands (λ a tree. slice_get trees a.0 ≡ Some tree) result
        (slice_get (arguments_of (tree_at trees t.0)) i) }
{
    argument(table.get(t), i as usize)
}

// Argument `i` of a term.
pub(crate) fn argument(t: &Term, i: usize) -> Option<TermId>
    ensures { result ≡ slice_get (argument_numbers t.now) i }
{
    match t {
        Term::Neg(a) => element(&[*a], i),
        Term::Read(a, b) => element(&[*a, *b], i),
        Term::Add(a, b) => element(&[*a, *b], i),
        Term::Sub(a, b) => element(&[*a, *b], i),
        Term::Mul(a, b) => element(&[*a, *b], i),
        Term::Write(a, b, e) => element(&[*a, *b, *e], i),
        Term::Fun { args, .. } => element(&args.list, i),
        Term::Lit(_) | Term::Start(_) | Term::Cell => None,
        Term::Havoc { .. } | Term::Slot { .. } => None,
    }
}

// An element of a list.
fn element(list: &[TermId], i: usize) -> Option<TermId>
    ensures { result ≡ slice_get list.now i }
{
    list.get(i).copied()
}

// Whether two terms are one operation, or summaries of one name after one body with arguments of
// the same names.
pub(crate) fn heads_match(t: &Term, u: &Term) -> bool
    ensures { result ≡ have_one_head t.now u.now }
{
    match (t, u) {
        (Term::Read(_, _), Term::Read(_, _)) => true,
        (Term::Write(_, _, _), Term::Write(_, _, _)) => true,
        (Term::Neg(_), Term::Neg(_)) => true,
        (Term::Add(_, _), Term::Add(_, _)) => true,
        (Term::Sub(_, _), Term::Sub(_, _)) => true,
        (Term::Mul(_, _), Term::Mul(_, _)) => true,
        (
            Term::Fun {
                body,
                name,
                from,
                ..
            },
            Term::Fun {
                body: other_body,
                name: other_name,
                from: other_from,
                ..
            },
        ) => {
            body.0 == other_body.0
                && name.0 == other_name.0
                && same_names(&from.list, &other_from.list)
        }
        _ => false,
    }
}

// Whether two lists have the same names.
fn same_names(a: &[Name], b: &[Name]) -> bool
    ensures { result ≡ pointwise nat_eq (names_in_list a.now) (names_in_list b.now) }
{
    *a == *b
}
