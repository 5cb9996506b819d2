// Terms by number, and when two are equal.
ghost use Rattle.std.specs.Prelude.{◌≡◌, nat_eq, IfOk};
ghost use Rattle.std.specs.Cmp.{partial_equiv_from_equiv};
ghost use Rattle.std.specs.Cmp.Lexicographic.{pointwise};
ghost use Rattle.sm_term.specs.Rows.{kind_numbers, term_numbers, names_of_term, parts_of_term, same_term, names_in_list, parts_in_list, same_numbers, hashed};
ghost use Rattle.sm_term.specs.RowLaws.{contents_of, same_term-equiv, same_term-hashed};

use sm_syntax::{Name, Outputs, copy_outputs};
use std::alloc::{AllocError, Global};
use std::hash::{Hash, Hasher};

/// The number of a term in a table.
#[derive(Clone, Copy, Debug, PartialEq, Eq, Hash)]
pub struct TermId(pub u64);

/// The number of a summary's body in a table.
#[derive(Clone, Copy, Debug, PartialEq, Eq, Hash)]
pub struct BodyId(pub u64);

/// A list of terms.
#[derive(Drop)]
pub struct Terms {
    pub list: Vec<TermId>,
}

/// A term, whose parts and body are numbers in one table.
#[derive(Drop)]
pub enum Term {
    Lit(i128),
    /// The start value of a name, one for all copies.
    Start(Name),
    /// The new value that node `node` of a plan gives to a copy's name.
    Havoc {
        node: u64,
        copy: u8,
        name: Name,
    },
    /// The place of a copy's value of a name in a kept formula.
    Slot {
        copy: u8,
        name: Name,
    },
    /// The index of an array's cell, one for a whole proof.
    Cell,
    Read(TermId, TermId),
    Write(TermId, TermId, TermId),
    Neg(TermId),
    Add(TermId, TermId),
    Sub(TermId, TermId),
    Mul(TermId, TermId),
    /// The value of `name` after the body, from the store that has `args` at the names `from`.
    Fun {
        body: BodyId,
        name: Name,
        from: Outputs,
        args: Terms,
    },
}

// All that a term holds but its lists, in one form for all kinds of terms.
#[derive(Clone, Copy)]
struct Numbers {
    kind: u8,
    value: i128,
    first: u64,
    second: u64,
    third: u64,
}

impl Numbers {
    // A term whose parts are numbers.
    fn of(kind: u8, first: u64, second: u64, third: u64) -> Numbers
        ensures { result ≡ kind_numbers kind first second third }
    {
        Numbers {
            kind,
            value: 0,
            first,
            second,
            third,
        }
    }
}

impl Term {
    fn numbers(&self) -> Numbers
        ensures { result ≡ term_numbers self.now }
    {
        match self {
            Term::Lit(value) => Numbers {
                kind: 0,
                value: *value,
                first: 0,
                second: 0,
                third: 0,
            },
            Term::Start(name) => Numbers::of(1, name.0 as u64, 0, 0),
            Term::Havoc { node, copy, name } => {
                Numbers::of(2, *node, *copy as u64, name.0 as u64)
            }
            Term::Slot { copy, name } => Numbers::of(3, *copy as u64, name.0 as u64, 0),
            Term::Cell => Numbers::of(4, 0, 0, 0),
            Term::Read(a, i) => Numbers::of(5, a.0, i.0, 0),
            Term::Write(a, i, e) => Numbers::of(6, a.0, i.0, e.0),
            Term::Neg(t) => Numbers::of(7, t.0, 0, 0),
            Term::Add(t, u) => Numbers::of(8, t.0, u.0, 0),
            Term::Sub(t, u) => Numbers::of(9, t.0, u.0, 0),
            Term::Mul(t, u) => Numbers::of(10, t.0, u.0, 0),
            Term::Fun { body, name, .. } => Numbers::of(11, body.0, name.0 as u64, 0),
        }
    }

    /// A term that holds the same.
    pub fn copied(&self, alloc: Global) -> Result<Term, AllocError>
        ensures { IfOk result (λ t. contents_of self.now ≡ contents_of t) }
    {
        match self {
            Term::Lit(value) => Ok(Term::Lit(*value)),
            Term::Start(name) => Ok(Term::Start(*name)),
            Term::Havoc { node, copy, name } => Ok(Term::Havoc {
                node: *node,
                copy: *copy,
                name: *name,
            }),
            Term::Slot { copy, name } => Ok(Term::Slot {
                copy: *copy,
                name: *name,
            }),
            Term::Cell => Ok(Term::Cell),
            Term::Read(a, i) => Ok(Term::Read(*a, *i)),
            Term::Write(a, i, e) => Ok(Term::Write(*a, *i, *e)),
            Term::Neg(t) => Ok(Term::Neg(*t)),
            Term::Add(t, u) => Ok(Term::Add(*t, *u)),
            Term::Sub(t, u) => Ok(Term::Sub(*t, *u)),
            Term::Mul(t, u) => Ok(Term::Mul(*t, *u)),
            Term::Fun {
                body,
                name,
                from,
                args,
            } => copied_summary(alloc, *body, *name, from, args),
        }
    }

    // The names of a summary's arguments.
    fn names(&self) -> &[Name]
        ensures { names_in_list result.now ≡ names_of_term self.now }
    {
        match self {
            Term::Fun { from, .. } => &from.list,
            _ => &[],
        }
    }

    // The arguments of a summary.
    fn parts(&self) -> &[TermId]
        ensures { parts_in_list result.now ≡ parts_of_term self.now }
    {
        match self {
            Term::Fun { args, .. } => &args.list,
            _ => &[],
        }
    }
}

// A summary with the same names and arguments.
fn copied_summary(
    alloc: Global,
    body: BodyId,
    name: Name,
    from: &Outputs,
    args: &Terms,
) -> Result<Term, AllocError>
    ensures { IfOk result (λ t.
        (kind_numbers 11 body.0 name.0 0, names_in_list from.now.list.items, parts_in_list args.now.list.items)
        ≡ contents_of t) }
{
    let from = copy_outputs(alloc, from)?;
    let list = Vec::from_slice(alloc, &args.list)?;
    Ok(Term::Fun {
        body,
        name,
        from,
        args: Terms { list },
    })
}

// Whether two lists have the same names.
fn same_names(a: &[Name], b: &[Name]) -> bool
    ensures { result ≡ pointwise nat_eq (names_in_list a.now) (names_in_list b.now) }
{
    *a == *b
}

// Whether two lists have the same terms.
fn same_parts(a: &[TermId], b: &[TermId]) -> bool
    ensures { result ≡ pointwise nat_eq (parts_in_list a.now) (parts_in_list b.now) }
{
    *a == *b
}

// Whether two terms hold the same numbers.
fn same_numbers(a: Numbers, b: Numbers) -> bool
    ensures { result ≡ same_numbers a b }
{
    a.kind == b.kind
        && a.value == b.value
        && a.first == b.first
        && a.second == b.second
        && a.third == b.third
}

impl PartialEq for Term {
    ghost eq = { same_term };

    ghost laws = { partial_equiv_from_equiv same_term-equiv };

    #[tactic(auto, unfolding(crate::specs::Rows::same_term))]
    fn eq(&self, other: &Term) -> bool {
        if !same_numbers(self.numbers(), other.numbers()) {
            return false;
        }
        if !same_names(self.names(), other.names()) {
            return false;
        }
        same_parts(self.parts(), other.parts())
    }
}

impl Eq for Term {
    ghost laws = { same_term-equiv };
}

impl Hash for Term {
    ghost hash_input = { hashed };

    ghost respects_eq = { same_term-hashed };

    #[tactic(auto, unfolding(crate::specs::Rows::hashed))]
    fn hash<H: Hasher>(&self, state: &mut H) {
        let numbers = self.numbers();
        numbers.kind.hash(state);
        numbers.value.hash(state);
        numbers.first.hash(state);
        numbers.second.hash(state);
        numbers.third.hash(state);
        self.parts().hash(state);
    }
}
