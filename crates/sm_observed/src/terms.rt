// Terms that may not be there, and values that may be of another sort.
ghost use Rattle.std.specs.Prelude.{IfSome, length};
ghost use Rattle.sm_term.specs.Tables.{sorts_in, codes_in, IsTermWithin};
ghost use Rattle.sm_term.specs.TableLaws.{AddsTerms};

use sm_eval::Store;
use sm_syntax::{Name, Sort};
use sm_term::{SymStore, Term, TermError, TermId, TermTable};
use std::alloc::AllocError;

/// The term with a number, None where the table has none. Its parts stand before it.
pub(crate) fn term_at(table: &TermTable, t: TermId) -> Option<&Term>
    ensures { let bodies = length (codes_in table.now) in
        IfSome result (λ row. IsTermWithin (sorts_in table.now) bodies t.0 row.now) }
{
    if t.0 < table.len() {
        return Some(table.get(t));
    }
    None
}

/// The sort of the term with a number, None where the table has none.
pub(crate) fn sort_at(table: &TermTable, t: TermId) -> Option<Sort> {
    if t.0 < table.len() {
        return Some(table.sort(t));
    }
    None
}

/// The number of a literal.
pub(crate) fn literal(table: &mut TermTable, z: i128) -> Result<TermId, TermError>
    ensures { AddsTerms table.old table.new }
{
    table.intern(Term::Lit(z))
}

/// What two terms make.
#[derive(Clone, Copy)]
pub(crate) enum Operation {
    Add,
    Sub,
    Mul,
    Read,
}

/// The number of what two terms make. That one of them isn't there counts as a wrong sort.
pub(crate) fn joined(
    table: &mut TermTable,
    operation: Operation,
    t: TermId,
    u: TermId,
) -> Result<TermId, TermError>
    ensures { AddsTerms table.old table.new }
{
    let len = table.len();
    if t.0 >= len || u.0 >= len {
        return Err(TermError::WrongSort);
    }
    match operation {
        Operation::Add => table.intern(Term::Add(t, u)),
        Operation::Sub => table.intern(Term::Sub(t, u)),
        Operation::Mul => table.intern(Term::Mul(t, u)),
        Operation::Read => table.intern(Term::Read(t, u)),
    }
}

/// The number of the term with the other sign. That it isn't there counts as a wrong sort.
pub(crate) fn negated(table: &mut TermTable, t: TermId) -> Result<TermId, TermError>
    ensures { AddsTerms table.old table.new }
{
    if t.0 >= table.len() {
        return Err(TermError::WrongSort);
    }
    table.intern(Term::Neg(t))
}

/// The term that a store has for a name. That it has none counts as a wrong sort.
pub(crate) fn term_for(store: &SymStore, x: Name) -> Result<TermId, TermError> {
    match store.list.get(x.0 as usize) {
        Some(t) => Ok(*t),
        None => Err(TermError::WrongSort),
    }
}

/// What was made, None where a part has a wrong sort.
pub(crate) fn unless_wrong<T: Drop>(made: Result<T, TermError>) -> Result<Option<T>, AllocError> {
    match made {
        Ok(made) => Ok(Some(made)),
        Err(TermError::WrongSort) => Ok(None),
        Err(TermError::Memory) => Err(AllocError),
    }
}

/// The number that a store has for a name, None where it has none.
pub(crate) fn number_of(store: &Store, x: Name) -> Option<i128> {
    match store.sort(x) {
        Some(Sort::Num) => Some(store.number(x)),
        Some(Sort::Arr) => None,
        None => None,
    }
}

/// The cells of an array of a store that don't have 0, None where it has no such array.
pub(crate) fn cells_of(store: &Store, x: Name) -> Option<&[(i128, i128)]> {
    match store.sort(x) {
        Some(Sort::Arr) => Some(store.cells(x)),
        Some(Sort::Num) => None,
        None => None,
    }
}

/// The number at an index of an array of a store, None where it has no such array.
pub(crate) fn cell_of(store: &Store, x: Name, index: i128) -> Option<i128> {
    match store.sort(x) {
        Some(Sort::Arr) => Some(store.cell(x, index)),
        Some(Sort::Num) => None,
        None => None,
    }
}
