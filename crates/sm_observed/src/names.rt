// Names that candidates speak of, and their places.
ghost use Rattle.std.specs.Prelude.{◌≡◌};
ghost use Rattle.sm_syntax.specs.text.Parts.{sort_of};
ghost use Rattle.sm_syntax.specs.trees.Programs.{declared_of};
ghost use Rattle.sm_term.specs.Sorted.{IsDeclaredIn};
ghost use Rattle.sm_term.specs.Tables.{sorts_in};
ghost use Rattle.sm_term.specs.TableLaws.{AddsTerms};

use crate::states::LoopState;
use sm_syntax::{CopyName, Decls, Name, PerCopy, Sort};
use sm_template::{bodies_write, names_written};
use sm_term::{SymStore, Term, TermError, TermId, TermTable};
use std::alloc::{AllocError, Global};

/// All copies, in order.
pub(crate) const COPIES: [CopyName; 4] = [CopyName::O, CopyName::A, CopyName::B, CopyName::M];

// The place of a copy's value of a name.
fn slot(table: &mut TermTable, copy: CopyName, x: Name) -> Result<TermId, AllocError>
    requires { IsDeclaredIn (sorts_in table.old) x.0 }
    ensures { AddsTerms table.old table.new }
{
    let term = Term::Slot {
        copy: copy.number(),
        name: x,
    };
    match table.intern(term) {
        Ok(id) => Ok(id),
        Err(TermError::Memory) => Err(AllocError),
        Err(TermError::WrongSort) => unreachable!(),
    }
}

// A store in which each declared name has its place in a copy.
fn places_in(
    alloc: Global,
    table: &mut TermTable,
    decls: &Decls,
    copy: CopyName,
) -> Result<SymStore, AllocError>
    requires { sorts_in table.old ≡ sort_of (declared_of decls.now) }
    ensures { AddsTerms table.old table.new }
{
    let mut list = Vec::new(alloc);
    for d in &decls.list {
        list.push(slot(table, copy, d.0)?)?;
    }
    Ok(SymStore { list })
}

/// For each copy a store in which each declared name has its place in the copy.
pub(crate) fn places_of(
    alloc: Global,
    table: &mut TermTable,
    decls: &Decls,
) -> Result<PerCopy<SymStore>, AllocError>
    requires { sorts_in table.old ≡ sort_of (declared_of decls.now) }
    ensures { AddsTerms table.old table.new }
{
    let base = places_in(alloc, table, decls, CopyName::O)?;
    let variant_a = places_in(alloc, table, decls, CopyName::A)?;
    let variant_b = places_in(alloc, table, decls, CopyName::B)?;
    let candidate = places_in(alloc, table, decls, CopyName::M)?;
    Ok(PerCopy {
        base,
        variant_a,
        variant_b,
        candidate,
    })
}

// The numbers of some declarations, in order.
fn numbers_in(alloc: Global, decls: &Decls) -> Result<Vec<Name>, AllocError> {
    let mut list = Vec::new(alloc);
    for d in &decls.list {
        if d.1 == Sort::Num {
            list.push(d.0)?;
        }
    }
    Ok(list)
}

/// The numbers that a body of the loops of a state writes, in the order of the declarations.
pub(crate) fn numbers_written(
    alloc: Global,
    decls: &Decls,
    state: &LoopState<'_>,
) -> Result<Vec<Name>, AllocError> {
    let bodies = bodies_write(alloc, state.set, &state.rests)?;
    let written = names_written(alloc, decls, &bodies)?;
    numbers_in(alloc, &written)
}
