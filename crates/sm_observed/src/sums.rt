// Equalities as formulas.
ghost use Rattle.sm_term.specs.TableLaws.{AddsTerms};

use crate::columns::Columns;
use crate::filter::put_new;
use crate::terms::{Operation, joined, literal, term_at, unless_wrong};
use sm_affine::{Equality, Part};
use sm_term::{Formula, Term, TermError, TermId, TermTable};
use std::alloc::{AllocError, Global};

// A term times a number.
fn product(table: &mut TermTable, coefficient: i128, t: TermId) -> Result<TermId, TermError>
    ensures { AddsTerms table.old table.new }
{
    if coefficient == 1 {
        return Ok(t);
    }
    let factor = literal(table, coefficient)?;
    joined(table, Operation::Mul, factor, t)
}

// A sum, which may be empty yet, and a term more.
fn with_term(table: &mut TermTable, sum: Option<TermId>, t: TermId) -> Result<TermId, TermError>
    ensures { AddsTerms table.old table.new }
{
    match sum {
        None => Ok(t),
        Some(s) => joined(table, Operation::Add, s, t),
    }
}

// A number of an equality, as it stands on a side: above 0 if it belongs there.
fn on_side(number: i128, is_left: bool) -> i128 {
    if is_left {
        number
    } else {
        number.saturating_neg()
    }
}

// A sum and a part more, where it stands on a side.
fn with_part(
    table: &mut TermTable,
    columns: &Columns,
    part: Part,
    is_left: bool,
    sum: Option<TermId>,
) -> Result<Option<TermId>, TermError>
    ensures { AddsTerms table.old table.new }
{
    let coefficient = on_side(part.coefficient, is_left);
    if coefficient <= 0 {
        return Ok(sum);
    }
    let Some(t) = columns.terms.get(part.column) else {
        return Ok(sum);
    };
    let more = product(table, coefficient, *t)?;
    Ok(Some(with_term(table, sum, more)?))
}

// A sum and the part in a column more, where the equality has one that stands on a side.
fn with_column(
    table: &mut TermTable,
    columns: &Columns,
    equality: &Equality,
    column: usize,
    is_left: bool,
    sum: Option<TermId>,
) -> Result<Option<TermId>, TermError>
    ensures { AddsTerms table.old table.new }
{
    for part in &equality.parts {
        if part.column == column {
            return with_part(table, columns, *part, is_left, sum);
        }
    }
    Ok(sum)
}

// A sum and a constant more, where it stands on a side; the literal 0 where nothing does.
fn with_constant(
    table: &mut TermTable,
    constant: i128,
    is_left: bool,
    sum: Option<TermId>,
) -> Result<TermId, TermError>
    ensures { AddsTerms table.old table.new }
{
    let number = on_side(constant, is_left);
    if number > 0 {
        let t = literal(table, number)?;
        return with_term(table, sum, t);
    }
    match sum {
        Some(t) => Ok(t),
        None => literal(table, 0),
    }
}

// The sum of a side of an equality: of the parts and the constant that are above 0, or below. Parts
// stand in the order of their columns.
fn side(
    table: &mut TermTable,
    columns: &Columns,
    equality: &Equality,
    is_left: bool,
) -> Result<TermId, TermError>
    ensures { AddsTerms table.old table.new }
{
    let mut sum = None;
    for column in 0..columns.terms.len() {
        sum = with_column(table, columns, equality, column, is_left, sum)?;
    }
    with_constant(table, equality.constant, is_left, sum)
}

// An equality among columns, as a formula without minus.
fn formula_of(
    table: &mut TermTable,
    columns: &Columns,
    equality: &Equality,
) -> Result<Formula, TermError>
    ensures { AddsTerms table.old table.new }
{
    let left = side(table, columns, equality, true)?;
    let right = side(table, columns, equality, false)?;
    Ok(Formula::Eq(left, right))
}

// Whether a term is a read of an array.
fn is_read(table: &TermTable, t: TermId) -> bool {
    match term_at(table, t) {
        Some(Term::Read(_, _)) => true,
        _ => false,
    }
}

// The terms of the parts of an equality with a coefficient, in order, but for reads.
fn terms_with(
    alloc: Global,
    table: &TermTable,
    columns: &Columns,
    equality: &Equality,
    coefficient: i128,
) -> Result<Vec<TermId>, AllocError> {
    let mut list = Vec::new(alloc);
    for part in &equality.parts {
        if let Some(t) = columns.terms.get(part.column) {
            if part.coefficient == coefficient && !is_read(table, *t) {
                list.push(*t)?;
            }
        }
    }
    Ok(list)
}

// That a term is the difference of two others.
fn difference(table: &mut TermTable, t: TermId, x: TermId, y: TermId) -> Result<Formula, TermError>
    ensures { AddsTerms table.old table.new }
{
    let less = joined(table, Operation::Sub, x, y)?;
    Ok(Formula::Eq(t, less))
}

// Puts a formula behind others, where it could be made and is new.
fn put_made(list: &mut Vec<Formula>, made: Result<Formula, TermError>) -> Result<(), AllocError> {
    match unless_wrong(made)? {
        Some(f) => put_new(list, f),
        None => Ok(()),
    }
}

// Of x = y + k, or of x + k = y, the form with the number on the other side.
fn shifted(
    table: &mut TermTable,
    x: TermId,
    y: TermId,
    constant: i128,
) -> Result<Formula, TermError>
    ensures { AddsTerms table.old table.new }
{
    let number = literal(table, constant.saturating_abs())?;
    if constant < 0 {
        difference(table, y, x, number)
    } else {
        difference(table, x, y, number)
    }
}

// That a term is the sum of two others.
fn sum_is(table: &mut TermTable, x: TermId, y: TermId, z: TermId) -> Result<Formula, TermError>
    ensures { AddsTerms table.old table.new }
{
    let sum = joined(table, Operation::Add, y, z)?;
    Ok(Formula::Eq(x, sum))
}

// The forms of x = y + z with either order, and with either on the other side.
fn put_parted(
    table: &mut TermTable,
    x: TermId,
    y: TermId,
    z: TermId,
    list: &mut Vec<Formula>,
) -> Result<(), AllocError>
    ensures { AddsTerms table.old table.new }
{
    put_made(list, sum_is(table, x, y, z))?;
    put_made(list, sum_is(table, x, z, y))?;
    put_made(list, difference(table, y, x, z))?;
    put_made(list, difference(table, z, x, y))
}

// Puts the other forms of an equality of so many parts behind others, by the terms that it adds on
// either side.
fn put_sides(
    table: &mut TermTable,
    parts: usize,
    left: &[TermId],
    right: &[TermId],
    constant: i128,
    list: &mut Vec<Formula>,
) -> Result<(), AllocError>
    ensures { AddsTerms table.old table.new }
{
    match (parts, left, right) {
        (2, [x], [y]) if constant != 0 => put_made(list, shifted(table, *x, *y, constant)),
        (3, [x], [y, z]) if constant == 0 => put_parted(table, *x, *y, *z, list),
        (3, [y, z], [x]) if constant == 0 => put_parted(table, *x, *y, *z, list),
        _ => Ok(()),
    }
}

// Puts the other forms of an equality whose coefficients are 1 behind others, where it is between
// two terms and a number, or three terms: so an index that is such a sum, or such a difference,
// meets its class, however it is written.
fn put_turned(
    alloc: Global,
    table: &mut TermTable,
    columns: &Columns,
    equality: &Equality,
    list: &mut Vec<Formula>,
) -> Result<(), AllocError>
    ensures { AddsTerms table.old table.new }
{
    let left = terms_with(alloc, table, columns, equality, 1)?;
    let right = terms_with(alloc, table, columns, equality, -1)?;
    let parts = equality.parts.len();
    put_sides(table, parts, &left, &right, equality.constant, list)
}

/// Puts all forms of an equality behind others.
pub(crate) fn put_equality(
    alloc: Global,
    table: &mut TermTable,
    columns: &Columns,
    equality: &Equality,
    list: &mut Vec<Formula>,
) -> Result<(), AllocError>
    ensures { AddsTerms table.old table.new }
{
    put_made(list, formula_of(table, columns, equality))?;
    put_turned(alloc, table, columns, equality, list)
}
