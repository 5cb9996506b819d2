// Equalities among columns, and whether they hold at rows.
ghost use Rattle.std.specs.Prelude.{◌≡◌, ◌+ℤ◌, ◌*ℤ◌, IsTrue, IfOk, IfSome};
ghost use Rattle.sm_num.specs.FormLaws.{value_of_form};
ghost use Rattle.sm_affine.specs.Equalities.{number_in, form_of, HoldsIn, HoldsInEach, GivesColumn};

use std::alloc::{AllocError, Global};

/// The number in a column, times a coefficient.
#[derive(Clone, Copy, PartialEq, Eq)]
pub struct Part {
    pub column: usize,
    pub coefficient: i128,
}

/// An equality among columns: it says that the sum of its parts and its constant is 0.
#[derive(Drop)]
pub struct Equality {
    pub parts: Vec<Part>,
    pub constant: i128,
}

// The number of a row in a column, 0 where the row has none.
fn number_at(row: &[i128], column: usize) -> i128
    ensures { result ≡ number_in row.now column }
{
    if column < row.len() { row[column] } else { 0 }
}

// A sum and a part at a row, None where a number leaves 128 bits.
fn with_part(sum: &i128, part: &Part, row: &[i128]) -> Option<i128>
    ensures { IfSome result (λ z.
        z ≡ sum.now +ℤ (part.now.coefficient *ℤ number_in row.now part.now.column)) }
{
    let number = number_at(row, part.column);
    let product = part.coefficient.checked_mul(number)?;
    sum.checked_add(product)
}

// The sum of the parts and of the constant at a row, None where a number leaves 128 bits.
fn sum_at(equality: &Equality, row: &[i128]) -> Option<i128>
    ensures { IfSome result (λ z. z ≡ value_of_form (number_in row.now) (form_of equality.now)) }
{
    let mut sum = equality.constant;
    for part in &equality.parts {
        let next = with_part(&sum, part, row)?;
        sum = next;
    }
    Some(sum)
}

// Whether an equality holds at a row. One whose sum there leaves 128 bits isn't taken.
fn holds_at(equality: &Equality, row: &[i128]) -> bool
    ensures { IsTrue result → HoldsIn row.now equality.now }
{
    match sum_at(equality, row) {
        Some(sum) => sum == 0,
        None => false,
    }
}

// Whether an equality holds at each row. One whose sum leaves 128 bits isn't taken.
pub(crate) fn holds_at_each(equality: &Equality, rows: &[Vec<i128>]) -> bool
    ensures { IsTrue result → HoldsInEach rows.now equality.now }
{
    for row in rows {
        if !holds_at(equality, row) {
            return false;
        }
    }
    true
}

// The part of a column that is to be given, as an equality, None where its coefficient is 0.
pub(crate) fn own_part(
    alloc: Global,
    column: usize,
    coefficient: &i128,
) -> Result<Option<Equality>, AllocError>
    ensures { IfOk result (λ found. IfSome found (λ e. GivesColumn column e.parts.items)) }
{
    if *coefficient == 0 {
        return Ok(None);
    }
    let mut parts = Vec::new(alloc);
    parts.push(Part {
        column,
        coefficient: *coefficient,
    })?;
    Ok(Some(Equality { parts, constant: 0 }))
}

// Adds a part before the column that is given, where its coefficient isn't 0.
pub(crate) fn add_part(
    equality: &mut Equality,
    given: usize,
    column: usize,
    coefficient: &i128,
) -> Result<(), AllocError>
    ensures { GivesColumn given equality.old.parts.items
        → GivesColumn given equality.new.parts.items }
{
    if *coefficient != 0 && column < given {
        equality.parts.push(Part {
            column,
            coefficient: *coefficient,
        })?;
    }
    Ok(())
}
