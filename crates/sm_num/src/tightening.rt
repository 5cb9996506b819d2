// Forms over whole numbers made tight.
ghost use Rattle.std.specs.Prelude.{◌≡◌, ◌≢◌};
ghost use Rattle.sm_num.specs.declared.kind.Kind.TheVariants.{Le, Eq};
ghost use Rattle.sm_num.specs.Combining.{Fits};
ghost use Rattle.sm_num.specs.Eliminating.{divisor_of_parts};
ghost use Rattle.sm_num.specs.Tightening.{tightened, tightened_by};
ghost use Rattle.sm_num.specs.Errors.{Returns};

use crate::dividing::{ceiling, divide_parts, floor, parts_divisor, size};
use crate::error::NumError;
use crate::form::LinForm;
use crate::kind::Kind;
use std::alloc::Global;

/// What a form says of whole numbers, with coefficients that have no common divisor: the constant
/// of a sum that is at most 0 is rounded up, and an equation whose constant isn't divided says that
/// 1 is 0. The only error is want of memory.
pub fn tighten(alloc: Global, f: &LinForm) -> Result<LinForm, NumError>
    ensures { Returns (Fits (tightened f.now)) result }
{
    if f.parts.is_empty() {
        return Ok(f.copy(alloc)?);
    }
    let d = parts_divisor(&f.parts);
    match f.kind {
        Kind::Le => tighten_sum(alloc, f, d),
        Kind::Eq => tighten_equation(alloc, f, d),
    }
}

// A form with parts, which says that its sum is at most 0, divided by their divisor.
fn tighten_sum(alloc: Global, f: &LinForm, d: u128) -> Result<LinForm, NumError>
    requires { d ≡ divisor_of_parts f.now.parts }
    ensures { Returns (Fits (tightened_by d f.now.parts f.now.constant Le)) result }
{
    Ok(LinForm {
        parts: divide_parts(alloc, &f.parts, d)?,
        constant: ceiling(&f.constant, d),
        kind: Kind::Le,
    })
}

// A form with parts, which says that its sum is 0, divided by their divisor.
fn tighten_equation(alloc: Global, f: &LinForm, d: u128) -> Result<LinForm, NumError>
    requires divisor { d ≡ divisor_of_parts f.now.parts }
    requires some { d ≢ 0 }
    ensures { Returns (Fits (tightened_by d f.now.parts f.now.constant Eq)) result }
{
    if size(&f.constant) % d != 0 {
        return LinForm::number(alloc, 1);
    }
    Ok(LinForm {
        parts: divide_parts(alloc, &f.parts, d)?,
        constant: floor(&f.constant, d),
        kind: Kind::Eq,
    })
}
