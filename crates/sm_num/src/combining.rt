// The sum of two forms, each times a number.
ghost use Rattle.sm_num.specs.Combining.{combined};
ghost use Rattle.sm_num.specs.Errors.{Returns};

use crate::arithmetic::combine_numbers;
use crate::error::NumError;
use crate::form::LinForm;
use crate::kind::Kind;
use crate::merging::merge;
use std::alloc::Global;

/// p times f plus q times g, of a given kind. Where a number leaves the range of forms, the error
/// names the first operation that does: by ascending atom p times the coefficient of f, q times
/// that of g and their sum, and last the constants in the same way.
pub fn combine(
    alloc: Global,
    f: &LinForm,
    p: i128,
    g: &LinForm,
    q: i128,
    kind: Kind,
) -> Result<LinForm, NumError>
    ensures { Returns (combined f.now p g.now q kind) result }
{
    let parts = merge(alloc, &p, &f.parts, &q, &g.parts)?;
    let constant = combine_numbers(&p, &f.constant, &q, &g.constant)?;
    Ok(LinForm {
        parts,
        constant,
        kind,
    })
}
