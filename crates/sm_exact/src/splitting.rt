// A list that is split by a variable.
ghost use Rattle.std.specs.Prelude.{◌≡◌, ◌++◌, [], ◌∷◌, IfOk, OnOk};
ghost use Rattle.sm_omega.specs.Solving.{others, lower_bounds, upper_bounds};
ghost use Rattle.sm_exact.specs.Rows.{Splits};

use crate::coefficients::coefficient;
use sm_num::LinForm;
use std::alloc::{AllocError, Global};

// The forms without a variable, and its lower and upper bounds.
#[derive(Drop)]
pub(crate) struct Sides {
    pub(crate) others: Vec<LinForm>,
    pub(crate) lower: Vec<LinForm>,
    pub(crate) upper: Vec<LinForm>,
}

// Splits a list.
pub(crate) fn split(alloc: Global, forms: Vec<LinForm>, t: u64) -> Result<Sides, AllocError>
    ensures { IfOk result (Splits t forms.items) }
{
    let mut out = Sides {
        others: Vec::new(alloc),
        lower: Vec::new(alloc),
        upper: Vec::new(alloc),
    };
    for f in forms {
        deal(&mut out, f, t)?;
    }
    Ok(out)
}

// Puts a form behind those of its part.
fn deal(out: &mut Sides, f: LinForm, t: u64) -> Result<(), AllocError>
    ensures others { OnOk result
        (out.new.others.items ≡ out.old.others.items ++ others t (f ∷ [])) }
    ensures lower { OnOk result
        (out.new.lower.items ≡ out.old.lower.items ++ lower_bounds t (f ∷ [])) }
    ensures upper { OnOk result
        (out.new.upper.items ≡ out.old.upper.items ++ upper_bounds t (f ∷ [])) }
{
    let a = coefficient(&f, t);
    if a == 0 {
        out.others.push(f)?;
        return Ok(());
    }
    if a < 0 {
        out.lower.push(f)?;
        return Ok(());
    }
    out.upper.push(f)?;
    Ok(())
}

// A copy of forms.
pub(crate) fn copy_all(alloc: Global, forms: &[LinForm]) -> Result<Vec<LinForm>, AllocError>
    ensures { IfOk result (λ v. v.items ≡ forms.now) }
{
    let mut out = Vec::with_capacity(alloc, forms.len())?;
    for f in forms {
        out.push(f.copy(alloc)?)?;
    }
    Ok(out)
}
