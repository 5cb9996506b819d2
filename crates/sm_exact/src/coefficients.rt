// Coefficients of variables.
ghost use Rattle.std.specs.Prelude.{◌≡◌, IsTrue};
ghost use Rattle.sm_num.specs.Range.{fits_form};
ghost use Rattle.sm_omega.specs.Solving.{at, has, bounds_below};

use sm_num::LinForm;

// The coefficient of a variable, 0 where the form doesn't have it.
pub(crate) fn coefficient(f: &LinForm, t: u64) -> i128
    ensures value { result ≡ at t f.now }
    ensures range { IsTrue (fits_form result) }
{
    let parts = f.parts();
    for part in parts {
        if part.0 > t {
            return 0;
        }
        if part.0 == t {
            return part.1;
        }
    }
    0
}

// Whether a form has a variable.
pub(crate) fn has(f: &LinForm, t: u64) -> bool
    ensures { result ≡ has t f.now }
{
    coefficient(f, t) != 0
}

// Whether a form bounds a variable from below.
pub(crate) fn is_lower(f: &LinForm, t: u64) -> bool
    ensures { result ≡ bounds_below t f.now }
{
    coefficient(f, t) < 0
}
