// The equation of the modular step.
ghost use Rattle.std.specs.Prelude.{◌≡◌, ◌==◌, ◌++◌, true, negsuc, neg_ℤ, [], if◌then◌else◌, IsTrue, IfOk, Ok};
ghost use Rattle.sm_num.specs.declared.kind.Kind.TheVariants.{Eq};
ghost use Rattle.sm_num.specs.Range.{fits_form};
ghost use Rattle.sm_num.specs.Combining.{with_part};
ghost use Rattle.sm_omega.specs.Equalities.{modular, quotient};
ghost use Rattle.sm_exact.specs.Rows.{AreBelow};

use crate::numbers::divide;
use sm_num::{Kind, LinForm, NumError, combine};
use std::alloc::{AllocError, Global};

// The equation by which s stands for what is left of an equation's other parts, and t.
pub(crate) fn modular(
    alloc: Global,
    t: u64,
    a: &i128,
    s: u64,
    e: &LinForm,
) -> Result<LinForm, AllocError>
    requires divisor { IsTrue (fits_form a.now) }
    requires above { AreBelow s e.now.parts }
    ensures { IfOk result (λ d. d ≡ modular t a.now s e.now) }
{
    let parts = e.parts();
    let mut d = start(alloc, &e.constant(), a)?;
    for part in parts {
        let q = turned(t, a, part);
        d = add_part(alloc, d, part.0, &q)?;
    }
    add_part(alloc, d, s, &1)
}

// The coefficient of the new equation at a part's variable.
fn turned(t: u64, a: &i128, part: &(u64, i128)) -> i128
    requires divisor { IsTrue (fits_form a.now) }
    requires number { IsTrue (fits_form part.now.1) }
    ensures value { result
        ≡ (if part.now.0 == t then negsuc 0 else neg_ℤ (quotient part.now.1 a.now)) }
    ensures range { IsTrue (fits_form result) }
{
    if part.0 == t {
        return -1;
    }
    -divide(&part.1, a)
}

// The equation without parts.
fn start(alloc: Global, c: &i128, a: &i128) -> Result<LinForm, AllocError>
    requires divisor { IsTrue (fits_form a.now) }
    requires number { IsTrue (fits_form c.now) }
    ensures { IfOk result
        (λ d. d ≡ record { parts = []; constant = neg_ℤ (quotient c.now a.now); kind = Eq }) }
{
    let q = -divide(c, a);
    match LinForm::number(alloc, q) {
        Ok(d) => Ok(d),
        Err(_) => Err(AllocError),
    }
}

// The equation with a part behind, where its coefficient isn't 0.
fn add_part(alloc: Global, d: LinForm, u: u64, q: &i128) -> Result<LinForm, AllocError>
    requires equation { d.kind ≡ Eq }
    requires above { AreBelow u d.parts }
    requires range { IsTrue (fits_form q.now) }
    ensures { IfOk result
        (λ f. f ≡ record {
          parts = d.parts ++ with_part u q.now [];
          constant = d.constant;
          kind = Eq;
        }) }
{
    if *q == 0 {
        return Ok(d);
    }
    match LinForm::single(alloc, u) {
        Ok(f) => sum_of(combine(alloc, &d, 1, &f, *q, Kind::Eq)),
        Err(_) => Err(AllocError),
    }
}

// A sum that fits.
fn sum_of(sum: Result<LinForm, NumError>) -> Result<LinForm, AllocError>
    ensures { IfOk result (λ f. sum ≡ Ok f) }
{
    match sum {
        Ok(f) => Ok(f),
        Err(_) => Err(AllocError),
    }
}

// Whether a number is above the variables of a form.
pub(crate) fn is_above(s: u64, e: &LinForm) -> bool
    ensures { result ≡ true → AreBelow s e.now.parts }
{
    let parts = e.parts();
    for part in parts {
        if part.0 >= s {
            return false;
        }
    }
    true
}
