// Formulas that are the same.
ghost use Rattle.std.specs.Prelude.{◌≡◌, true};
ghost use Rattle.sm_term.specs.Formulas.{numbered};
ghost use Rattle.sm_pairs.specs.SameFormulas.{same_numbered};

use sm_term::Formula;

/// Whether two formulas are the same, by their numbers of terms.
pub fn is_same_formula(f: &Formula, g: &Formula) -> bool
    ensures same { result ≡ same_numbered (numbered f.now) (numbered g.now) }
    ensures equal { result ≡ true → numbered f.now ≡ numbered g.now }
{
    match (f, g) {
        (Formula::Yes, Formula::Yes) => true,
        (Formula::No, Formula::No) => true,
        (Formula::Eq(t, u), Formula::Eq(v, w)) => t.0 == v.0 && u.0 == w.0,
        (Formula::Ne(t, u), Formula::Ne(v, w)) => t.0 == v.0 && u.0 == w.0,
        (Formula::Le(t, u), Formula::Le(v, w)) => t.0 == v.0 && u.0 == w.0,
        (Formula::Lt(t, u), Formula::Lt(v, w)) => t.0 == v.0 && u.0 == w.0,
        (Formula::And(p, q), Formula::And(r, s)) => is_same_formula(p, r) && is_same_formula(q, s),
        (Formula::Or(p, q), Formula::Or(r, s)) => is_same_formula(p, r) && is_same_formula(q, s),
        _ => false,
    }
}
