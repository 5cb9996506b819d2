// Whether facts can't hold by labels of terms, of which equal ones stand for equal terms.
ghost use Rattle.std.specs.Prelude.{◌≡◌, ◌↔◌, ℕ, List, true, length, slice_get, Some};
ghost use Rattle.sm_term.specs.Formulas.{numbered, assertion_in, IsFormulaWithin};
ghost use Rattle.sm_term.specs.Tables.{TableValue, trees_in, sorts_in};
ghost use Rattle.sm_cc.specs.AddedTerms.{AreEqualByLabels};
ghost use Rattle.sm_certify.specs.Given.{IsWhole, classes_by, branch_of};
ghost use Rattle.sm_judge.specs.Holding.{is_closed, is_refuted};
ghost use Rattle.sm_list.specs.Parts.{all_numbered, AreFormulasWithin};

use sm_term::{Formula, TermId};

/// Whether a fact can't hold by labels of which equal ones stand for equal terms.
pub fn is_refuted_by(labels: &[u64], facts: &[Formula]) -> bool
    ensures { (table : TableValue) (ids : List TermId) → IsWhole (trees_in table) ids →
        AreFormulasWithin (length (trees_in table)) (all_numbered facts.now) →
        AreEqualByLabels (classes_by table ids facts.now) labels.now →
        result ≡ true → is_closed (branch_of table facts.now) ≡ true }
{
    for i in 0..facts.len() {
        if is_fact_refuted(labels, &facts[i]) {
            return true;
        }
    }
    false
}

// Whether one of the facts of a branch can't hold by them.
fn is_fact_refuted(labels: &[u64], f: &Formula) -> bool
    ensures { (table : TableValue) (ids : List TermId) (facts : List Formula) →
        let trees = trees_in table in
        IsWhole trees ids → IsFormulaWithin (length trees) (numbered f.now) →
        AreEqualByLabels (classes_by table ids facts) labels.now → result ≡ true →
        is_refuted (branch_of table facts) (assertion_in (sorts_in table) trees (numbered f.now))
        ≡ true }
{
    match f {
        Formula::No => true,
        Formula::Ne(t, u) => have_one_label(labels, *t, *u),
        Formula::Yes | Formula::Eq(_, _) | Formula::Le(_, _) | Formula::Lt(_, _) => false,
        Formula::And(_, _) | Formula::Or(_, _) => false,
    }
}

// Whether two terms have labels, which are the same.
fn have_one_label(labels: &[u64], t: TermId, u: TermId) -> bool
    ensures { (result ≡ true) ↔ ((l : ℕ) × (slice_get labels.now t.0 ≡ Some l)
        × (slice_get labels.now u.0 ≡ Some l)) }
{
    match (labels.get(t.0 as usize), labels.get(u.0 as usize)) {
        (Some(l), Some(m)) => *l == *m,
        _ => false,
    }
}
