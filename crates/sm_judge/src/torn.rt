// Numbers of one class whose linear forms differ in the constant alone. Each number is compared
// with those before it in its class alone, to which a chain of places leads.
ghost use Rattle.std.specs.Prelude.{◌≡◌, ◌↔◌, ◌<◌, ℕ, List, true, ◌&&◌, not, length, IfOk};
ghost use Rattle.std.specs.Ordering.{int_eq};
ghost use Rattle.sm_num.specs.Forms.{Linear};
ghost use Rattle.sm_term.specs.Terms.{Tree};
ghost use Rattle.sm_term.specs.Tables.{trees_in, sorts_in, tree_at};
ghost use Rattle.sm_theory.specs.Arithmetic.{same_parts, is_numeric};
ghost use Rattle.sm_theory.specs.LinearTerms.{linear_of};
ghost use Rattle.sm_theory.specs.Standing.{IsKeptFor};
ghost use Rattle.sm_pairs.specs.Pairs.{Pairs};
ghost use Rattle.sm_judge.specs.AllForms.{AreAllForms};
ghost use Rattle.sm_judge.specs.Labelled.{TellClasses};
ghost use Rattle.sm_judge.specs.Torn.{differ, AreLinked, GoBack, IsPartnerIf, IsTornIf};

use crate::holding::is_numeric;
use sm_num::LinForm;
use sm_term::{TermId, TermTable};
use std::alloc::{AllocError, Global};
use std::collections::HashMap;

/// Two terms of a table, equal numbers whose linear forms differ in the constant alone, by the
/// forms of all terms and the labels of their classes.
pub(crate) fn torn_terms(
    alloc: Global,
    labels: &[u64],
    table: &TermTable,
    forms: &[LinForm],
) -> Result<Option<(TermId, TermId)>, AllocError>
    requires count { length labels.now ≡ length (trees_in table.now) }
    requires forms { AreAllForms (trees_in table.now) forms.now }
    ensures { let trees = trees_in table.now in
        (equal : Pairs) → TellClasses trees equal labels.now →
        IfOk result (IsTornIf (sorts_in table.now) trees equal) }
{
    let before = places_before(alloc, labels)?;
    for n in 0..table.len() {
        if let Some(u) = partner_of(table, forms, &before, TermId(n)) {
            return Ok(Some((TermId(n), u)));
        }
    }
    Ok(None)
}

// For each place the last one before it that has the same label, where there is one.
fn places_before(alloc: Global, labels: &[u64]) -> Result<Vec<Option<u64>>, AllocError>
    ensures count { IfOk result (λ ps. length ps.items ≡ length labels.now) }
    ensures linked { IfOk result (λ ps. AreLinked labels.now ps.items) }
{
    let mut latest = HashMap::new(alloc);
    let mut before = Vec::new(alloc);
    for n in 0..labels.len() {
        let last = latest.insert(labels[n], n as u64)?;
        before.push(last)?;
    }
    Ok(before)
}

// A term before this one in its class, where both are numbers whose forms differ in the constant
// alone.
fn partner_of(
    table: &TermTable,
    forms: &[LinForm],
    before: &[Option<u64>],
    t: TermId,
) -> Option<TermId>
    requires forms { AreAllForms (trees_in table.now) forms.now }
    requires count { length before.now ≡ length (trees_in table.now) }
    requires back { GoBack before.now }
    requires within { t.0 < length (trees_in table.now) }
    ensures { (labels : List ℕ) → length labels ≡ length before.now → AreLinked labels before.now →
        IsPartnerIf (sorts_in table.now) (trees_in table.now) labels t.0 result }
{
    if !is_numeric(table, t) {
        return None;
    }
    partner(table, forms, before, t, &forms[t.0 as usize])
}

// The partner of a number with this form.
fn partner(
    table: &TermTable,
    forms: &[LinForm],
    before: &[Option<u64>],
    t: TermId,
    f: &LinForm,
) -> Option<TermId>
    requires forms { AreAllForms (trees_in table.now) forms.now }
    requires count { length before.now ≡ length (trees_in table.now) }
    requires back { GoBack before.now }
    requires within { t.0 < length (trees_in table.now) }
    requires number { is_numeric (sorts_in table.now) (tree_at (trees_in table.now) t.0) ≡ true }
    requires form { let trees = trees_in table.now in
        IsKeptFor trees f.now (linear_of (tree_at trees t.0)) }
    ensures { (labels : List ℕ) → length labels ≡ length before.now → AreLinked labels before.now →
        IsPartnerIf (sorts_in table.now) (trees_in table.now) labels t.0 result }
{
    let mut next = before[t.0 as usize];
    while let Some(m) = next {
        if is_partner(table, forms, t, f, TermId(m)) {
            return Some(TermId(m));
        }
        next = before[m as usize];
    }
    None
}

// Whether a term is such a number. Its sort is looked at last: mostly the forms don't differ so.
fn is_partner(table: &TermTable, forms: &[LinForm], t: TermId, f: &LinForm, u: TermId) -> bool
    requires forms { AreAllForms (trees_in table.now) forms.now }
    requires right { u.0 < length (trees_in table.now) }
    requires number { is_numeric (sorts_in table.now) (tree_at (trees_in table.now) t.0) ≡ true }
    requires form { let trees = trees_in table.now in
        IsKeptFor trees f.now (linear_of (tree_at trees t.0)) }
    ensures { let trees = trees_in table.now in
        result ≡ differ (sorts_in table.now) (tree_at trees t.0) (tree_at trees u.0) }
{
    do_differ(f, &forms[u.0 as usize]) && is_numeric(table, u)
}

// Whether two forms differ in the constant alone. The constants are looked at first: mostly they
// don't differ.
fn do_differ(f: &LinForm, g: &LinForm) -> bool
    ensures { (trees : List Tree) (h i : Linear Tree) →
        IsKeptFor trees f.now h → IsKeptFor trees g.now i →
        result ≡ (same_parts h i && not (int_eq h.constant i.constant)) }
{
    have_other_constants(f, g) && have_same_parts(f, g)
}

// Whether two forms have other constants.
fn have_other_constants(f: &LinForm, g: &LinForm) -> bool
    ensures { result ≡ not (int_eq f.now.constant g.now.constant) }
{
    f.constant() != g.constant()
}

/// Whether two forms have the same parts.
pub fn have_same_parts(f: &LinForm, g: &LinForm) -> bool
    ensures { (result ≡ true) ↔ (f.now.parts ≡ g.now.parts) }
{
    *f.parts() == *g.parts()
}
