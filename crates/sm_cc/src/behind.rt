// What terms behind those of a base are equal to, as far as one look at each tells.
ghost use Rattle.std.specs.Prelude.{◌≡◌, ℕ, ◌+◌, ◌<◌, ℤ, true, IsTrue, Option, List, length, map, IfOk, OnOk};
ghost use Rattle.sm_term.specs.Tables.{trees_in, AreBefore};
ghost use Rattle.sm_term.specs.TableLaws.{AddsTerms};
ghost use Rattle.sm_theory.specs.Standing.{AreLinearForms};
ghost use Rattle.sm_cc.specs.declared.classes.GivenFact.{GivenFact as Fact};
ghost use Rattle.sm_cc.specs.AddedTerms.{AreEqualByLabels, AddsOnly};
ghost use Rattle.sm_cc.specs.Exact.{IsExact};
ghost use Rattle.sm_cc.specs.Firsts.{AreFirsts, met_at, key_told};
ghost use Rattle.sm_cc.specs.BaseClasses.{AreBelow, AreInside, AreKeyed, AreBaseClasses, IsLedBy};
ghost use Rattle.sm_cc.specs.Labelled.{ArePlacesLabelled, AreTermsLabelled};
ghost use Rattle.sm_cc.specs.Labels.{AreTermLabels};
ghost use Rattle.sm_cc.specs.Scanned.{any_two, IsMetFor, IsLabelFor, AreLooked};
ghost use Rattle.sm_pairs.specs.Longer.{IsLonger};
ghost use Rattle.sm_cc.specs.Positions.{place_at};
ghost use Rattle.sm_cc.specs.Regrounding.{over_at};
ghost use Rattle.sm_cc.specs.Views.{ClassesValue, AreOfTwoTerms};

use crate::ground::{BaseClasses, Numbering, are_below};
use crate::growing::copy_roots;
use crate::keys::{Key, Met, argument_key, form_key, label_in};
use crate::log::Equation;
use crate::places::right_sides;
use crate::positions::Positions;
use crate::quiet::are_exact;
use crate::regrounding::first_over;
use crate::row::Row;
use crate::told::labels_of;
use sm_num::LinForm;
use sm_term::{TermId, TermTable, Terms};
use std::alloc::{AllocError, Global};
use std::collections::HashMap;

/// What terms behind those of a base are equal to, as far as one look at each tells.
#[derive(Drop)]
pub struct AddedTerms {
    /// A label for each term of the list, by its place.
    pub labels: Vec<u64>,
    /// Whether the labels tell the classes exactly: no rule brings anything of the new terms.
    pub is_exact: bool,
}

/// Places behind those of a base that were looked at.
#[derive(Drop)]
pub(crate) struct Scanned {
    // for each place the equation of it and its label; the entries say nothing
    pub(crate) roots: Vec<Equation>,
    // the first of these places that have the keys of forms which the base's don't have
    alike: Met,
    // the first of these places that have keys of heads with arguments which the base's lack
    headed: Met,
    // whether each of these places has keys of its own
    pub(crate) are_new: bool,
}

impl BaseClasses {
    /// What terms behind those of the base are equal to, as far as one look at each tells. The
    /// forms are those of all terms of the table, as `next_lin` of `sm_theory` makes them. The
    /// labels are exact also where the terms of these pairs aren't equal.
    pub fn behind(
        &self,
        alloc: Global,
        numbering: &mut Numbering,
        table: &TermTable,
        forms: &[LinForm],
        terms: &Terms,
        apart: &[(TermId, TermId)],
    ) -> Result<AddedTerms, AllocError>
        requires forms { AreLinearForms (trees_in table.now) forms.now }
        requires counted { length forms.now ≡ length (trees_in table.now) }
        requires before { AreBefore (length (trees_in table.now)) terms.now.list.items }
        requires ground { (v : ClassesValue) × AreBaseClasses v self.now numbering.old
            × AddsTerms v.table table.now × IsLonger v.terms terms.now.list.items }
        ensures equal { (v : ClassesValue) → (given : List Fact) →
            AreBaseClasses v self.now numbering.old →
            let w : ClassesValue =
            record { table = table.now; terms = terms.now.list.items; given = given } in
            AreOfTwoTerms w → IsLedBy v w → IfOk result (λ b. AreEqualByLabels w b.labels.items) }
        ensures exact { (v : ClassesValue) → (given : List Fact) →
            AreBaseClasses v self.now numbering.old →
            let w : ClassesValue =
            record { table = table.now; terms = terms.now.list.items; given = given } in
            AreOfTwoTerms w → IsLedBy v w → AddsOnly v.given apart.now given →
            IfOk result (λ b. IsTrue b.is_exact → AreTermLabels w b.labels.items) }
        ensures ground { (v : ClassesValue) → AreBaseClasses v self.now numbering.old →
            AreBaseClasses v self.now numbering.new }
    {
        // A table has no term and no body twice, as its length ensures.
        table.len();
        let more = self.added_rows(alloc, numbering, table, forms, &terms.list)?;
        term_labels(alloc, self, &more.positions, &more.rows, &terms.list, apart)
    }
}

// What rows behind those of a base tell of the terms of a list, with these positions.
fn term_labels(
    alloc: Global,
    ground: &BaseClasses,
    positions: &Positions,
    more: &[Row],
    terms: &[TermId],
    apart: &[(TermId, TermId)],
) -> Result<AddedTerms, AllocError>
    requires exact { IsExact ground.now.closure }
    requires keyed { AreKeyed ground.now }
    requires inside { AreInside ground.now.closure.rows.items }
    ensures { IfOk result (AreTermsLabelled ground.now positions.now more.now terms.now apart.now) }
{
    let pairs = placed_pairs(alloc, positions, apart)?;
    let places = place_labels(alloc, ground, more, &pairs)?;
    let labels = labels_of(alloc, &places.labels, positions, terms)?;
    let is_exact = places.is_exact;
    Ok(AddedTerms { labels, is_exact })
}

// What rows behind those of a base tell of all places.
fn place_labels(
    alloc: Global,
    ground: &BaseClasses,
    more: &[Row],
    apart: &[(u64, u64)],
) -> Result<AddedTerms, AllocError>
    requires exact { IsExact ground.now.closure }
    requires keyed { AreKeyed ground.now }
    requires inside { AreInside ground.now.closure.rows.items }
    ensures { IfOk result (ArePlacesLabelled ground.now more.now apart.now) }
{
    let looked = look(alloc, ground, more)?;
    let labels = right_sides(alloc, &looked.roots)?;
    let is_exact = are_exact(&ground.closure, more, &looked, apart);
    Ok(AddedTerms { labels, is_exact })
}

// Pairs of terms by the places of these.
fn placed_pairs(
    alloc: Global,
    positions: &Positions,
    pairs: &[(TermId, TermId)],
) -> Result<Vec<(u64, u64)>, AllocError>
    ensures { IfOk result (λ v. v.items
        ≡ map (λ p. (place_at positions.now p.0.0, place_at positions.now p.1.0)) pairs.now) }
{
    let mut list = Vec::new(alloc);
    for p in pairs {
        list.push((positions.place(p.0), positions.place(p.1)))?;
    }
    Ok(list)
}

// The first place that has a key, by a map of earlier ones: this one, where there is none or the
// place has no key.
fn meet_over(base: &Met, met: &mut Met, key: Option<Key>, place: u64) -> Result<u64, AllocError>
    ensures firsts { (key_of : ℕ → Option (List (ℕ × ℤ))) → key_of place ≡ key_told key →
        AreFirsts key_of any_two (over_at (met_at base.now) (met_at met.old)) place →
        OnOk result
        (AreFirsts key_of any_two (over_at (met_at base.now) (met_at met.new)) (place + 1)) }
    ensures met { (key_of : ℕ → Option (List (ℕ × ℤ))) → key_of place ≡ key_told key →
        AreFirsts key_of any_two (over_at (met_at base.now) (met_at met.old)) place →
        IfOk result (IsMetFor key_of place) }
{
    match key {
        Some(key) => {
            let first = first_over(base, met, key, place)?;
            Ok(first)
        }
        None => Ok(place),
    }
}

// The label of a place that was met for one of two keys: its own, where neither was met before.
fn label_for(roots: &[Equation], place: u64, i: u64, j: u64) -> u64
    ensures label { IsLabelFor roots.now place i j result }
    ensures own { i ≡ place → j ≡ place → result ≡ place }
{
    if i != place {
        if let Some(label) = label_in(roots, i) {
            return label;
        }
    }
    if j != place {
        if let Some(label) = label_in(roots, j) {
            return label;
        }
    }
    place
}

// Whether places have keys of their own, and one more place is the first with each of its keys and
// names places before it.
fn are_still_new(are_new: bool, place: u64, i: u64, j: u64, arguments: &[u64]) -> bool
    ensures { IsTrue result →
        IsTrue are_new × (i ≡ place) × (j ≡ place) × AreBelow place arguments.now }
{
    are_new && i == place && j == place && are_below(place, arguments)
}

// The places of a base, where none behind them was looked at.
fn not_looked(alloc: Global, ground: &BaseClasses) -> Result<Scanned, AllocError>
    requires exact { IsExact ground.now.closure }
    requires keyed { AreKeyed ground.now }
    requires inside { AreInside ground.now.closure.rows.items }
    ensures looked { (more : List Row) → IfOk result (AreLooked ground.now more) }
    ensures count { IfOk result (λ s.
        length s.roots.items ≡ length ground.now.closure.rows.items) }
{
    let roots = copy_roots(alloc, &ground.closure.roots)?;
    Ok(Scanned {
        roots,
        alike: HashMap::new(alloc),
        headed: HashMap::new(alloc),
        are_new: true,
    })
}

// Looks at one more place.
fn look_at(
    alloc: Global,
    ground: &BaseClasses,
    more: &[Row],
    k: usize,
    s: &mut Scanned,
) -> Result<(), AllocError>
    requires there { k < length more.now }
    requires place { length s.old.roots.items ≡ length ground.now.closure.rows.items + k }
    requires looked { AreLooked ground.now more.now s.old }
    ensures looked { OnOk result (AreLooked ground.now more.now s.new) }
    ensures place { OnOk result
        (length s.new.roots.items ≡ length ground.now.closure.rows.items + k + 1) }
{
    let row = &more[k];
    let place = s.roots.len() as u64;
    let form = form_key(alloc, row)?;
    let alike = meet_over(&ground.alike, &mut s.alike, form, place)?;
    let head = argument_key(alloc, &s.roots, row)?;
    let headed = meet_over(&ground.headed, &mut s.headed, head, place)?;
    let right = label_for(&s.roots, place, headed, alike);
    s.are_new = are_still_new(s.are_new, place, alike, headed, &row.arguments);
    s.roots.push(Equation {
        left: place,
        right,
        entry: 0,
    })?;
    Ok(())
}

// Looks at the places behind those of a base, in order.
fn look(alloc: Global, ground: &BaseClasses, more: &[Row]) -> Result<Scanned, AllocError>
    requires exact { IsExact ground.now.closure }
    requires keyed { AreKeyed ground.now }
    requires inside { AreInside ground.now.closure.rows.items }
    ensures looked { IfOk result (AreLooked ground.now more.now) }
    ensures count { IfOk result (λ s.
        length s.roots.items ≡ length ground.now.closure.rows.items + length more.now) }
{
    let mut s = not_looked(alloc, ground)?;
    for k in 0..more.len() {
        look_at(alloc, ground, more, k, &mut s)?;
    }
    Ok(s)
}
