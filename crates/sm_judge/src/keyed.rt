// Facts of a branch that are found by keys.
ghost use Rattle.std.specs.Prelude.{◌≡◌, ◌<◌, ℕ, true, Some, length, get_or, nat_eq, IfOk, OnOk, if◌then◌else◌};
ghost use Rattle.std.specs.HashMap.{get};
ghost use Rattle.std.specs.List.{list_any};
ghost use Rattle.sm_term.specs.Formulas.{numbered};
ghost use Rattle.sm_judge.specs.Keyed.{mixed, key_of, AreKeyed};
ghost use Rattle.sm_list.specs.Parts.{all_numbered};
ghost use Rattle.sm_pairs.specs.SameFormulas.{same_numbered};

use sm_pairs::is_same_formula;
use sm_term::Formula;
use std::alloc::{AllocError, Global};
use std::collections::HashMap;
use std::marker::Model;

// The facts of a branch. Whether a formula is one of them is found by its key, without going over
// them.
#[derive(Drop)]
pub(crate) struct KeyedFacts<'a> {
    list: &'a [Formula],
    // a place of each key
    places: HashMap<u64, u64>,
}

impl<'a> Model for KeyedFacts<'a> {
    ghost use Rattle.std.specs.Prelude.{List, nat_eq};
    ghost use Rattle.std.specs.Coded.{codes};
    ghost use Rattle.std.specs.HashMap.{get};
    ghost use Rattle.sm_term.specs.contracts.formula.Formula as formula;
    ghost use Rattle.sm_term.specs.declared.formula.Formula.{Formula};
    ghost use Rattle.sm_judge.specs.Keyed.{AreKeyed};

    ghost Value = { List Formula };

    ghost coded = { Prim.hlevel (codes, formula.the_row.coded) };

    ghost view = { λ k. k.list.now };

    ghost invariant = { λ k. AreKeyed (get nat_eq k.places) k.list.now };
}

impl<'a> KeyedFacts<'a> {
    // The facts with their keys.
    pub(crate) fn of(alloc: Global, list: &'a [Formula]) -> Result<KeyedFacts<'a>, AllocError>
        ensures { IfOk result (λ k. k ≡ list.now) }
    {
        let places = places_of(alloc, list)?;
        Ok(KeyedFacts { list, places })
    }

    // How many facts there are.
    pub(crate) fn len(&self) -> usize
        ensures { result ≡ length self.now }
    {
        self.list.len()
    }

    // The fact at a place.
    pub(crate) fn at(&self, n: usize) -> &Formula
        requires { n < length self.now }
        ensures { result.now ≡ get_or self.now n result.now }
    {
        let list = self.list;
        &list[n]
    }

    // Whether a formula is one of the facts, by its numbers of terms.
    pub(crate) fn has(&self, f: &Formula) -> bool
        ensures { result ≡ list_any (same_numbered (numbered f.now)) (all_numbered self.now) }
    {
        has_keyed(self.list, &self.places, f)
    }
}

// A place of the key of each fact.
fn places_of(alloc: Global, list: &[Formula]) -> Result<HashMap<u64, u64>, AllocError>
    ensures { IfOk result (λ m. AreKeyed (get nat_eq m) list.now) }
{
    let mut places = HashMap::with_capacity(alloc, list.len())?;
    for n in 0..list.len() {
        note(&mut places, key_of(&list[n]), n as u64)?;
    }
    Ok(places)
}

// Notes the place of a key.
fn note(places: &mut HashMap<u64, u64>, key: u64, place: u64) -> Result<(), AllocError>
    ensures { OnOk result ((k : ℕ) →
        get nat_eq places.new k ≡ (if nat_eq key k then Some place else get nat_eq places.old k)) }
{
    places.insert(key, place)?;
    Ok(())
}

// The key of a formula.
fn key_of(f: &Formula) -> u64
    ensures { result ≡ key_of (numbered f.now) }
{
    match f {
        Formula::Yes => 0,
        Formula::No => 1,
        Formula::Eq(t, u) => mixed(2, t.0, u.0),
        Formula::Ne(t, u) => mixed(3, t.0, u.0),
        Formula::Le(t, u) => mixed(4, t.0, u.0),
        Formula::Lt(t, u) => mixed(5, t.0, u.0),
        Formula::And(p, q) => mixed(6, key_of(p), key_of(q)),
        Formula::Or(p, q) => mixed(7, key_of(p), key_of(q)),
    }
}

// Two numbers and a kind in one.
fn mixed(kind: u64, x: u64, y: u64) -> u64
    ensures { result ≡ mixed kind x y }
{
    let spread = 11_400_714_819_323_198_485;
    let one = kind.wrapping_mul(spread).wrapping_add(x);
    one.wrapping_mul(spread).wrapping_add(y)
}

// Whether a formula is one of the facts. The fact at the place of its key is another one only where
// two formulas have one key.
fn has_keyed(list: &[Formula], places: &HashMap<u64, u64>, f: &Formula) -> bool
    requires { AreKeyed (get nat_eq places.now) list.now }
    ensures { result ≡ list_any (same_numbered (numbered f.now)) (all_numbered list.now) }
{
    match places.get(&key_of(f)) {
        Some(place) => is_at(list, *place, f) || has_formula(list, f),
        None => false,
    }
}

// Whether a formula is the fact at a place.
fn is_at(list: &[Formula], place: u64, f: &Formula) -> bool
    ensures { result ≡ true →
        list_any (same_numbered (numbered f.now)) (all_numbered list.now) ≡ true }
{
    place < list.len() as u64 && is_same_formula(f, &list[place as usize])
}

// Whether a formula is in a list.
fn has_formula(list: &[Formula], f: &Formula) -> bool
    ensures { result ≡ list_any (same_numbered (numbered f.now)) (all_numbered list.now) }
{
    for g in list {
        if is_same_formula(f, g) {
            return true;
        }
    }
    false
}
