// The roles that forms play where an atom is taken out.
ghost use Rattle.std.specs.Prelude.{◌≡◌, if◌then◌else◌, Some, None, [], ◌∷◌, ◌++◌, length, IfOk, OnOk};
ghost use Rattle.sm_num.specs.Forms.{coefficient};
ghost use Rattle.sm_num.specs.FormLaws.{same_atom};
ghost use Rattle.sm_fm.specs.Elimination.{is_pivot};
ghost use Rattle.sm_fm.specs.Places.{plays, places_of, pivot_place, AreWithin, place_pairs_with, place_pairs};

use crate::pairs::Pairs;
use sm_num::{Kind, LinForm};
use std::alloc::{AllocError, Global};

// The role that a form plays where an atom is taken out.
#[derive(Clone, Copy)]
pub(crate) enum Role {
    // Its coefficient is below 0.
    Below,
    // Its coefficient is above 0.
    Above,
    // It has the atom and isn't the pivot, which stands at this place.
    Beside(u64),
}

// The pairs of the forms at some places in which an atom cancels.
pub(crate) fn pairs_of(
    alloc: Global,
    forms: &[LinForm],
    places: &[u64],
    t: u64,
) -> Result<Pairs, AllocError>
    requires { AreWithin (length forms.now) places.now }
    ensures { IfOk result (λ ps. ps ≡ place_pairs t forms.now places.now) }
{
    match find_pivot(forms, places, t) {
        Some(pivot) => pairs_with(alloc, forms, places, t, pivot),
        None => pairs_of_signs(alloc, forms, places, t),
    }
}

// The pairs with a pivot.
fn pairs_with(
    alloc: Global,
    forms: &[LinForm],
    places: &[u64],
    t: u64,
    pivot: u64,
) -> Result<Pairs, AllocError>
    requires { AreWithin (length forms.now) places.now }
    ensures { IfOk result (λ ps. ps ≡ place_pairs_with (Some pivot) t forms.now places.now) }
{
    let firsts = select(alloc, forms, places, t, Role::Beside(pivot))?;
    let mut seconds = Vec::new(alloc);
    seconds.push(pivot)?;
    Ok(Pairs::new(firsts, seconds))
}

// The pairs of opposite signs.
fn pairs_of_signs(
    alloc: Global,
    forms: &[LinForm],
    places: &[u64],
    t: u64,
) -> Result<Pairs, AllocError>
    requires { AreWithin (length forms.now) places.now }
    ensures { IfOk result (λ ps. ps ≡ place_pairs_with None t forms.now places.now) }
{
    let firsts = select(alloc, forms, places, t, Role::Below)?;
    let seconds = select(alloc, forms, places, t, Role::Above)?;
    Ok(Pairs::new(firsts, seconds))
}

// The place of the first equation that has an atom.
fn find_pivot(forms: &[LinForm], places: &[u64], t: u64) -> Option<u64>
    requires { AreWithin (length forms.now) places.now }
    ensures { result ≡ pivot_place t forms.now places.now }
{
    for place in places {
        if is_pivot(&forms[*place as usize], *place, t) {
            return Some(*place);
        }
    }
    None
}

// The places at which the forms play a role.
fn select(
    alloc: Global,
    forms: &[LinForm],
    places: &[u64],
    t: u64,
    role: Role,
) -> Result<Vec<u64>, AllocError>
    requires { AreWithin (length forms.now) places.now }
    ensures { IfOk result (λ v. v.items ≡ places_of role t forms.now places.now) }
{
    let mut out = Vec::with_capacity(alloc, places.len())?;
    for place in places {
        let chosen = plays(&forms[*place as usize], *place, t, role);
        put_if(&mut out, *place, chosen)?;
    }
    Ok(out)
}

// Puts a place after others where it is chosen.
fn put_if(out: &mut Vec<u64>, place: u64, chosen: bool) -> Result<(), AllocError>
    ensures { OnOk result
        (out.new.items ≡ out.old.items ++ (if chosen then place ∷ [] else [])) }
{
    if chosen {
        out.push(place)?;
    }
    Ok(())
}

// Whether a form is an equation that has an atom.
fn is_pivot(f: &LinForm, place: u64, t: u64) -> bool
    ensures { result ≡ is_pivot t (record { place = place; form = f.now }) }
{
    f.kind() == Kind::Eq && coefficient(f, t) != 0
}

// Whether a form plays a role.
fn plays(f: &LinForm, place: u64, t: u64, role: Role) -> bool
    ensures { result ≡ plays role t (record { place = place; form = f.now }) }
{
    let c = coefficient(f, t);
    match role {
        Role::Below => c < 0,
        Role::Above => c > 0,
        Role::Beside(pivot) => c != 0 && place != pivot,
    }
}

// The coefficient of an atom, 0 where the form doesn't have it.
fn coefficient(f: &LinForm, t: u64) -> i128
    ensures { result ≡ coefficient same_atom t f.now.parts }
{
    let parts = f.parts();
    for part in parts {
        if part.0 > t {
            return 0;
        }
        if part.0 == t {
            return part.1;
        }
    }
    0
}
