// The variables of forms.
ghost use Rattle.std.specs.Prelude.{◌≡◌, nat_eq, map, IfOk, OnOk, IfSome};
ghost use Rattle.std.specs.HashMap.{get};
ghost use Rattle.sm_omega.specs.Exact.{above_all, above_parts};
ghost use Rattle.sm_exact.specs.Telling.{with_atom, with_parts, atoms_of};
ghost use Rattle.sm_exact.specs.Valued.{values_in};

use crate::answer::Pairs;
use crate::values::value_at;
use sm_num::LinForm;
use std::alloc::{AllocError, Global};
use std::collections::HashMap;

// A number above those of all variables, if there is one.
pub(crate) fn above_all(forms: &[LinForm]) -> Option<u64>
    ensures { IfSome result (λ n. n ≡ above_all forms.now) }
{
    let mut above = 0;
    let mut i = forms.len();
    while i > 0 {
        i -= 1;
        above = above_parts(forms[i].parts(), above)?;
    }
    Some(above)
}

// A number above those of parts, and not below another.
fn above_parts(parts: &[(u64, i128)], n: u64) -> Option<u64>
    ensures { IfSome result (λ m. m ≡ above_parts parts.now n) }
{
    let mut above = n;
    for part in parts {
        if part.0 >= above {
            above = part.0.checked_add(1)?;
        }
    }
    Some(above)
}

// The variables of forms, by ascending number.
fn atoms_of(alloc: Global, forms: &[LinForm]) -> Result<Vec<u64>, AllocError>
    ensures { IfOk result (λ v. v.items ≡ atoms_of forms.now) }
{
    let mut atoms = Vec::new(alloc);
    for f in forms {
        put_atoms(&mut atoms, f.parts())?;
    }
    Ok(atoms)
}

// Puts the variables of parts among others.
fn put_atoms(atoms: &mut Vec<u64>, parts: &[(u64, i128)]) -> Result<(), AllocError>
    ensures { OnOk result (atoms.new.items ≡ with_parts parts.now atoms.old.items) }
{
    for part in parts {
        put_atom(atoms, part.0)?;
    }
    Ok(())
}

// Puts a variable among others.
fn put_atom(atoms: &mut Vec<u64>, a: u64) -> Result<(), AllocError>
    ensures { OnOk result (atoms.new.items ≡ with_atom a atoms.old.items) }
{
    let mut i = 0;
    while i < atoms.len() && atoms[i] < a {
        i += 1;
    }
    if i < atoms.len() && atoms[i] == a {
        return Ok(());
    }
    atoms.insert(i, a)?;
    Ok(())
}

// The variables of forms with their values.
pub(crate) fn pairs_of(
    alloc: Global,
    forms: &[LinForm],
    values: &HashMap<u64, i128>,
) -> Result<Pairs, AllocError>
    ensures { IfOk result (λ p. p.list.items
        ≡ map (λ a. (a, values_in (get nat_eq values.now) a)) (atoms_of forms.now)) }
{
    let atoms = atoms_of(alloc, forms)?;
    let mut list = Vec::with_capacity(alloc, atoms.len())?;
    for a in &atoms {
        list.push((*a, value_at(values, *a)))?;
    }
    Ok(Pairs { list })
}
