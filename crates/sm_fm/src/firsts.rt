// The places of forms by the atoms with which they begin.
ghost use Rattle.std.specs.Prelude.{◌≡◌, ◌<◌, ◌≤◌, ℕ, [], length, get_or, IfOk, OnOk};
ghost use Rattle.sm_fm.specs.Firsts.{lists_in, put_at, BeginsAt, ListsFirsts};

use sm_num::LinForm;
use std::alloc::{AllocError, Global};

// The places of the forms that begin with each of so many atoms.
pub(crate) fn list_firsts(
    alloc: Global,
    forms: &[LinForm],
    atoms: usize,
) -> Result<Vec<Vec<u64>>, AllocError>
    ensures { IfOk result (λ v. ListsFirsts v.items forms.now atoms) }
{
    let mut firsts = no_places(alloc, atoms)?;
    for place in 0..forms.len() {
        let first = first_atom(&forms[place], atoms as u64);
        put(&mut firsts, first, place as u64)?;
    }
    Ok(firsts)
}

// No places, for each of so many atoms.
fn no_places(alloc: Global, atoms: usize) -> Result<Vec<Vec<u64>>, AllocError>
    ensures { IfOk result (λ v. ListsFirsts v.items [] atoms) }
{
    let mut firsts = Vec::with_capacity(alloc, atoms)?;
    for _atom in 0..atoms {
        firsts.push(Vec::new(alloc))?;
    }
    Ok(firsts)
}

// Puts a place behind those of an atom, where it has a list.
fn put(firsts: &mut Vec<Vec<u64>>, atom: u64, place: u64) -> Result<(), AllocError>
    ensures { OnOk result
        (lists_in firsts.new.items ≡ put_at (lists_in firsts.old.items) atom place) }
{
    if atom < firsts.len() as u64 {
        firsts[atom as usize].push(place)?;
    }
    Ok(())
}

// The atom with which a form begins, where it is below a number, else that number.
pub(crate) fn first_atom(f: &LinForm, end: u64) -> u64
    ensures { BeginsAt end result f.now }
{
    let parts = f.parts();
    if parts.is_empty() {
        return end;
    }
    let first = parts[0].0;
    if first < end { first } else { end }
}

// The least atom between two numbers with which a form begins, else the second.
pub(crate) fn next_atom(firsts: &[Vec<u64>], t: u64, end: u64) -> u64
    requires before { t < end }
    requires within { end ≤ length firsts.now }
    ensures after { t < result }
    ensures up_to { result ≤ end }
    ensures skips { (a : ℕ) → t < a → a < result → get_or (lists_in firsts.now) a [] ≡ [] }
{
    for next in t + 1..end {
        if !firsts[next as usize].is_empty() {
            return next;
        }
    }
    end
}
