// Forms that are put after others.
ghost use Rattle.std.specs.Prelude.{◌≡◌, ℕ, [], ◌∷◌, ◌++◌, length, OnOk, OnErr};
ghost use Rattle.sm_fm.specs.Firsts.{ListsFirsts};
ghost use Rattle.sm_fm.specs.Known.{Learns};

use crate::firsts::first_atom;
use crate::known::{Known, learn};
use sm_num::LinForm;
use std::alloc::AllocError;
use std::collections::HashSet;

// Puts a form after others, lists its place by the atom with which it begins, and knows it; all or
// nothing.
pub(crate) fn enter(
    firsts: &mut Vec<Vec<u64>>,
    forms: &mut Vec<LinForm>,
    known: &mut HashSet<Known>,
    form: LinForm,
    sum: Known,
) -> Result<(), AllocError>
    ensures firsts { (atoms : ℕ) → ListsFirsts firsts.old.items forms.old.items atoms →
        ListsFirsts firsts.new.items forms.new.items atoms }
    ensures forms { OnOk result (forms.new.items ≡ forms.old.items ++ form ∷ []) }
    ensures learns { OnOk result (Learns known.old.keys known.new.keys sum.form) }
    ensures err { OnErr result
        ((forms.new.items ≡ forms.old.items) × (known.new.keys ≡ known.old.keys)) }
{
    let atom = first_atom(&form, firsts.len() as u64);
    if atom < firsts.len() as u64 {
        list_and_store(&mut firsts[atom as usize], forms, known, form, sum)
    } else {
        store(forms, known, form, sum)
    }
}

// Puts a form where it goes, with the list of the atom with which it begins.
fn list_and_store(
    places: &mut Vec<u64>,
    forms: &mut Vec<LinForm>,
    known: &mut HashSet<Known>,
    form: LinForm,
    sum: Known,
) -> Result<(), AllocError>
    ensures places { OnOk result
        (places.new.items ≡ places.old.items ++ length forms.old.items ∷ []) }
    ensures forms { OnOk result (forms.new.items ≡ forms.old.items ++ form ∷ []) }
    ensures learns { OnOk result (Learns known.old.keys known.new.keys sum.form) }
    ensures err { OnErr result ((places.new.items ≡ places.old.items)
        × (forms.new.items ≡ forms.old.items) × (known.new.keys ≡ known.old.keys)) }
{
    let count = places.len();
    places.push(forms.len() as u64)?;
    match store(forms, known, form, sum) {
        Ok(()) => Ok(()),
        Err(e) => {
            places.truncate(count);
            Err(e)
        }
    }
}

// Puts a form after others and knows it; both or neither.
fn store(
    forms: &mut Vec<LinForm>,
    known: &mut HashSet<Known>,
    form: LinForm,
    sum: Known,
) -> Result<(), AllocError>
    ensures forms { OnOk result (forms.new.items ≡ forms.old.items ++ form ∷ []) }
    ensures learns { OnOk result (Learns known.old.keys known.new.keys sum.form) }
    ensures err { OnErr result
        ((forms.new.items ≡ forms.old.items) × (known.new.keys ≡ known.old.keys)) }
{
    let count = forms.len();
    forms.push(form)?;
    match learn(known, sum) {
        Ok(()) => Ok(()),
        Err(e) => {
            forms.truncate(count);
            Err(e)
        }
    }
}
