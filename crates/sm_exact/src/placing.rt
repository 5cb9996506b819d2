// Forms over the places of their atoms.
ghost use Rattle.std.specs.Prelude.{◌≡◌, true, false, pos, [], ◌∷◌, ◌++◌, List, IsTrue, IfOk, nat_eq, IfSome, IfNone, OnOk};
ghost use Rattle.sm_num.specs.Range.{fits_form};
ghost use Rattle.sm_num.specs.declared.kind.Kind.TheVariants.{Eq};
ghost use Rattle.sm_num.specs.Combining.{combined, Fits};
ghost use Rattle.sm_theory.specs.declared.fact.Fact.{Fact};
ghost use Rattle.sm_theory.specs.LinearTerms.{atom_form, constant_form};
ghost use Rattle.sm_exact.specs.Placing.{IsAt, HasNoPlace, HavePlaces, IsPlacedIf, ArePlacedForms, SomeLacksPlace, FactLacksPlace};

use sm_num::{Kind, LinForm, combine};
use sm_numbering::Numbering;
use sm_theory::{Branch, Fact};
use std::alloc::{AllocError, Global};

// The linear facts of a branch in order, over the places of their atoms; none where one has none.
pub(crate) fn placed_forms(
    alloc: Global,
    terms: &Numbering<u64>,
    branch: &Branch,
) -> Result<Option<Vec<LinForm>>, AllocError>
    requires { HavePlaces terms.now }
    ensures some { IfOk result (λ o.
        IfSome o (λ forms. ArePlacedForms terms.now branch.now.list.items forms.items)) }
    ensures none { IfOk result (λ o.
        IfNone o (SomeLacksPlace terms.now branch.now.list.items)) }
{
    let mut forms = Vec::new(alloc);
    for fact in &branch.list {
        if !place_fact(alloc, terms, &mut forms, fact)? {
            return Ok(None);
        }
    }
    Ok(Some(forms))
}

// Puts a linear fact behind forms, over the places of its atoms, if these have places.
fn place_fact(
    alloc: Global,
    terms: &Numbering<u64>,
    forms: &mut Vec<LinForm>,
    fact: &Fact,
) -> Result<bool, AllocError>
    requires { HavePlaces terms.now }
    ensures placed { IfOk result (λ b. b ≡ true → (facts : List Fact) →
        ArePlacedForms terms.now facts forms.old.items →
        ArePlacedForms terms.now (facts ++ fact.now ∷ []) forms.new.items) }
    ensures lacks { IfOk result (λ b. b ≡ false → FactLacksPlace terms.now fact.now) }
{
    match fact {
        Fact::Form(_) => Ok(true),
        Fact::Lin(f) => match placed(alloc, terms, f)? {
            Some(h) => {
                forms.push(h)?;
                Ok(true)
            }
            None => Ok(false),
        },
    }
}

// A form over the places of its atoms, none where one has none.
fn placed(alloc: Global, terms: &Numbering<u64>, f: &LinForm) -> Result<Option<LinForm>, AllocError>
    requires { HavePlaces terms.now }
    ensures { IfOk result (IsPlacedIf terms.now f.now) }
{
    let parts = f.parts();
    let mut sum = number(alloc, &0)?;
    let mut left = parts.len();
    while left > 0 {
        left -= 1;
        let Some(place) = place_of(terms, parts[left].0) else {
            return Ok(None);
        };
        sum = add_part(alloc, &sum, place, &parts[left].1)?;
    }
    let form = with_rest(alloc, &sum, f)?;
    let _parts = form.parts().len();
    Ok(Some(form))
}

// The place of a number.
fn place_of(terms: &Numbering<u64>, k: u64) -> Option<u64>
    ensures some { IfSome result (λ i. IsAt terms.now i k) }
    ensures none { IfNone result (HasNoPlace terms.now k) }
{
    let place = terms.find(&k)?;
    Some(place as u64)
}

// A number without parts.
fn number(alloc: Global, c: &i128) -> Result<LinForm, AllocError>
    requires { IsTrue (fits_form c.now) }
    ensures { IfOk result (λ f. f ≡ constant_form c.now) }
{
    match LinForm::number(alloc, *c) {
        Ok(f) => Ok(f),
        Err(_) => Err(AllocError),
    }
}

// A sum with one part more. No other is at its atom, so the sum lies in the range.
fn add_part(alloc: Global, sum: &LinForm, a: u64, c: &i128) -> Result<LinForm, AllocError>
    requires { IsTrue (fits_form c.now) }
    ensures { IfOk result (λ h. combined sum.now (pos 1) (atom_form a) c.now Eq ≡ Fits h) }
{
    match LinForm::single(alloc, a) {
        Ok(f) => match combine(alloc, sum, 1, &f, *c, Kind::Eq) {
            Ok(h) => Ok(h),
            Err(_) => Err(AllocError),
        },
        Err(_) => Err(AllocError),
    }
}

// A sum with the constant and the kind of a form.
fn with_rest(alloc: Global, sum: &LinForm, f: &LinForm) -> Result<LinForm, AllocError>
    ensures { IfOk result (λ h.
        combined sum.now (pos 1) (constant_form f.now.constant) (pos 1) f.now.kind ≡ Fits h) }
{
    let _parts = f.parts().len();
    let rest = number(alloc, &f.constant())?;
    match combine(alloc, sum, 1, &rest, 1, f.kind()) {
        Ok(h) => Ok(h),
        Err(_) => Err(AllocError),
    }
}
