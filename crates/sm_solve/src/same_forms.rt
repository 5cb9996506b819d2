// Whether the forms of a branch are those that are known.
ghost use Rattle.std.specs.Prelude.{◌≡◌, ◌<◌, true, length, IfOk};
ghost use Rattle.sm_num.specs.Combining.{Fits};
ghost use Rattle.sm_term.specs.Tables.{trees_in, sorts_in};
ghost use Rattle.sm_pairs.specs.Pairs.{Pairs};
ghost use Rattle.sm_judge.specs.AllForms.{AreAllForms};
ghost use Rattle.sm_list.specs.Parts.{all_numbered, AreFormulasWithin};
ghost use Rattle.sm_judge.specs.Labelled.{AreLabels};
ghost use Rattle.sm_judge.specs.Seeing.{seen_in};
ghost use Rattle.sm_judge.specs.Forms.{forms_of};

use sm_judge::{forms_by_labels, forms_of, have_same_parts};
use sm_num::{Kind, LinForm, NumError};
use sm_term::{Formula, TermTable};
use std::alloc::{AllocError, Global};

/// Whether these are the forms of a branch, of which labels tell the classes.
pub(crate) fn are_forms(
    alloc: Global,
    labels: &[u64],
    table: &TermTable,
    forms: &[LinForm],
    facts: &[Formula],
    known: &[LinForm],
) -> Result<bool, AllocError>
    requires counted { length labels.now ≡ length (trees_in table.now) }
    requires forms { AreAllForms (trees_in table.now) forms.now }
    requires facts { AreFormulasWithin (length (trees_in table.now)) (all_numbered facts.now) }
    ensures { let trees = trees_in table.now in
        (equal apart : Pairs) → AreLabels trees equal labels.now →
        let b = seen_in (sorts_in table.now) trees trees facts.now equal apart in
        IfOk result (λ r. r ≡ true → forms_of b ≡ Fits known.now) }
{
    match forms_by_labels(alloc, labels, table, forms, facts) {
        Ok(made) => Ok(are_same(&made.forms.list, known)),
        Err(NumError::Memory) => Err(AllocError),
        Err(NumError::Beyond { .. }) => Ok(false),
    }
}

// Whether forms are the same, one by one.
fn are_same(forms: &[LinForm], others: &[LinForm]) -> bool
    ensures { result ≡ true → forms.now ≡ others.now }
{
    if forms.len() != others.len() {
        return false;
    }
    for i in 0..forms.len() {
        if !is_same(&forms[i], &others[i]) {
            return false;
        }
    }
    true
}

// Whether two forms are the same.
fn is_same(f: &LinForm, g: &LinForm) -> bool
    ensures { result ≡ true → f.now ≡ g.now }
{
    if f.constant() != g.constant() {
        return false;
    }
    if !have_one_kind(f, g) {
        return false;
    }
    have_same_parts(f, g)
}

// Whether two forms have the same kind.
fn have_one_kind(f: &LinForm, g: &LinForm) -> bool
    ensures { result ≡ true → f.now.kind ≡ g.now.kind }
{
    match (f.kind(), g.kind()) {
        (Kind::Eq, Kind::Eq) => true,
        (Kind::Le, Kind::Le) => true,
        (Kind::Eq, Kind::Le) => false,
        (Kind::Le, Kind::Eq) => false,
    }
}
