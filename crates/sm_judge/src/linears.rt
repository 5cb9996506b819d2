// Linear forms of a branch, from the forms of all terms of its table.
ghost use Rattle.std.specs.Prelude.{◌≡◌, ◌<◌, ℕ, List, [], ◌++◌, length, IfOk, IfErr, OnOk};
ghost use Rattle.sm_num.specs.declared.error.NumError.TheVariants.{Memory};
ghost use Rattle.sm_num.specs.declared.kind.Kind.TheVariants as kind;
ghost use Rattle.sm_num.specs.Combining.{Fits, then_with};
ghost use Rattle.sm_num.specs.Errors.{Explains, Returns};
ghost use Rattle.sm_num.specs.Forms.{Linear};
ghost use Rattle.sm_term.specs.Terms.{Tree};
ghost use Rattle.sm_term.specs.Tables.{trees_in};
ghost use Rattle.sm_term.specs.Formulas.{numbered, IsFormulaWithin};
ghost use Rattle.sm_theory.specs.Arithmetic.{one_more};
ghost use Rattle.sm_judge.specs.AllForms.{AreAllForms};
ghost use Rattle.sm_judge.specs.Making.{difference_at, class_form, comparison_at, some_form, with_form, class_items, fact_items, collected, held, GivesMade, ArePairsWithin};
ghost use Rattle.sm_list.specs.Parts.{all_numbered, AreFormulasWithin};
ghost use Rattle.sm_judge.specs.Forms.{is_zero};

use crate::forms::{Source, SourcedForms};
use sm_fm::Forms;
use sm_num::{Kind, LinForm, NumError, combine};
use sm_term::{Formula, TermId, TermTable};
use sm_theory::next_lin;
use std::alloc::{AllocError, Global};

/// The form of each term of a table. An atom's number is that of its term.
pub fn linear_forms(alloc: Global, table: &TermTable) -> Result<Vec<LinForm>, AllocError>
    ensures { IfOk result (λ fs. AreAllForms (trees_in table.now) fs.items) }
{
    let mut forms = Vec::new(alloc);
    add_linear_forms(alloc, table, &mut forms)?;
    Ok(forms)
}

/// Puts the forms of the terms that have none yet behind those of the first.
pub fn add_linear_forms(
    alloc: Global,
    table: &TermTable,
    forms: &mut Vec<LinForm>,
) -> Result<(), AllocError>
    requires { (first more : List Tree) × (trees_in table.now ≡ first ++ more)
        × AreAllForms first forms.old.items }
    ensures all { OnOk result (AreAllForms (trees_in table.now) forms.new.items) }
    ensures more { OnOk result ((more : List (Linear ℕ)) ×
        (forms.new.items ≡ forms.old.items ++ more)) }
{
    // No term is there twice.
    let count = table.len();
    while (forms.len() as u64) < count {
        let form = next_lin(alloc, table, forms.as_slice())?;
        forms.push(form)?;
    }
    Ok(())
}

// The forms of pairs of equal terms.
pub(crate) fn class_forms(
    alloc: Global,
    forms: &[LinForm],
    pairs: &[(TermId, TermId)],
) -> Result<SourcedForms, NumError>
    requires { ArePairsWithin (length forms.now) pairs.now }
    ensures { GivesMade (collected (class_items forms.now pairs.now) ([], [])) result }
{
    let mut made = SourcedForms {
        forms: Forms {
            list: Vec::new(alloc),
        },
        sources: Vec::new(alloc),
    };
    for pair in pairs {
        let form = class_form(alloc, forms, pair.0, pair.1)?;
        put(&mut made, Source::Class(pair.0, pair.1), form)?;
    }
    Ok(made)
}

// Adds the forms of comparisons.
pub(crate) fn add_fact_forms(
    alloc: Global,
    made: &mut SourcedForms,
    forms: &[LinForm],
    facts: &[Formula],
) -> Result<(), NumError>
    requires { AreFormulasWithin (length forms.now) (all_numbered facts.now) }
    ensures ok { OnOk result
        (collected (fact_items forms.now 0 facts.now) (held made.old) ≡ Fits (held made.new)) }
    ensures err { IfErr result (λ e.
        Explains (collected (fact_items forms.now 0 facts.now) (held made.old)) e) }
{
    for i in 0..facts.len() {
        let form = comparison(alloc, forms, &facts[i])?;
        put(made, Source::Fact(i as u64), form)?;
    }
    Ok(())
}

// Puts a form, if there is one, and its source behind others.
fn put(made: &mut SourcedForms, source: Source, form: Option<LinForm>) -> Result<(), NumError>
    ensures ok { OnOk result (held made.new ≡ with_form (held made.old) source form) }
    ensures err { IfErr result (λ e. e ≡ Memory) }
{
    match form {
        Some(f) => {
            made.forms.list.push(f)?;
            made.sources.push(source)?;
            Ok(())
        }
        None => Ok(()),
    }
}

// That a term is equal to another, where this says anything.
fn class_form(
    alloc: Global,
    forms: &[LinForm],
    t: TermId,
    u: TermId,
) -> Result<Option<LinForm>, NumError>
    requires left { t.0 < length forms.now }
    requires right { u.0 < length forms.now }
    ensures { Returns (class_form forms.now t.0 u.0) result }
{
    let form = difference(alloc, forms, t, u, Kind::Eq)?;
    if is_zero(&form) {
        return Ok(None);
    }
    Ok(Some(form))
}

// Whether a form is 0 whatever its atoms are.
fn is_zero(f: &LinForm) -> bool
    ensures { result ≡ is_zero f.now }
{
    f.parts().is_empty() && f.constant() == 0
}

// A comparison as a form.
fn comparison(alloc: Global, forms: &[LinForm], f: &Formula) -> Result<Option<LinForm>, NumError>
    requires { IsFormulaWithin (length forms.now) (numbered f.now) }
    ensures { Returns (comparison_at forms.now (numbered f.now)) result }
{
    match f {
        Formula::Le(t, u) => at_most(alloc, forms, *t, *u),
        Formula::Lt(t, u) => below(alloc, forms, *t, *u),
        Formula::Yes | Formula::No | Formula::Eq(_, _) | Formula::Ne(_, _) => Ok(None),
        Formula::And(_, _) | Formula::Or(_, _) => Ok(None),
    }
}

// That a number is at most another.
fn at_most(
    alloc: Global,
    forms: &[LinForm],
    t: TermId,
    u: TermId,
) -> Result<Option<LinForm>, NumError>
    requires left { t.0 < length forms.now }
    requires right { u.0 < length forms.now }
    ensures { Returns (then_with (difference_at forms.now kind.Le t.0 u.0) some_form) result }
{
    Ok(Some(difference(alloc, forms, t, u, Kind::Le)?))
}

// That a number is less than another.
fn below(
    alloc: Global,
    forms: &[LinForm],
    t: TermId,
    u: TermId,
) -> Result<Option<LinForm>, NumError>
    requires left { t.0 < length forms.now }
    requires right { u.0 < length forms.now }
    ensures { Returns
        (then_with (then_with (difference_at forms.now kind.Le t.0 u.0) one_more) some_form)
        result }
{
    let form = difference(alloc, forms, t, u, Kind::Le)?;
    Ok(Some(one_more(alloc, &form)?))
}

// The form of a term less another.
fn difference(
    alloc: Global,
    forms: &[LinForm],
    t: TermId,
    u: TermId,
    kind: Kind,
) -> Result<LinForm, NumError>
    requires left { t.0 < length forms.now }
    requires right { u.0 < length forms.now }
    ensures { Returns (difference_at forms.now kind t.0 u.0) result }
{
    combine(
        alloc,
        &forms[t.0 as usize],
        1,
        &forms[u.0 as usize],
        -1,
        kind,
    )
}

// A form and 1 more.
fn one_more(alloc: Global, f: &LinForm) -> Result<LinForm, NumError>
    ensures { Returns (one_more f.now) result }
{
    // Its numbers lie in the range.
    let _count = f.parts().len();
    let one = LinForm::number(alloc, 1)?;
    combine(alloc, f, 1, &one, 1, f.kind())
}
