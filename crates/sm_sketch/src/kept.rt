// The formula that a site keeps under a choice.
ghost use Rattle.std.specs.Prelude.{◌≡◌, ◌++◌, List, IfOk, OnOk, slice_get, option_to_list};
ghost use Rattle.sm_syntax.specs.text.Sorts.{Sorts};
ghost use Rattle.sm_term.specs.Formulas.{numbered, assertion_in};
ghost use Rattle.sm_term.specs.Terms.{Tree};
ghost use Rattle.sm_plan.specs.ReadyStates.{IsFormReady, AreFormsReady};
ghost use Rattle.sm_plan.specs.Views.{forms_in};
ghost use Rattle.sm_sketch.specs.Choices.{conjoined, kept_by};
ghost use Rattle.sm_sketch.specs.ChoiceViews.{choice_in, pointed, picked_forms};

use sm_plan::Formulas;
use sm_term::{Formula, copy_formula};
use std::alloc::{AllocError, Global};

/// A choice of templates: the numbers of those that are chosen, site by site.
#[derive(Drop)]
pub struct TemplateChoice {
    pub sites: Vec<Vec<u64>>,
}

// Puts the template with a number behind others, where it is there.
fn put_template<'t>(
    list: &mut Vec<&'t Formula>,
    templates: &'t [Formula],
    number: u64,
) -> Result<(), AllocError>
    ensures { OnOk result (pointed list.new.items
        ≡ pointed list.old.items ++ option_to_list (slice_get templates.now number)) }
{
    match templates.get(number as usize) {
        Some(template) => {
            list.push(template)?;
            Ok(())
        }
        None => Ok(()),
    }
}

// The templates with these numbers.
fn picked<'t>(
    alloc: Global,
    templates: &'t [Formula],
    numbers: &[u64],
) -> Result<Vec<&'t Formula>, AllocError>
    ensures { IfOk result (λ fs.
        pointed fs.items ≡ picked_forms templates.now numbers.now) }
{
    let mut list = Vec::new(alloc);
    for number in numbers {
        put_template(&mut list, templates, *number)?;
    }
    Ok(list)
}

// The conjunction of formulas, by halves.
#[cycle(conjunction)]
fn conjunction(alloc: Global, fs: &[&Formula]) -> Result<Formula, AllocError>
    ensures made { (sorts : Sorts) (trees : List Tree) → IfOk result (λ f.
        assertion_in sorts trees (numbered f)
        ≡ conjoined (forms_in sorts trees (pointed fs.now))) }
    ensures ready { (sorts : Sorts) (trees : List Tree) →
        AreFormsReady sorts trees (pointed fs.now) → IfOk result (IsFormReady sorts trees) }
{
    match fs.first() {
        None => Ok(Formula::Yes),
        Some(f) => {
            if fs.len() == 1 {
                return copy_formula(alloc, f);
            }
            let (front, back) = fs.split_at(fs.len() / 2);
            let front = boxed_conjunction(alloc, front)?;
            let back = boxed_conjunction(alloc, back)?;
            Ok(Formula::And(front, back))
        }
    }
}

#[cycle(conjunction)]
fn boxed_conjunction(alloc: Global, fs: &[&Formula]) -> Result<Box<Formula>, AllocError>
    ensures made { (sorts : Sorts) (trees : List Tree) → IfOk result (λ f.
        assertion_in sorts trees (numbered f.value)
        ≡ conjoined (forms_in sorts trees (pointed fs.now))) }
    ensures ready { (sorts : Sorts) (trees : List Tree) →
        AreFormsReady sorts trees (pointed fs.now) →
        IfOk result (λ f. IsFormReady sorts trees f.value) }
{
    Ok(Box::new(alloc, conjunction(alloc, fs)?)?)
}

// The formula that the site with a number keeps of its templates.
pub(crate) fn kept_formula(
    alloc: Global,
    choice: &TemplateChoice,
    site: u64,
    templates: &Formulas,
) -> Result<Formula, AllocError>
    ensures made { (sorts : Sorts) (trees : List Tree) → IfOk result (λ f.
        assertion_in sorts trees (numbered f)
        ≡ kept_by (choice_in choice.now) site (forms_in sorts trees templates.now.list.items)) }
    ensures ready { (sorts : Sorts) (trees : List Tree) →
        AreFormsReady sorts trees templates.now.list.items →
        IfOk result (IsFormReady sorts trees) }
{
    match choice.sites.get(site as usize) {
        Some(numbers) => {
            let fs = picked(alloc, templates.list.as_slice(), numbers.as_slice())?;
            conjunction(alloc, fs.as_slice())
        }
        None => Ok(Formula::Yes),
    }
}
