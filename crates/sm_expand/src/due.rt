// Obligations.
ghost use Rattle.std.specs.Prelude.{◌≡◌, ◌++◌, List, IfOk, OnOk};
ghost use Rattle.sm_syntax.specs.text.Sorts.{Sorts};
ghost use Rattle.sm_term.specs.Terms.{Tree};
ghost use Rattle.sm_plan.specs.ReadyStates.{AreFormsReady};
ghost use Rattle.sm_plan.specs.Views.{forms_in};
ghost use Rattle.sm_expand.specs.Views.{dues_in, AreDuesReady};
ghost use Rattle.sm_expand.specs.Walks.{asked};

use sm_plan::Formulas;
use sm_term::copy_formula;
use std::alloc::{AllocError, Global};

/// The goals of a node, in order, over the facts that they share. `last` says that they are goals
/// of the final target.
#[derive(Drop)]
pub struct Due {
    pub node: u64,
    pub facts: Formulas,
    pub targets: Formulas,
    pub last: bool,
}

/// What a plan asks, in the order of its nodes.
#[derive(Drop)]
pub struct Obligations {
    pub list: Vec<Due>,
}

// Puts formulas behind others.
pub(crate) fn add_forms(
    alloc: Global,
    path: &mut Formulas,
    forms: &Formulas,
) -> Result<(), AllocError>
    ensures added { (sorts : Sorts) (trees : List Tree) →
        OnOk result (forms_in sorts trees path.new.list.items
        ≡ forms_in sorts trees path.old.list.items ++ forms_in sorts trees forms.now.list.items) }
    ensures ready { (sorts : Sorts) (trees : List Tree) →
        AreFormsReady sorts trees path.old.list.items →
        AreFormsReady sorts trees forms.now.list.items →
        OnOk result (AreFormsReady sorts trees path.new.list.items) }
{
    for f in &forms.list {
        path.list.push(copy_formula(alloc, f)?)?;
    }
    Ok(())
}

// A copy of formulas.
fn copy_forms(alloc: Global, forms: &Formulas) -> Result<Formulas, AllocError>
    ensures copied { (sorts : Sorts) (trees : List Tree) → IfOk result (λ fs.
        forms_in sorts trees fs.list.items ≡ forms_in sorts trees forms.now.list.items) }
    ensures ready { (sorts : Sorts) (trees : List Tree) →
        AreFormsReady sorts trees forms.now.list.items →
        IfOk result (λ fs. AreFormsReady sorts trees fs.list.items) }
{
    let mut copy = Formulas {
        list: Vec::new(alloc),
    };
    add_forms(alloc, &mut copy, forms)?;
    Ok(copy)
}

// Puts what a node asks behind what was asked, where it has goals.
pub(crate) fn put_due(
    alloc: Global,
    dues: &mut Vec<Due>,
    node: u64,
    facts: &Formulas,
    goals: Formulas,
    last: bool,
) -> Result<(), AllocError>
    ensures put { (sorts : Sorts) (trees : List Tree) →
        let fs = forms_in sorts trees facts.now.list.items in
        let gs = forms_in sorts trees goals.list.items in
        OnOk result (dues_in sorts trees dues.new.items
        ≡ dues_in sorts trees dues.old.items ++ asked node fs last gs) }
    ensures ready { (sorts : Sorts) (trees : List Tree) →
        AreFormsReady sorts trees facts.now.list.items →
        AreFormsReady sorts trees goals.list.items →
        AreDuesReady sorts trees dues.old.items →
        OnOk result (AreDuesReady sorts trees dues.new.items) }
{
    if goals.list.is_empty() {
        return Ok(());
    }
    let shared = copy_forms(alloc, facts)?;
    dues.push(Due {
        node,
        facts: shared,
        targets: goals,
        last,
    })?;
    Ok(())
}
