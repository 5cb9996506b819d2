// States that follow.
ghost use Rattle.std.specs.Prelude.{◌≡◌, List, [], ◌∷◌, ◌++◌, map, IfOk};
ghost use Rattle.sm_syntax.specs.text.Sorts.{Sorts};
ghost use Rattle.sm_term.specs.Assertions.{Assertion};
ghost use Rattle.sm_term.specs.Terms.{Tree};
ghost use Rattle.sm_plan.specs.ReadyStates.{IsStateReady, AreFormsReady, AreSuccessorsReady, IsSuccessorReady, AreStoresReady};
ghost use Rattle.sm_plan.specs.Views.{forms_in, state_in, successor_in};

use crate::opening::{Opened, Successor};
use crate::parts::{one_of, two_of};
use crate::state::{Formulas, SymState};
use sm_syntax::PerCopy;
use sm_term::{Formula, SymStore};
use std::alloc::{AllocError, Global};
use std::rc::Rc;

// No formulas.
pub(crate) fn no_formulas(alloc: Global) -> Formulas
    ensures { result.list.items ≡ [] }
{
    Formulas {
        list: Vec::new(alloc),
    }
}

// One formula.
pub(crate) fn one_formula(alloc: Global, f: Formula) -> Result<Formulas, AllocError>
    ensures { IfOk result (λ fs. fs.list.items ≡ f ∷ []) }
{
    let mut list = Vec::new(alloc);
    list.push(f)?;
    Ok(Formulas { list })
}

// The start values of all names, for each copy.
pub(crate) fn no_stores(alloc: Global) -> PerCopy<SymStore>
    ensures { (sorts : Sorts) (trees : List Tree) → AreStoresReady sorts trees result }
{
    PerCopy {
        base: no_terms(alloc),
        variant_a: no_terms(alloc),
        variant_b: no_terms(alloc),
        candidate: no_terms(alloc),
    }
}

// The start values of all names.
pub(crate) fn no_terms(alloc: Global) -> SymStore
    ensures { result.list.items ≡ [] }
{
    SymStore {
        list: Vec::new(alloc),
    }
}

// A state with facts of its own.
pub(crate) fn successor<'a>(
    alloc: Global,
    state: SymState<'a>,
    more: Formulas,
) -> Result<Successor<'a>, AllocError>
    ensures state { (sorts : Sorts) (trees : List Tree) (facts : List Assertion) →
        IfOk result (λ n. successor_in sorts trees facts n
        ≡ state_in sorts trees (facts ++ forms_in sorts trees more.list.items) state.entry) }
    ensures ready { (sorts : Sorts) (trees : List Tree) →
        IsStateReady sorts trees state.entry →
        AreFormsReady sorts trees more.list.items →
        IfOk result (IsSuccessorReady sorts trees) }
{
    let kept = Rc::new(alloc, no_formulas(alloc))?;
    Ok(Successor { kept, more, state })
}

// What states follow where nothing is asked.
pub(crate) fn followed<'a>(alloc: Global, states: Vec<Successor<'a>>) -> Opened<'a>
    ensures states { result.states.items ≡ states.entry.items }
    ensures goals { result.goals.list.items ≡ [] }
    ensures asking { (sorts : Sorts) (trees : List Tree) →
        AreStoresReady sorts trees result.stores }
{
    Opened {
        goals: no_formulas(alloc),
        stores: no_stores(alloc),
        states,
    }
}

// What one state follows.
pub(crate) fn follows_one<'a>(
    alloc: Global,
    state: SymState<'a>,
    more: Formulas,
) -> Result<Opened<'a>, AllocError>
    ensures states { (sorts : Sorts) (trees : List Tree) (facts : List Assertion) →
        IfOk result (λ o. map (successor_in sorts trees facts) o.states.items
        ≡ state_in sorts trees (facts ++ forms_in sorts trees more.list.items) state.entry ∷ []) }
    ensures ready { (sorts : Sorts) (trees : List Tree) →
        IsStateReady sorts trees state.entry →
        AreFormsReady sorts trees more.list.items →
        IfOk result (λ o. AreSuccessorsReady sorts trees o.states.items) }
    ensures goals { IfOk result (λ o. o.goals.list.items ≡ []) }
    ensures asking { IfOk result (λ o.
        (sorts : Sorts) (trees : List Tree) → AreStoresReady sorts trees o.stores) }
{
    let one = successor(alloc, state, more)?;
    let states = one_of(alloc, one)?;
    Ok(followed(alloc, states))
}

// What two states follow.
pub(crate) fn follows_two<'a>(
    alloc: Global,
    state: SymState<'a>,
    more: Formulas,
    other: SymState<'a>,
    other_more: Formulas,
) -> Result<Opened<'a>, AllocError>
    ensures states { (sorts : Sorts) (trees : List Tree) (facts : List Assertion) →
        let a = forms_in sorts trees more.list.items in
        let b = forms_in sorts trees other_more.list.items in
        let one = state_in sorts trees (facts ++ a) state.entry in
        let two = state_in sorts trees (facts ++ b) other.entry in
        IfOk result (λ o. map (successor_in sorts trees facts) o.states.items ≡ one ∷ two ∷ []) }
    ensures ready { (sorts : Sorts) (trees : List Tree) →
        IsStateReady sorts trees state.entry →
        AreFormsReady sorts trees more.list.items →
        IsStateReady sorts trees other.entry →
        AreFormsReady sorts trees other_more.list.items →
        IfOk result (λ o. AreSuccessorsReady sorts trees o.states.items) }
    ensures goals { IfOk result (λ o. o.goals.list.items ≡ []) }
    ensures asking { IfOk result (λ o.
        (sorts : Sorts) (trees : List Tree) → AreStoresReady sorts trees o.stores) }
{
    let one = successor(alloc, state, more)?;
    let two = successor(alloc, other, other_more)?;
    let states = two_of(alloc, one, two)?;
    Ok(followed(alloc, states))
}
