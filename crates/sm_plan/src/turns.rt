// The turns of the loops of a set of copies, and what comes after them.
ghost use Rattle.std.specs.Prelude.{◌≡◌, ◌==◌, bit_and, List, [], ◌∷◌, ◌++◌, map, if◌then◌else◌, IfOk, OnOk};
ghost use Rattle.std.specs.List.{filter, range_with_len};
ghost use Rattle.sm_syntax.specs.claim.ConflictFree.{Copy};
ghost use Rattle.sm_syntax.specs.text.Sorts.{Sorts, IsWellSorted};
ghost use Rattle.sm_syntax.specs.trees.Copies.{copy_named, of_copy};
ghost use Rattle.sm_term.specs.Assertions.{Assertion};
ghost use Rattle.sm_term.specs.Terms.{Tree};
ghost use Rattle.sm_plan.specs.Copies as sets;
ghost use Rattle.sm_plan.specs.Heads as heads;
ghost use Rattle.sm_plan.specs.LoopHeads.{IsHeadReady};
ghost use Rattle.sm_plan.specs.Masks.{set_of};
ghost use Rattle.sm_plan.specs.ReadyStates.{AreFormsReady, IsSuccessorReady, AreSuccessorsReady};
ghost use Rattle.sm_plan.specs.Statements.{rest_after};
ghost use Rattle.sm_plan.specs.Views.{rest_code, forms_in, stores_in, successor_in};

use crate::copies::copy_stores;
use crate::heads::{bodies, has, turned_guards};
use crate::opening::{Opened, Successor};
use crate::rest::Continuation;
use crate::state::{Formulas, SymState};
use sm_syntax::{CopyName, PerCopy};
use sm_term::{Formula, SymStore};
use std::alloc::{AllocError, Global};
use std::mem::swap;
use std::rc::Rc;

// What the head of loops has: stores with new values, the kept facts, and a guard for each copy of
// the set.
#[derive(Drop)]
pub(crate) struct Head {
    pub stores: PerCopy<SymStore>,
    pub kept: Rc<Formulas>,
    pub guards: PerCopy<Option<Formula>>,
}

// What loops make at a state: the goals before them, their head, and the turns.
#[derive(Drop)]
pub(crate) struct LoopParts<'a> {
    pub goals: Formulas,
    pub head: Head,
    pub turns: Vec<Successor<'a>>,
}

// One turn of the loops of some copies.
fn turn<'a>(
    alloc: Global,
    rests: &PerCopy<Continuation<'a>>,
    head: &Head,
    target: &Rc<Formulas>,
    turning: u8,
) -> Result<Successor<'a>, AllocError>
    ensures made { (sorts : Sorts) (trees : List Tree) (facts : List Assertion) → IfOk result (λ n.
        successor_in sorts trees facts n
        ≡ heads.turn_of (λ c. rest_code (of_copy rests.now c)) facts
        (stores_in trees head.now.stores) (forms_in sorts trees head.now.kept.value.list.items)
        (heads.guard_forms sorts trees head.now.guards)
        (forms_in sorts trees target.now.value.list.items) (set_of turning)) }
    ensures ready { (sorts : Sorts) (trees : List Tree) →
        ((c : Copy) → IsWellSorted sorts (rest_code (of_copy rests.now c))) →
        IsHeadReady sorts trees head.now →
        AreFormsReady sorts trees target.now.value.list.items →
        IfOk result (IsSuccessorReady sorts trees) }
{
    let kept = head.kept.clone()?;
    let target = target.clone()?;
    let more = turned_guards(alloc, &head.guards, turning)?;
    let rests = bodies(alloc, rests, turning)?;
    let stores = copy_stores(alloc, &head.stores)?;
    Ok(Successor {
        kept,
        more,
        state: SymState {
            rests,
            stores,
            target,
            is_final: false,
        },
    })
}

// Puts a turn behind others where its copies are in a set.
fn put_turn<'a>(
    alloc: Global,
    rests: &PerCopy<Continuation<'a>>,
    head: &Head,
    target: &Rc<Formulas>,
    set: u8,
    mask: u8,
    states: &mut Vec<Successor<'a>>,
) -> Result<(), AllocError>
    ensures made { (sorts : Sorts) (trees : List Tree) (facts : List Assertion) → OnOk result (
        map (successor_in sorts trees facts) states.new.items
        ≡ map (successor_in sorts trees facts) states.old.items ++ map (λ m.
        heads.turn_of (λ c. rest_code (of_copy rests.now c)) facts (stores_in trees head.now.stores)
        (forms_in sorts trees head.now.kept.value.list.items)
        (heads.guard_forms sorts trees head.now.guards)
        (forms_in sorts trees target.now.value.list.items) (set_of m))
        (if bit_and mask set == mask then mask ∷ [] else [])) }
    ensures ready { (sorts : Sorts) (trees : List Tree) →
        ((c : Copy) → IsWellSorted sorts (rest_code (of_copy rests.now c))) →
        IsHeadReady sorts trees head.now →
        AreFormsReady sorts trees target.now.value.list.items →
        AreSuccessorsReady sorts trees states.old.items →
        OnOk result (AreSuccessorsReady sorts trees states.new.items) }
{
    if mask & set == mask {
        states.push(turn(alloc, rests, head, target, mask)?)?;
    }
    Ok(())
}

// A turn for each set of copies in a set, by ascending masks.
pub(crate) fn turns<'a>(
    alloc: Global,
    rests: &PerCopy<Continuation<'a>>,
    head: &Head,
    target: &Rc<Formulas>,
    set: u8,
) -> Result<Vec<Successor<'a>>, AllocError>
    ensures made { (sorts : Sorts) (trees : List Tree) (facts : List Assertion) → IfOk result (λ v.
        map (successor_in sorts trees facts) v.items ≡ map (λ m.
        heads.turn_of (λ c. rest_code (of_copy rests.now c)) facts (stores_in trees head.now.stores)
        (forms_in sorts trees head.now.kept.value.list.items)
        (heads.guard_forms sorts trees head.now.guards)
        (forms_in sorts trees target.now.value.list.items) (set_of m))
        (filter (λ m. bit_and m set == m) (range_with_len 1 15))) }
    ensures ready { (sorts : Sorts) (trees : List Tree) →
        ((c : Copy) → IsWellSorted sorts (rest_code (of_copy rests.now c))) →
        IsHeadReady sorts trees head.now →
        AreFormsReady sorts trees target.now.value.list.items →
        IfOk result (λ v. AreSuccessorsReady sorts trees v.items) }
{
    let mut states = Vec::new(alloc);
    for smaller in 0..15u8 {
        put_turn(alloc, rests, head, target, set, smaller + 1, &mut states)?;
    }
    Ok(states)
}

// Leaves what comes after a copy's loop, where the copy is in a set.
fn pass_loop(rest: &mut Continuation<'_>, set: u8, copy: CopyName)
    ensures { let code = rest_code rest.old in rest_code rest.new
        ≡ (if sets.has (set_of set) (copy_named copy) then rest_after 1 code else code) }
{
    if has(set, copy) {
        rest.drop_front(1);
    }
}

// Leaves what comes after the loop of each copy of a set.
fn pass_loops(rests: &mut PerCopy<Continuation<'_>>, set: u8)
    ensures { (c : Copy) → rest_code (of_copy rests.new c)
        ≡ (if sets.has (set_of set) c then rest_after 1 (rest_code (of_copy rests.old c))
        else rest_code (of_copy rests.old c)) }
{
    pass_loop(&mut rests.base, set, CopyName::O);
    pass_loop(&mut rests.variant_a, set, CopyName::A);
    pass_loop(&mut rests.variant_b, set, CopyName::B);
    pass_loop(&mut rests.candidate, set, CopyName::M);
}

// What comes after the loops of a set, and the stores before them.
fn after_loops<'a>(
    alloc: Global,
    mut state: SymState<'a>,
    head: Head,
    set: u8,
) -> Result<(Successor<'a>, PerCopy<SymStore>), AllocError>
    ensures made { (sorts : Sorts) (trees : List Tree) (facts : List Assertion) → IfOk result (λ n.
        successor_in sorts trees facts n.0
        ≡ heads.after_of (λ c. rest_code (of_copy state.entry.rests c)) facts
        (stores_in trees head.stores) (forms_in sorts trees head.kept.value.list.items)
        (heads.guard_forms sorts trees head.guards)
        (forms_in sorts trees state.entry.target.value.list.items) state.entry.is_final
        (set_of set)) }
    ensures ready { (sorts : Sorts) (trees : List Tree) →
        ((c : Copy) → IsWellSorted sorts (rest_code (of_copy state.entry.rests c))) →
        IsHeadReady sorts trees head →
        AreFormsReady sorts trees state.entry.target.value.list.items →
        IfOk result (λ n. IsSuccessorReady sorts trees n.0) }
    ensures stores { IfOk result (λ n. n.1 ≡ state.entry.stores) }
{
    let more = turned_guards(alloc, &head.guards, 0)?;
    pass_loops(&mut state.rests, set);
    let mut stores = head.stores;
    swap(&mut state.stores, &mut stores);
    let after = Successor {
        kept: head.kept,
        more,
        state,
    };
    Ok((after, stores))
}

// What loops open at a state: the goals before them, the turns, and what comes after.
pub(crate) fn looped<'a>(
    alloc: Global,
    state: SymState<'a>,
    made: LoopParts<'a>,
    set: u8,
) -> Result<Opened<'a>, AllocError>
    ensures goals { IfOk result (λ o. o.goals.list.items ≡ made.entry.goals.list.items) }
    ensures stores { IfOk result (λ o. o.stores ≡ state.entry.stores) }
    ensures states { (sorts : Sorts) (trees : List Tree) (facts : List Assertion) →
        let head = made.entry.head in
        let target = forms_in sorts trees state.entry.target.value.list.items in
        IfOk result (λ o. map (successor_in sorts trees facts) o.states.items
        ≡ map (successor_in sorts trees facts) made.entry.turns.items
        ++ heads.after_of (λ c. rest_code (of_copy state.entry.rests c)) facts
        (stores_in trees head.stores) (forms_in sorts trees head.kept.value.list.items)
        (heads.guard_forms sorts trees head.guards) target state.entry.is_final (set_of set) ∷ []) }
    ensures ready { (sorts : Sorts) (trees : List Tree) →
        ((c : Copy) → IsWellSorted sorts (rest_code (of_copy state.entry.rests c))) →
        IsHeadReady sorts trees made.entry.head →
        AreFormsReady sorts trees state.entry.target.value.list.items →
        AreSuccessorsReady sorts trees made.entry.turns.items →
        IfOk result (λ o. AreSuccessorsReady sorts trees o.states.items) }
{
    let LoopParts {
        goals,
        head,
        turns: mut states,
    } = made;
    let (after, stores) = after_loops(alloc, state, head, set)?;
    states.push(after)?;
    Ok(Opened {
        goals,
        stores,
        states,
    })
}
