// Formulas that nodes keep.
ghost use Rattle.std.specs.Prelude.{◌≡◌, ◌+◌, ◌<◌, ◌≤◌, ◌⊎◌, ◌++◌, List, map, max, MatchOption, IfOk, OnOk};
ghost use Rattle.sm_syntax.specs.text.Sorts.{Sorts};
ghost use Rattle.sm_term.specs.Assertions.{conj};
ghost use Rattle.sm_term.specs.Formulas.{numbered, assertion_in};
ghost use Rattle.sm_term.specs.Terms.{Tree};
ghost use Rattle.sm_plan.specs.Kept.{nodes_in, depth_in, parts_in};
ghost use Rattle.sm_plan.specs.Limits as plain;
ghost use Rattle.sm_plan.specs.ReadyStates.{IsFormReady, AreFormsReady};
ghost use Rattle.sm_plan.specs.Views.{forms_in};

use crate::state::Formulas;
use sm_term::{Formula, copy_formula};
use std::alloc::{AllocError, Global};
use std::rc::Rc;

// Whether a formula may be kept.
pub(crate) fn is_kept(keep: &Formula) -> bool
    ensures { (sorts : Sorts) (trees : List Tree) →
        result ≡ plain.is_kept (assertion_in sorts trees (numbered keep.now)) }
{
    nodes_left(keep, 64, 200_000).is_some()
}

// How many of so many nodes are left after those of a formula, None where it has more or is deeper
// than a depth.
#[cycle(count)]
fn nodes_left(f: &Formula, depth: u64, nodes: u64) -> Option<u64>
    ensures { MatchOption result
        ((nodes < nodes_in (numbered f.now)) ⊎ (depth < depth_in (numbered f.now)))
        (λ left. (nodes_in (numbered f.now) + left ≡ nodes) × (depth_in (numbered f.now) ≤ depth)) }
{
    if depth == 0 || nodes == 0 {
        return None;
    }
    match f {
        Formula::And(p, q) => both_left(p, q, depth - 1, nodes - 1),
        Formula::Or(p, q) => both_left(p, q, depth - 1, nodes - 1),
        _ => Some(nodes - 1),
    }
}

// How many nodes are left after two formulas.
#[cycle(count)]
fn both_left(p: &Formula, q: &Formula, depth: u64, nodes: u64) -> Option<u64>
    ensures { let first = numbered p.now in let second = numbered q.now in MatchOption result
        ((nodes < nodes_in first + nodes_in second)
        ⊎ (depth < max (depth_in first) (depth_in second)))
        (λ left. (nodes_in first + nodes_in second + left ≡ nodes)
        × (max (depth_in first) (depth_in second) ≤ depth)) }
{
    let left = nodes_left(p, depth, nodes)?;
    nodes_left(q, depth, left)
}

// The parts of a conjunction, in order.
pub(crate) fn conjuncts(alloc: Global, keep: &Formula) -> Result<Formulas, AllocError>
    ensures made { IfOk result (λ fs. (sorts : Sorts) (trees : List Tree) →
        forms_in sorts trees fs.list.items ≡ conj (assertion_in sorts trees (numbered keep.now))) }
    ensures ready { IfOk result (λ fs. (sorts : Sorts) (trees : List Tree) →
        IsFormReady sorts trees keep.now → AreFormsReady sorts trees fs.list.items) }
{
    let mut list = Vec::new(alloc);
    put_parts(alloc, &mut list, keep)?;
    Ok(Formulas { list })
}

// The parts of a conjunction, in order, for states that share them.
pub(crate) fn shared_parts(alloc: Global, keep: &Formula) -> Result<Rc<Formulas>, AllocError>
    ensures made { IfOk result (λ fs. (sorts : Sorts) (trees : List Tree) →
        forms_in sorts trees fs.value.list.items
        ≡ conj (assertion_in sorts trees (numbered keep.now))) }
    ensures ready { IfOk result (λ fs. (sorts : Sorts) (trees : List Tree) →
        IsFormReady sorts trees keep.now → AreFormsReady sorts trees fs.value.list.items) }
{
    let parts = conjuncts(alloc, keep)?;
    Ok(Rc::new(alloc, parts)?)
}

// Puts the parts of a conjunction behind others.
fn put_parts(alloc: Global, list: &mut Vec<Formula>, f: &Formula) -> Result<(), AllocError>
    ensures { OnOk result
        (map numbered list.new.items ≡ map numbered list.old.items ++ parts_in (numbered f.now)) }
{
    match f {
        Formula::Yes => Ok(()),
        Formula::And(p, q) => {
            put_parts(alloc, list, p)?;
            put_parts(alloc, list, q)
        }
        _ => {
            list.push(copy_formula(alloc, f)?)?;
            Ok(())
        }
    }
}
