// The plan of a sketch under a choice.
ghost use Rattle.std.specs.Prelude.{◌≡◌, ◌+◌, List, map, length, reverse, IfOk, OnOk};
ghost use Rattle.sm_syntax.specs.text.Sorts.{Sorts};
ghost use Rattle.sm_term.specs.Formulas.{numbered, assertion_in};
ghost use Rattle.sm_term.specs.Terms.{Tree};
ghost use Rattle.sm_plan.specs.ReadyStates.{IsFormReady, AreFormsReady};
ghost use Rattle.sm_plan.specs.Views.{forms_in};
ghost use Rattle.sm_expand.specs.NumberedPlans.{plan_over, IsPlanReady};
ghost use Rattle.sm_expand.specs.Views.{numbered_plan, numbered_last, plan_in};
ghost use Rattle.sm_sketch.specs.Choices.{kept_by};
ghost use Rattle.sm_sketch.specs.ChoiceViews.{choice_in, plans_from, sites_among, AreSomeReady, AreAllReady};
ghost use Rattle.sm_sketch.specs.NumberedSketches.{sketch_over, AreNodesReady};
ghost use Rattle.sm_sketch.specs.Sketches as plain;
ghost use Rattle.sm_sketch.specs.Sketches.{sites_of};
ghost use Rattle.sm_sketch.specs.SketchViews.{numbered_sketch, numbered_end, numbered_sketches, sketch_in, IsSketchReady};

use crate::copying::copied_simples;
use crate::kept::{TemplateChoice, kept_formula};
use crate::sketch::{Sketch, SketchEnd, Sketches};
use sm_expand::{Last, Plan, Plans, Simples};
use sm_plan::Formulas;
use sm_term::Formula;
use std::alloc::{AllocError, Global};

/// The plan of a sketch, where each site keeps what is chosen there of its templates. Sites are
/// numbered in preorder.
pub fn plan_with(
    alloc: Global,
    sketch: &Sketch,
    choice: &TemplateChoice,
) -> Result<Plan, AllocError>
    ensures made { (sorts : Sorts) (trees : List Tree) → IsSketchReady sorts trees sketch.now →
        IfOk result (λ p. plan_in sorts trees p
        ≡ plain.plan_with (kept_by (choice_in choice.now)) 0 (sketch_in sorts trees sketch.now)) }
    ensures ready { (sorts : Sorts) (trees : List Tree) → IsSketchReady sorts trees sketch.now →
        IfOk result (λ p. IsPlanReady sorts trees (numbered_plan p)) }
{
    let mut site = 0;
    planned(alloc, sketch, choice, &mut site)
}

// The plan of a sketch whose sites are numbered from one on, which is moved past them.
#[cycle(planned)]
fn planned(
    alloc: Global,
    sketch: &Sketch,
    choice: &TemplateChoice,
    site: &mut u64,
) -> Result<Plan, AllocError>
    ensures made { (sorts : Sorts) (trees : List Tree) →
        AreNodesReady sorts trees (numbered_sketch sketch.now) → IfOk result (λ p.
        plan_in sorts trees p ≡ plain.plan_with (kept_by (choice_in choice.now)) site.old
        (sketch_in sorts trees sketch.now)) }
    ensures ready { (sorts : Sorts) (trees : List Tree) →
        AreNodesReady sorts trees (numbered_sketch sketch.now) →
        IfOk result (λ p. IsPlanReady sorts trees (numbered_plan p)) }
    ensures site { (sorts : Sorts) (trees : List Tree) → OnOk result (
        site.new ≡ site.old + length (sites_of (sketch_in sorts trees sketch.now))) }
{
    let last = planned_end(alloc, &sketch.last, choice, site)?;
    let straight = turned_round(alloc, &sketch.straight)?;
    Ok(Plan { straight, last })
}

// The plan's end of a sketch's end.
#[cycle(planned)]
fn planned_end(
    alloc: Global,
    last: &SketchEnd,
    choice: &TemplateChoice,
    site: &mut u64,
) -> Result<Last, AllocError>
    ensures made { (sorts : Sorts) (trees : List Tree) →
        AreNodesReady sorts trees (numbered_end last.now) → IfOk result (λ l.
        plan_over sorts trees (numbered_last l)
        ≡ plain.plan_with (kept_by (choice_in choice.now)) site.old
        (sketch_over sorts trees (numbered_end last.now))) }
    ensures ready { (sorts : Sorts) (trees : List Tree) →
        AreNodesReady sorts trees (numbered_end last.now) →
        IfOk result (λ l. IsPlanReady sorts trees (numbered_last l)) }
    ensures site { (sorts : Sorts) (trees : List Tree) → OnOk result (site.new
        ≡ site.old + length (sites_of (sketch_over sorts trees (numbered_end last.now)))) }
{
    match last {
        SketchEnd::Fork { copy, one, other } => {
            let yes = boxed_plan(alloc, one, choice, site)?;
            let no = boxed_plan(alloc, other, choice, site)?;
            Ok(Last::Fork {
                copy: *copy,
                yes,
                no,
            })
        }
        SketchEnd::Loop {
            set,
            templates,
            turns,
            after,
        } => {
            let keep = next_kept(alloc, choice, site, templates)?;
            let turns = planned_all(alloc, turns, choice, site)?;
            let after = boxed_plan(alloc, after, choice, site)?;
            Ok(Last::Loop {
                set: *set,
                keep,
                turns: Plans { list: turns },
                after,
            })
        }
        SketchEnd::Block {
            k0,
            k1,
            k2,
            k3,
            templates,
            inner,
            after,
        } => {
            let keep = next_kept(alloc, choice, site, templates)?;
            let inner = boxed_plan(alloc, inner, choice, site)?;
            let after = boxed_plan(alloc, after, choice, site)?;
            Ok(Last::Block {
                k0: *k0,
                k1: *k1,
                k2: *k2,
                k3: *k3,
                keep,
                inner,
                after,
            })
        }
        SketchEnd::End => Ok(Last::End),
    }
}

#[cycle(planned)]
fn boxed_plan(
    alloc: Global,
    sketch: &Sketch,
    choice: &TemplateChoice,
    site: &mut u64,
) -> Result<Box<Plan>, AllocError>
    ensures made { (sorts : Sorts) (trees : List Tree) →
        AreNodesReady sorts trees (numbered_sketch sketch.now) → IfOk result (λ p.
        plan_in sorts trees p.value ≡ plain.plan_with (kept_by (choice_in choice.now)) site.old
        (sketch_in sorts trees sketch.now)) }
    ensures ready { (sorts : Sorts) (trees : List Tree) →
        AreNodesReady sorts trees (numbered_sketch sketch.now) →
        IfOk result (λ p. IsPlanReady sorts trees (numbered_plan p.value)) }
    ensures site { (sorts : Sorts) (trees : List Tree) → OnOk result (
        site.new ≡ site.old + length (sites_of (sketch_in sorts trees sketch.now))) }
{
    Ok(Box::new(alloc, planned(alloc, sketch, choice, site)?)?)
}

// The plans of sketches, one after the other.
#[cycle(planned)]
fn planned_all(
    alloc: Global,
    sketches: &Sketches,
    choice: &TemplateChoice,
    site: &mut u64,
) -> Result<Vec<Plan>, AllocError>
    ensures made { (sorts : Sorts) (trees : List Tree) →
        AreSomeReady sorts trees (numbered_sketches sketches.now) → IfOk result (λ ps.
        map (plan_in sorts trees) ps.items ≡ plans_from (kept_by (choice_in choice.now)) site.old
        (map (sketch_over sorts trees) (numbered_sketches sketches.now))) }
    ensures ready { (sorts : Sorts) (trees : List Tree) →
        AreSomeReady sorts trees (numbered_sketches sketches.now) →
        IfOk result (λ ps. AreAllReady sorts trees ps.items) }
    ensures site { (sorts : Sorts) (trees : List Tree) → OnOk result (site.new
        ≡ site.old + sites_among (map (sketch_over sorts trees) (numbered_sketches sketches.now))) }
{
    let mut list = Vec::new(alloc);
    for sketch in &sketches.list {
        list.push(planned(alloc, sketch, choice, site)?)?;
    }
    Ok(list)
}

// The formula that the next site keeps.
fn next_kept(
    alloc: Global,
    choice: &TemplateChoice,
    site: &mut u64,
    templates: &Formulas,
) -> Result<Formula, AllocError>
    ensures made { (sorts : Sorts) (trees : List Tree) → IfOk result (λ f.
        assertion_in sorts trees (numbered f) ≡ kept_by (choice_in choice.now) site.old
        (forms_in sorts trees templates.now.list.items)) }
    ensures ready { (sorts : Sorts) (trees : List Tree) →
        AreFormsReady sorts trees templates.now.list.items →
        IfOk result (IsFormReady sorts trees) }
    ensures site { OnOk result (site.new ≡ site.old + 1) }
{
    let keep = kept_formula(alloc, choice, *site, templates)?;
    match site.checked_add(1) {
        Some(next) => {
            *site = next;
            Ok(keep)
        }
        // No memory holds so many sites.
        None => Err(AllocError),
    }
}

// A copy of simple nodes, the last one first.
fn turned_round(alloc: Global, simples: &Simples) -> Result<Simples, AllocError>
    ensures { IfOk result (λ ss. ss.list.items ≡ reverse simples.now.list.items) }
{
    let copies = copied_simples(alloc, simples)?;
    let mut list = copies.list;
    list.reverse();
    Ok(Simples { list })
}
