// The sites of a sketch: who asks what its nodes ask, and the choice of all templates.
ghost use Rattle.std.specs.Prelude.{◌≡◌, ◌++◌, ◌∷◌, [], None, List, length, map, IfOk, OnOk};
ghost use Rattle.std.specs.List.{range_with_len};
ghost use Rattle.sm_syntax.specs.text.Sorts.{Sorts};
ghost use Rattle.sm_term.specs.Terms.{Tree};
ghost use Rattle.sm_sketch.specs.Choices.{all_chosen};
ghost use Rattle.sm_sketch.specs.ChoiceViews.{choice_in};
ghost use Rattle.sm_sketch.specs.NumberedSketches.{sketch_over};
ghost use Rattle.sm_sketch.specs.Sketches as plain;
ghost use Rattle.sm_sketch.specs.SketchViews.{sketch_in, numbered_end, numbered_sketches};
ghost use Rattle.sm_houdini.specs.Marks.{rows};
ghost use Rattle.sm_houdini.specs.Owners as nodes;
ghost use Rattle.sm_houdini.specs.SitesBelow.{targets, Puts, PutsAll};

use sm_expand::Simples;
use sm_plan::Formulas;
use sm_sketch::{Sketch, SketchEnd, Sketches, TemplateChoice, all_numbers};
use std::alloc::{AllocError, Global};

/// The owners of nodes so far, and all templates of the sites so far.
#[derive(Drop)]
pub(crate) struct Sites {
    pub(crate) owners: Vec<Option<u64>>,
    pub(crate) full: TemplateChoice,
}

// Puts a site with all its templates behind others, and gives its number.
fn add_site(
    alloc: Global,
    choice: &mut TemplateChoice,
    templates: &Formulas,
) -> Result<u64, AllocError>
    ensures site { IfOk result (λ s. s ≡ length choice.old.sites.items) }
    ensures choice { OnOk result (rows choice.new.sites.items
        ≡ rows choice.old.sites.items ++ range_with_len 0 (length templates.now.list.items) ∷ []) }
{
    let site = choice.sites.len() as u64;
    choice.sites.push(all_numbers(alloc, templates)?)?;
    Ok(site)
}

// Nodes that ask what their sketch asks.
fn add_straight(
    owners: &mut Vec<Option<u64>>,
    straight: &Simples,
    target: Option<u64>,
) -> Result<(), AllocError>
    ensures { OnOk result (owners.new.items
        ≡ owners.old.items ++ targets target straight.now.list.items) }
{
    for _node in &straight.list {
        owners.push(target)?;
    }
    Ok(())
}

// The nodes and sites of a sketch whose last nodes ask a target.
#[cycle(sites)]
fn add_sketch(
    alloc: Global,
    sites: &mut Sites,
    sketch: &Sketch,
    target: Option<u64>,
) -> Result<(), AllocError>
    ensures { (sorts : Sorts) (trees : List Tree) → OnOk result (
        Puts sites.old sites.new target (sketch_in sorts trees sketch.now)) }
{
    add_straight(&mut sites.owners, &sketch.straight, target)?;
    add_end(alloc, sites, &sketch.last, target)
}

// Adds the sites of an end.
#[cycle(sites)]
fn add_end(
    alloc: Global,
    sites: &mut Sites,
    last: &SketchEnd,
    target: Option<u64>,
) -> Result<(), AllocError>
    ensures { (sorts : Sorts) (trees : List Tree) → OnOk result (
        Puts sites.old sites.new target (sketch_over sorts trees (numbered_end last.now))) }
{
    match last {
        SketchEnd::Fork { one, other, .. } => {
            sites.owners.push(target)?;
            add_sketch(alloc, sites, one, target)?;
            add_sketch(alloc, sites, other, target)
        }
        SketchEnd::Loop {
            templates,
            turns,
            after,
            ..
        } => {
            let site = add_site(alloc, &mut sites.full, templates)?;
            sites.owners.push(Some(site))?;
            add_all(alloc, sites, turns, Some(site))?;
            add_sketch(alloc, sites, after, target)
        }
        SketchEnd::Block {
            templates,
            inner,
            after,
            ..
        } => {
            let site = add_site(alloc, &mut sites.full, templates)?;
            sites.owners.push(target)?;
            add_sketch(alloc, sites, inner, Some(site))?;
            add_sketch(alloc, sites, after, target)
        }
        SketchEnd::End => {
            sites.owners.push(target)?;
            Ok(())
        }
    }
}

// Adds the sites of sketches, one after the other.
#[cycle(sites)]
fn add_all(
    alloc: Global,
    sites: &mut Sites,
    sketches: &Sketches,
    target: Option<u64>,
) -> Result<(), AllocError>
    ensures { (sorts : Sorts) (trees : List Tree) → OnOk result (PutsAll sites.old sites.new target
        (map (sketch_over sorts trees) (numbered_sketches sketches.now))) }
{
    for sketch in &sketches.list {
        add_sketch(alloc, sites, sketch, target)?;
    }
    Ok(())
}

/// The owners of the nodes of a sketch, none where the final target is asked, and the choice of all
/// templates.
pub(crate) fn sites_of(alloc: Global, sketch: &Sketch) -> Result<Sites, AllocError>
    ensures owners { (sorts : Sorts) (trees : List Tree) → IfOk result (λ r.
        r.owners.items ≡ nodes.owners None 0 (sketch_in sorts trees sketch.now)) }
    ensures full { (sorts : Sorts) (trees : List Tree) → IfOk result (λ r.
        choice_in r.full ≡ all_chosen (plain.sites_of (sketch_in sorts trees sketch.now))) }
{
    let owners = Vec::new(alloc);
    let chosen = Vec::new(alloc);
    let mut sites = Sites {
        owners,
        full: TemplateChoice { sites: chosen },
    };
    add_sketch(alloc, &mut sites, sketch, None)?;
    Ok(sites)
}
