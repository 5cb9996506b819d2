// The sites of sketches.
ghost use Rattle.std.specs.Prelude.{◌≡◌, ◌++◌, List, map, IfOk, OnOk};
ghost use Rattle.sm_syntax.specs.text.Sorts.{Sorts};
ghost use Rattle.sm_term.specs.Terms.{Tree};
ghost use Rattle.sm_plan.specs.Views.{forms_in};
ghost use Rattle.sm_sketch.specs.Sketches.{sites_of};
ghost use Rattle.sm_sketch.specs.SketchSites.{forms_of, forms_of_all, shared_forms, AreListsReady};
ghost use Rattle.sm_sketch.specs.SketchViews.{numbered_sketch, numbered_sketches, sketch_in, IsSketchReady};

use crate::sketch::{Sketch, SketchEnd, Sketches};
use sm_plan::Formulas;
use std::alloc::{AllocError, Global};
use std::rc::Rc;

/// The templates of each site of a sketch, in preorder.
pub fn sites(alloc: Global, sketch: &Sketch) -> Result<Vec<Rc<Formulas>>, AllocError>
    ensures listed { (sorts : Sorts) (trees : List Tree) → IfOk result (λ l.
        map (λ fs. forms_in sorts trees fs.value.list.items) l.items
        ≡ sites_of (sketch_in sorts trees sketch.now)) }
    ensures ready { (sorts : Sorts) (trees : List Tree) → IsSketchReady sorts trees sketch.now →
        IfOk result (λ l. AreListsReady sorts trees (shared_forms l.items)) }
{
    let mut list = Vec::new(alloc);
    put_sites(&mut list, sketch)?;
    Ok(list)
}

// Puts the templates of each site of a sketch behind others.
#[cycle(put_sites)]
fn put_sites(list: &mut Vec<Rc<Formulas>>, sketch: &Sketch) -> Result<(), AllocError>
    ensures { OnOk result (shared_forms list.new.items
        ≡ shared_forms list.old.items ++ forms_of (numbered_sketch sketch.now)) }
{
    match &sketch.last {
        SketchEnd::Fork { one, other, .. } => {
            put_sites(list, one)?;
            put_sites(list, other)
        }
        SketchEnd::Loop {
            templates,
            turns,
            after,
            ..
        } => {
            list.push(templates.clone()?)?;
            put_all(list, turns)?;
            put_sites(list, after)
        }
        SketchEnd::Block {
            templates,
            inner,
            after,
            ..
        } => {
            list.push(templates.clone()?)?;
            put_sites(list, inner)?;
            put_sites(list, after)
        }
        SketchEnd::End => Ok(()),
    }
}

// Puts the templates of each site of sketches behind others.
#[cycle(put_sites)]
fn put_all(list: &mut Vec<Rc<Formulas>>, sketches: &Sketches) -> Result<(), AllocError>
    ensures { OnOk result (shared_forms list.new.items
        ≡ shared_forms list.old.items ++ forms_of_all (numbered_sketches sketches.now)) }
{
    for sketch in &sketches.list {
        put_sites(list, sketch)?;
    }
    Ok(())
}
