// Copies of sketches.
ghost use Rattle.std.specs.Prelude.{◌≡◌, List, IfOk};
ghost use Rattle.sm_syntax.specs.text.Sorts.{Sorts};
ghost use Rattle.sm_term.specs.Terms.{Tree};
ghost use Rattle.sm_sketch.specs.SketchViews.{numbered_sketch, numbered_end, numbered_sketches, sketch_in, IsSketchReady};

use crate::sketch::{Sketch, SketchEnd, Sketches};
use sm_expand::{Simple, Simples};
use std::alloc::{AllocError, Global};

/// A copy of a sketch, with its templates.
pub fn copy_sketch(alloc: Global, sketch: &Sketch) -> Result<Sketch, AllocError>
    ensures drawn { (sorts : Sorts) (trees : List Tree) → IfOk result (λ s.
        sketch_in sorts trees s ≡ sketch_in sorts trees sketch.now) }
    ensures ready { (sorts : Sorts) (trees : List Tree) →
        IsSketchReady sorts trees sketch.now → IfOk result (IsSketchReady sorts trees) }
{
    copied(alloc, sketch)
}

// A copy of a sketch, over numbers of terms.
#[cycle(copied)]
fn copied(alloc: Global, sketch: &Sketch) -> Result<Sketch, AllocError>
    ensures numbered { IfOk result (λ s. numbered_sketch s ≡ numbered_sketch sketch.now) }
    ensures nodes { IfOk result (λ s. s.extent.nodes ≡ sketch.now.extent.nodes) }
    ensures branches { IfOk result (λ s. s.extent.branches ≡ sketch.now.extent.branches) }
{
    let straight = copied_simples(alloc, &sketch.straight)?;
    let last = copied_end(alloc, &sketch.last)?;
    Ok(Sketch {
        straight,
        last,
        extent: sketch.extent,
    })
}

// A copy of an end.
#[cycle(copied)]
fn copied_end(alloc: Global, last: &SketchEnd) -> Result<SketchEnd, AllocError>
    ensures { IfOk result (λ e. numbered_end e ≡ numbered_end last.now) }
{
    match last {
        SketchEnd::Fork { copy, one, other } => {
            let one = boxed_copy(alloc, one)?;
            let other = boxed_copy(alloc, other)?;
            Ok(SketchEnd::Fork {
                copy: *copy,
                one,
                other,
            })
        }
        SketchEnd::Loop {
            set,
            templates,
            turns,
            after,
        } => {
            let templates = templates.clone()?;
            let turns = copied_sketches(alloc, turns)?;
            let after = boxed_copy(alloc, after)?;
            Ok(SketchEnd::Loop {
                set: *set,
                templates,
                turns,
                after,
            })
        }
        SketchEnd::Block {
            k0,
            k1,
            k2,
            k3,
            templates,
            inner,
            after,
        } => {
            let templates = templates.clone()?;
            let inner = boxed_copy(alloc, inner)?;
            let after = boxed_copy(alloc, after)?;
            Ok(SketchEnd::Block {
                k0: *k0,
                k1: *k1,
                k2: *k2,
                k3: *k3,
                templates,
                inner,
                after,
            })
        }
        SketchEnd::End => Ok(SketchEnd::End),
    }
}

#[cycle(copied)]
fn boxed_copy(alloc: Global, sketch: &Sketch) -> Result<Box<Sketch>, AllocError>
    ensures { IfOk result (λ s. numbered_sketch s.value ≡ numbered_sketch sketch.now) }
{
    Ok(Box::new(alloc, copied(alloc, sketch)?)?)
}

// A copy of sketches.
#[cycle(copied)]
fn copied_sketches(alloc: Global, sketches: &Sketches) -> Result<Sketches, AllocError>
    ensures { IfOk result (λ ps. numbered_sketches ps ≡ numbered_sketches sketches.now) }
{
    let mut list = Vec::new(alloc);
    for sketch in &sketches.list {
        list.push(copied(alloc, sketch)?)?;
    }
    Ok(Sketches { list })
}

/// A copy of simple nodes.
pub fn copied_simples(alloc: Global, simples: &Simples) -> Result<Simples, AllocError>
    ensures { IfOk result (λ ss. ss.list.items ≡ simples.now.list.items) }
{
    let mut list = Vec::new(alloc);
    for simple in &simples.list {
        list.push(copied_simple(simple))?;
    }
    Ok(Simples { list })
}

// A copy of a simple node.
fn copied_simple(simple: &Simple) -> Simple
    ensures { result ≡ simple.now }
{
    match simple {
        Simple::Step { copy } => Simple::Step { copy: *copy },
        Simple::Abs { copy, count } => Simple::Abs {
            copy: *copy,
            count: *count,
        },
    }
}
