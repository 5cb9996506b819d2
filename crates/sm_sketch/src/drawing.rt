// How sketches are drawn.
ghost use Rattle.std.specs.Prelude.{◌≡◌, [], ◌≤◌, false, List, map, IfOk, IfErr};
ghost use Rattle.sm_syntax.specs.text.Sorts.{Sorts};
ghost use Rattle.sm_syntax.specs.trees.Copies.{copy_named, of_copy};
ghost use Rattle.sm_term.specs.Terms.{Tree};
ghost use Rattle.sm_plan.specs.Copies as sets;
ghost use Rattle.sm_plan.specs.Copies.{Copies, subsets};
ghost use Rattle.sm_plan.specs.Masks.{set_of};
ghost use Rattle.sm_plan.specs.Nodes.{Node, Step, Abs, is_branching};
ghost use Rattle.sm_plan.specs.ReadyStates.{AreFormsReady};
ghost use Rattle.sm_plan.specs.Views.{forms_in};
ghost use Rattle.sm_expand.specs.NumberedPlans.{node_over};
ghost use Rattle.sm_expand.specs.Views.{simple_node};
ghost use Rattle.sm_moves.specs.CopySets.{members};
ghost use Rattle.sm_sketch.specs.Errors.{TellsSketch};
ghost use Rattle.sm_sketch.specs.Extents.{node_by, drawn_where};
ghost use Rattle.sm_sketch.specs.Sketches as plain;
ghost use Rattle.sm_sketch.specs.Sketches.{then_draw, each_of};
ghost use Rattle.sm_sketch.specs.SketchViews.{sketch_in, IsSketchReady, AreSketchesReady};

use crate::error::ProductError;
use crate::extent::{over_all, over_two, with_node};
use crate::sketch::{Extent, Sketch, SketchEnd, Sketches};
use sm_expand::{Simple, Simples};
use sm_moves::has;
use sm_plan::Formulas;
use sm_syntax::{CopyName, PerCopy};
use std::alloc::{AllocError, Global};
use std::rc::Rc;

// How a copy does its first statement.
#[derive(Clone, Copy)]
pub(crate) enum Way {
    Statement,
    Summary,
}

// No simple nodes.
fn no_simples(alloc: Global) -> Simples
    ensures { result.list.items ≡ [] }
{
    Simples {
        list: Vec::new(alloc),
    }
}

/// The end of all copies.
pub fn ends(alloc: Global) -> Sketch
    ensures drawn { (sorts : Sorts) (trees : List Tree) →
        sketch_in sorts trees result ≡ plain.ends }
    ensures ready { (sorts : Sorts) (trees : List Tree) → IsSketchReady sorts trees result }
{
    Sketch {
        straight: no_simples(alloc),
        last: SketchEnd::End,
        extent: Extent {
            nodes: 1,
            branches: 0,
        },
    }
}

// A simple node, and what follows.
fn put(next: Sketch, simple: Simple) -> Result<Sketch, ProductError>
    ensures drawn { (sorts : Sorts) (trees : List Tree) (node : Node) →
        node_over sorts trees (simple_node simple) ≡ node → IfOk result (λ s.
        sketch_in sorts trees s ≡ then_draw node (sketch_in sorts trees next)) }
    ensures ready { (sorts : Sorts) (trees : List Tree) (node : Node) →
        node_over sorts trees (simple_node simple) ≡ node → is_branching node ≡ false →
        IsSketchReady sorts trees next → IfOk result (IsSketchReady sorts trees) }
    ensures err { (sorts : Sorts) (trees : List Tree) (node : Node) →
        is_branching node ≡ false → IsSketchReady sorts trees next →
        IfErr result (λ e. TellsSketch e (then_draw node (sketch_in sorts trees next))) }
{
    let Sketch {
        straight,
        last,
        extent,
    } = next;
    let extent = with_node(extent)?;
    let mut list = straight.list;
    list.push(simple)?;
    Ok(Sketch {
        straight: Simples { list },
        last,
        extent,
    })
}

// The node of a copy that does a statement.
fn simple_of(way: Way, copy: CopyName) -> Simple
    ensures { (sorts : Sorts) (trees : List Tree) →
        node_over sorts trees (simple_node result) ≡ node_by way (copy_named copy) }
{
    let copy = copy.number();
    match way {
        Way::Statement => Simple::Step { copy },
        Way::Summary => Simple::Abs { copy, count: 1 },
    }
}

// The node of a copy where it is in a set, and what follows.
fn put_where(next: Sketch, set: u8, way: Way, copy: CopyName) -> Result<Sketch, ProductError>
    ensures drawn { (sorts : Sorts) (trees : List Tree) → IfOk result (λ s.
        sketch_in sorts trees s
        ≡ drawn_where (sets.has (set_of set) (copy_named copy)) (node_by way (copy_named copy))
        (sketch_in sorts trees next)) }
    ensures ready { (sorts : Sorts) (trees : List Tree) →
        IsSketchReady sorts trees next → IfOk result (IsSketchReady sorts trees) }
    ensures err { (sorts : Sorts) (trees : List Tree) →
        IsSketchReady sorts trees next → IfErr result (λ e. TellsSketch e
        (drawn_where (sets.has (set_of set) (copy_named copy)) (node_by way (copy_named copy))
        (sketch_in sorts trees next))) }
{
    if has(set, copy) {
        return put(next, simple_of(way, copy));
    }
    Ok(next)
}

// The nodes of the copies of a set, and what follows.
fn each_simple(next: Sketch, set: u8, way: Way) -> Result<Sketch, ProductError>
    ensures drawn { (sorts : Sorts) (trees : List Tree) → IfOk result (λ s.
        sketch_in sorts trees s
        ≡ each_of (node_by way) (members (set_of set)) (sketch_in sorts trees next)) }
    ensures ready { (sorts : Sorts) (trees : List Tree) →
        IsSketchReady sorts trees next → IfOk result (IsSketchReady sorts trees) }
    ensures err { (sorts : Sorts) (trees : List Tree) →
        IsSketchReady sorts trees next → IfErr result (λ e. TellsSketch e
        (each_of (node_by way) (members (set_of set)) (sketch_in sorts trees next))) }
{
    let next = put_where(next, set, way, CopyName::M)?;
    let next = put_where(next, set, way, CopyName::B)?;
    let next = put_where(next, set, way, CopyName::A)?;
    put_where(next, set, way, CopyName::O)
}

/// A statement of a copy, and what follows.
pub fn step(next: Sketch, copy: CopyName) -> Result<Sketch, ProductError>
    ensures drawn { (sorts : Sorts) (trees : List Tree) → IfOk result (λ s.
        sketch_in sorts trees s ≡ then_draw (Step (copy_named copy)) (sketch_in sorts trees next)) }
    ensures ready { (sorts : Sorts) (trees : List Tree) →
        IsSketchReady sorts trees next → IfOk result (IsSketchReady sorts trees) }
    ensures err { (sorts : Sorts) (trees : List Tree) →
        IsSketchReady sorts trees next → IfErr result (λ e.
        TellsSketch e (then_draw (Step (copy_named copy)) (sketch_in sorts trees next))) }
{
    put(next, simple_of(Way::Statement, copy))
}

/// A statement of each copy of a set, and what follows.
pub fn each_step(next: Sketch, set: u8) -> Result<Sketch, ProductError>
    ensures drawn { (sorts : Sorts) (trees : List Tree) → IfOk result (λ s.
        sketch_in sorts trees s
        ≡ each_of Step (members (set_of set)) (sketch_in sorts trees next)) }
    ensures ready { (sorts : Sorts) (trees : List Tree) →
        IsSketchReady sorts trees next → IfOk result (IsSketchReady sorts trees) }
    ensures err { (sorts : Sorts) (trees : List Tree) →
        IsSketchReady sorts trees next → IfErr result (λ e.
        TellsSketch e (each_of Step (members (set_of set)) (sketch_in sorts trees next))) }
{
    each_simple(next, set, Way::Statement)
}

/// A statement of each copy of a set by its summary, and what follows.
pub fn each_summary(next: Sketch, set: u8) -> Result<Sketch, ProductError>
    ensures drawn { (sorts : Sorts) (trees : List Tree) → IfOk result (λ s.
        sketch_in sorts trees s
        ≡ each_of (λ c. Abs c 1) (members (set_of set)) (sketch_in sorts trees next)) }
    ensures ready { (sorts : Sorts) (trees : List Tree) →
        IsSketchReady sorts trees next → IfOk result (IsSketchReady sorts trees) }
    ensures err { (sorts : Sorts) (trees : List Tree) →
        IsSketchReady sorts trees next → IfErr result (λ e.
        TellsSketch e (each_of (λ c. Abs c 1) (members (set_of set)) (sketch_in sorts trees next))) }
{
    each_simple(next, set, Way::Summary)
}

// Two sketches in boxes.
fn boxed(
    alloc: Global,
    one: Sketch,
    other: Sketch,
) -> Result<(Box<Sketch>, Box<Sketch>), AllocError>
    ensures one { IfOk result (λ p. p.0.value ≡ one) }
    ensures other { IfOk result (λ p. p.1.value ≡ other) }
{
    let one = Box::new(alloc, one)?;
    let other = Box::new(alloc, other)?;
    Ok((one, other))
}

/// A fork of a copy: what is drawn where it takes the first block, and where it takes the second.
pub fn forking(
    alloc: Global,
    copy: CopyName,
    one: Sketch,
    other: Sketch,
) -> Result<Sketch, ProductError>
    ensures drawn { (sorts : Sorts) (trees : List Tree) → IfOk result (λ s.
        sketch_in sorts trees s ≡ plain.forking (copy_named copy)
        (sketch_in sorts trees one) (sketch_in sorts trees other)) }
    ensures ready { (sorts : Sorts) (trees : List Tree) →
        IsSketchReady sorts trees one → IsSketchReady sorts trees other →
        IfOk result (IsSketchReady sorts trees) }
    ensures err { (sorts : Sorts) (trees : List Tree) →
        IsSketchReady sorts trees one → IsSketchReady sorts trees other →
        IfErr result (λ e. TellsSketch e (plain.forking (copy_named copy)
        (sketch_in sorts trees one) (sketch_in sorts trees other))) }
{
    let extent = over_two(one.extent, other.extent)?;
    let (one, other) = boxed(alloc, one, other)?;
    Ok(Sketch {
        straight: no_simples(alloc),
        last: SketchEnd::Fork {
            copy: copy.number(),
            one,
            other,
        },
        extent,
    })
}

/// The loops of a set, a turn for each subset that has a copy by ascending mask, and what follows.
pub fn looped(
    alloc: Global,
    set: u8,
    templates: Formulas,
    turns: Vec<Sketch>,
    after: Sketch,
) -> Result<Sketch, ProductError>
    ensures drawn { (sorts : Sorts) (trees : List Tree) (turn : Copies → plain.Sketch) →
        map (sketch_in sorts trees) turns.items ≡ map turn (subsets (set_of set)) →
        IfOk result (λ s. sketch_in sorts trees s
        ≡ plain.looped (forms_in sorts trees templates.list.items) (set_of set) turn
        (sketch_in sorts trees after)) }
    ensures ready { (sorts : Sorts) (trees : List Tree) → set ≤ 15 →
        AreFormsReady sorts trees templates.list.items →
        AreSketchesReady sorts trees turns.items → IsSketchReady sorts trees after →
        IfOk result (IsSketchReady sorts trees) }
    ensures err { (sorts : Sorts) (trees : List Tree) (turn : Copies → plain.Sketch) →
        map (sketch_in sorts trees) turns.items ≡ map turn (subsets (set_of set)) →
        AreSketchesReady sorts trees turns.items → IsSketchReady sorts trees after →
        IfErr result (λ e. TellsSketch e (plain.looped (forms_in sorts trees templates.list.items)
        (set_of set) turn (sketch_in sorts trees after))) }
{
    let extent = over_all(turns.as_slice(), after.extent)?;
    let templates = Rc::new(alloc, templates)?;
    let after = Box::new(alloc, after)?;
    Ok(Sketch {
        straight: no_simples(alloc),
        last: SketchEnd::Loop {
            set,
            templates,
            turns: Sketches { list: turns },
            after,
        },
        extent,
    })
}

/// Statements of each copy that are proved apart, so many, and what follows.
pub fn apart(
    alloc: Global,
    counts: PerCopy<u64>,
    templates: Formulas,
    inner: Sketch,
    after: Sketch,
) -> Result<Sketch, ProductError>
    ensures drawn { (sorts : Sorts) (trees : List Tree) → IfOk result (λ s.
        sketch_in sorts trees s
        ≡ plain.apart (forms_in sorts trees templates.list.items) (of_copy counts)
        (sketch_in sorts trees inner) (sketch_in sorts trees after)) }
    ensures ready { (sorts : Sorts) (trees : List Tree) →
        AreFormsReady sorts trees templates.list.items →
        IsSketchReady sorts trees inner → IsSketchReady sorts trees after →
        IfOk result (IsSketchReady sorts trees) }
    ensures err { (sorts : Sorts) (trees : List Tree) →
        IsSketchReady sorts trees inner → IsSketchReady sorts trees after →
        IfErr result (λ e. TellsSketch e (plain.apart (forms_in sorts trees templates.list.items)
        (of_copy counts) (sketch_in sorts trees inner) (sketch_in sorts trees after))) }
{
    let extent = over_two(inner.extent, after.extent)?;
    let templates = Rc::new(alloc, templates)?;
    let (inner, after) = boxed(alloc, inner, after)?;
    Ok(Sketch {
        straight: no_simples(alloc),
        last: SketchEnd::Block {
            k0: counts.base,
            k1: counts.variant_a,
            k2: counts.variant_b,
            k3: counts.candidate,
            templates,
            inner,
            after,
        },
        extent,
    })
}
