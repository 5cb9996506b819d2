// The kinds of templates that a name has, and the terms and formulas that they are made of.
ghost use Rattle.std.specs.Prelude.{◌≡◌, ◌++◌, flat_map, IfOk, OnOk};
ghost use Rattle.sm_syntax.specs.declared.tree.Sort.TheVariants.{Arr};
ghost use Rattle.sm_template.specs.NameShapes.{number_shapes, array_shapes, named_pairs, above_by, above_any};
ghost use Rattle.sm_template.specs.NameShapes as shapes;

use sm_syntax::{CopyName, Sort};
use std::alloc::{AllocError, Global};

// A side of an equation about a name.
#[derive(Clone, Copy)]
pub(crate) enum Side {
    // A copy's value.
    Slot(CopyName),
    // The value at the start.
    Start,
    // A copy's value and a number.
    Above(CopyName, i128),
}

// A kind of template of a name.
#[derive(Clone, Copy)]
pub(crate) enum Shape {
    // Two values are equal.
    Equal(Side, Side),
    // Two cells are equal.
    Cells(Side, Side),
    // The change of a variant is kept.
    Keeps(CopyName),
    // Nothing else is changed.
    AddsNothing,
}

// Two copies have equal values.
fn equal(c: CopyName, d: CopyName) -> Shape
    ensures { result ≡ Shape.Equal (Side.Slot c) (Side.Slot d) }
{
    Shape::Equal(Side::Slot(c), Side::Slot(d))
}

// Two copies have equal cells.
fn cells(c: CopyName, d: CopyName) -> Shape
    ensures { result ≡ Shape.Cells (Side.Slot c) (Side.Slot d) }
{
    Shape::Cells(Side::Slot(c), Side::Slot(d))
}

// A copy has the value at the start.
fn at_start(c: CopyName) -> Shape
    ensures { result ≡ Shape.Equal (Side.Slot c) Side.Start }
{
    Shape::Equal(Side::Slot(c), Side::Start)
}

// A copy has the cell at the start.
fn cell_at_start(c: CopyName) -> Shape
    ensures { result ≡ Shape.Cells (Side.Slot c) Side.Start }
{
    Shape::Cells(Side::Slot(c), Side::Start)
}

// The kinds of templates of a number but those with literals.
fn number_shapes(alloc: Global) -> Result<Vec<Shape>, AllocError>
    ensures { IfOk result (λ l. l.items ≡ number_shapes) }
{
    Ok(vec![in alloc;
        equal(CopyName::O, CopyName::A),
        equal(CopyName::O, CopyName::B),
        equal(CopyName::O, CopyName::M),
        equal(CopyName::A, CopyName::B),
        equal(CopyName::A, CopyName::M),
        equal(CopyName::B, CopyName::M),
        Shape::Keeps(CopyName::A),
        Shape::Keeps(CopyName::B),
        Shape::AddsNothing,
        at_start(CopyName::O),
        at_start(CopyName::A),
        at_start(CopyName::B),
        at_start(CopyName::M),
    ]?)
}

// The kinds of templates of an array.
fn array_shapes(alloc: Global) -> Result<Vec<Shape>, AllocError>
    ensures { IfOk result (λ l. l.items ≡ array_shapes) }
{
    Ok(vec![in alloc;
        equal(CopyName::O, CopyName::A),
        equal(CopyName::O, CopyName::B),
        equal(CopyName::O, CopyName::M),
        equal(CopyName::A, CopyName::B),
        equal(CopyName::A, CopyName::M),
        equal(CopyName::B, CopyName::M),
        cells(CopyName::O, CopyName::A),
        cells(CopyName::O, CopyName::B),
        cells(CopyName::O, CopyName::M),
        cells(CopyName::A, CopyName::B),
        cells(CopyName::A, CopyName::M),
        cells(CopyName::B, CopyName::M),
        Shape::Keeps(CopyName::A),
        Shape::Keeps(CopyName::B),
        Shape::AddsNothing,
        at_start(CopyName::O),
        cell_at_start(CopyName::O),
        at_start(CopyName::A),
        cell_at_start(CopyName::A),
        at_start(CopyName::B),
        cell_at_start(CopyName::B),
        at_start(CopyName::M),
        cell_at_start(CopyName::M),
    ]?)
}

// A literal is between the values of two copies.
fn put_literal(list: &mut Vec<Shape>, c: CopyName, d: CopyName, v: i128) -> Result<(), AllocError>
    ensures { OnOk result (list.new.items ≡ list.old.items ++ above_by (c, d) v) }
{
    list.push(Shape::Equal(Side::Slot(d), Side::Above(c, v)))?;
    list.push(Shape::Equal(Side::Slot(c), Side::Above(d, v)))?;
    Ok(())
}

// One of the literals is.
fn put_above(
    list: &mut Vec<Shape>,
    literals: &[i128],
    c: CopyName,
    d: CopyName,
) -> Result<(), AllocError>
    ensures { OnOk result (list.new.items ≡ list.old.items ++ above_any literals.now (c, d)) }
{
    for v in literals {
        put_literal(list, c, d, *v)?;
    }
    Ok(())
}

// One of the literals is above what each two copies differ by.
fn put_all_above(list: &mut Vec<Shape>, literals: &[i128]) -> Result<(), AllocError>
    ensures { OnOk result
        (list.new.items ≡ list.old.items ++ flat_map (above_any literals.now) named_pairs) }
{
    put_above(list, literals, CopyName::O, CopyName::A)?;
    put_above(list, literals, CopyName::O, CopyName::B)?;
    put_above(list, literals, CopyName::O, CopyName::M)?;
    put_above(list, literals, CopyName::A, CopyName::B)?;
    put_above(list, literals, CopyName::A, CopyName::M)?;
    put_above(list, literals, CopyName::B, CopyName::M)
}

// The kinds of templates of a name of this sort, in order.
pub(crate) fn shapes_of(
    alloc: Global,
    literals: &[i128],
    sort: Sort,
) -> Result<Vec<Shape>, AllocError>
    ensures { IfOk result (λ l. l.items ≡ shapes.shapes_of literals.now sort) }
{
    match sort {
        Sort::Num => {
            let mut list = number_shapes(alloc)?;
            put_all_above(&mut list, literals)?;
            Ok(list)
        }
        Sort::Arr => array_shapes(alloc),
    }
}
