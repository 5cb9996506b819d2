// Terms and formulas of templates.
ghost use Rattle.std.specs.Prelude.{◌≡◌, length, slice_get, Some, IsTrue, IfOk};
ghost use Rattle.sm_syntax.specs.declared.tree.Sort.TheVariants.{Num, Arr};
ghost use Rattle.sm_syntax.specs.text.Sorts.{IsAsDeclared};
ghost use Rattle.sm_syntax.specs.trees.Copies.{copy_named};
ghost use Rattle.sm_term.specs.Formulas.{numbered};
ghost use Rattle.sm_term.specs.Formulas as over;
ghost use Rattle.sm_term.specs.Terms as tree;
ghost use Rattle.sm_term.specs.Fitting.{term_fits};
ghost use Rattle.sm_term.specs.Tables.{trees_in, sorts_in, codes_in, tree_in, IsTermWithin};
ghost use Rattle.sm_term.specs.TableLaws.{AddsTerms};
ghost use Rattle.sm_plan.specs.States as state;
ghost use Rattle.sm_template.specs.AddedForms.{IsFormMade};
ghost use Rattle.sm_template.specs.NameShapes.{side_tree, keeps_change, adds_nothing, shape_form, FitsSide, FitsShape};

use crate::shapes::{Shape, Side};
use sm_syntax::{CopyName, Name, Sort};
use sm_term::{Formula, Term, TermError, TermId, TermTable};
use std::alloc::{AllocError, Global};

// The number of a term that fits.
pub(crate) fn made(table: &mut TermTable, t: Term) -> Result<TermId, AllocError>
    requires within { let n = length (trees_in table.old) in
        IsTermWithin (sorts_in table.old) (length (codes_in table.old)) n t }
    requires fits { IsTrue (term_fits (sorts_in table.old) (trees_in table.old) t) }
    ensures stored { let tree = tree_in (codes_in table.old) (trees_in table.old) t in
        IfOk result (λ id. slice_get (trees_in table.new) id.0 ≡ Some tree) }
    ensures grows { AddsTerms table.old table.new }
{
    match table.intern(t) {
        Ok(id) => Ok(id),
        Err(TermError::Memory) => Err(AllocError),
        Err(TermError::WrongSort) => unreachable!(),
    }
}

// The place of a copy's value of a name.
pub(crate) fn slot(
    table: &mut TermTable,
    x: Name,
    c: CopyName,
    sort: Sort,
) -> Result<TermId, AllocError>
    requires { IsAsDeclared (sorts_in table.old) x.0 sort }
    ensures made { let t = tree.Slot (copy_named c) x.0 in
        IfOk result (λ id. slice_get (trees_in table.new) id.0 ≡ Some t) }
    ensures grows { AddsTerms table.old table.new }
{
    made(
        table,
        Term::Slot {
            copy: c.number(),
            name: x,
        },
    )
}

// A copy's value of a number, and another number.
fn above(table: &mut TermTable, x: Name, c: CopyName, v: i128) -> Result<TermId, AllocError>
    requires { IsAsDeclared (sorts_in table.old) x.0 Num }
    ensures made { let t = side_tree x.0 (Side.Above c v) in
        IfOk result (λ id. slice_get (trees_in table.new) id.0 ≡ Some t) }
    ensures grows { AddsTerms table.old table.new }
{
    let t = slot(table, x, c, Sort::Num)?;
    let u = made(table, Term::Lit(v))?;
    made(table, Term::Add(t, u))
}

// The term of a side.
fn side(table: &mut TermTable, x: Name, sort: Sort, s: Side) -> Result<TermId, AllocError>
    requires declared { IsAsDeclared (sorts_in table.old) x.0 sort }
    requires fits { FitsSide sort s }
    ensures made { IfOk result (λ id.
        slice_get (trees_in table.new) id.0 ≡ Some (side_tree x.0 s)) }
    ensures grows { AddsTerms table.old table.new }
{
    match s {
        Side::Slot(c) => slot(table, x, c, sort),
        Side::Start => made(table, Term::Start(x)),
        Side::Above(c, v) => above(table, x, c, v),
    }
}

// The term of a side's cell.
fn cell(table: &mut TermTable, x: Name, s: Side) -> Result<TermId, AllocError>
    requires declared { IsAsDeclared (sorts_in table.old) x.0 Arr }
    requires fits { FitsSide Arr s }
    ensures made { let t = tree.Read (side_tree x.0 s) tree.Cell in
        IfOk result (λ id. slice_get (trees_in table.new) id.0 ≡ Some t) }
    ensures grows { AddsTerms table.old table.new }
{
    let t = side(table, x, Sort::Arr, s)?;
    let i = made(table, Term::Cell)?;
    made(table, Term::Read(t, i))
}

// The terms of two sides.
fn sides(
    table: &mut TermTable,
    x: Name,
    sort: Sort,
    a: Side,
    b: Side,
) -> Result<(TermId, TermId), AllocError>
    requires declared { IsAsDeclared (sorts_in table.old) x.0 sort }
    requires first { FitsSide sort a }
    requires second { FitsSide sort b }
    ensures first { IfOk result (λ p.
        slice_get (trees_in table.new) p.0.0 ≡ Some (side_tree x.0 a)) }
    ensures second { IfOk result (λ p.
        slice_get (trees_in table.new) p.1.0 ≡ Some (side_tree x.0 b)) }
    ensures grows { AddsTerms table.old table.new }
{
    let t = side(table, x, sort, a)?;
    let u = side(table, x, sort, b)?;
    Ok((t, u))
}

// The terms of the cells of two sides.
fn cells(table: &mut TermTable, x: Name, a: Side, b: Side) -> Result<(TermId, TermId), AllocError>
    requires declared { IsAsDeclared (sorts_in table.old) x.0 Arr }
    requires first { FitsSide Arr a }
    requires second { FitsSide Arr b }
    ensures first { IfOk result (λ p.
        slice_get (trees_in table.new) p.0.0 ≡ Some (tree.Read (side_tree x.0 a) tree.Cell)) }
    ensures second { IfOk result (λ p.
        slice_get (trees_in table.new) p.1.0 ≡ Some (tree.Read (side_tree x.0 b) tree.Cell)) }
    ensures grows { AddsTerms table.old table.new }
{
    let t = cell(table, x, a)?;
    let u = cell(table, x, b)?;
    Ok((t, u))
}

// The places of an output in two copies.
fn places(
    table: &mut TermTable,
    x: Name,
    sort: Sort,
    c: CopyName,
    d: CopyName,
) -> Result<(TermId, TermId), AllocError>
    requires declared { IsAsDeclared (sorts_in table.old) x.0 sort }
    ensures first { IfOk result (λ p.
        slice_get (trees_in table.new) p.0.0 ≡ Some (state.place (x.0, sort) (copy_named c))) }
    ensures second { IfOk result (λ p.
        slice_get (trees_in table.new) p.1.0 ≡ Some (state.place (x.0, sort) (copy_named d))) }
    ensures grows { AddsTerms table.old table.new }
{
    match sort {
        Sort::Num => sides(table, x, Sort::Num, Side::Slot(c), Side::Slot(d)),
        Sort::Arr => cells(table, x, Side::Slot(c), Side::Slot(d)),
    }
}

// One formula or another.
fn either(alloc: Global, p: Formula, q: Formula) -> Result<Formula, AllocError>
    ensures { IfOk result (λ f. numbered f ≡ over.Or (numbered p) (numbered q)) }
{
    let first = Box::new(alloc, p)?;
    let second = Box::new(alloc, q)?;
    Ok(Formula::Or(first, second))
}

// The change of a variant is kept.
fn keeps(
    alloc: Global,
    table: &mut TermTable,
    x: Name,
    sort: Sort,
    c: CopyName,
) -> Result<Formula, AllocError>
    requires declared { IsAsDeclared (sorts_in table.old) x.0 sort }
    ensures made { let a = keeps_change (state.place (x.0, sort)) (copy_named c) in
        IfOk result (λ f. IsFormMade table.new f a) }
    ensures grows { AddsTerms table.old table.new }
{
    let (t, u) = places(table, x, sort, CopyName::O, c)?;
    let (a, b) = places(table, x, sort, CopyName::M, c)?;
    either(alloc, Formula::Eq(t, u), Formula::Eq(a, b))
}

// Nothing else is changed.
fn adds_nothing(
    alloc: Global,
    table: &mut TermTable,
    x: Name,
    sort: Sort,
) -> Result<Formula, AllocError>
    requires declared { IsAsDeclared (sorts_in table.old) x.0 sort }
    ensures made { IfOk result (λ f.
        IsFormMade table.new f (adds_nothing (state.place (x.0, sort)))) }
    ensures grows { AddsTerms table.old table.new }
{
    let (t, u) = places(table, x, sort, CopyName::O, CopyName::A)?;
    let (a, b) = places(table, x, sort, CopyName::A, CopyName::B)?;
    let (m, o) = places(table, x, sort, CopyName::M, CopyName::O)?;
    let last = either(alloc, Formula::Ne(a, b), Formula::Eq(m, o))?;
    either(alloc, Formula::Ne(t, u), last)
}

// The template of a kind that a name has.
pub(crate) fn shaped(
    alloc: Global,
    table: &mut TermTable,
    x: Name,
    sort: Sort,
    shape: Shape,
) -> Result<Formula, AllocError>
    requires declared { IsAsDeclared (sorts_in table.old) x.0 sort }
    requires fits { FitsShape sort shape }
    ensures made { IfOk result (λ f. IsFormMade table.new f (shape_form (x.0, sort) shape)) }
    ensures grows { AddsTerms table.old table.new }
{
    match shape {
        Shape::Equal(a, b) => {
            let (t, u) = sides(table, x, sort, a, b)?;
            Ok(Formula::Eq(t, u))
        }
        Shape::Cells(a, b) => {
            let (t, u) = cells(table, x, a, b)?;
            Ok(Formula::Eq(t, u))
        }
        Shape::Keeps(c) => keeps(alloc, table, x, sort, c),
        Shape::AddsNothing => adds_nothing(alloc, table, x, sort),
    }
}
