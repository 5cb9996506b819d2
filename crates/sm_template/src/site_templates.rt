// The templates of sites.
ghost use Rattle.std.specs.Prelude.{◌≡◌, map, flat_map, IfOk, OnOk, OnErr};
ghost use Rattle.sm_syntax.specs.claim.ConflictFree.{Copy};
ghost use Rattle.sm_syntax.specs.text.Parts.{Parts, sort_of};
ghost use Rattle.sm_syntax.specs.text.Sorts.{IsAsDeclared, IsWellSorted};
ghost use Rattle.sm_syntax.specs.trees.Copies.{of_copy};
ghost use Rattle.sm_syntax.specs.trees.Programs.{declared_of};
ghost use Rattle.sm_term.specs.Tables.{trees_in, sorts_in};
ghost use Rattle.sm_term.specs.TableLaws.{AddsTerms, ExtendsTable};
ghost use Rattle.sm_plan.specs.Masks.{set_of};
ghost use Rattle.sm_plan.specs.ReadyStates.{AreFormsReady};
ghost use Rattle.sm_plan.specs.SortedStates.{AreOutputsDeclared};
ghost use Rattle.sm_plan.specs.Starts.{AreNumbered};
ghost use Rattle.sm_plan.specs.Statements.{loop_guard};
ghost use Rattle.sm_plan.specs.Views.{rest_code, forms_in};
ghost use Rattle.sm_moves.specs.CopySets.{members};
ghost use Rattle.sm_template.specs.AddedForms.{AddsForms};
ghost use Rattle.sm_template.specs.Distinct.{distinct};
ghost use Rattle.sm_template.specs.Guards.{guard_templates};
ghost use Rattle.sm_template.specs.NameShapes.{shape_form, AreShapesFit};
ghost use Rattle.sm_template.specs.SameFormulas.{same_formula};
ghost use Rattle.sm_template.specs.Sites.{IsSiteOf, IsSiteReady};
ghost use Rattle.sm_template.specs.Templates.{name_templates};
ghost use Rattle.sm_template.specs.Templates as plain;

use crate::guards::{bounds_of, put_bounds};
use crate::shapes::{Shape, shapes_of};
use crate::site::SiteContext;
use crate::terms::shaped;
use crate::written::{loop_names, names_written, writes_of};
use sm_plan::{Continuation, Formulas};
use sm_syntax::{Decls, Name, PerCopy, Sort};
use sm_term::{Formula, TermTable};
use std::alloc::{AllocError, Global};

// Puts the templates of kinds that a name has behind others.
fn put_shapes(
    alloc: Global,
    table: &mut TermTable,
    list: &mut Vec<Formula>,
    x: Name,
    sort: Sort,
    shapes: &[Shape],
) -> Result<(), AllocError>
    requires declared { IsAsDeclared (sorts_in table.old) x.0 sort }
    requires fits { AreShapesFit sort shapes.now }
    ensures added { let more = map (shape_form (x.0, sort)) shapes.now in
        OnOk result (AddsForms table.old table.new list.old.items list.new.items more) }
    ensures grows { AddsTerms table.old table.new }
{
    for shape in shapes {
        list.push(shaped(alloc, table, x, sort, *shape)?)?;
    }
    Ok(())
}

// Puts the templates of a name behind others.
fn put_name(
    alloc: Global,
    table: &mut TermTable,
    list: &mut Vec<Formula>,
    literals: &[i128],
    x: Name,
    sort: Sort,
) -> Result<(), AllocError>
    requires declared { IsAsDeclared (sorts_in table.old) x.0 sort }
    ensures added { let more = name_templates literals.now (x.0, sort) in
        OnOk result (AddsForms table.old table.new list.old.items list.new.items more) }
    ensures grows { AddsTerms table.old table.new }
{
    let shapes = shapes_of(alloc, literals, sort)?;
    put_shapes(alloc, table, list, x, sort, &shapes)
}

// Puts those of names behind others, name by name.
fn put_names(
    alloc: Global,
    table: &mut TermTable,
    list: &mut Vec<Formula>,
    literals: &[i128],
    names: &Decls,
) -> Result<(), AllocError>
    requires declared { AreOutputsDeclared (sorts_in table.old) (declared_of names.now) }
    ensures added { let more = flat_map (name_templates literals.now) (declared_of names.now) in
        OnOk result (AddsForms table.old table.new list.old.items list.new.items more) }
    ensures grows { AddsTerms table.old table.new }
{
    for d in &names.list {
        put_name(alloc, table, list, literals, d.0, d.1)?;
    }
    Ok(())
}

/// The templates of a block with this code. After an error the table has the terms that it had.
pub fn block_templates(
    alloc: Global,
    table: &mut TermTable,
    site: &SiteContext<'_>,
    code: &PerCopy<Continuation<'_>>,
) -> Result<Formulas, AllocError>
    requires site { IsSiteReady (sorts_in table.old) site.now }
    ensures made { (t : Parts) → IsSiteOf t site.now →
        let templates = plain.block_templates t (λ c. rest_code (of_copy code.now c)) in
        IfOk result (λ fs.
        forms_in (sorts_in table.new) (trees_in table.new) fs.list.items ≡ templates) }
    ensures ready { IfOk result (λ fs.
        AreFormsReady (sorts_in table.new) (trees_in table.new) fs.list.items) }
    ensures widens { ExtendsTable table.old table.new }
    ensures err { OnErr result (trees_in table.new ≡ trees_in table.old) }
{
    let len = table.len();
    match templates_of_block(alloc, table, site, code) {
        Ok(fs) => Ok(fs),
        Err(refused) => {
            table.cut(len);
            Err(refused)
        }
    }
}

// The templates of a block. An error leaves the terms that were made.
fn templates_of_block(
    alloc: Global,
    table: &mut TermTable,
    site: &SiteContext<'_>,
    code: &PerCopy<Continuation<'_>>,
) -> Result<Formulas, AllocError>
    requires site { IsSiteReady (sorts_in table.old) site.now }
    ensures made { (t : Parts) → IsSiteOf t site.now →
        let templates = plain.block_templates t (λ c. rest_code (of_copy code.now c)) in
        IfOk result (λ fs.
        forms_in (sorts_in table.new) (trees_in table.new) fs.list.items ≡ templates) }
    ensures ready { IfOk result (λ fs.
        AreFormsReady (sorts_in table.new) (trees_in table.new) fs.list.items) }
    ensures widens { ExtendsTable table.old table.new }
{
    let written = writes_of(alloc, code)?;
    let names = names_written(alloc, site.decls, &written)?;
    let mut list = Vec::new(alloc);
    put_names(alloc, table, &mut list, &site.literals, &names)?;
    Ok(Formulas { list })
}

/// The templates of the loops that the code of a set's copies begins with. After an error the table
/// has the terms that it had.
pub fn loop_templates(
    alloc: Global,
    table: &mut TermTable,
    site: &SiteContext<'_>,
    set: u8,
    code: &PerCopy<Continuation<'_>>,
) -> Result<Formulas, AllocError>
    requires site { IsSiteReady (sorts_in table.old) site.now }
    requires sorted { (c : Copy) →
        IsWellSorted (sorts_in table.old) (rest_code (of_copy code.now c)) }
    ensures made { (t : Parts) → IsSiteOf t site.now →
        let code_at = λ (c : Copy). rest_code (of_copy code.now c) in
        let templates = plain.loop_templates t (set_of set) code_at in
        IfOk result (λ fs.
        forms_in (sorts_in table.new) (trees_in table.new) fs.list.items ≡ templates) }
    ensures ready { IfOk result (λ fs.
        AreFormsReady (sorts_in table.new) (trees_in table.new) fs.list.items) }
    ensures widens { ExtendsTable table.old table.new }
    ensures err { OnErr result (trees_in table.new ≡ trees_in table.old) }
{
    let len = table.len();
    match templates_of_loops(alloc, table, site, set, code) {
        Ok(fs) => Ok(fs),
        Err(refused) => {
            table.cut(len);
            Err(refused)
        }
    }
}

// The templates of loops. An error leaves the terms that were made.
fn templates_of_loops(
    alloc: Global,
    table: &mut TermTable,
    site: &SiteContext<'_>,
    set: u8,
    code: &PerCopy<Continuation<'_>>,
) -> Result<Formulas, AllocError>
    requires site { IsSiteReady (sorts_in table.old) site.now }
    requires sorted { (c : Copy) →
        IsWellSorted (sorts_in table.old) (rest_code (of_copy code.now c)) }
    ensures made { (t : Parts) → IsSiteOf t site.now →
        let code_at = λ (c : Copy). rest_code (of_copy code.now c) in
        let templates = plain.loop_templates t (set_of set) code_at in
        IfOk result (λ fs.
        forms_in (sorts_in table.new) (trees_in table.new) fs.list.items ≡ templates) }
    ensures ready { IfOk result (λ fs.
        AreFormsReady (sorts_in table.new) (trees_in table.new) fs.list.items) }
    ensures widens { ExtendsTable table.old table.new }
{
    let names = loop_names(alloc, site.decls, set, code)?;
    let mut list = Vec::new(alloc);
    put_names(alloc, table, &mut list, &site.literals, &names)?;
    put_guards(alloc, table, &mut list, site.decls, set, code)?;
    Ok(Formulas { list })
}

// Puts what the guards of loops suggest behind other templates.
fn put_guards(
    alloc: Global,
    table: &mut TermTable,
    list: &mut Vec<Formula>,
    decls: &Decls,
    set: u8,
    code: &PerCopy<Continuation<'_>>,
) -> Result<(), AllocError>
    requires declared { sorts_in table.old ≡ sort_of (declared_of decls.now) }
    requires numbered { AreNumbered (declared_of decls.now) }
    requires sorted { (c : Copy) →
        IsWellSorted (sorts_in table.old) (rest_code (of_copy code.now c)) }
    ensures added { let code_at = λ (c : Copy). rest_code (of_copy code.now c) in
        let guards = λ (c : Copy). guard_templates (loop_guard (code_at c)) c in
        let more = distinct same_formula (flat_map guards (members (set_of set))) in
        OnOk result (AddsForms table.old table.new list.old.items list.new.items more) }
    ensures grows { AddsTerms table.old table.new }
{
    let bounds = bounds_of(alloc, table, decls, set, code)?;
    put_bounds(list, bounds.as_slice())?;
    Ok(())
}
