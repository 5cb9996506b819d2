// Where the classes of the branches of a walk begin.
ghost use Rattle.std.specs.Prelude.{◌≡◌, length, IfOk};
ghost use Rattle.sm_term.specs.Sorted.{AreFormsSorted};
ghost use Rattle.sm_term.specs.Tables.{trees_in, sorts_in};
ghost use Rattle.sm_cc.specs.Classes.{are_apart};
ghost use Rattle.sm_cc.specs.BaseClasses.{AreBaseClasses, IsLedBy};
ghost use Rattle.sm_cc.specs.Rounds.{are_equal};
ghost use Rattle.sm_cc.specs.Views.{ClassesValue, setting_of};
ghost use Rattle.sm_judge.specs.AllForms.{AreAllForms};
ghost use Rattle.sm_certify.specs.Bases.{IsFrom};
ghost use Rattle.sm_certify.specs.Given.{IsWhole, classes_by, branch_of};
ghost use Rattle.sm_list.specs.Parts.{all_numbered, assertions_in, AreFormulasWithin};
ghost use Rattle.sm_judge.specs.Seeing.{seen_in};

use crate::classes::{classes_of, classes_over, given_facts};
use sm_cc::{BaseClasses, Classes, NumberedBase};
use sm_num::LinForm;
use sm_term::{Formula, TermTable, Terms};
use std::alloc::{AllocError, Global};

/// Where the classes of the branches of a walk begin. A branch has all facts of those above it, so
/// what is found of these needn't be found again on each.
#[derive(Drop)]
pub enum Base {
    /// With nothing.
    Nothing,
    /// With the classes of facts that each branch has.
    Over(Box<NumberedBase>),
}

impl Base {
    /// The classes of all terms of a table, by the equations and contraries among facts and the forms of
    /// the terms. A fact's number is its place.
    pub fn classes<'a>(
        &mut self,
        alloc: Global,
        table: &'a TermTable,
        forms: &[LinForm],
        terms: &'a Terms,
        facts: &[Formula],
    ) -> Result<Classes<'a>, AllocError>
        requires forms { AreAllForms (trees_in table.now) forms.now }
        requires whole { IsWhole (trees_in table.now) terms.now.list.items }
        requires within { AreFormulasWithin (length (trees_in table.now)) (all_numbered facts.now) }
        requires sorted { AreFormsSorted (sorts_in table.now)
            (assertions_in (sorts_in table.now) (trees_in table.now) (all_numbered facts.now)) }
        requires led { (v : ClassesValue) × IsFrom v self.old
            × IsLedBy v (classes_by table.now terms.now.list.items facts.now) }
        ensures value { IfOk result (λ c. c ≡ classes_by table.now terms.now.list.items facts.now) }
        ensures seen { IfOk result (λ c.
            seen_in (sorts_in table.now) (trees_in table.now) (trees_in table.now) facts.now
            (are_equal (setting_of c)) (are_apart (setting_of c) (are_equal (setting_of c)))
            ≡ branch_of table.now facts.now) }
        ensures stays { (v : ClassesValue) → IsFrom v self.old → IsFrom v self.new }
    {
        match self {
            Base::Nothing => classes_of(alloc, table, forms, terms, facts),
            Base::Over(g) => classes_within(alloc, g, table, forms, terms, facts),
        }
    }
}

// The classes of all terms of a table by facts, beginning with those that are found already.
fn classes_within<'a>(
    alloc: Global,
    grounded: &mut NumberedBase,
    table: &'a TermTable,
    forms: &[LinForm],
    terms: &'a Terms,
    facts: &[Formula],
) -> Result<Classes<'a>, AllocError>
    requires forms { AreAllForms (trees_in table.now) forms.now }
    requires whole { IsWhole (trees_in table.now) terms.now.list.items }
    requires within { AreFormulasWithin (length (trees_in table.now)) (all_numbered facts.now) }
    requires sorted { AreFormsSorted (sorts_in table.now)
        (assertions_in (sorts_in table.now) (trees_in table.now) (all_numbered facts.now)) }
    requires led { (v : ClassesValue) × AreBaseClasses v grounded.old.ground grounded.old.numbering
        × IsLedBy v (classes_by table.now terms.now.list.items facts.now) }
    ensures value { IfOk result (λ c. c ≡ classes_by table.now terms.now.list.items facts.now) }
    ensures seen { IfOk result (λ c.
        seen_in (sorts_in table.now) (trees_in table.now) (trees_in table.now) facts.now
        (are_equal (setting_of c)) (are_apart (setting_of c) (are_equal (setting_of c)))
        ≡ branch_of table.now facts.now) }
    ensures stays { (v : ClassesValue) → AreBaseClasses v grounded.old.ground grounded.old.numbering →
        AreBaseClasses v grounded.new.ground grounded.new.numbering }
{
    classes_over(
        alloc,
        &grounded.ground,
        &mut grounded.numbering,
        table,
        forms,
        terms,
        facts,
    )
}

/// The base of these classes. They have many parts, and are kept apart from what holds the base.
pub fn boxed_base(alloc: Global, found: NumberedBase) -> Result<Base, AllocError>
    ensures { (v : ClassesValue) → AreBaseClasses v found.ground found.numbering →
        IfOk result (IsFrom v) }
{
    Ok(Base::Over(Box::new(alloc, found)?))
}

/// The classes of all terms of a table by facts, for those of the branches that have these facts.
pub fn base_of(
    alloc: Global,
    table: &TermTable,
    forms: &[LinForm],
    terms: &Terms,
    facts: &[Formula],
) -> Result<Base, AllocError>
    requires forms { AreAllForms (trees_in table.now) forms.now }
    requires whole { IsWhole (trees_in table.now) terms.now.list.items }
    requires within { AreFormulasWithin (length (trees_in table.now)) (all_numbered facts.now) }
    requires sorted { AreFormsSorted (sorts_in table.now)
        (assertions_in (sorts_in table.now) (trees_in table.now) (all_numbered facts.now)) }
    ensures { IfOk result (IsFrom (classes_by table.now terms.now.list.items facts.now)) }
{
    let given = given_facts(alloc, facts)?;
    match BaseClasses::of(alloc, table, forms, terms, &given)? {
        Some(found) => boxed_base(alloc, found),
        None => Ok(Base::Nothing),
    }
}
