// The classes of a branch.
ghost use Rattle.std.specs.Prelude.{◌≡◌, [], ◌∷◌, ◌++◌, length, IfOk, OnOk};
ghost use Rattle.std.specs.List.{range_with_len};
ghost use Rattle.sm_term.specs.Sorted.{AreFormsSorted};
ghost use Rattle.sm_term.specs.Tables.{trees_in, sorts_in};
ghost use Rattle.sm_cc.specs.Classes.{are_apart};
ghost use Rattle.sm_cc.specs.BaseClasses.{AreBaseClasses, IsLedBy};
ghost use Rattle.sm_cc.specs.Rounds.{are_equal};
ghost use Rattle.sm_cc.specs.Views.{ClassesValue, setting_of};
ghost use Rattle.sm_judge.specs.AllForms.{AreAllForms};
ghost use Rattle.sm_certify.specs.Given.{IsWhole, given_from, classes_by, branch_of};
ghost use Rattle.sm_terms.specs.Listing.{numbers_of};
ghost use Rattle.sm_list.specs.Parts.{all_numbered, assertions_in, AreFormulasWithin};
ghost use Rattle.sm_judge.specs.Seeing.{seen_in};

use sm_cc::{BaseClasses, Classes, GivenFact, Numbering};
use sm_num::LinForm;
use sm_pairs::Sees;
use sm_term::{Formula, TermId, TermTable, Terms};
use std::alloc::{AllocError, Global};

/// All terms of a table, in order.
pub fn all_terms(alloc: Global, table: &TermTable) -> Result<Terms, AllocError>
    ensures whole { IfOk result (λ ts. IsWhole (trees_in table.now) ts.list.items) }
    ensures counted { let count = length (trees_in table.now) in
        IfOk result (λ ts. numbers_of ts.list.items ≡ range_with_len 0 count) }
{
    let mut list = Vec::with_capacity(alloc, table.len() as usize)?;
    for n in 0..table.len() {
        list.push(TermId(n))?;
    }
    Ok(Terms { list })
}

// The classes of all terms of a table, by the equations and contraries among facts and the forms of
// the terms. A fact's number is its place.
pub(crate) fn classes_of<'a>(
    alloc: Global,
    table: &'a TermTable,
    forms: &[LinForm],
    terms: &'a Terms,
    facts: &[Formula],
) -> Result<Classes<'a>, AllocError>
    requires forms { AreAllForms (trees_in table.now) forms.now }
    requires whole { IsWhole (trees_in table.now) terms.now.list.items }
    requires within { AreFormulasWithin (length (trees_in table.now)) (all_numbered facts.now) }
    requires sorted { AreFormsSorted (sorts_in table.now)
        (assertions_in (sorts_in table.now) (trees_in table.now) (all_numbered facts.now)) }
    ensures value { IfOk result (λ c. c ≡ classes_by table.now terms.now.list.items facts.now) }

    // What the classes say is what is seen on the branch of these facts.
    ensures seen { IfOk result (λ c.
        seen_in (sorts_in table.now) (trees_in table.now) (trees_in table.now) facts.now
        (are_equal (setting_of c)) (are_apart (setting_of c) (are_equal (setting_of c)))
        ≡ branch_of table.now facts.now) }
{
    let given = given_facts(alloc, facts)?;
    let classes = Classes::of(alloc, table, forms, terms, given)?;
    Ok(classes)
}

// The classes of the facts, which begin with those of others.
pub(crate) fn classes_over<'a>(
    alloc: Global,
    ground: &BaseClasses,
    numbering: &mut Numbering,
    table: &'a TermTable,
    forms: &[LinForm],
    terms: &'a Terms,
    facts: &[Formula],
) -> Result<Classes<'a>, AllocError>
    requires forms { AreAllForms (trees_in table.now) forms.now }
    requires whole { IsWhole (trees_in table.now) terms.now.list.items }
    requires within { AreFormulasWithin (length (trees_in table.now)) (all_numbered facts.now) }
    requires sorted { AreFormsSorted (sorts_in table.now)
        (assertions_in (sorts_in table.now) (trees_in table.now) (all_numbered facts.now)) }
    requires led { (v : ClassesValue) × AreBaseClasses v ground.now numbering.old
        × IsLedBy v (classes_by table.now terms.now.list.items facts.now) }
    ensures value { IfOk result (λ c. c ≡ classes_by table.now terms.now.list.items facts.now) }
    ensures seen { IfOk result (λ c.
        seen_in (sorts_in table.now) (trees_in table.now) (trees_in table.now) facts.now
        (are_equal (setting_of c)) (are_apart (setting_of c) (are_equal (setting_of c)))
        ≡ branch_of table.now facts.now) }
    ensures stays { (v : ClassesValue) → AreBaseClasses v ground.now numbering.old →
        AreBaseClasses v ground.now numbering.new }
{
    let given = given_facts(alloc, facts)?;
    let classes = Classes::over(alloc, ground, numbering, table, forms, terms, given)?;
    Ok(classes)
}

/// The equations and contraries among facts, each under its place.
pub fn given_facts(alloc: Global, facts: &[Formula]) -> Result<Vec<GivenFact>, AllocError>
    ensures { IfOk result (λ v. v.items ≡ given_from 0 facts.now) }
{
    let mut given = Vec::with_capacity(alloc, facts.len())?;
    let mut n = 0;
    for f in facts {
        give(&mut given, n, f)?;
        n += 1;
    }
    Ok(given)
}

// A formula is given with its place, where it is an equation or a contrary.
fn give(given: &mut Vec<GivenFact>, n: u64, f: &Formula) -> Result<(), AllocError>
    ensures { OnOk result (given.new.items ≡ given.old.items ++ given_from n (f.now ∷ [])) }
{
    match f {
        Formula::Eq(t, u) => put_given(given, n, true, *t, *u),
        Formula::Ne(t, u) => put_given(given, n, false, *t, *u),
        Formula::Yes => Ok(()),
        Formula::No => Ok(()),
        Formula::Le(_, _) => Ok(()),
        Formula::Lt(_, _) => Ok(()),
        Formula::And(_, _) => Ok(()),
        Formula::Or(_, _) => Ok(()),
    }
}

// Adds a given fact.
fn put_given(
    given: &mut Vec<GivenFact>,
    number: u64,
    are_equal: bool,
    left: TermId,
    right: TermId,
) -> Result<(), AllocError>
    ensures { OnOk result (given.new.items ≡ given.old.items ++ record {
      number = number;
      are_equal = are_equal;
      left = left;
      right = right;
    } ∷ []) }
{
    given.push(GivenFact {
        number,
        are_equal,
        left,
        right,
    })?;
    Ok(())
}
