// What a node is made of: its facts with room for a goal, and their classes.
ghost use Rattle.std.specs.Prelude.{◌≡◌, ℕ, List, length, IfOk, IfSome};
ghost use Rattle.std.specs.List.{range_with_len};
ghost use Rattle.sm_syntax.specs.text.Sorts.{Sorts};
ghost use Rattle.sm_term.specs.declared.term.TermId.{TermId};
ghost use Rattle.sm_term.specs.Sorted.{AreFormsSorted};
ghost use Rattle.sm_term.specs.Tables.{trees_in, sorts_in};
ghost use Rattle.sm_term.specs.Terms.{Tree};
ghost use Rattle.sm_cc.specs.BaseClasses.{AreBaseClasses};
ghost use Rattle.sm_judge.specs.AllForms.{AreAllForms};
ghost use Rattle.sm_certify.specs.Bases.{IsFrom};
ghost use Rattle.sm_certify.specs.Given.{IsWhole, classes_by};
ghost use Rattle.sm_terms.specs.Listing.{numbers_of};
ghost use Rattle.sm_list.specs.Parts.{all_numbered, assertions_in, AreFormulasWithin};
ghost use Rattle.sm_solve.specs.Sharing.{room_for_goal};

use crate::branching::copy_facts;
use sm_cc::{BaseClasses, NumberedBase};
use sm_certify::{Base, all_terms, boxed_base, given_facts};
use sm_judge::linear_forms;
use sm_list::add_parts;
use sm_num::LinForm;
use sm_term::{Formula, TermTable};
use std::alloc::{AllocError, Global};

// Facts with what always holds where the contrary of a goal goes, and all parts of their
// conjunctions.
pub(crate) fn with_room(alloc: Global, facts: &[Formula]) -> Result<Vec<Formula>, AllocError>
    ensures facts { (sorts : Sorts) (trees : List Tree) →
        let given = assertions_in sorts trees (all_numbered facts.now) in
        IfOk result (λ v. assertions_in sorts trees (all_numbered v.items) ≡ room_for_goal given) }
    ensures within { (count : ℕ) → AreFormulasWithin count (all_numbered facts.now) →
        IfOk result (λ v. AreFormulasWithin count (all_numbered v.items)) }
{
    let mut all = copy_facts(alloc, facts)?;
    all.push(Formula::Yes)?;
    add_parts(alloc, &mut all, 0)?;
    Ok(all)
}

// The classes of all terms of a table, by the equations and contraries among facts and the forms of
// the terms.
pub(crate) fn ground_of(
    alloc: Global,
    table: &TermTable,
    forms: &[LinForm],
    facts: &[Formula],
) -> Result<Option<NumberedBase>, AllocError>
    requires forms { AreAllForms (trees_in table.now) forms.now }
    requires within { AreFormulasWithin (length (trees_in table.now)) (all_numbered facts.now) }
    requires sorted { AreFormsSorted (sorts_in table.now)
        (assertions_in (sorts_in table.now) (trees_in table.now) (all_numbered facts.now)) }
    ensures { IfOk result (λ o. IfSome o (λ g.
        (ids : List TermId) × IsWhole (trees_in table.now) ids
        × (numbers_of ids ≡ range_with_len 0 (length (trees_in table.now)))
        × AreBaseClasses (classes_by table.now ids facts.now) g.ground g.numbering)) }
{
    let terms = all_terms(alloc, table)?;
    let given = given_facts(alloc, facts)?;
    let found = BaseClasses::of(alloc, table, forms, &terms, &given)?;
    Ok(found)
}

// The forms of all terms of a table and the classes of facts over them; none where the table has more
// terms than are counted.
pub(crate) fn facts_base(
    alloc: Global,
    table: &TermTable,
    facts: &[Formula],
    count: usize,
) -> Result<Option<(Vec<LinForm>, Base)>, AllocError>
    requires within { AreFormulasWithin (length (trees_in table.now)) (all_numbered facts.now) }
    requires sorted { AreFormsSorted (sorts_in table.now)
        (assertions_in (sorts_in table.now) (trees_in table.now) (all_numbered facts.now)) }
    ensures counted { IfOk result (λ o. IfSome o (λ _. length (trees_in table.now) ≡ count)) }
    ensures forms { IfOk result (λ o. IfSome o (λ p.
        AreAllForms (trees_in table.now) p.0.items)) }
    ensures base { IfOk result (λ o. IfSome o (λ p.
        (ids : List TermId) × IsWhole (trees_in table.now) ids
        × (numbers_of ids ≡ range_with_len 0 (length (trees_in table.now)))
        × IsFrom (classes_by table.now ids facts.now) p.1)) }
{
    if table.len() as usize != count {
        return Ok(None);
    }
    let forms = linear_forms(alloc, table)?;
    match ground_of(alloc, table, &forms, facts)? {
        Some(found) => {
            let base = boxed_base(alloc, found)?;
            Ok(Some((forms, base)))
        }
        None => Ok(None),
    }
}
