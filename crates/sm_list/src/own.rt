// The terms of a branch in a table of their own, where the number of each is its place in the list.
ghost use Rattle.std.specs.Prelude.{◌≡◌, ◌<◌, [], length, Some, slice_get, IsTrue, IfOk, OnOk, OnErr};
ghost use Rattle.sm_term.specs.Fitting.{term_fits};
ghost use Rattle.sm_term.specs.Heads.{arguments_of};
ghost use Rattle.sm_term.specs.Tables.{trees_in, sorts_in, codes_in, tree_at, tree_in, IsTermWithin};
ghost use Rattle.sm_term.specs.TableLaws.{AddsTerms, with_tree};
ghost use Rattle.sm_list.specs.Branches.{terms_of};
ghost use Rattle.sm_terms.specs.Listing.{trees_at, numbers_of, AreBelow, AllAmong};
ghost use Rattle.sm_list.specs.Own.{AreBuilt, ArePlaced};
ghost use Rattle.sm_list.specs.Parts.{all_numbered, assertions_in, AreFormulasWithin};
ghost use Rattle.sm_list.specs.Renumbered.{AreTermsOf};

use crate::renumber::{renumbered_formulas, renumbered_term};
use crate::terms::terms_of_formulas;
use sm_term::{Formula, Term, TermError, TermId, TermTable, Terms};
use std::alloc::{AllocError, Global};

/// Facts over a table of the terms of their branch alone, where each term has its place in the list
/// as its number, and the numbers that these have in another table.
#[derive(Drop)]
pub struct OwnBranch {
    pub table: TermTable,
    pub numbers: Terms,
    pub facts: Vec<Formula>,
}

/// The branch of facts over a table of its own. New terms go last in the table that the facts are
/// over; after want of memory it is as it was.
pub fn own_branch(
    alloc: Global,
    table: &mut TermTable,
    facts: &[Formula],
) -> Result<OwnBranch, AllocError>
    requires { AreFormulasWithin (length (trees_in table.old)) (all_numbered facts.now) }
    ensures terms { let trees = trees_in table.old in
        let all = assertions_in (sorts_in table.old) trees (all_numbered facts.now) in
        IfOk result (λ b. trees_in b.table ≡ terms_of all) }
    ensures sorts { IfOk result (λ b. sorts_in b.table ≡ sorts_in table.old) }
    ensures facts { let trees = trees_in table.old in
        let all = assertions_in (sorts_in table.old) trees (all_numbered facts.now) in
        IfOk result (λ b.
        assertions_in (sorts_in b.table) (trees_in b.table) (all_numbered b.facts.items) ≡ all) }
    ensures within { IfOk result (λ b.
        AreFormulasWithin (length (trees_in b.table)) (all_numbered b.facts.items)) }
    ensures numbers { IfOk result (λ b.
        AreTermsOf (trees_in table.new) b.numbers.list.items (trees_in b.table)) }
    ensures grows { AddsTerms table.old table.new }
    ensures err { OnErr result (trees_in table.new ≡ trees_in table.old) }
{
    let len = table.len();
    match listed_branch(alloc, table, facts) {
        Ok(branch) => Ok(branch),
        Err(e) => {
            table.cut(len);
            Err(e)
        }
    }
}

// The branch over its own terms. An error leaves the terms that were made.
fn listed_branch(
    alloc: Global,
    table: &mut TermTable,
    facts: &[Formula],
) -> Result<OwnBranch, AllocError>
    requires { AreFormulasWithin (length (trees_in table.old)) (all_numbered facts.now) }
    ensures terms { let trees = trees_in table.old in
        let all = assertions_in (sorts_in table.old) trees (all_numbered facts.now) in
        IfOk result (λ b. trees_in b.table ≡ terms_of all) }
    ensures sorts { IfOk result (λ b. sorts_in b.table ≡ sorts_in table.old) }
    ensures facts { let trees = trees_in table.old in
        let all = assertions_in (sorts_in table.old) trees (all_numbered facts.now) in
        IfOk result (λ b.
        assertions_in (sorts_in b.table) (trees_in b.table) (all_numbered b.facts.items) ≡ all) }
    ensures within { IfOk result (λ b.
        AreFormulasWithin (length (trees_in b.table)) (all_numbered b.facts.items)) }
    ensures numbers { IfOk result (λ b.
        AreTermsOf (trees_in table.new) b.numbers.list.items (trees_in b.table)) }
    ensures grows { AddsTerms table.old table.new }
{
    let terms = terms_of_formulas(alloc, table, facts)?;
    let branch = over_own(alloc, table, facts, terms)?;
    Ok(branch)
}

// The branch over a table of these terms, which are those of the facts.
fn over_own(
    alloc: Global,
    table: &TermTable,
    facts: &[Formula],
    terms: Terms,
) -> Result<OwnBranch, AllocError>
    requires facts { AreFormulasWithin (length (trees_in table.now)) (all_numbered facts.now) }
    requires terms { let trees = trees_in table.now in
        let all = assertions_in (sorts_in table.now) trees (all_numbered facts.now) in
        trees_at trees (numbers_of terms.list.items) ≡ terms_of all }
    requires below { AreBelow (length (trees_in table.now)) (numbers_of terms.list.items) }
    ensures terms { let trees = trees_in table.now in
        let all = assertions_in (sorts_in table.now) trees (all_numbered facts.now) in
        IfOk result (λ b. trees_in b.table ≡ terms_of all) }
    ensures sorts { IfOk result (λ b. sorts_in b.table ≡ sorts_in table.now) }
    ensures facts { let trees = trees_in table.now in
        let all = assertions_in (sorts_in table.now) trees (all_numbered facts.now) in
        IfOk result (λ b.
        assertions_in (sorts_in b.table) (trees_in b.table) (all_numbered b.facts.items) ≡ all) }
    ensures within { IfOk result (λ b.
        AreFormulasWithin (length (trees_in b.table)) (all_numbered b.facts.items)) }
    ensures numbers { IfOk result (λ b.
        AreTermsOf (trees_in table.now) b.numbers.list.items (trees_in b.table)) }
{
    let mut own = table.copied_bodies(alloc)?;
    let mut numbers = blank_numbers(alloc, table.len())?;
    put_terms(alloc, table, &terms.list, &mut own, &mut numbers)?;
    let facts = renumbered_formulas(alloc, facts, &numbers)?;
    Ok(OwnBranch {
        table: own,
        numbers: terms,
        facts,
    })
}

// A number for each of so many terms, that of none of them yet.
fn blank_numbers(alloc: Global, count: u64) -> Result<Vec<TermId>, AllocError>
    ensures { IfOk result (λ v. length v.items ≡ count) }
{
    vec![in alloc; TermId(0); count as usize]
}

// Puts terms of a table into another, which has none yet, in order.
fn put_terms(
    alloc: Global,
    table: &TermTable,
    terms: &[TermId],
    own: &mut TermTable,
    numbers: &mut Vec<TermId>,
) -> Result<(), AllocError>
    requires below { AreBelow (length (trees_in table.now)) (numbers_of terms.now) }
    requires built { AreBuilt [] (trees_at (trees_in table.now) (numbers_of terms.now)) }
    requires none { trees_in own.old ≡ [] }
    requires sorts { sorts_in own.old ≡ sorts_in table.now }
    requires codes { codes_in own.old ≡ codes_in table.now }
    requires count { length numbers.old.items ≡ length (trees_in table.now) }
    ensures trees { let all = trees_at (trees_in table.now) (numbers_of terms.now) in
        OnOk result (trees_in own.new ≡ all) }
    ensures sorts { OnOk result (sorts_in own.new ≡ sorts_in table.now) }
    ensures placed { let trees = trees_in table.now in
        OnOk result (ArePlaced trees (trees_in own.new) numbers.new.items) }
{
    for t in terms {
        put_term(alloc, table, *t, own, numbers)?;
    }
    Ok(())
}

// Puts a term of a table into another, which has its arguments, and notes its number there.
pub(crate) fn put_term(
    alloc: Global,
    table: &TermTable,
    t: TermId,
    own: &mut TermTable,
    numbers: &mut Vec<TermId>,
) -> Result<(), AllocError>
    requires within { t.0 < length (trees_in table.now) }
    requires ready { AllAmong (trees_in own.old) (arguments_of (tree_at (trees_in table.now) t.0)) }
    requires sorts { sorts_in own.old ≡ sorts_in table.now }
    requires codes { codes_in own.old ≡ codes_in table.now }
    requires count { length numbers.old.items ≡ length (trees_in table.now) }
    requires placed { ArePlaced (trees_in table.now) (trees_in own.old) numbers.old.items }
    ensures trees { let tree = tree_at (trees_in table.now) t.0 in
        OnOk result (trees_in own.new ≡ with_tree (trees_in own.old) tree) }
    ensures sorts { sorts_in own.new ≡ sorts_in own.old }
    ensures codes { codes_in own.new ≡ codes_in own.old }
    ensures count { length numbers.new.items ≡ length numbers.old.items }
    ensures placed { let trees = trees_in table.now in
        OnOk result (ArePlaced trees (trees_in own.new) numbers.new.items) }
{
    // No term is there twice.
    let _count = table.len();
    let row = renumbered_term(alloc, table.get(t), numbers)?;
    numbers[t.0 as usize] = put_row(own, row)?;
    Ok(())
}

// The number of a term whose sorts fit.
fn put_row(own: &mut TermTable, row: Term) -> Result<TermId, AllocError>
    requires within { let n = length (trees_in own.old) in
        IsTermWithin (sorts_in own.old) (length (codes_in own.old)) n row }
    requires fits { IsTrue (term_fits (sorts_in own.old) (trees_in own.old) row) }
    ensures trees { let tree = tree_in (codes_in own.old) (trees_in own.old) row in
        OnOk result (trees_in own.new ≡ with_tree (trees_in own.old) tree) }
    ensures stored { let tree = tree_in (codes_in own.old) (trees_in own.old) row in
        IfOk result (λ n. slice_get (trees_in own.new) n.0 ≡ Some tree) }
    ensures grows { AddsTerms own.old own.new }
{
    match own.intern(row) {
        Ok(n) => Ok(n),
        Err(TermError::Memory) => Err(AllocError),
        Err(TermError::WrongSort) => unreachable!(),
    }
}
