// The terms of formulas.
ghost use Rattle.std.specs.Prelude.{◌≡◌, ◌<◌, [], length, map, IfOk, OnOk, OnErr};
ghost use Rattle.sm_term.specs.Tables.{trees_in, sorts_in};
ghost use Rattle.sm_term.specs.TableLaws.{AddsTerms};
ghost use Rattle.sm_theory.specs.TermsOfFormulas.{with_formulas};
ghost use Rattle.sm_list.specs.Branches.{terms_of};
ghost use Rattle.sm_list.specs.Parts.{all_numbered, assertions_in, AreFormulasWithin};
ghost use Rattle.sm_terms.specs.Listing.{trees_at, AreBelow, IsClosed, numbers_of};

use crate::reads::list_reads;
use sm_numbering::Numbering;
use sm_term::{Formula, TermId, TermTable, Terms};
use sm_terms::list_formula;
use std::alloc::{AllocError, Global};

// The terms of formulas, each after its arguments and once, and behind them what each element that
// is read was before it was written. New ones go last in the table. After want of memory it is as
// it was.
pub(crate) fn terms_of_formulas(
    alloc: Global,
    table: &mut TermTable,
    facts: &[Formula],
) -> Result<Terms, AllocError>
    requires { AreFormulasWithin (length (trees_in table.old)) (all_numbered facts.now) }
    ensures terms { let trees = trees_in table.old in
        let all = terms_of (assertions_in (sorts_in table.old) trees (all_numbered facts.now)) in
        IfOk result (λ ts. trees_at (trees_in table.new) (numbers_of ts.list.items) ≡ all) }
    ensures within { IfOk result (λ ts.
        AreBelow (length (trees_in table.new)) (numbers_of ts.list.items)) }
    ensures grows { AddsTerms table.old table.new }
    ensures err { OnErr result (trees_in table.new ≡ trees_in table.old) }
{
    let len = table.len();
    match listed_terms(alloc, table, facts) {
        Ok(terms) => Ok(terms),
        Err(e) => {
            table.cut(len);
            Err(e)
        }
    }
}

// The terms of formulas. An error leaves the terms that were made.
fn listed_terms(
    alloc: Global,
    table: &mut TermTable,
    facts: &[Formula],
) -> Result<Terms, AllocError>
    requires { AreFormulasWithin (length (trees_in table.old)) (all_numbered facts.now) }
    ensures terms { let trees = trees_in table.old in
        let all = terms_of (assertions_in (sorts_in table.old) trees (all_numbered facts.now)) in
        IfOk result (λ ts. trees_at (trees_in table.new) (numbers_of ts.list.items) ≡ all) }
    ensures within { IfOk result (λ ts.
        AreBelow (length (trees_in table.new)) (numbers_of ts.list.items)) }
    ensures grows { AddsTerms table.old table.new }
{
    let mut listed = Numbering::new(alloc);
    list_terms(alloc, table, &mut listed, facts)?;
    numbered_terms(alloc, listed.as_slice())
}

// Lists the terms of formulas where none are listed, and behind them what each element that is read
// was before it was written. An error leaves the terms that were made.
pub(crate) fn list_terms(
    alloc: Global,
    table: &mut TermTable,
    listed: &mut Numbering<u64>,
    facts: &[Formula],
) -> Result<(), AllocError>
    requires within { AreFormulasWithin (length (trees_in table.old)) (all_numbered facts.now) }
    requires none { listed.old ≡ [] }
    ensures terms { let trees = trees_in table.old in
        let all = terms_of (assertions_in (sorts_in table.old) trees (all_numbered facts.now)) in
        OnOk result (trees_at (trees_in table.new) listed.new ≡ all) }
    ensures below { OnOk result (AreBelow (length (trees_in table.new)) listed.new) }
    ensures grows { AddsTerms table.old table.new }
{
    list_formulas(alloc, table, listed, facts)?;
    list_reads(table, listed)?;
    Ok(())
}

/// Lists the terms of formulas behind others, each after its arguments and once.
pub fn list_formulas(
    alloc: Global,
    table: &TermTable,
    listed: &mut Numbering<u64>,
    facts: &[Formula],
) -> Result<(), AllocError>
    requires within { AreFormulasWithin (length (trees_in table.now)) (all_numbered facts.now) }
    requires listed { AreBelow (length (trees_in table.now)) listed.old }
    requires closed { IsClosed (trees_at (trees_in table.now) listed.old) }
    ensures terms { let trees = trees_in table.now in
        let fs = assertions_in (sorts_in table.now) trees (all_numbered facts.now) in
        let all = with_formulas fs (trees_at trees listed.old) in
        OnOk result (trees_at trees listed.new ≡ all) }
    ensures listed { OnOk result (AreBelow (length (trees_in table.now)) listed.new) }
    ensures closed { OnOk result (IsClosed (trees_at (trees_in table.now) listed.new)) }
{
    for f in facts {
        list_formula(alloc, table, listed, f)?;
    }
    Ok(())
}

/// Terms with these numbers.
pub fn numbered_terms(alloc: Global, numbers: &[u64]) -> Result<Terms, AllocError>
    ensures { IfOk result (λ ts. numbers_of ts.list.items ≡ numbers.now) }
{
    let mut list = Vec::with_capacity(alloc, numbers.len())?;
    for n in numbers {
        list.push(TermId(*n))?;
    }
    Ok(Terms { list })
}
