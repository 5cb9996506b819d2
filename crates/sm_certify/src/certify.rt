// Certificates of branches that are closed at once.
ghost use Rattle.std.specs.Prelude.{◌≡◌, ◌<◌, ◌^◌, IsTrue, IfOk, Some, slice_get, length};
ghost use Rattle.sm_term.specs.Sorted.{AreFormsSorted};
ghost use Rattle.sm_term.specs.Formulas.{numbered, Ne};
ghost use Rattle.sm_term.specs.Tables.{trees_in, sorts_in, tree_at};
ghost use Rattle.sm_theory.specs.Facts.{as_facts};
ghost use Rattle.sm_cert.specs.Certificates.{splits_above};
ghost use Rattle.sm_cert.specs.Views.{certificate_in, lines_of, AreLinesWithin};
ghost use Rattle.sm_judge.specs.declared.closing.Closing.TheVariants as why;
ghost use Rattle.sm_certify.specs.Certifying.{contrary_numbers, pair_of_numbers, IsRefuting};
ghost use Rattle.sm_judge.specs.Closings.{IsClosing};
ghost use Rattle.sm_certify.specs.Refutes.{Refutes};
ghost use Rattle.sm_certify.specs.Given.{IsWhole, classes_by, branch_of};
ghost use Rattle.sm_list.specs.Parts.{all_numbered, assertions_in, AreFormulasWithin};

use crate::draft::closed_tree;
use sm_cc::Classes;
use sm_cert::CertTree;
use sm_judge::Closing;
use sm_term::{Formula, TermId, TermTable, Terms};
use sm_theory::CertLine;
use std::alloc::{AllocError, Global};

/// A certificate of a branch that is closed at once.
pub fn closing_tree<'a>(
    alloc: Global,
    classes: &Classes<'a>,
    table: &TermTable,
    terms: &Terms,
    facts: &[Formula],
    why: Closing,
) -> Result<CertTree, AllocError>
    requires whole { IsWhole (trees_in table.now) terms.now.list.items }
    requires classes { classes.now ≡ classes_by table.now terms.now.list.items facts.now }
    requires within { AreFormulasWithin (length (trees_in table.now)) (all_numbered facts.now) }
    requires sorted { AreFormsSorted (sorts_in table.now)
        (assertions_in (sorts_in table.now) (trees_in table.now) (all_numbered facts.now)) }
    requires few { length facts.now < 2 ^ 62 }
    requires why { IsClosing (branch_of table.now facts.now) why }
    ensures refutes { let trees = trees_in table.now in
        let all = assertions_in (sorts_in table.now) trees (all_numbered facts.now) in
        IfOk result (λ c. Refutes (sorts_in table.now) (as_facts all) (certificate_in trees c)) }
    ensures within { IfOk result (λ c. AreLinesWithin (length (trees_in table.now)) (lines_of c)) }
    ensures splits { IfOk result (λ c.
        splits_above (certificate_in (trees_in table.now) c) ≡ 0) }
{
    match why {
        Closing::Refuted(n) => refuted_tree(alloc, classes, table, terms, facts, n),
        Closing::Torn(t, u) => torn_tree(alloc, classes, table, terms, facts, t, u),
    }
}

// A fact can't hold by the classes.
fn refuted_tree<'a>(
    alloc: Global,
    classes: &Classes<'a>,
    table: &TermTable,
    terms: &Terms,
    facts: &[Formula],
    n: u64,
) -> Result<CertTree, AllocError>
    requires whole { IsWhole (trees_in table.now) terms.now.list.items }
    requires classes { classes.now ≡ classes_by table.now terms.now.list.items facts.now }
    requires within { AreFormulasWithin (length (trees_in table.now)) (all_numbered facts.now) }
    requires few { length facts.now < 2 ^ 62 }
    requires why { IsClosing (branch_of table.now facts.now) (why.Refuted n) }
    ensures { IfOk result (λ c. IsRefuting table.now facts.now c) }
{
    match contrary_terms(&facts[n as usize]) {
        Some(sides) => contrary_tree(alloc, classes, table, terms, facts, n, sides),
        None => Ok(closed_tree(Vec::new(alloc), CertLine::Close(n))),
    }
}

// The two terms of the contrary of an equation.
fn contrary_terms(f: &Formula) -> Option<(TermId, TermId)>
    ensures { pair_of_numbers result ≡ contrary_numbers (numbered f.now) }
{
    match f {
        Formula::Ne(t, u) => Some((*t, *u)),
        _ => None,
    }
}

// Two terms of one class aren't equal by a fact.
fn contrary_tree<'a>(
    alloc: Global,
    classes: &Classes<'a>,
    table: &TermTable,
    terms: &Terms,
    facts: &[Formula],
    n: u64,
    sides: (TermId, TermId),
) -> Result<CertTree, AllocError>
    requires whole { IsWhole (trees_in table.now) terms.now.list.items }
    requires classes { classes.now ≡ classes_by table.now terms.now.list.items facts.now }
    requires few { length facts.now < 2 ^ 62 }
    requires left { sides.0.0 < length (trees_in table.now) }
    requires right { sides.1.0 < length (trees_in table.now) }
    requires fact { slice_get (all_numbered facts.now) n ≡ Some (Ne sides.0.0 sides.1.0) }
    requires same { let b = branch_of table.now facts.now in
        IsTrue (b.equal (tree_at b.terms sides.0.0) (tree_at b.terms sides.1.0)) }
    ensures { IfOk result (λ c. IsRefuting table.now facts.now c) }
{
    let start = facts.len() as u64;
    let lines = classes.explain(alloc, sides.0, sides.1, start)?;
    let end = start + lines.len() as u64;
    Ok(closed_tree(lines, CertLine::Clash(end - 1, n)))
}

// Two terms of one class have linear forms that differ in the constant alone.
fn torn_tree<'a>(
    alloc: Global,
    classes: &Classes<'a>,
    table: &TermTable,
    terms: &Terms,
    facts: &[Formula],
    t: TermId,
    u: TermId,
) -> Result<CertTree, AllocError>
    requires whole { IsWhole (trees_in table.now) terms.now.list.items }
    requires classes { classes.now ≡ classes_by table.now terms.now.list.items facts.now }
    requires few { length facts.now < 2 ^ 62 }
    requires why { IsClosing (branch_of table.now facts.now) (why.Torn t u) }
    ensures { IfOk result (λ c. IsRefuting table.now facts.now c) }
{
    let start = facts.len() as u64;
    let mut lines = classes.explain(alloc, t, u, start)?;
    let end = start + lines.len() as u64;
    lines.push(CertLine::Apart(t, u))?;
    Ok(closed_tree(lines, CertLine::Clash(end - 1, end)))
}
