// Certificates of branches whose forms have no solution by the exact decision.
ghost use Rattle.std.specs.Prelude.{◌≡◌, ◌<◌, ◌^◌, List, [], ◌++◌, length, IfOk};
ghost use Rattle.sm_term.specs.Sorted.{AreFormsSorted};
ghost use Rattle.sm_term.specs.Tables.{trees_in, sorts_in};
ghost use Rattle.sm_term.specs.Terms.{Tree};
ghost use Rattle.sm_theory.specs.Facts.{as_facts};
ghost use Rattle.sm_theory.specs.TermsOfFormulas.{all_terms};
ghost use Rattle.sm_cert.specs.Certificates.{splits_above};
ghost use Rattle.sm_cert.specs.Views.{certificate_in, lines_of, AreLinesWithin};
ghost use Rattle.sm_list.specs.Parts.{all_numbered, assertions_in, AreFormulasWithin};
ghost use Rattle.sm_certify.specs.Decided.{AreDecided};
ghost use Rattle.sm_certify.specs.Deciding.{StandInOrder};
ghost use Rattle.sm_certify.specs.Given.{IsWhole, classes_by, branch_of};
ghost use Rattle.sm_certify.specs.Refutes.{Refutes};

use crate::draft::{CertBuilder, add_lines_of, closed_tree, next_number};
use crate::named::count_named;
use sm_cc::Classes;
use sm_cert::CertTree;
use sm_judge::{Source, terms_have_places};
use sm_term::{Formula, TermId, TermTable, Terms};
use sm_theory::CertLine;
use std::alloc::{AllocError, Global};

/// A certificate of a branch whose forms have no solution by the exact decision, which takes so many
/// steps: lines that name each term that the branch's formulas don't, those that give the forms, and
/// the line of the decision.
pub fn exact_tree<'a>(
    alloc: Global,
    classes: &Classes<'a>,
    table: &TermTable,
    terms: &Terms,
    facts: &[Formula],
    sources: &[Source],
    count: u64,
) -> Result<CertTree, AllocError>
    requires whole { IsWhole (trees_in table.now) terms.now.list.items }
    requires classes { classes.now ≡ classes_by table.now terms.now.list.items facts.now }
    requires within { AreFormulasWithin (length (trees_in table.now)) (all_numbered facts.now) }
    requires sorted { AreFormsSorted (sorts_in table.now)
        (assertions_in (sorts_in table.now) (trees_in table.now) (all_numbered facts.now)) }
    requires few { length facts.now < 2 ^ 62 }

    // The terms that the formulas name stand first in the table.
    requires first { let trees = trees_in table.now in
        let all = assertions_in (sorts_in table.now) trees (all_numbered facts.now) in
        (more : List Tree) × (trees ≡ all_terms all ++ more) }
    requires why { AreDecided (branch_of table.now facts.now) sources.now count }
    ensures refutes { let trees = trees_in table.now in
        let all = assertions_in (sorts_in table.now) trees (all_numbered facts.now) in
        IfOk result (λ c. Refutes (sorts_in table.now) (as_facts all) (certificate_in trees c)) }
    ensures within { IfOk result (λ c. AreLinesWithin (length (trees_in table.now)) (lines_of c)) }
    ensures splits { IfOk result (λ c.
        splits_above (certificate_in (trees_in table.now) c) ≡ 0) }
{
    // No term is there twice.
    table.len();
    terms_have_places(table);
    let lines = naming_lines(alloc, table, facts)?;
    let mut draft = CertBuilder {
        lines,
        numbers: Vec::new(alloc),
    };
    for source in sources {
        add_lines_of(alloc, classes, table, facts, *source, &mut draft)?;
    }
    let number = next_number(facts.len() as u64, &draft.lines);
    draft.lines.push(CertLine::Exact(count))?;
    let tree = closed_tree(draft.lines, CertLine::Close(number));
    Ok(tree)
}

// Lines that name each term of the table that the formulas don't.
fn naming_lines(
    alloc: Global,
    table: &TermTable,
    facts: &[Formula],
) -> Result<Vec<CertLine>, AllocError>
    requires within { AreFormulasWithin (length (trees_in table.now)) (all_numbered facts.now) }
    requires first { let trees = trees_in table.now in
        let all = assertions_in (sorts_in table.now) trees (all_numbered facts.now) in
        (more : List Tree) × (trees ≡ all_terms all ++ more) }
    ensures { let b = branch_of table.now facts.now in
        IfOk result (λ v. StandInOrder b b.terms v.items []) }
{
    let named = count_named(alloc, table, facts)?;
    let mut lines = Vec::new(alloc);
    for n in named as u64..table.len() {
        // Its arguments stand before it.
        table.get(TermId(n));
        lines.push(CertLine::Refl(TermId(n)))?;
    }
    Ok(lines)
}
