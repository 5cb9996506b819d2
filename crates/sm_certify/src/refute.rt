// Certificates of branches whose forms come to a contradiction.
ghost use Rattle.std.specs.Prelude.{◌≡◌, ℕ, ◌<◌, ◌^◌, List, [], ◌∷◌, length, IfOk, OnOk};
ghost use Rattle.sm_term.specs.Sorted.{AreFormsSorted};
ghost use Rattle.sm_term.specs.Tables.{trees_in, sorts_in};
ghost use Rattle.sm_term.specs.TableLaws.{AreApart};
ghost use Rattle.sm_theory.specs.Facts.{as_facts};
ghost use Rattle.sm_cert.specs.Certificates.{splits_above};
ghost use Rattle.sm_cert.specs.Views.{certificate_in, lines_of, AreLinesWithin};
ghost use Rattle.sm_judge.specs.declared.eliminating.ElimLine.{ElimLine};
ghost use Rattle.sm_judge.specs.declared.forms.Source.{Source};
ghost use Rattle.sm_certify.specs.Refutes.{Refutes};
ghost use Rattle.sm_certify.specs.Given.{IsWhole, classes_by, branch_of};
ghost use Rattle.sm_list.specs.Parts.{all_numbered, assertions_in, AreFormulasWithin};
ghost use Rattle.sm_judge.specs.Refutations.{IsRefutation};
ghost use Rattle.sm_judge.specs.Places.{HavePlaces};
ghost use Rattle.sm_certify.specs.Refuting.{IsUsable, Leads, mark_at};

use crate::draft::{
    CertBuilder, add_form, add_lines_of, closed_tree, is_next_marked, number_at, skip,
};
use crate::marks::{FormMarks, marks_of};
use sm_cc::Classes;
use sm_cert::CertTree;
use sm_judge::{ElimLine, Refutation, Source, terms_have_places};
use sm_term::{Formula, TermTable, Terms};
use sm_theory::CertLine;
use std::alloc::{AllocError, Global};

/// A certificate of a branch whose forms come to a contradiction. It has no lines for forms that
/// the contradiction doesn't need.
pub fn refutation_tree<'a>(
    alloc: Global,
    classes: &Classes<'a>,
    table: &TermTable,
    terms: &Terms,
    facts: &[Formula],
    refutation: &Refutation,
) -> Result<CertTree, AllocError>
    requires whole { IsWhole (trees_in table.now) terms.now.list.items }
    requires classes { classes.now ≡ classes_by table.now terms.now.list.items facts.now }
    requires within { AreFormulasWithin (length (trees_in table.now)) (all_numbered facts.now) }
    requires sorted { AreFormsSorted (sorts_in table.now)
        (assertions_in (sorts_in table.now) (trees_in table.now) (all_numbered facts.now)) }
    requires few { length facts.now < 2 ^ 62 }
    requires why { IsRefutation (branch_of table.now facts.now) refutation.now }
    ensures refutes { let trees = trees_in table.now in
        let all = assertions_in (sorts_in table.now) trees (all_numbered facts.now) in
        IfOk result (λ c. Refutes (sorts_in table.now) (as_facts all) (certificate_in trees c)) }
    ensures within { IfOk result (λ c. AreLinesWithin (length (trees_in table.now)) (lines_of c)) }
    ensures splits { IfOk result (λ c.
        splits_above (certificate_in (trees_in table.now) c) ≡ 0) }
{
    // No term is there twice.
    table.len();
    terms_have_places(table);
    let marks = marks_of(alloc, refutation)?;
    let mut draft = CertBuilder {
        lines: Vec::new(alloc),
        numbers: Vec::new(alloc),
    };
    add_sources(alloc, classes, table, facts, refutation, &marks, &mut draft)?;
    add_sums(table, facts, refutation, &marks, &mut draft)?;
    let bad = number_at(&draft, refutation.bad);
    let tree = closed_tree(draft.lines, CertLine::Close(bad));
    Ok(tree)
}

// Adds the lines of all sources that are marked.
fn add_sources<'a>(
    alloc: Global,
    classes: &Classes<'a>,
    table: &TermTable,
    facts: &[Formula],
    refutation: &Refutation,
    marks: &FormMarks,
    draft: &mut CertBuilder,
) -> Result<(), AllocError>
    requires whole { IsWhole (trees_in table.now) classes.now.terms }
    requires classes { classes.now ≡ classes_by table.now classes.now.terms facts.now }
    requires within { AreFormulasWithin (length (trees_in table.now)) (all_numbered facts.now) }
    requires few { length facts.now < 2 ^ 62 }
    requires apart { AreApart (trees_in table.now) }
    requires places { HavePlaces (trees_in table.now) }
    requires leads { Leads (branch_of table.now facts.now) (mark_at marks.now.list.items)
        draft.old.lines.items draft.old.numbers.items
        refutation.now.sources.items refutation.now.elims.items refutation.now.bad }
    ensures { OnOk result (Leads (branch_of table.now facts.now) (mark_at marks.now.list.items)
        draft.new.lines.items draft.new.numbers.items
        [] refutation.now.elims.items refutation.now.bad) }
{
    for source in &refutation.sources {
        add_source(alloc, classes, table, facts, *source, marks, draft)?;
    }
    Ok(())
}

// Adds the lines of a source, if it is marked.
fn add_source<'a>(
    alloc: Global,
    classes: &Classes<'a>,
    table: &TermTable,
    facts: &[Formula],
    source: Source,
    marks: &FormMarks,
    draft: &mut CertBuilder,
) -> Result<(), AllocError>
    requires whole { IsWhole (trees_in table.now) classes.now.terms }
    requires classes { classes.now ≡ classes_by table.now classes.now.terms facts.now }
    requires within { AreFormulasWithin (length (trees_in table.now)) (all_numbered facts.now) }
    requires few { length facts.now < 2 ^ 62 }
    requires apart { AreApart (trees_in table.now) }
    requires places { HavePlaces (trees_in table.now) }
    requires usable { IsUsable (branch_of table.now facts.now) source }
    ensures { (rest : List Source) (elims : List ElimLine) (bad : ℕ) →
        Leads (branch_of table.now facts.now) (mark_at marks.now.list.items)
        draft.old.lines.items draft.old.numbers.items (source ∷ rest) elims bad →
        OnOk result (Leads (branch_of table.now facts.now) (mark_at marks.now.list.items)
        draft.new.lines.items draft.new.numbers.items rest elims bad) }
{
    if !is_next_marked(marks, draft) {
        skip(draft)?;
        return Ok(());
    }
    add_lines_of(alloc, classes, table, facts, source, draft)?;
    Ok(())
}

// Adds the lines of all sums that are marked.
fn add_sums(
    table: &TermTable,
    facts: &[Formula],
    refutation: &Refutation,
    marks: &FormMarks,
    draft: &mut CertBuilder,
) -> Result<(), AllocError>
    requires few { length facts.now < 2 ^ 62 }
    requires apart { AreApart (trees_in table.now) }
    requires leads { Leads (branch_of table.now facts.now) (mark_at marks.now.list.items)
        draft.old.lines.items draft.old.numbers.items
        [] refutation.now.elims.items refutation.now.bad }
    ensures { OnOk result (Leads (branch_of table.now facts.now) (mark_at marks.now.list.items)
        draft.new.lines.items draft.new.numbers.items [] [] refutation.now.bad) }
{
    for elim in &refutation.elims {
        add_sum(table, facts, *elim, marks, draft)?;
    }
    Ok(())
}

// Adds the line of a sum, if it is marked.
fn add_sum(
    table: &TermTable,
    facts: &[Formula],
    made: ElimLine,
    marks: &FormMarks,
    draft: &mut CertBuilder,
) -> Result<(), AllocError>
    requires few { length facts.now < 2 ^ 62 }
    requires apart { AreApart (trees_in table.now) }
    requires first { made.f < length draft.old.numbers.items }
    requires second { made.g < length draft.old.numbers.items }
    ensures { (rest : List ElimLine) (bad : ℕ) →
        Leads (branch_of table.now facts.now) (mark_at marks.now.list.items)
        draft.old.lines.items draft.old.numbers.items [] (made ∷ rest) bad →
        OnOk result (Leads (branch_of table.now facts.now) (mark_at marks.now.list.items)
        draft.new.lines.items draft.new.numbers.items [] rest bad) }
{
    let _table = table;
    if !is_next_marked(marks, draft) {
        skip(draft)?;
        return Ok(());
    }
    let f = number_at(draft, made.f);
    let g = number_at(draft, made.g);
    add_form(draft, CertLine::Elim(f, g, made.atom), facts.len() as u64)?;
    Ok(())
}
