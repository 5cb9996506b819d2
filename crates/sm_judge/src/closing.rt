// Whether a branch is closed at once, and by what it is split.
ghost use Rattle.std.specs.Prelude.{◌≡◌, length, IfOk, is_some};
ghost use Rattle.std.specs.List.{list_any};
ghost use Rattle.sm_term.specs.Tables.{trees_in, sorts_in};
ghost use Rattle.sm_judge.specs.AllForms.{AreAllForms};
ghost use Rattle.sm_judge.specs.Closings.{IfClosing};
ghost use Rattle.sm_judge.specs.Holding.{is_refuted, is_closed, split_of};
ghost use Rattle.sm_judge.specs.Labelled.{AreLabels};
ghost use Rattle.sm_list.specs.Parts.{all_numbered, assertions_in, AreFormulasWithin};
ghost use Rattle.sm_judge.specs.Seeing.{seen_in};
ghost use Rattle.sm_judge.specs.Splits.{split_told, IsToldWithin, SplitsBranch};

use crate::holding::is_refuted;
use crate::keyed::KeyedFacts;
use crate::splits::{first_index_split, first_order_split, first_part_split};
use crate::torn::torn_terms;
use sm_num::LinForm;
use sm_pairs::Sees;
use sm_term::{Formula, TermId, TermTable};
use sm_theory::CertLine;
use std::alloc::{AllocError, Global};

/// Why a branch is closed at once.
#[derive(Clone, Copy)]
pub enum Closing {
    /// The fact at a place can't hold by the classes.
    Refuted(u64),
    /// Two terms of one class have linear forms that differ in the constant alone.
    Torn(TermId, TermId),
}

/// Why the branch of these facts is closed at once, where it is; its terms are those of the table,
/// the forms those of the terms, and labels tell their classes.
pub fn closed_by<S: Sees>(
    alloc: Global,
    sees: &S,
    labels: &[u64],
    table: &TermTable,
    forms: &[LinForm],
    facts: &[Formula],
) -> Result<Option<Closing>, AllocError>
    requires table { S.trees sees.now ≡ trees_in table.now }
    requires labels { AreLabels (trees_in table.now) (S.equal sees.now) labels.now }
    requires forms { AreAllForms (trees_in table.now) forms.now }
    requires facts { AreFormulasWithin (length (trees_in table.now)) (all_numbered facts.now) }
    ensures closed { let trees = trees_in table.now in let sorts = sorts_in table.now in
        let b = seen_in sorts trees trees facts.now (S.equal sees.now) (S.apart sees.now) in
        IfOk result (λ o. is_some o ≡ is_closed b) }
    ensures why { let trees = trees_in table.now in let sorts = sorts_in table.now in
        let b = seen_in sorts trees trees facts.now (S.equal sees.now) (S.apart sees.now) in
        IfOk result (λ o. IfClosing b o) }
{
    if let Some(why) = refuted(sees, table, facts) {
        return Ok(Some(why));
    }
    match torn_terms(alloc, labels, table, forms)? {
        Some((t, u)) => Ok(Some(Closing::Torn(t, u))),
        None => Ok(None),
    }
}

// The first fact that can't hold by the classes.
fn refuted<S: Sees>(sees: &S, table: &TermTable, facts: &[Formula]) -> Option<Closing>
    requires table { S.trees sees.now ≡ trees_in table.now }
    requires facts { AreFormulasWithin (length (trees_in table.now)) (all_numbered facts.now) }
    ensures refuted { let trees = trees_in table.now in let sorts = sorts_in table.now in
        let b = seen_in sorts trees trees facts.now (S.equal sees.now) (S.apart sees.now) in
        is_some result ≡ list_any (is_refuted b) b.facts }
    ensures why { let trees = trees_in table.now in let sorts = sorts_in table.now in
        let b = seen_in sorts trees trees facts.now (S.equal sees.now) (S.apart sees.now) in
        IfClosing b result }
{
    for i in 0..facts.len() {
        if is_refuted(sees, table, &facts[i]) {
            return Some(Closing::Refuted(i as u64));
        }
    }
    None
}

/// By what a branch is split: the line of a certificate that splits it, and the formula that each
/// part gets.
#[derive(Drop)]
pub struct BranchSplit {
    pub line: CertLine,
    pub first: Formula,
    pub second: Formula,
}

/// By what the branch of these facts is split, where it is; its terms are those of the table.
pub fn split_of<S: Sees>(
    alloc: Global,
    sees: &S,
    table: &TermTable,
    facts: &[Formula],
) -> Result<Option<BranchSplit>, AllocError>
    requires table { S.trees sees.now ≡ trees_in table.now }
    requires facts { AreFormulasWithin (length (trees_in table.now)) (all_numbered facts.now) }
    ensures split { let trees = trees_in table.now in let sorts = sorts_in table.now in
        let b = seen_in sorts trees trees facts.now (S.equal sees.now) (S.apart sees.now) in
        IfOk result (λ o. split_told sorts trees o ≡ split_of b) }
    ensures within { IfOk result (λ o. IsToldWithin (length (trees_in table.now)) o) }

    // The line splits the branch of the facts into just these parts.
    ensures line { let sorts = sorts_in table.now in let trees = trees_in table.now in
        let all = assertions_in sorts trees (all_numbered facts.now) in
        IfOk result (λ o. SplitsBranch sorts trees all o) }
{
    if let Some(split) = first_index_split(sees, table) {
        return Ok(Some(split));
    }
    let keyed = KeyedFacts::of(alloc, facts)?;
    if let Some(split) = first_part_split(alloc, sees, table, &keyed)? {
        return Ok(Some(split));
    }
    Ok(first_order_split(table, &keyed))
}
