// The linear forms of a branch, and where each comes from.
ghost use Rattle.std.specs.Prelude.{◌≡◌, List, length};
ghost use Rattle.sm_term.specs.Terms.{Tree};
ghost use Rattle.sm_term.specs.Tables.{trees_in, sorts_in};
ghost use Rattle.sm_pairs.specs.Pairs.{Pairs};
ghost use Rattle.sm_judge.specs.AllForms.{AreAllForms};
ghost use Rattle.sm_judge.specs.Labelled.{AreLabels};
ghost use Rattle.sm_list.specs.Parts.{all_numbered, AreFormulasWithin};
ghost use Rattle.sm_judge.specs.Refutations.{GivesForms};
ghost use Rattle.sm_judge.specs.Seeing.{seen_in};
ghost use Rattle.sm_judge.specs.Forms.{forms_of};

use crate::linears::{add_fact_forms, class_forms};
use crate::pairs::class_pairs;
use crate::term_places::terms_have_places;
use sm_fm::Forms;
use sm_num::{LinForm, NumError};
use sm_pairs::Sees;
use sm_term::{Formula, TermId, TermTable};
use std::alloc::Global;

/// Where a form comes from.
#[derive(Clone, Copy)]
pub enum Source {
    /// Two numbers of one class are equal.
    Class(TermId, TermId),
    /// The fact at a place compares numbers.
    Fact(u64),
}

/// Forms, each with its source.
#[derive(Drop)]
pub struct SourcedForms {
    pub forms: Forms,
    pub sources: Vec<Source>,
}

/// The forms of the branch of these facts: of each number that isn't the first term of its class
/// that it equals this one, then those of the comparisons. The first operation that leaves the
/// range is told; its terms are those of the table, the forms those of the terms, and labels tell
/// their classes.
pub fn forms_of<S: Sees>(
    alloc: Global,
    sees: &S,
    labels: &[u64],
    table: &TermTable,
    forms: &[LinForm],
    facts: &[Formula],
) -> Result<SourcedForms, NumError>
    requires table { S.trees sees.now ≡ trees_in table.now }
    requires labels { AreLabels (trees_in table.now) (S.equal sees.now) labels.now }
    requires forms { AreAllForms (trees_in table.now) forms.now }
    requires facts { AreFormulasWithin (length (trees_in table.now)) (all_numbered facts.now) }
    ensures { let trees = trees_in table.now in
        let b = seen_in (sorts_in table.now) trees trees facts.now
        (S.equal sees.now) (S.apart sees.now) in
        GivesForms b (forms_of b) result }
{
    forms_by_labels(alloc, labels, table, forms, facts)
}

/// The forms of the branch of these facts by labels alone, whichever classes these tell.
pub fn forms_by_labels(
    alloc: Global,
    labels: &[u64],
    table: &TermTable,
    forms: &[LinForm],
    facts: &[Formula],
) -> Result<SourcedForms, NumError>
    requires counted { length labels.now ≡ length (trees_in table.now) }
    requires forms { AreAllForms (trees_in table.now) forms.now }
    requires facts { AreFormulasWithin (length (trees_in table.now)) (all_numbered facts.now) }
    ensures { let trees = trees_in table.now in
        (equal apart : Pairs) → AreLabels trees equal labels.now →
        let b = seen_in (sorts_in table.now) trees trees facts.now equal apart in
        GivesForms b (forms_of b) result }
{
    // No term is there twice.
    let _count = table.len();
    terms_have_places(table);
    let pairs = class_pairs(alloc, labels, table)?;
    let mut made = class_forms(alloc, forms, &pairs)?;
    add_fact_forms(alloc, &mut made, forms, facts)?;
    Ok(made)
}
