// What the forms of a branch come to.
ghost use Rattle.std.specs.Prelude.{◌≡◌, ◌≤◌, ℕ, List, length, IfOk};
ghost use Rattle.sm_term.specs.Terms.{Tree};
ghost use Rattle.sm_term.specs.Tables.{trees_in, sorts_in};
ghost use Rattle.sm_judge.specs.AllForms.{AreAllForms};
ghost use Rattle.sm_judge.specs.Labelled.{AreLabels};
ghost use Rattle.sm_list.specs.Parts.{all_numbered, AreFormulasWithin};
ghost use Rattle.sm_judge.specs.Refutations.{TellsForms, ShowsWhy, IsCountWithin};
ghost use Rattle.sm_judge.specs.Seeing.{seen_in};
ghost use Rattle.sm_judge.specs.Forms.{Walked, by_forms, forms_of};

use crate::forms::{Source, forms_of};
use crate::summing::eliminate;
use sm_num::{LinForm, NumError, Op};
use sm_pairs::Sees;
use sm_term::{Formula, TermId, TermTable};
use std::alloc::{AllocError, Global};

/// A sum of two forms, by their places, without an atom.
#[derive(Clone, Copy)]
pub struct ElimLine {
    pub f: u64,
    pub g: u64,
    pub atom: TermId,
}

/// How forms come to a contradiction: where each comes from, sums, each of which goes behind them,
/// and the place of the form that can't hold.
#[derive(Drop)]
pub struct Refutation {
    pub sources: Vec<Source>,
    pub elims: Vec<ElimLine>,
    pub bad: u64,
}

/// What the forms of a branch come to.
#[derive(Drop)]
pub enum ByForms {
    /// A contradiction, with the count of steps so far.
    Contradiction { count: u64, refutation: Refutation },
    /// None, with the count of steps so far.
    GoesOn { count: u64 },
    /// No step is left.
    Steps,
    /// An operation leaves the range.
    Coefficient { op: Op, a: i128, b: i128 },
}

/// How far a walk is.
#[derive(Clone, Copy)]
pub struct Progress {
    /// So many steps were taken.
    pub count: u64,
    /// So many may be.
    pub steps: u64,
}

/// What the forms of the branch of these facts come to after the steps so far; its terms are those
/// of the table, the forms those of the terms, and labels tell their classes.
pub fn by_forms<S: Sees>(
    alloc: Global,
    sees: &S,
    labels: &[u64],
    table: &TermTable,
    forms: &[LinForm],
    facts: &[Formula],
    so_far: Progress,
) -> Result<ByForms, AllocError>
    requires table { S.trees sees.now ≡ trees_in table.now }
    requires labels { AreLabels (trees_in table.now) (S.equal sees.now) labels.now }
    requires forms { AreAllForms (trees_in table.now) forms.now }
    requires facts { AreFormulasWithin (length (trees_in table.now)) (all_numbered facts.now) }
    requires counted { so_far.count ≤ so_far.steps }
    ensures forms { let trees = trees_in table.now in
        let b = seen_in (sorts_in table.now) trees trees facts.now
        (S.equal sees.now) (S.apart sees.now) in
        (next : ℕ → Walked) → IfOk result (λ r. TellsForms r
        (by_forms so_far.steps so_far.count (length trees) (forms_of b) next) next) }
    ensures why { let trees = trees_in table.now in
        let b = seen_in (sorts_in table.now) trees trees facts.now
        (S.equal sees.now) (S.apart sees.now) in
        IfOk result (λ r. ShowsWhy b r) }
    ensures counted { IfOk result (λ r. IsCountWithin so_far.steps r) }
{
    match forms_of(alloc, sees, labels, table, forms, facts) {
        Ok(made) => eliminate(alloc, made, table.len(), so_far),
        Err(NumError::Beyond { op, a, b }) => Ok(ByForms::Coefficient { op, a, b }),
        Err(NumError::Memory) => Err(AllocError),
    }
}
