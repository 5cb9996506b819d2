// Sums of forms in which an atom cancels, and tight forms.
ghost use Rattle.std.specs.Prelude.{◌<◌, List, length, IfOk};
ghost use Rattle.sm_num.specs.Forms.{Linear};
ghost use Rattle.sm_term.specs.Terms.{Tree};
ghost use Rattle.sm_term.specs.Tables.{trees_in, sorts_in, tree_at};
ghost use Rattle.sm_theory.specs.Facts.{BranchFact};
ghost use Rattle.sm_theory.specs.Lines.{Elim, Tight};
ghost use Rattle.sm_theory.specs.Arithmetic.{cancelled, arithmetic_adds};
ghost use Rattle.sm_theory.specs.Standing.{IsKeptFor};
ghost use Rattle.sm_theory.specs.Views.{AllStand, StandsIf};

use crate::computing::fact_of;
use sm_num::{LinForm, cancels, elim as eliminate, tighten};
use sm_term::{TermId, TermTable};
use sm_theory::{Branch, Fact, form_at};
use std::alloc::{AllocError, Global};

// The fact of `elim`: the sum of the forms `m` and `n` in which the term cancels.
pub(crate) fn elim(
    alloc: Global,
    table: &TermTable,
    branch: &Branch,
    m: u64,
    n: u64,
    t: TermId,
) -> Result<Option<Fact>, AllocError>
    requires { t.0 < length (trees_in table.now) }
    ensures { let trees = trees_in table.now in let sorts = sorts_in table.now in
        (facts : List BranchFact) → AllStand sorts trees branch.now.list.items facts →
        IfOk result (λ o. StandsIf sorts trees o
        (arithmetic_adds sorts facts (Elim m n (tree_at trees t.0)))) }
{
    match form_at(branch, m) {
        Some(f) => match form_at(branch, n) {
            Some(g) => cancel(alloc, table, f, g, t),
            None => Ok(None),
        },
        None => Ok(None),
    }
}

// The sum of two forms in which a term cancels.
fn cancel(
    alloc: Global,
    table: &TermTable,
    f: &LinForm,
    g: &LinForm,
    t: TermId,
) -> Result<Option<Fact>, AllocError>
    requires { t.0 < length (trees_in table.now) }
    ensures { let trees = trees_in table.now in let sorts = sorts_in table.now in
        (h i : Linear Tree) → IsKeptFor trees f.now h → IsKeptFor trees g.now i →
        IfOk result (λ o. StandsIf sorts trees o (cancelled (tree_at trees t.0) h i)) }
{
    // No term is there twice.
    let _count = table.len();
    if !cancels(f, g, t.0) {
        return Ok(None);
    }
    fact_of(eliminate(alloc, f, g, t.0))
}

// The fact of `tight`: the form `n` made tight.
pub(crate) fn tight(
    alloc: Global,
    table: &TermTable,
    branch: &Branch,
    n: u64,
) -> Result<Option<Fact>, AllocError>
    ensures { let trees = trees_in table.now in let sorts = sorts_in table.now in
        (facts : List BranchFact) → AllStand sorts trees branch.now.list.items facts →
        IfOk result (λ o. StandsIf sorts trees o (arithmetic_adds sorts facts (Tight n))) }
{
    // No term is there twice.
    let _count = table.len();
    match form_at(branch, n) {
        Some(f) => fact_of(tighten(alloc, f)),
        None => Ok(None),
    }
}
