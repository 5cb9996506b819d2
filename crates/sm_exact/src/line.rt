// The exact line.
ghost use Rattle.std.specs.Prelude.{◌≡◌, ℕ, List, Some, None, IfOk, IfSome, IfNone};
ghost use Rattle.sm_num.specs.Forms.{Linear};
ghost use Rattle.sm_omega.specs.Exact.{exact};
ghost use Rattle.sm_omega.specs.Rules.{Answer};
ghost use Rattle.sm_term.specs.Tables.{trees_in, sorts_in};
ghost use Rattle.sm_theory.specs.Facts.{BranchFact};
ghost use Rattle.sm_theory.specs.ExactLine.{exact_adds, forms_of_branch, has_no_solution};
ghost use Rattle.sm_theory.specs.Views.{AllStand, StandsIf};
ghost use Rattle.sm_exact.specs.Telling.{TellsExact};

use crate::answer::ExactAnswer;
use crate::branch_terms::terms_of;
use crate::deciding::decided;
use crate::placing::placed_forms;
use sm_num::LinForm;
use sm_term::{Formula, TermTable};
use sm_theory::{Branch, Fact};
use std::alloc::{AllocError, Global};

// The fact that the exact line adds.
pub(crate) fn check_exact(
    alloc: Global,
    table: &TermTable,
    branch: &Branch,
    steps: u64,
) -> Result<Option<Fact>, AllocError>
    ensures { let trees = trees_in table.now in let sorts = sorts_in table.now in
        (facts : List BranchFact) → AllStand sorts trees branch.now.list.items facts →
        IfOk result (λ o. StandsIf sorts trees o (exact_adds facts steps)) }
{
    if steps > 1_000_000 {
        return Ok(None);
    }
    let Some(forms) = branch_forms(alloc, table, branch)? else {
        return Ok(None);
    };
    let is_refuted = has_no_solution(alloc, &forms, steps)?;
    if is_refuted {
        return Ok(Some(Fact::Form(Formula::No)));
    }
    Ok(None)
}

// The linear facts of a branch, over the places of their atoms among the terms of its formulas; none
// where an atom has no place.
fn branch_forms(
    alloc: Global,
    table: &TermTable,
    branch: &Branch,
) -> Result<Option<Vec<LinForm>>, AllocError>
    ensures some { let trees = trees_in table.now in let sorts = sorts_in table.now in
        (facts : List BranchFact) → AllStand sorts trees branch.now.list.items facts →
        IfOk result (λ o. IfSome o (λ fs. forms_of_branch facts ≡ Some fs.items)) }
    ensures none { let trees = trees_in table.now in let sorts = sorts_in table.now in
        (facts : List BranchFact) → AllStand sorts trees branch.now.list.items facts →
        IfOk result (λ o. IfNone o (forms_of_branch facts ≡ None)) }
{
    // No term is there twice.
    let _count = table.len();
    let terms = terms_of(alloc, table, branch)?;
    placed_forms(alloc, &terms, branch)
}

// Whether the decision of forms in so many steps says that there is no solution.
fn has_no_solution(alloc: Global, forms: &[LinForm], steps: u64) -> Result<bool, AllocError>
    ensures { IfOk result (λ b. b ≡ has_no_solution (exact forms.now steps)) }
{
    let answer = decided(alloc, forms, steps)?;
    Ok(is_refuted(&answer))
}

// Whether an answer says that there is no solution.
fn is_refuted(answer: &ExactAnswer) -> bool
    ensures { (forms : List (Linear ℕ)) (whole : Answer) → TellsExact forms whole answer.now →
        result ≡ has_no_solution whole }
{
    match answer {
        ExactAnswer::Refuted { .. } => true,
        ExactAnswer::Solution(_) => false,
        ExactAnswer::Steps => false,
        ExactAnswer::Beyond { .. } => false,
    }
}
