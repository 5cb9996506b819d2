// Terms that a fact gives.
ghost use Rattle.std.specs.Prelude.{◌<◌, length, List, Ok, Err, Result, Some, IfOk};
ghost use Rattle.sm_syntax.specs.text.Sorts.{Sorts};
ghost use Rattle.sm_term.specs.Terms.{Tree};
ghost use Rattle.sm_term.specs.Tables.{trees_in, sorts_in};
ghost use Rattle.sm_theory.specs.Facts.{BranchFact};
ghost use Rattle.sm_theory.specs.Lines.{followed, formula_in};
ghost use Rattle.sm_theory.specs.Sides.{OptionStands};
ghost use Rattle.sm_theory.specs.Views.{AllStand, FactStands};
ghost use Rattle.sm_proof.specs.declared.word.Word.{Word};
ghost use Rattle.sm_proof.specs.declared.word.Word.TheVariants.{First, BadNumber};
ghost use Rattle.sm_proof.specs.Passing.{Pending, compared, term_of_fact};
ghost use Rattle.sm_check.specs.declared.fault.LineFault.TheVariants.{Wrong};
ghost use Rattle.sm_check.specs.Tells.{Tells};
ghost use Rattle.sm_check.specs.TermsMade.{IsTerm, ArePairOf};
ghost use Rattle.sm_check.specs.Pending.{DueStands};

use crate::fault::LineFault;
use crate::pending::Due;
use sm_proof::{Head, Word};
use sm_term::{Formula, TermId, TermTable};
use sm_theory::{Branch, Fact, fact_at};

/// A term of a fact of the branch that is due.
pub(crate) fn of_fact(
    table: &TermTable,
    due: &Due<'_>,
    path: &Branch,
    fact: u64,
    side: u8,
) -> Result<TermId, LineFault>
    ensures tells { let sorts = sorts_in table.now in let trees = trees_in table.now in
        (facts : List BranchFact) (first : Pending) →
        AllStand sorts trees path.now.list.items facts → DueStands sorts trees facts due.now first →
        Tells (IsTerm trees) result (term_of_fact first fact side) }
    ensures within { IfOk result (λ t. t.0 < length (trees_in table.now)) }
{
    if let Due::State { .. } = due {
        return Err(LineFault::Wrong { word: Word::Order });
    }
    let known = match fact_at(path, fact) {
        Some(known) => known,
        None => {
            return Err(LineFault::Wrong {
                word: Word::BadNumber,
            });
        }
    };
    match compared(known) {
        Some((t, u)) => {
            let chosen = if side == 0 { t } else { u };
            // The terms of facts are those of the table.
            if chosen.0 < table.len() {
                Ok(chosen)
            } else {
                Err(LineFault::Memory)
            }
        }
        None => Err(LineFault::Wrong {
            word: Word::First(Head::T),
        }),
    }
}

// The terms that a fact compares.
fn compared(fact: &Fact) -> Option<(TermId, TermId)>
    ensures { (sorts : Sorts) (trees : List Tree) (known : BranchFact) →
        FactStands sorts trees fact.now known →
        OptionStands (ArePairOf trees) result (followed (formula_in known) compared) }
{
    match fact {
        Fact::Form(Formula::Eq(t, u)) => Some((*t, *u)),
        Fact::Form(Formula::Ne(t, u)) => Some((*t, *u)),
        Fact::Form(Formula::Le(t, u)) => Some((*t, *u)),
        Fact::Form(Formula::Lt(t, u)) => Some((*t, *u)),
        _ => None,
    }
}
