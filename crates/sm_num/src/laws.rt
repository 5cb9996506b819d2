// Laws of linear forms, as contracts.
ghost use Rattle.sm_num.specs.FormLaws.{OrderDoesNotMatter, OrderDoesNotMatterToElim, NumberingDoesNotMatter, NumberingDoesNotMatterToElim, CombinedHasValue, ElimHolds, TightenHolds, ContradictionFails, CombinedIsKept, ElimIsKept};
ghost use Rattle.sm_num.specs.FormLaws.{TightenIsKept, ElimTakesAtom, ElimAddsNoAtom};

use crate::form::LinForm;

/// By ascending atoms and in the order of the parts one sum is computed, or none.
#[tactic(auto, using(crate::proofs::OrderLemmas::combined_alike))]
pub fn order_does_not_matter()
    ensures { OrderDoesNotMatter }
{}

/// By ascending atoms and in the order of the parts one sum is computed, or none, where an atom
/// cancels.
#[tactic(auto, using(crate::proofs::OrderLemmas::eliminated_alike))]
pub fn order_does_not_matter_to_elim()
    ensures { OrderDoesNotMatterToElim }
{}

/// Atoms may be numbered anew before forms are added, or after.
#[tactic(auto, using(crate::proofs::RenamingLemmas::combination_renamed))]
pub fn numbering_does_not_matter()
    ensures { NumberingDoesNotMatter }
{}

/// Atoms may be numbered anew before forms are added, or after, where an atom cancels.
#[tactic(auto, using(crate::proofs::RenamingLemmas::elimination_renamed))]
pub fn numbering_does_not_matter_to_elim()
    ensures { NumberingDoesNotMatterToElim }
{}

/// A sum of forms, each times a number, has the sum of their values, each times its number.
#[tactic(auto, using(crate::proofs::FormValues::combined_value))]
pub fn combined_has_value()
    ensures { CombinedHasValue }
{}

/// Where two forms hold, so does their sum in which an atom cancels.
#[tactic(auto, using(crate::proofs::EliminationSound::eliminated_holds))]
pub fn elim_holds()
    ensures { ElimHolds }
{}

/// A form and its tight form say the same of whole numbers.
#[tactic(auto, using(crate::proofs::TighteningSound::tighten_means))]
pub fn tighten_holds()
    ensures { TightenHolds }
{}

/// A contradiction never holds.
#[tactic(auto, using(crate::proofs::TighteningSound::contradictory_never))]
pub fn contradiction_fails()
    ensures { ContradictionFails }
{}

/// The sum of kept forms is kept.
#[tactic(auto, using(crate::proofs::KeptLemmas::combined_is_kept))]
pub fn combined_is_kept()
    ensures { CombinedIsKept }
{}

/// The sum of kept forms in which an atom cancels is kept.
pub fn elim_is_kept()
    ensures { ElimIsKept }
{}

/// A kept form made tight is kept.
pub fn tighten_is_kept()
    ensures { TightenIsKept }
{}

/// The atom that cancels is gone.
#[tactic(auto, using(crate::proofs::KeptLemmas::eliminated_takes_atom))]
pub fn elim_takes_atom()
    ensures { ElimTakesAtom }
{}

/// No atom comes that neither form has.
#[tactic(auto, using(crate::proofs::KeptLemmas::eliminated_adds_no_atom))]
pub fn elim_adds_no_atom()
    ensures { ElimAddsNoAtom }
{}

/// Linear forms can be used by several threads, and handed over.
pub fn types_cross_threads() {
    crosses::<LinForm>();
}

fn crosses<T: Send + Sync>() {}
