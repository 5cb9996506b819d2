// Laws of runs and of merges, as contracts.
ghost use Rattle.sm_syntax.specs.Laws.{MoreTurns, RunOfAppended, UnassignedStays, KeepsExactly, WellSortedIsAll};

/// A greater bound on the turns of loops changes no end.
#[tactic(auto, using(crate::proofs::Turns::more_turns))]
pub fn more_turns()
    ensures { MoreTurns }
{}

/// One list of statements after another runs on from the end of the first.
#[tactic(auto, using(crate::proofs::Appends::appended_runs))]
pub fn run_of_appended()
    ensures { RunOfAppended }
{}

/// What a program doesn't assign stays.
#[tactic(auto, using(crate::proofs::Unassigned::unassigned))]
pub fn unassigned_stays()
    ensures { UnassignedStays }
{}

/// `Keeps` says which value the merge has.
#[tactic(auto, using(crate::proofs::Kept::keeps_exactly))]
pub fn keeps_exactly()
    ensures { KeepsExactly }
{}

/// Code is well sorted exactly where each name that it uses is declared as it stands there.
#[tactic(auto, using(crate::proofs::EachUse::well_sorted_is_all))]
pub fn well_sorted_is_all()
    ensures { WellSortedIsAll }
{}
