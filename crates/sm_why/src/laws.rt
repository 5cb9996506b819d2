// A law of final goals, as a contract.
ghost use Rattle.sm_why.specs.Goals.{FinalGoalsAskClauses};

/// The final goal with number `n` of a plan's node asks clause `n % 3` of output `n / 3`, each counted
/// from 0.
pub fn final_goals_ask_clauses()
    ensures { FinalGoalsAskClauses }
{}
