// Laws of violations, of answers and of tasks, as contracts.
ghost use Rattle.sm_replay.specs.Laws.{ViolationsConflict, ValidTasksRun, SpelledNamesAreFound, VerdictIsOne, LeastTrialIsOne, FirstViolationIsOne, ReadingIsOne, WrittenTextIsOne};

/// An input that violates the condition is a conflict of the merge.
pub fn violations_conflict()
    ensures { ViolationsConflict }
{}

/// A task that meets all conditions may be run.
#[tactic(auto, using(crate::proofs::RunnableTasks::valid_runs))]
pub fn valid_tasks_run()
    ensures { ValidTasksRun }
{}

/// The declared names of a text's task are found by their texts.
pub fn spelled_names_are_found()
    ensures { SpelledNamesAreFound }
{}

/// A task, a store and a bound on turns have one answer, but for want of memory.
pub fn verdict_is_one()
    ensures { VerdictIsOne }
{}

/// The least trial that violates is one, and so is the verdict that says where.
pub fn least_trial_is_one()
    ensures { LeastTrialIsOne }
{}

/// What is found among the trials is one.
pub fn first_violation_is_one()
    ensures { FirstViolationIsOne }
{}

/// The bytes of an input give one store or one error, but for want of memory.
pub fn reading_is_one()
    ensures { ReadingIsOne }
{}

/// A store is written as one list of members, and so as one text.
pub fn written_text_is_one()
    ensures { WrittenTextIsOne }
{}
