// Laws of tasks and of their refusals, as contracts.
ghost use Rattle.sm_task.specs.Laws.{FaultOrCondition, OneCondition, OneRefusal, OneTask, TaskOrRefusal};

/// A text spells at most one task, with the same parts and the same names.
pub fn one_task()
    ensures { OneTask }
{}

/// Of the conditions on a task at most one is the first that fails.
pub fn one_condition()
    ensures { OneCondition }
{}

/// A text of which a condition fails has no fault.
pub fn fault_or_condition()
    ensures { FaultOrCondition }
{}

/// A text is refused with at most one error.
pub fn one_refusal()
    ensures { OneRefusal }
{}

/// A text that spells a task is refused with no error.
pub fn task_or_refusal()
    ensures { TaskOrRefusal }
{}
