// What plans prove, as contracts.
ghost use Rattle.sm_plan.specs.Cases.{CasesComeOut};
ghost use Rattle.sm_plan.specs.Example.{ExampleHolds};
ghost use Rattle.sm_plan.specs.Laws.{NodeIsSound, NodeStaysBelow, NodeGoalsBelow, StartIsBelow, SoundStartIsFree, PlanIsSound, NodesAreSound, PlanNodesProve, NodesArePlan, SubsetsAscend, MaskIsExact, SortsAreKept, StartIsSorted};

/// A state is sound where a node's goals are valid and the states that it opens are sound.
pub fn node_is_sound()
    ensures sound { NodeIsSound }
    ensures below { NodeStaysBelow }
    ensures goals { NodeGoalsBelow }
{}

/// Where the start of a task is sound, the task is free of conflicts.
pub fn start_is_sound()
    ensures below { StartIsBelow }
    ensures free { SoundStartIsFree }
{}

/// A fresh plan whose obligations all hold makes its task free of conflicts.
pub fn plan_is_sound()
    ensures { PlanIsSound }
{}

/// Where nodes prove the start of a task, one pending state after another, the task is free of
/// conflicts.
pub fn nodes_are_sound()
    ensures { NodesAreSound }
{}

/// The nodes of a plan whose obligations hold prove its task's start, and nodes that prove it are
/// those of such a plan.
pub fn nodes_are_plans()
    ensures prove { PlanNodesProve }
    ensures plan { NodesArePlan }
{}

/// The turns of loops stand by ascending masks, which say what the sets are.
pub fn subsets_ascend()
    ensures ascend { SubsetsAscend }
    ensures exact { MaskIsExact }
{}

/// A worked plan of a loop with a hole, in which two copies are edited, meets the law on plans.
pub fn example_holds()
    ensures { ExampleHolds }
{}

/// Three cases come out as they were worked by hand.
pub fn cases_come_out()
    ensures { CasesComeOut }
{}

/// Sorts are kept: what a node opens at a sorted state is sorted, and so are the goals that it
/// asks. The start of a sorted task is sorted.
pub fn sorts_are_kept()
    ensures kept { SortsAreKept }
    ensures start { StartIsSorted }
{}
