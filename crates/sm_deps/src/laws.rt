// Laws of what code needs and assigns, as contracts.
ghost use Rattle.sm_deps.specs.Laws.{InputsAreNeeded, InputsDecide, InputsDecideBySort, InputsAreDeclared, AssignedAreDeclared};

/// The inputs of code for a name are exactly the names that it needs, ascending.
pub fn inputs_are_needed()
    ensures { InputsAreNeeded }
{}

/// Runs from stores that agree on the inputs for a name both end or neither does, and agree on the
/// name where they end.
#[tactic(auto, using(crate::proofs::InputsSound::inputs_alike))]
pub fn inputs_decide()
    ensures { InputsDecide }
{}

/// Well-sorted code does so from stores that agree by sort.
#[tactic(auto, using(crate::proofs::InputsSound::inputs_alike_by_sort))]
pub fn inputs_decide_by_sort()
    ensures { InputsDecideBySort }
{}

/// What well-sorted code needs for a declared name, and what it assigns, is declared.
#[tactic(auto, using(crate::proofs::InputsDeclared::names_declared))]
pub fn names_are_declared()
    ensures inputs { InputsAreDeclared }
    ensures assigned { AssignedAreDeclared }
{}
