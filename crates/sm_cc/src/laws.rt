// What the computed classes are, as a contract.
ghost use Rattle.sm_cc.specs.Laws.{ClassesAreLeast};

/// The classes that are computed in rounds are the least congruence that has what is given: a reader
/// of what is seen by them may take two terms for equal exactly where each closed set of pairs has
/// them, and for known apart exactly where they are so by each.
pub fn classes_are_least()
    ensures { ClassesAreLeast }
{}
