// Laws of what could stand behind a text, as contracts.
ghost use Rattle.sm_follow.specs.Laws.{OneFollowLine};

/// A text has one line of what could stand behind it.
pub fn one_follow_line()
    ensures { OneFollowLine }
{}
