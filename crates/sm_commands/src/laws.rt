// Laws of answers, as contracts.
ghost use Rattle.sm_commands.specs.Laws.{OneAnswer};

/// Two answers to words that ask for the same and told files, each without a fault to read or to
/// write, are equal: one status, and one text, whatever the number of workers.
pub fn one_answer()
    ensures { OneAnswer }
{}
