// Laws of answers, as contracts.
ghost use Rattle.sm_display.specs.Laws.{BeginsAsRefused, BeginsAsReplayed};

/// Where the file gives no task, `explain` has the status of every command on it, and begins with
/// their line.
pub fn begins_as_refused()
    ensures { BeginsAsRefused }
{}

/// Where an input is named, it has the status of `replay`, and begins with its line.
pub fn begins_as_replayed()
    ensures { BeginsAsReplayed }
{}
