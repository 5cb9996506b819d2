// The gate that each job enters before it runs.

/// What a job is for.
#[derive(Clone, Copy, Debug)]
pub enum Phase {
    Trial,
    Obligation,
    Certificate,
    Answer,
}

/// Something that is told of each job directly before it runs. It takes no memory and changes no
/// result. It may be shut: then no further job runs, and who calls jobs answers as after want of
/// memory.
pub trait Gate: Sync {
    fn enter(&self, phase: Phase);

    /// Whether no further job is to run.
    fn is_shut(&self) -> bool {
        false
    }

    /// Whether it may be shut while jobs are left. Work that could do without jobs is parted into
    /// some then.
    fn may_shut(&self) -> bool {
        false
    }

    /// The seconds since it was made, as far as it knows.
    fn seconds(&self) -> u64 {
        0
    }
}

/// A gate that does nothing.
#[derive(Clone, Copy)]
pub struct Open;

impl Gate for Open {
    fn enter(&self, _phase: Phase) {}
}
