// How a run of the program ends.
ghost use Rattle.std.specs.Prelude.{◌≡◌};
ghost use Rattle.sm_answers.specs.Status.{status_number};

/// The exit status.
#[derive(Clone, Copy, PartialEq, Eq)]
pub enum Status {
    /// The merge is free of conflicts, an input holds, or the task is printed.
    Accepted,
    /// The merge isn't free of conflicts.
    Conflict,
    /// It isn't decided, or a program has no end that can be judged.
    Unknown,
    /// The bytes of a file spell no task or no input, are no proof that passes, or are too many.
    Refused,
    /// No command takes the words.
    Usage,
    /// A file can't be read, or isn't there.
    ReadFault,
    /// Want of memory.
    Memory,
    /// The proof can't be written.
    WriteFault,
    /// The output can't be written.
    SinkFault,
}

impl Status {
    /// The number with which the program ends.
    pub fn number(self) -> u8
        ensures { result ≡ status_number self }
    {
        match self {
            Status::Accepted => 0,
            Status::Conflict => 1,
            Status::Unknown => 2,
            Status::Refused => 3,
            Status::Usage => 4,
            Status::ReadFault => 5,
            Status::Memory => 6,
            Status::WriteFault => 7,
            Status::SinkFault => 8,
        }
    }
}

/// A status, and the text that is printed with it.
#[derive(Drop)]
pub struct Reply {
    pub status: Status,
    pub text: Vec<u8>,
}
