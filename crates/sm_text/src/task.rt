// A task, as the program holds it.
use sm_syntax::{Cond, Fillings, PerCopy, Program};

/// A task: the shared program with holes, what is assumed of inputs, and each copy's fillings.
pub struct Task {
    pub shared: Program,
    pub assumed: Option<Cond>,
    pub lists: PerCopy<Fillings>,
}

// One call ends a value, and not one for each field: proofs of what has it stay small.
impl Drop for Task {
    fn drop(self) {
        let Self {
            shared: _,
            assumed: _,
            lists: _,
        } = self;
    }
}
