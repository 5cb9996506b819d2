// What is searched.
use sm_eval::Store;
use sm_syntax::{Block, PerCopy};
use sm_text::Task;

/// A task with its filled programs, and the inputs from which they are observed.
#[derive(Drop)]
pub struct Subject<'t> {
    pub task: &'t Task,
    pub programs: &'t PerCopy<Block>,
    pub inputs: &'t [Store],
}
