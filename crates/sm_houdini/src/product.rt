// What is known of a task while it is searched.
use sm_sketch::Sketch;
use sm_syntax::{Block, PerCopy};
use sm_text::Task;

// The programs of the copies, the sketch of their product, and for each of its nodes the site that
// asks what it asks.
pub(crate) struct Product {
    pub(crate) programs: PerCopy<Block>,
    pub(crate) sketch: Sketch,
    pub(crate) owners: Vec<Option<u64>>,
}

// One call ends a value, and not one for each field: proofs of what has it stay small.
impl Drop for Product {
    fn drop(self) {
        let Self {
            programs: _,
            sketch: _,
            owners: _,
        } = self;
    }
}

// A task that is searched, and what is known of it.
#[derive(Drop)]
pub(crate) struct Subject<'s> {
    pub(crate) task: &'s Task,
    pub(crate) product: &'s Product,
}
