// States at loops of a plan.
use sm_plan::Continuation;
use sm_syntax::PerCopy;
use sm_term::SymStore;

/// A state at which loops of a set run together: what is left of each copy, and its store.
#[derive(Drop)]
pub struct LoopState<'a> {
    pub set: u8,
    pub rests: PerCopy<Continuation<'a>>,
    pub stores: PerCopy<SymStore>,
}
