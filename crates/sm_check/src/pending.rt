// What is pending in a proof.
use sm_plan::{Formulas, SymState};
use sm_syntax::PerCopy;
use sm_term::SymStore;
use sm_theory::Fact;
use std::rc::Rc;

/// What is due: a state that waits for its node, or a branch that waits to be closed. Its facts are
/// those of the path.
#[derive(Drop)]
pub(crate) enum Due<'a> {
    State {
        state: SymState<'a>,
        above: u64,
    },
    Branch {
        stores: Rc<PerCopy<SymStore>>,
        splits: u64,
    },
}

/// An open branch, without its facts: its stores, and how many splits stand above it.
#[derive(Drop)]
pub(crate) struct OpenBranch {
    pub(crate) stores: Rc<PerCopy<SymStore>>,
    pub(crate) splits: u64,
}

/// What comes later. Its facts are the first `shared` of the path, and its own few behind them.
#[derive(Drop)]
pub(crate) enum Waiting<'a> {
    State {
        shared: usize,
        kept: Rc<Formulas>,
        more: Formulas,
        state: SymState<'a>,
        above: u64,
    },
    Branch {
        shared: usize,
        fact: Fact,
        stores: Rc<PerCopy<SymStore>>,
        splits: u64,
    },
}
