// States of a proof.
ghost use Rattle.std.specs.Prelude.{◌≡◌};

use crate::rest::Continuation;
use sm_syntax::PerCopy;
use sm_term::{Formula, SymStore};
use std::rc::Rc;

/// Formulas, in order.
#[derive(Drop)]
pub struct Formulas {
    pub list: Vec<Formula>,
}

/// A state but for its facts: what is left of each copy, its store in symbols, the target, and
/// whether that is the final one. The target is shared with other states.
pub struct SymState<'a> {
    pub rests: PerCopy<Continuation<'a>>,
    pub stores: PerCopy<SymStore>,
    pub target: Rc<Formulas>,
    pub is_final: bool,
}

// One call ends a value, and not one for each field: proofs of what has it stay small.
impl Drop for SymState<'_> {
    fn drop(self) {
        let Self {
            rests: _,
            stores: _,
            target: _,
            is_final: _,
        } = self;
    }
}

impl SymState<'_> {
    // The stores alone.
    pub(crate) fn into_stores(self) -> PerCopy<SymStore>
        ensures { result ≡ self.entry.stores }
    {
        let Self {
            rests: _,
            stores,
            target: _,
            is_final: _,
        } = self;
        stores
    }
}
