// Atoms that are taken out of linear forms.
ghost use Rattle.std.specs.Prelude.{◌≡◌, IfOk, option_copied, slice_get};
ghost use Rattle.sm_fm.specs.Taking.{begun, Gives};

use crate::forms::Forms;
use crate::state::State;
use crate::step::ElimStep;
use sm_num::{LinForm, NumError};
use sm_term::Terms;
use std::alloc::{AllocError, Global};
use std::marker::Model;

/// An elimination: atoms are taken out of linear forms, one after the other.
#[derive(Drop)]
pub struct Elimination {
    state: State,
}

impl Model for Elimination {
    ghost use Rattle.sm_fm.specs.Taking.{Taking};

    ghost Value = { Taking };

    ghost use Rattle.sm_fm.specs.States.{taking, IsSound};

    ghost view = { λ e. taking e.state };

    ghost invariant = { λ e. IsSound e.state };
}

impl Elimination {
    /// The elimination of atoms 0, 1 and so on from forms, in this order. `atoms` has the term of
    /// each.
    pub fn new(alloc: Global, forms: Forms, atoms: Terms) -> Result<Elimination, AllocError>
        ensures { IfOk result (λ e. e ≡ begun atoms.list.items forms.list.items) }
    {
        let state = State::new(alloc, forms.list, atoms)?;
        Ok(Elimination { state })
    }

    /// The next sum of two forms in which an atom cancels, or `End` where nothing is left. After a
    /// contradiction, and after an operation that leaves the range, nothing is left. After want of
    /// memory nothing is said, not even of what `End` means: the elimination isn't used again.
    pub fn next(&mut self, alloc: Global) -> Result<ElimStep, NumError>
        ensures { Gives self.old self.new result }
    {
        self.state.next(alloc)
    }

    /// The form at a place in the list of the given forms, which the kept sums follow.
    pub fn form(&self, place: u64) -> Option<&LinForm>
        ensures { option_copied result ≡ slice_get self.now.forms place }
    {
        self.state.forms.get(place as usize)
    }
}
