// States with places in a plan.
ghost use Rattle.std.specs.Prelude.{◌≡◌, ◌++◌, length, reverse, OnOk};
ghost use Rattle.sm_expand.specs.PlacedStates.{placed_with};

use crate::cursor::Cursor;
use sm_plan::{Successor, SymState};
use std::alloc::AllocError;

/// A state, and the place in a plan of the node that is for it. Its facts aren't kept.
#[derive(Drop)]
pub struct PlacedState<'a, 'p> {
    pub state: SymState<'a>,
    pub cursor: Cursor<'p>,
}

/// Puts states with the places for them behind what waits, the first the last.
pub fn put_states<'a, 'p>(
    waiting: &mut Vec<PlacedState<'a, 'p>>,
    states: Vec<Successor<'a>>,
    cursors: Vec<Cursor<'p>>,
) -> Result<(), AllocError>
    requires { length states.items ≡ length cursors.items }
    ensures { OnOk result (reverse waiting.new.items
        ≡ placed_with states.entry.items cursors.entry.items ++ reverse waiting.old.items) }
{
    let mut left = states;
    let mut places = cursors;
    while let Some(next) = left.pop() {
        if let Some(cursor) = places.pop() {
            waiting.push(PlacedState {
                state: next.state,
                cursor,
            })?;
        }
    }
    Ok(())
}
