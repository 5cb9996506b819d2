// Places of the terms of a table.
ghost use Rattle.sm_term.specs.Tables.{trees_in};
ghost use Rattle.sm_judge.specs.Places.{HavePlaces};

use sm_term::{TermId, TermTable};

/// Each term of a table stands at its place, and so do the operands of its operations.
pub fn terms_have_places(table: &TermTable)
    ensures { HavePlaces (trees_in table.now) }
{
    for n in 0..table.len() {
        table.get(TermId(n));
    }
}
