// Copies of a table.
ghost use Rattle.std.specs.Prelude.{◌≡◌, [], IfOk};
ghost use Rattle.sm_term.specs.Tables.{trees_in, sorts_in, codes_in};

use crate::table::TermTable;
use std::alloc::{AllocError, Global};

impl TermTable {
    /// A table of the same terms and bodies, each with the number that it has here.
    pub fn copy(&self, alloc: Global) -> Result<TermTable, AllocError>
        ensures trees { IfOk result (λ t. trees_in t ≡ trees_in self.now) }
        ensures sorts { IfOk result (λ t. sorts_in t ≡ sorts_in self.now) }
        ensures codes { IfOk result (λ t. codes_in t ≡ codes_in self.now) }
    {
        let mut copy = self.copied_bodies(alloc)?;
        for term in self.terms.as_slice() {
            let t = term.copied(alloc)?;
            copy.add(t)?;
        }
        Ok(copy)
    }

    /// A table of no terms, with the same sorts and bodies, each body with the number that it has
    /// here.
    pub fn copied_bodies(&self, alloc: Global) -> Result<TermTable, AllocError>
        ensures trees { IfOk result (λ t. trees_in t ≡ []) }
        ensures sorts { IfOk result (λ t. sorts_in t ≡ sorts_in self.now) }
        ensures codes { IfOk result (λ t. codes_in t ≡ codes_in self.now) }
    {
        let mut copy = TermTable::new(alloc, &self.decls)?;
        for body in self.bodies.as_slice() {
            copy.body(&body.block)?;
        }
        Ok(copy)
    }
}
