// Rows of one table that are put into another.
ghost use Rattle.std.specs.Prelude.{◌≡◌, ◌≤◌, Some, map, take, length, IfOk, OnOk, OnErr};
ghost use Rattle.sm_syntax.specs.trees.Views.{code_of};
ghost use Rattle.sm_term.specs.Tables.{trees_in, sorts_in, codes_in};
ghost use Rattle.sm_term.specs.TableLaws.{AreCodesSorted, IsTable, ExtendsTable, with_trees, with_codes};
ghost use Rattle.sm_term.specs.Tails.{row_codes, row_trees, AreRowsSound, trees_numbered};
ghost use Rattle.sm_term.specs.Moves.{codes_numbered, KeepsRows};

use crate::moves::moved;
use crate::table::TermTable;
use crate::tails::TermRows;
use crate::term::{BodyId, Terms};
use sm_syntax::Block;
use std::alloc::{AllocError, Global};

impl TermTable {
    /// Puts rows in, in order, and gives the number of each. An argument below `from` is the term
    /// with that number here too; the argument `from + k` is the row at place `k`.
    pub fn adopt(&mut self, alloc: Global, rows: &TermRows, from: u64) -> Result<Terms, AllocError>
        requires behind { from ≤ length (trees_in self.old) }
        requires sound { let first = take from (trees_in self.old) in
            AreRowsSound (sorts_in self.old) first rows.now }

        // Each row's number has the tree that the row stands for behind the first terms.
        ensures stored { let made = row_trees (take from (trees_in self.old)) rows.now in
            IfOk result (λ ids.
            trees_numbered (trees_in self.new) ids.list.items ≡ map Some made) }

        // New trees go last, and so do new bodies.
        ensures trees { let made = row_trees (take from (trees_in self.old)) rows.now in
            OnOk result (trees_in self.new ≡ with_trees (trees_in self.old) made) }
        ensures codes { let made = row_codes rows.now in
            OnOk result (codes_in self.new ≡ with_codes (codes_in self.old) made) }
        ensures widens { ExtendsTable self.old self.new }
        ensures err { OnErr result (self.new ≡ self.old) }
    {
        let bodies = self.bodies.len();
        let terms = self.terms.len();
        match self.adopted(alloc, rows, from) {
            Ok(ids) => Ok(ids),
            Err(e) => {
                self.restore(bodies, terms);
                Err(e)
            }
        }
    }

    // The terms of rows from others' tables. Rows may be there after an error.
    fn adopted(&mut self, alloc: Global, rows: &TermRows, from: u64) -> Result<Terms, AllocError>
        requires behind { from ≤ length (trees_in self.old) }
        requires sound { let first = take from (trees_in self.old) in
            AreRowsSound (sorts_in self.old) first rows.now }
        ensures stored { let made = row_trees (take from (trees_in self.old)) rows.now in
            IfOk result (λ ids.
            trees_numbered (trees_in self.new) ids.list.items ≡ map Some made) }
        ensures trees { let made = row_trees (take from (trees_in self.old)) rows.now in
            OnOk result (trees_in self.new ≡ with_trees (trees_in self.old) made) }
        ensures codes { let made = row_codes rows.now in
            OnOk result (codes_in self.new ≡ with_codes (codes_in self.old) made) }
        ensures widens { ExtendsTable self.old self.new }
        ensures rows { KeepsRows self.old self.new }
    {
        let numbers = self.numbers(alloc, &rows.blocks)?;
        let mut list = Vec::new(alloc);
        for term in &rows.list {
            let row = moved(alloc, term, from, &list, &numbers)?;
            let id = self.add(row)?;
            list.push(id)?;
        }
        Ok(Terms { list })
    }

    // The number of each body.
    fn numbers(&mut self, alloc: Global, blocks: &[Block]) -> Result<Vec<BodyId>, AllocError>
        requires { AreCodesSorted (sorts_in self.old) (map code_of blocks.now) }
        ensures stored { IfOk result (λ v.
            codes_numbered (codes_in self.new) v.items ≡ map Some (map code_of blocks.now)) }
        ensures codes { let made = map code_of blocks.now in
            OnOk result (codes_in self.new ≡ with_codes (codes_in self.old) made) }
        ensures trees { trees_in self.new ≡ trees_in self.old }
        ensures rows { KeepsRows self.old self.new }
    {
        let mut numbers = Vec::new(alloc);
        for block in blocks {
            let id = self.body(block)?;
            numbers.push(id)?;
        }
        Ok(numbers)
    }

    // Leaves the first bodies and the first terms, as the table was before later ones were put in.
    fn restore(&mut self, bodies: usize, terms: usize)
        requires { let sorts = sorts_in self.old in
            IsTable sorts (take bodies (codes_in self.old)) (take terms self.old.terms) }
        ensures declared { self.new.declared ≡ self.old.declared }
        ensures bodies { self.new.bodies ≡ take bodies self.old.bodies }
        ensures terms { self.new.terms ≡ take terms self.old.terms }
    {
        self.bodies.truncate(bodies);
        self.terms.truncate(terms);
    }
}
