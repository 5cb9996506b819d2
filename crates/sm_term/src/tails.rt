// The last rows of a table, as another table takes them.
ghost use Rattle.std.specs.Prelude.{◌≡◌, ◌≤◌, map, drop, take, length, IfOk};
ghost use Rattle.sm_syntax.specs.trees.Views.{code_of};
ghost use Rattle.sm_term.specs.Bodies.{body_code};
ghost use Rattle.sm_term.specs.RowLaws.{contents_of};
ghost use Rattle.sm_term.specs.Tables.{trees_in, sorts_in, codes_in};
ghost use Rattle.sm_term.specs.Tails.{row_codes, row_trees, AreRowsSound};

use crate::body::Body;
use crate::table::TermTable;
use crate::term::Term;
use sm_syntax::{Block, copy_block};
use std::alloc::{AllocError, Global};

/// Terms that stand behind the first terms of a table, with all bodies of the table.
#[derive(Drop)]
pub struct TermRows {
    pub(crate) blocks: Vec<Block>,
    pub(crate) list: Vec<Term>,
}

impl TermTable {
    /// The terms from the number `from` on.
    pub fn tail(&self, alloc: Global, from: u64) -> Result<TermRows, AllocError>
        requires { from ≤ length (trees_in self.now) }
        ensures codes { IfOk result (λ r. row_codes r ≡ codes_in self.now) }
        ensures trees { let first = take from (trees_in self.now) in
            IfOk result (λ r. row_trees first r ≡ drop from (trees_in self.now)) }
        ensures sound { let first = take from (trees_in self.now) in
            IfOk result (λ r. AreRowsSound (sorts_in self.now) first r) }
    {
        let blocks = copied_blocks(alloc, self.bodies.as_slice())?;
        let list = copied_terms(alloc, part_from(self.terms.as_slice(), from))?;
        Ok(TermRows { blocks, list })
    }
}

// A copy of each body.
fn copied_blocks(alloc: Global, bodies: &[Body]) -> Result<Vec<Block>, AllocError>
    ensures { IfOk result (λ v. map code_of v.items ≡ map body_code bodies.now) }
{
    let mut blocks = Vec::new(alloc);
    for body in bodies {
        blocks.push(copy_block(alloc, &body.block)?)?;
    }
    Ok(blocks)
}

// A copy of each term.
fn copied_terms(alloc: Global, terms: &[Term]) -> Result<Vec<Term>, AllocError>
    ensures { IfOk result (λ v. map contents_of v.items ≡ map contents_of terms.now) }
{
    let mut list = Vec::new(alloc);
    for term in terms {
        list.push(term.copied(alloc)?)?;
    }
    Ok(list)
}

// The terms from a place on.
fn part_from(terms: &[Term], from: u64) -> &[Term]
    requires { from ≤ length terms.now }
    ensures { result.now ≡ drop from terms.now }
{
    &terms[from as usize..]
}
