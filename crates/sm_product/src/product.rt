// The product of the copies of a set, by the shared code.
ghost use Rattle.std.specs.Prelude.{◌≤◌};
ghost use Rattle.sm_syntax.specs.claim.Syntax.{End};
ghost use Rattle.sm_syntax.specs.trees.Views.{statement_of, code_of};
ghost use Rattle.sm_term.specs.Tables.{trees_in, sorts_in};
ghost use Rattle.sm_term.specs.TableLaws.{ExtendsTable};
ghost use Rattle.sm_text.specs.Tasks.{parts_of};
ghost use Rattle.sm_plan.specs.Masks.{set_of};
ghost use Rattle.sm_moves.specs.FilledCode.{AreFilledAs};
ghost use Rattle.sm_sketch.specs.SketchViews.{sketch_in, IsSketchReady};
ghost use Rattle.sm_product.specs.Drawn.{IsDrawn};
ghost use Rattle.sm_product.specs.ProductContexts.{IsContextReady};
ghost use Rattle.sm_product.specs.Products as plain;

use crate::hole::product_hole;
use crate::ifs::FilledIf;
use sm_moves::{FilledBlock, copied, cut, inside};
use sm_sketch::{ProductError, Sketch, each_step};
use sm_syntax::{PerCopy, Stmt};
use sm_template::SiteContext;
use sm_term::TermTable;
use sm_text::Task;
use std::alloc::Global;

/// A task, and what its templates are made of.
#[derive(Drop)]
pub(crate) struct ProductContext<'a> {
    pub task: &'a Task,
    pub site: SiteContext<'a>,
}

impl<'a> ProductContext<'a> {
    /// The product of a block of the shared code, and what follows.
    #[cycle(product)]
    pub(crate) fn product_block(
        &self,
        alloc: Global,
        table: &mut TermTable,
        block: &FilledBlock<'_, '_>,
        set: u8,
        next: Sketch,
    ) -> Result<Sketch, ProductError>
        requires set { set ≤ 15 }
        requires context { IsContextReady (sorts_in table.old) self.now }
        requires filled { AreFilledAs (sorts_in table.old) (parts_of self.now.task.now)
            (code_of block.now.shared.now) block.now.filled }
        requires next { IsSketchReady (sorts_in table.old) (trees_in table.old) next }
        ensures drawn { let p = sketch_in (sorts_in table.old) (trees_in table.old) next in
            let code = code_of block.now.shared.now in
            let whole = plain.product (parts_of self.now.task.now) code (set_of set) p in
            IsDrawn table.new whole result }
        ensures widens { ExtendsTable table.old table.new }
    {
        let mut sketch = next;
        let mut left = copied(&block.filled);
        let mut i = block.shared.list.len();
        while i > 0 {
            i -= 1;
            let s = &block.shared.list[i];
            let parts = cut(&left, &self.task.lists, s);
            sketch = self.product_statement(alloc, table, s, &parts.second, set, sketch)?;
            left = parts.first;
        }
        Ok(sketch)
    }

    // The product of a statement of the shared code, and what follows.
    #[cycle(product)]
    fn product_statement(
        &self,
        alloc: Global,
        table: &mut TermTable,
        s: &Stmt,
        pieces: &PerCopy<&[Stmt]>,
        set: u8,
        next: Sketch,
    ) -> Result<Sketch, ProductError>
        requires set { set ≤ 15 }
        requires context { IsContextReady (sorts_in table.old) self.now }
        requires filled { AreFilledAs (sorts_in table.old) (parts_of self.now.task.now)
            (statement_of s.now End) pieces.now }
        requires next { IsSketchReady (sorts_in table.old) (trees_in table.old) next }
        ensures drawn { let p = sketch_in (sorts_in table.old) (trees_in table.old) next in
            let code = statement_of s.now End in
            let whole = plain.product (parts_of self.now.task.now) code (set_of set) p in
            IsDrawn table.new whole result }
        ensures widens { ExtendsTable table.old table.new }
    {
        match s {
            Stmt::Skip => each_step(next, set),
            Stmt::Assign(_, _) => each_step(next, set),
            Stmt::Store(_, _, _) => each_step(next, set),
            Stmt::If(_, c, d) => {
                let filled = inside(pieces);
                let blocks = FilledIf {
                    first: FilledBlock {
                        shared: c,
                        filled: filled.first,
                    },
                    second: FilledBlock {
                        shared: d,
                        filled: filled.second,
                    },
                };
                self.product_if(alloc, table, &blocks, pieces, set, next)
            }
            Stmt::While(_, c) => {
                let filled = inside(pieces);
                let body = FilledBlock {
                    shared: c,
                    filled: filled.first,
                };
                self.product_while(alloc, table, &body, pieces, set, next)
            }
            Stmt::Hole(hole) => product_hole(alloc, table, self, *hole, set, next),
        }
    }
}
