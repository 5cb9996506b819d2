// The templates of pieces of code, one of each copy.
ghost use Rattle.std.specs.Prelude.{◌≡◌, IfOk};
ghost use Rattle.sm_syntax.specs.claim.ConflictFree.{Copy};
ghost use Rattle.sm_syntax.specs.text.Parts.{Parts};
ghost use Rattle.sm_syntax.specs.text.Sorts.{IsWellSorted};
ghost use Rattle.sm_term.specs.Tables.{trees_in, sorts_in};
ghost use Rattle.sm_term.specs.TableLaws.{ExtendsTable};
ghost use Rattle.sm_plan.specs.Masks.{set_of};
ghost use Rattle.sm_plan.specs.ReadyStates.{AreFormsReady};
ghost use Rattle.sm_plan.specs.Views.{forms_in};
ghost use Rattle.sm_moves.specs.CopySets.{only_in};
ghost use Rattle.sm_moves.specs.FilledCode.{piece_of};
ghost use Rattle.sm_template.specs.Sites.{IsSiteOf, IsSiteReady};
ghost use Rattle.sm_template.specs.Templates as plain;

use sm_moves::rests_in;
use sm_plan::Formulas;
use sm_syntax::{PerCopy, Stmt};
use sm_template::{SiteContext, block_templates, loop_templates};
use sm_term::TermTable;
use std::alloc::{AllocError, Global};

// The templates of a block that has the pieces of a set's copies.
pub(crate) fn templates_of_ifs(
    alloc: Global,
    table: &mut TermTable,
    site: &SiteContext<'_>,
    pieces: &PerCopy<&[Stmt]>,
    set: u8,
) -> Result<Formulas, AllocError>
    requires { IsSiteReady (sorts_in table.old) site.now }
    ensures made { let code = only_in (set_of set) (piece_of pieces.now) in
        (t : Parts) → IsSiteOf t site.now → IfOk result (λ fs.
        forms_in (sorts_in table.new) (trees_in table.new) fs.list.items
        ≡ plain.block_templates t code) }
    ensures ready { IfOk result (λ fs.
        AreFormsReady (sorts_in table.new) (trees_in table.new) fs.list.items) }
    ensures widens { ExtendsTable table.old table.new }
{
    let code = rests_in(alloc, pieces, set)?;
    block_templates(alloc, table, site, &code)
}

// The templates of the loops of a set's copies, which begin the pieces.
pub(crate) fn templates_of_loops(
    alloc: Global,
    table: &mut TermTable,
    site: &SiteContext<'_>,
    pieces: &PerCopy<&[Stmt]>,
    set: u8,
) -> Result<Formulas, AllocError>
    requires site { IsSiteReady (sorts_in table.old) site.now }
    requires sorted { (c : Copy) → IsWellSorted (sorts_in table.old) (piece_of pieces.now c) }
    ensures made { (t : Parts) → IsSiteOf t site.now → IfOk result (λ fs.
        forms_in (sorts_in table.new) (trees_in table.new) fs.list.items
        ≡ plain.loop_templates t (set_of set) (piece_of pieces.now)) }
    ensures ready { IfOk result (λ fs.
        AreFormsReady (sorts_in table.new) (trees_in table.new) fs.list.items) }
    ensures widens { ExtendsTable table.old table.new }
{
    let code = rests_in(alloc, pieces, 15)?;
    loop_templates(alloc, table, site, set, &code)
}
