// Canonical texts.
ghost use Rattle.std.specs.Prelude.{◌≡◌, ◌≤◌, IfOk, length};
ghost use Rattle.sm_syntax.specs.text.Conditions.{condition_depth, code_depth};
ghost use Rattle.sm_syntax.specs.trees.Programs.{declared_of, outputs_of};
ghost use Rattle.sm_syntax.specs.text.Spells.{Spells};
ghost use Rattle.sm_syntax.specs.trees.Views.{condition_of, code_of};
ghost use Rattle.sm_text.specs.printing.Canonical as canonical;
ghost use Rattle.sm_text.specs.parsing.Fragments.{HasBlockText, HasConditionText, HasProgramText, IsNamedProgram, SpellsBlock, SpellsCondition, SpellsProgram};
ghost use Rattle.sm_text.specs.printing.Named.{IsUsedIn, IsTestedIn, HasText};
ghost use Rattle.sm_text.specs.printing.Pieces as spec;
ghost use Rattle.sm_text.specs.printing.Pieces.{pieces_text};
ghost use Rattle.sm_text.specs.Tasks.{parts_of, program_parts};

use crate::printing::expressions::put_cond;
use crate::printing::sections::{
    put_assumption, put_declarations, put_lists, put_outputs, put_shared,
};
use crate::printing::statements::{deeper, put_block};
use crate::task::Task;
use sm_syntax::{Block, Cond, NameTable, Program};
use std::alloc::{AllocError, Global};

/// The canonical text of a block whose first line stands at a level, which is two spaces wide.
pub fn print_block(
    alloc: Global,
    names: &NameTable,
    block: &Block,
    level: u64,
) -> Result<Vec<u8>, AllocError>
    requires { IsUsedIn (length names.now) (code_of block.now) }
    ensures text { IfOk result (λ v.
        v.items ≡ pieces_text names.now
        (canonical.block_pieces (spec.margin_at level) (code_of block.now))) }
    // Canonical text nests deeper than the text that was read, but never deeper than the block.
    ensures reads_back { let code = code_of block.now in
        HasBlockText names.now code → code_depth code ≤ 64 →
        IfOk result (λ v. SpellsBlock names.now v.items code) }
{
    let margin = margin_at(alloc, level)?;
    let mut out = Vec::new(alloc);
    put_block(alloc, &mut out, names, &margin, block)?;
    Ok(out)
}

/// The canonical text of a condition.
pub fn print_cond(alloc: Global, names: &NameTable, c: &Cond) -> Result<Vec<u8>, AllocError>
    requires { IsTestedIn (length names.now) (condition_of c.now) }
    ensures text { IfOk result (λ v.
        v.items ≡ pieces_text names.now (canonical.condition_pieces (condition_of c.now))) }
    ensures reads_back { let tree = condition_of c.now in
        HasConditionText names.now tree → condition_depth tree ≤ 64 →
        IfOk result (λ v. SpellsCondition names.now v.items tree) }
{
    let mut out = Vec::new(alloc);
    put_cond(&mut out, names, c)?;
    Ok(out)
}

/// The margin of a level.
fn margin_at(alloc: Global, level: u64) -> Result<Vec<u8>, AllocError>
    ensures { IfOk result (λ m. m.items ≡ spec.margin_at level) }
{
    let mut margin = Vec::new(alloc);
    for step in 0..level {
        margin = deeper(alloc, &margin)?;
    }
    Ok(margin)
}

/// The canonical text of a program. Where some text spells the program, and its body is no deeper
/// than 64, it reads back to the same program.
#[tactic(auto, unfolding(crate::specs::printing::Canonical::program_pieces))]
pub fn print_program(alloc: Global, p: &Program) -> Result<Vec<u8>, AllocError>
    requires { IsNamedProgram (program_parts p.now) }
    ensures text { IfOk result (λ v. v.items ≡ pieces_text p.now.names
        (canonical.program_pieces
        (declared_of p.now.decls) (outputs_of p.now.outputs) (code_of p.now.body))) }
    ensures reads_back { HasProgramText (program_parts p.now) →
        code_depth (code_of p.now.body) ≤ 64 →
        IfOk result (λ v. SpellsProgram v.items (program_parts p.now)) }
{
    let mut out = Vec::new(alloc);
    put_declarations(&mut out, &p.names, &p.decls)?;
    put_outputs(&mut out, &p.names, &p.outputs)?;
    put_shared(alloc, &mut out, &p.names, &p.body)?;
    Ok(out)
}

/// The canonical text of a task that some text spells. It reads back to the same task.
#[tactic(auto, unfolding(crate::specs::printing::Canonical::task_pieces))]
pub fn print_task(alloc: Global, task: &Task) -> Result<Vec<u8>, AllocError>
    requires { HasText (parts_of task.now) }
    ensures text { let names = task.now.shared.names in
        IfOk result (λ v. v.items ≡ pieces_text names (canonical.task_pieces (parts_of task.now))) }
    ensures reads_back { IfOk result (λ v. Spells v.items (parts_of task.now)) }
{
    let Program {
        names,
        decls,
        outputs,
        body,
    } = &task.shared;
    let mut out = Vec::new(alloc);
    put_declarations(&mut out, names, decls)?;
    put_outputs(&mut out, names, outputs)?;
    put_assumption(&mut out, names, &task.assumed)?;
    put_shared(alloc, &mut out, names, body)?;
    put_lists(alloc, &mut out, names, &task.lists)?;
    Ok(out)
}
