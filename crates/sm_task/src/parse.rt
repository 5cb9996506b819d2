// A text, read as a task.
ghost use Rattle.std.specs.Prelude.{◌≡◌, ◌≢◌, ◌<◌, ◌^◌, Some, length, IfOk, IfErr};
ghost use Rattle.sm_syntax.specs.text.Conditions.{Refusal, first_refusal};
ghost use Rattle.sm_syntax.specs.text.Parts.{Parts};
ghost use Rattle.sm_syntax.specs.text.Spells.{IsInGrammar, Spells};
ghost use Rattle.sm_task.specs.Errors.{IsReadAs, IsRefusedAs, IsRefusedWith};
ghost use Rattle.sm_text.specs.printing.Named.{HasText};
ghost use Rattle.sm_text.specs.Tasks.{parts_of};

use crate::conditions::check_conditions;
use crate::error::TaskError;
use sm_text::{Task, read_task};
use std::alloc::Global;

/// Reads a text of fewer than 2^32 bytes as a task.
pub fn parse_task(alloc: Global, bytes: &[u8]) -> Result<Task, TaskError>
    requires { length bytes.now < 2 ^ 32 }
    ensures ok { IfOk result (λ t. Spells bytes.now (parts_of t)) }
    ensures printable { IfOk result (λ t. HasText (parts_of t)) }
    // Each text that spells a task is read, and a text spells at most one.
    ensures only { (t : Parts) → Spells bytes.now t → IsReadAs t result }
    // An error names the first fault of the text, or the first condition that fails.
    ensures err { IfErr result (λ e. e ≢ TaskError.Memory → IsRefusedWith bytes.now e) }
    // The first condition that fails is named.
    ensures refused { (t : Parts) (r : Refusal) → IsInGrammar bytes.now t →
        first_refusal t ≡ Some r → IsRefusedAs r result }
{
    let task = read_task(alloc, bytes)?;
    check_conditions(alloc, &task)?;
    Ok(task)
}
