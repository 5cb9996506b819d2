// The edits that a seed draws.
ghost use Rattle.std.specs.Prelude.{◌≡◌, ◌<◌, ◌^◌, map, IfOk};
ghost use Rattle.std.specs.List.{range_with_len};
ghost use Rattle.sm_syntax.specs.trees.Copies.{copy_named};
ghost use Rattle.sm_gen.specs.Drawing.{drawn_after, editor_of, has_edits, edits, edit_count};

use sm_syntax::CopyName;
use std::alloc::{AllocError, Global};

/// Who edits a hole.
#[derive(Clone, Copy)]
pub enum Editor {
    Nobody,
    VariantA,
    VariantB,
}

impl Editor {
    // The editor with a number below 3.
    fn of_number(number: u64) -> Editor
        ensures { result ≡ editor_of number }
    {
        match number {
            0 => Editor::Nobody,
            1 => Editor::VariantA,
            _ => Editor::VariantB,
        }
    }

    /// Whether a copy has the editor's edits.
    pub(crate) fn edits(self, copy: CopyName) -> bool
        ensures { result ≡ has_edits self (copy_named copy) }
    {
        match self {
            Editor::Nobody => false,
            Editor::VariantA => matches!(copy, CopyName::A | CopyName::M),
            Editor::VariantB => matches!(copy, CopyName::B | CopyName::M),
        }
    }
}

/// The edit of a hole: what it adds, and who has it.
#[derive(Clone, Copy)]
pub struct Edit {
    pub hole: u16,
    pub added: u8,
    pub editor: Editor,
}

// The number that is drawn after another.
#[tactic(auto, unfolding(crate::specs::Drawing::drawn_after))]
fn drawn_after(number: u64) -> u64
    requires { number < 2 ^ 32 }
    ensures next { result ≡ drawn_after number }
    ensures small { result < 2 ^ 32 }
{
    (number * 1103515245 + 12345) % 2147483648
}

/// The edits of the holes from 1 to the size.
pub(crate) fn edits(alloc: Global, seed: u32, size: u16) -> Result<Vec<Edit>, AllocError>
    ensures { IfOk result (λ v. v.items ≡ edits seed size) }
{
    let mut edits = Vec::new(alloc);
    let mut last = u64::from(seed);
    for place in 0..size {
        let first = drawn_after(last);
        last = drawn_after(first);
        edits.push(Edit {
            hole: place + 1,
            added: (first % 100) as u8 + 1,
            editor: Editor::of_number(last / 65536 % 3),
        })?;
    }
    Ok(edits)
}

/// How many of the edits a copy has.
pub(crate) fn edit_count(edits: &[Edit], copy: CopyName) -> u64
    ensures { result ≡ edit_count (copy_named copy) edits.now }
{
    edits.iter().filter(|e| e.editor.edits(copy)).count() as u64
}
