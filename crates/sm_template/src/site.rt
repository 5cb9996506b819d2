// What templates need of a task.
ghost use Rattle.std.specs.Prelude.{◌≡◌, IfOk};
ghost use Rattle.sm_syntax.specs.claim.ConflictFree.{Copy};
ghost use Rattle.sm_syntax.specs.text.Parts.{Parts, sort_of};
ghost use Rattle.sm_syntax.specs.text.Sorts.{Sorts};
ghost use Rattle.sm_syntax.specs.trees.Copies.{of_copy};
ghost use Rattle.sm_syntax.specs.trees.Programs.{declared_of, fillings_of};
ghost use Rattle.sm_plan.specs.Starts.{AreNumbered};
ghost use Rattle.sm_template.specs.Sites.{IsSiteOf, IsSiteReady};

use crate::literals::literals_of;
use sm_syntax::{Decls, Fillings, PerCopy};
use std::alloc::{AllocError, Global};

/// A task's declarations, and the first literals of its fillings.
#[derive(Drop)]
pub struct SiteContext<'a> {
    pub decls: &'a Decls,
    pub literals: Vec<i128>,
}

/// Those of a task with these declarations and fillings.
pub fn site_of<'a>(
    alloc: Global,
    decls: &'a Decls,
    fillings: &PerCopy<Fillings>,
) -> Result<SiteContext<'a>, AllocError>
    ensures of { (t : Parts) → declared_of decls.now ≡ t.declared →
        ((c : Copy) → t.fillings c ≡ fillings_of (of_copy fillings.now c)) →
        IfOk result (λ s. IsSiteOf t s) }
    ensures ready { (sorts : Sorts) → sorts ≡ sort_of (declared_of decls.now) →
        AreNumbered (declared_of decls.now) → IfOk result (λ s. IsSiteReady sorts s) }
{
    let literals = literals_of(alloc, fillings)?;
    Ok(SiteContext { decls, literals })
}
