// The names that code of the copies writes.
ghost use Rattle.std.specs.Prelude.{◌≡◌, ℕ, filter, if◌then◌else◌, IfOk, OnOk};
ghost use Rattle.sm_syntax.specs.Assigns.{assigns};
ghost use Rattle.sm_syntax.specs.claim.ConflictFree.{Copy};
ghost use Rattle.sm_syntax.specs.claim.Syntax.{Code, End};
ghost use Rattle.sm_syntax.specs.text.Conditions.{is_in};
ghost use Rattle.sm_syntax.specs.trees.Copies.{copy_named, of_copy};
ghost use Rattle.sm_syntax.specs.trees.Programs.{declared_of, outputs_of};
ghost use Rattle.sm_deps.specs.Members.{members, either};
ghost use Rattle.sm_plan.specs.Copies as sets;
ghost use Rattle.sm_plan.specs.Masks.{set_of};
ghost use Rattle.sm_plan.specs.Statements.{loop_body};
ghost use Rattle.sm_plan.specs.Views.{rest_code};
ghost use Rattle.sm_moves.specs.CopySets.{only_in};
ghost use Rattle.sm_template.specs.Sites.{AreWrites};
ghost use Rattle.sm_template.specs.Written.{is_written};
ghost use Rattle.sm_template.specs.Written as plain;

use sm_deps::writes;
use sm_moves::has;
use sm_plan::Continuation;
use sm_syntax::{CopyName, Decls, Outputs, PerCopy};
use std::alloc::{AllocError, Global};
use std::collections::BTreeSet;

// The names that each copy's code writes.
pub(crate) fn writes_of(
    alloc: Global,
    code: &PerCopy<Continuation<'_>>,
) -> Result<PerCopy<Outputs>, AllocError>
    ensures { IfOk result (λ w. AreWrites (λ c. rest_code (of_copy code.now c)) w) }
{
    let base = code.base.writes(alloc)?;
    let variant_a = code.variant_a.writes(alloc)?;
    let variant_b = code.variant_b.writes(alloc)?;
    let candidate = code.candidate.writes(alloc)?;
    Ok(PerCopy {
        base,
        variant_a,
        variant_b,
        candidate,
    })
}

// The names that the body of a copy's loop writes, none where the copy is not of the set.
fn body_writes(
    alloc: Global,
    set: u8,
    copy: CopyName,
    rest: &Continuation<'_>,
) -> Result<Outputs, AllocError>
    ensures { let body = loop_body (rest_code rest.now) in
        let code = if sets.has (set_of set) (copy_named copy) then body else End in
        IfOk result (λ o. (x : ℕ) → is_in (outputs_of o) x ≡ assigns code x) }
{
    if has(set, copy) {
        if let Some((_, body)) = rest.first_loop() {
            return writes(alloc, body);
        }
    }
    let list = Vec::new(alloc);
    Ok(Outputs { list })
}

/// The names that each copy's loop writes in its body, none where the copy is not of the set.
pub fn bodies_write(
    alloc: Global,
    set: u8,
    code: &PerCopy<Continuation<'_>>,
) -> Result<PerCopy<Outputs>, AllocError>
    ensures { let bodies = only_in (set_of set) (λ c. loop_body (rest_code (of_copy code.now c))) in
        IfOk result (λ w. AreWrites bodies w) }
{
    let base = body_writes(alloc, set, CopyName::O, &code.base)?;
    let variant_a = body_writes(alloc, set, CopyName::A, &code.variant_a)?;
    let variant_b = body_writes(alloc, set, CopyName::B, &code.variant_b)?;
    let candidate = body_writes(alloc, set, CopyName::M, &code.candidate)?;
    Ok(PerCopy {
        base,
        variant_a,
        variant_b,
        candidate,
    })
}

// Adds names to a set.
fn add_names(set: &mut BTreeSet<u32>, names: &Outputs) -> Result<(), AllocError>
    ensures { let more = is_in (outputs_of names.now) in
        OnOk result (members set.new ≡ either (members set.old) more) }
{
    for x in &names.list {
        set.insert(x.0)?;
    }
    Ok(())
}

// The names that some copy's code writes.
fn union(alloc: Global, written: &PerCopy<Outputs>) -> Result<BTreeSet<u32>, AllocError>
    ensures { (code : Copy → Code) → AreWrites code written.now →
        IfOk result (λ s. members s ≡ is_written code) }
{
    let mut set = BTreeSet::new(alloc);
    add_names(&mut set, &written.base)?;
    add_names(&mut set, &written.variant_a)?;
    add_names(&mut set, &written.variant_b)?;
    add_names(&mut set, &written.candidate)?;
    Ok(set)
}

// The declared names of a set.
fn declared_in(alloc: Global, decls: &Decls, set: &BTreeSet<u32>) -> Result<Decls, AllocError>
    ensures { IfOk result (λ d.
        declared_of d ≡ filter (λ e. members set.now e.0) (declared_of decls.now)) }
{
    let mut list = Vec::new(alloc);
    for d in &decls.list {
        if set.contains(&d.0.0) {
            list.push(*d)?;
        }
    }
    Ok(Decls { list })
}

/// The declared names that some copy's code writes, in order of declaration.
pub fn names_written(
    alloc: Global,
    decls: &Decls,
    written: &PerCopy<Outputs>,
) -> Result<Decls, AllocError>
    ensures { (code : Copy → Code) → AreWrites code written.now → IfOk result (λ d.
        declared_of d ≡ plain.names_written (declared_of decls.now) code) }
{
    let set = union(alloc, written)?;
    declared_in(alloc, decls, &set)
}

// The declared names that some copy's loop writes in its body, in order of declaration.
pub(crate) fn loop_names(
    alloc: Global,
    decls: &Decls,
    set: u8,
    code: &PerCopy<Continuation<'_>>,
) -> Result<Decls, AllocError>
    ensures { let bodies = only_in (set_of set) (λ c. loop_body (rest_code (of_copy code.now c))) in
        IfOk result (λ d. declared_of d ≡ plain.names_written (declared_of decls.now) bodies) }
{
    let written = bodies_write(alloc, set, code)?;
    names_written(alloc, decls, &written)
}
