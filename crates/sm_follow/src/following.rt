// The line of what could stand behind a text.
ghost use Rattle.std.specs.Prelude.{◌<◌, ◌^◌, [], ◌∷◌, Decides, length, IfOk, OnOk};
ghost use Rattle.sm_text.specs.parsing.Places.{AreTasks, IsRefusal};
ghost use Rattle.sm_text.specs.parsing.Places.Sources.{whole_text};
ghost use Rattle.sm_follow.specs.Following.{AreThose, CouldStand, EndsAtFault, IsBegun, IsComplete, IsFollowLine, behind_line};
ghost use Rattle.sm_follow.specs.Kinds.{kinds, sample};
ghost use Rattle.sm_follow.specs.Views.{Grows, NestsLast, NestsNowhere};

use crate::kinds::{KINDS, Kind, sample, shown};
use sm_text::{TextError, read_task};
use std::alloc::{AllocError, Global};

/// The line of what could stand behind a text of fewer than 2^31 bytes that goes up to the first
/// fault of another.
pub fn follow_line(alloc: Global, text: &[u8]) -> Result<Vec<u8>, AllocError>
    requires few { length text.now < 2 ^ 31 }
    requires front { EndsAtFault text.now }
    ensures { IfOk result (λ line. IsFollowLine text.now line.items) }
{
    let shown = all_shown(alloc, text)?;
    let mut line = Vec::from_slice(alloc, b"could stand here:")?;
    line.extend_from_slice(&shown)?;
    line.push(b'\n')?;
    Ok(line)
}

// Those of all kinds that could stand behind a text.
#[tactic(auto, unfolding(crate::specs::Kinds::kinds))]
fn all_shown(alloc: Global, text: &[u8]) -> Result<Vec<u8>, AllocError>
    requires few { length text.now < 2 ^ 31 }
    requires front { EndsAtFault text.now }
    ensures { IfOk result (λ shown. AreThose text.now kinds shown.items) }
{
    those(alloc, text, &KINDS)
}

// Those of some kinds that could stand behind a text.
fn those(alloc: Global, text: &[u8], kinds: &[Kind]) -> Result<Vec<u8>, AllocError>
    requires few { length text.now < 2 ^ 31 }
    requires front { EndsAtFault text.now }
    ensures { IfOk result (λ shown. AreThose text.now kinds.now shown.items) }
{
    let mut shown = Vec::new(alloc);
    for kind in kinds {
        put_one(alloc, &mut shown, text, *kind)?;
    }
    Ok(shown)
}

// Puts a kind at the end of those that are shown, if it could stand behind a text.
fn put_one(alloc: Global, out: &mut Vec<u8>, text: &[u8], kind: Kind) -> Result<(), AllocError>
    requires few { length text.now < 2 ^ 31 }
    requires front { EndsAtFault text.now }
    ensures { OnOk result
        (Grows (AreThose text.now (kind ∷ [])) out.old.items out.new.items) }
{
    if could_stand(alloc, text, kind)? {
        out.push(b' ')?;
        out.extend_from_slice(shown(kind).as_bytes())?;
    }
    Ok(())
}

// Whether this could stand behind a text.
fn could_stand(alloc: Global, text: &[u8], kind: Kind) -> Result<bool, AllocError>
    requires few { length text.now < 2 ^ 31 }
    requires front { EndsAtFault text.now }
    ensures { IfOk result (λ could. Decides could (CouldStand text.now kind)) }
{
    match kind {
        Kind::Mark(_) => is_begun_with(alloc, text, kind),
        Kind::Name => is_begun_with(alloc, text, kind),
        Kind::Number => is_begun_with(alloc, text, kind),
        Kind::End => is_complete(alloc, text),
    }
}

// Whether some task begins with a text and a token of a kind behind it.
fn is_begun_with(alloc: Global, text: &[u8], kind: Kind) -> Result<bool, AllocError>
    requires few { length text.now < 2 ^ 31 }
    requires last { NestsLast (behind_line text.now (sample kind)) }
    ensures { IfOk result (λ begun. Decides begun (IsBegun (behind_line text.now (sample kind)))) }
{
    let mut longer = Vec::from_slice(alloc, text)?;
    longer.push(b'\n')?;
    longer.extend_from_slice(sample(kind).as_bytes())?;
    is_begun(alloc, &longer)
}

// Whether some task begins with a text.
fn is_begun(alloc: Global, text: &[u8]) -> Result<bool, AllocError>
    requires few { length text.now < 2 ^ 32 }
    requires last { NestsLast text.now }
    ensures { IfOk result (λ begun. Decides begun (IsBegun text.now)) }
{
    match read_task(alloc, text) {
        Ok(_) => Ok(true),
        Err(error) => goes_on(text, error),
    }
}

// Whether some task begins with a text that is refused so.
fn goes_on(text: &[u8], error: TextError) -> Result<bool, AllocError>
    requires refused { IsRefusal AreTasks (whole_text text.now) error }
    requires last { NestsLast text.now }
    ensures { IfOk result (λ begun. Decides begun (IsBegun text.now)) }
{
    match error {
        TextError::BadByte { .. } => Ok(false),
        TextError::WideNumber { .. } => Ok(false),
        TextError::BadToken { .. } => Ok(false),
        TextError::Expected { place } => Ok(place as usize == text.len()),
        TextError::Nested { .. } => Ok(true),
        TextError::Memory => Err(AllocError),
    }
}

// Whether a text is a task by the grammar, where nothing in it nests too deep.
fn is_complete(alloc: Global, text: &[u8]) -> Result<bool, AllocError>
    requires few { length text.now < 2 ^ 32 }
    requires nests { NestsNowhere text.now }
    ensures { IfOk result (λ complete. Decides complete (IsComplete text.now)) }
{
    match read_task(alloc, text) {
        Ok(_) => Ok(true),
        Err(error) => falls_short(text, error),
    }
}

// That a text which is refused is no task by the grammar.
fn falls_short(text: &[u8], error: TextError) -> Result<bool, AllocError>
    requires refused { IsRefusal AreTasks (whole_text text.now) error }
    requires nests { NestsNowhere text.now }
    ensures { IfOk result (λ complete. Decides complete (IsComplete text.now)) }
{
    match error {
        TextError::BadByte { .. } => Ok(false),
        TextError::WideNumber { .. } => Ok(false),
        TextError::BadToken { .. } => Ok(false),
        TextError::Expected { .. } => Ok(false),
        TextError::Nested { .. } => Ok(false),
        TextError::Memory => Err(AllocError),
    }
}
