// The indices of four arrays, by rising index.
ghost use Rattle.std.specs.Prelude.{◌≡◌, ◌⊎◌, ◌<◌, ℤ, pos, Some, length, drop, slice_get, IfOk};
ghost use Rattle.sm_syntax.specs.claim.ConflictFree.{Copy};
ghost use Rattle.sm_syntax.specs.claim.Keeps.{content, Element};
ghost use Rattle.sm_syntax.specs.declared.tree.Sort.TheVariants.{Arr};
ghost use Rattle.sm_syntax.specs.trees.Copies.{copy_named};
ghost use Rattle.sm_replay.specs.Runs.{end_in, HaveSort};
ghost use Rattle.sm_explain.specs.Indices.{IsOf, Rise};
ghost use Rattle.sm_explain.specs.Merging.{firsts, lesser, past};

use sm_eval::Store;
use sm_syntax::{CopyName, Name, PerCopy};
use std::alloc::{AllocError, Global};

/// Indices of an array, among them each at which one of four ends has another number than 0.
pub(crate) fn indices_of(
    alloc: Global,
    ends: &PerCopy<Store>,
    a: Name,
) -> Result<Vec<i128>, AllocError>
    requires { HaveSort ends.now a.0 (Some Arr) }
    ensures rise { IfOk result (λ all. Rise all.items) }
    ensures each { IfOk result (λ all. (c : Copy) (i : ℤ)
        → (content (end_in ends.now c) (Element a.0 i) ≡ pos 0) ⊎ IsOf all.items i) }
{
    let base = indices_in(alloc, ends, CopyName::O, a)?;
    let of_a = indices_in(alloc, ends, CopyName::A, a)?;
    let of_b = indices_in(alloc, ends, CopyName::B, a)?;
    let candidate = indices_in(alloc, ends, CopyName::M, a)?;
    let with_a = merged(alloc, &base, &of_a)?;
    let with_b = merged(alloc, &with_a, &of_b)?;
    let all = merged(alloc, &with_b, &candidate)?;
    Ok(all)
}

// The indices at which a copy's end has another number than 0 in an array.
fn indices_in(
    alloc: Global,
    ends: &PerCopy<Store>,
    copy: CopyName,
    a: Name,
) -> Result<Vec<i128>, AllocError>
    requires { HaveSort ends.now a.0 (Some Arr) }
    ensures rise { IfOk result (λ all. Rise all.items) }
    ensures each { let end = end_in ends.now (copy_named copy) in
        IfOk result (λ all. (i : ℤ)
        → (content end (Element a.0 i) ≡ pos 0) ⊎ IsOf all.items i) }
{
    let cells = ends.get(copy).cells(a);
    let all = firsts(alloc, cells)?;
    Ok(all)
}

// The indices of cells.
fn firsts(alloc: Global, cells: &[(i128, i128)]) -> Result<Vec<i128>, AllocError>
    ensures { IfOk result (λ all. all.items ≡ firsts cells.now) }
{
    cells.iter().map(|c| c.0).collect(alloc)
}

// The indices of two lists, by rising index.
fn merged(alloc: Global, left: &[i128], right: &[i128]) -> Result<Vec<i128>, AllocError>
    requires left { Rise left.now }
    requires right { Rise right.now }
    ensures rise { IfOk result (λ all. Rise all.items) }
    ensures left { IfOk result (λ all. (i : ℤ) → IsOf left.now i → IsOf all.items i) }
    ensures right { IfOk result (λ all. (i : ℤ) → IsOf right.now i → IsOf all.items i) }
{
    let mut all = Vec::new(alloc);
    let mut p = 0;
    let mut q = 0;
    while let Some(i) = next(left, p, right, q) {
        all.push(i)?;
        p = past(left, p, i);
        q = past(right, q, i);
    }
    Ok(all)
}

// The lesser of the indices at a place of one list and at one of another, where they have so many.
fn next(left: &[i128], p: usize, right: &[i128], q: usize) -> Option<i128>
    ensures { result ≡ lesser (slice_get left.now p) (slice_get right.now q) }
{
    lesser(index_at(left, p), index_at(right, q))
}

// The index at a place of a list, where it has so many.
fn index_at(list: &[i128], place: usize) -> Option<i128>
    ensures { result ≡ slice_get list.now place }
{
    list.get(place).copied()
}

// The lesser of two indices, where there are both.
fn lesser(i: Option<i128>, j: Option<i128>) -> Option<i128>
    ensures { result ≡ lesser i j }
{
    match i {
        None => j,
        Some(first) => lesser_of(first, j),
    }
}

// The lesser of an index and another, where there is one.
fn lesser_of(i: i128, j: Option<i128>) -> Option<i128>
    ensures { result ≡ lesser (Some i) j }
{
    match j {
        None => Some(i),
        Some(second) => { if second < i { Some(second) } else { Some(i) } }
    }
}

// The place behind an index that stands at a place of a list, and else the place.
fn past(list: &[i128], place: usize, i: i128) -> usize
    ensures { drop result list.now ≡ past i (drop place list.now) }
{
    if place < list.len() {
        return past_inside(list, place, i);
    }
    place
}

// The place behind an index that stands at a place inside a list, and else the place.
fn past_inside(list: &[i128], place: usize, i: i128) -> usize
    requires { place < length list.now }
    ensures { drop result list.now ≡ past i (drop place list.now) }
{
    if list[place] == i { place + 1 } else { place }
}
