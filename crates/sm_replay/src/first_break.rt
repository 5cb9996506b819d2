// The first cell of the four ends at which the condition fails.
ghost use Rattle.std.specs.Prelude.{◌≡◌, ◌⊎◌, ◌↔◌, ◌<◌, ◌≤ℤ◌, ℕ, ℤ, pos, Some, None, unwrap_or, map, length, IsNone, IfNone, IfSome, IsSomeAnd};
ghost use Rattle.sm_eval.specs.Cells.{index_at, listed};
ghost use Rattle.sm_eval.specs.StoredValues.{sorts_of};
ghost use Rattle.sm_syntax.specs.trees.Copies.{copy_named};
ghost use Rattle.sm_syntax.specs.claim.Keeps.{Cell, Scalar, Element, content, variable};
ghost use Rattle.sm_syntax.specs.claim.Stores as plain;
ghost use Rattle.sm_replay.specs.Runs.{end_in, HaveSort, HaveSorts};
ghost use Rattle.sm_replay.specs.FirstBreak.{sorted_by, NamesBreak, Finds, IsUpTo};
ghost use Rattle.sm_replay.specs.Verdicts.{FailsAt};
ghost use Rattle.sm_replay.specs.Violations.{KeepsAt};

use crate::verdict::Verdict;
use sm_eval::Store;
use sm_syntax::{CopyName, Name, PerCopy, Sort, keeps};

/// What the ends show at the outputs.
pub fn verdict_on(ends: &PerCopy<Store>, outputs: &[Name]) -> Verdict
    requires { HaveSorts ends.now (sorts_of ends.now.base) }
    ensures { let sorted = sorted_by (sorts_of ends.now.base) (map (λ x. x.0) outputs.now) in
        Finds sorted (end_in ends.now) result }
{
    for x in outputs {
        if let Some(verdict) = break_at(ends, *x, ends.base.sort(*x)) {
            return verdict;
        }
    }
    Verdict::Holds
}

// The verdict on the first cell of a name at which the condition fails.
fn break_at(ends: &PerCopy<Store>, x: Name, sort: Option<Sort>) -> Option<Verdict>
    requires { HaveSort ends.now x.0 sort }
    ensures none { IfNone result ((c : Cell) → variable c ≡ (x.0, unwrap_or sort Sort.Num)
        → KeepsAt (end_in ends.now) c) }
    ensures some { IfSome result (NamesBreak (x.0, unwrap_or sort Sort.Num) (end_in ends.now)) }
{
    match sort {
        None => None,
        Some(Sort::Num) => break_at_number(ends, x),
        Some(Sort::Arr) => break_at_array(ends, x),
    }
}

// The verdict on a number variable at which the condition fails.
fn break_at_number(ends: &PerCopy<Store>, x: Name) -> Option<Verdict>
    requires { HaveSort ends.now x.0 (Some Sort.Num) }
    ensures none { IfNone result ((c : Cell) → variable c ≡ (x.0, Sort.Num)
        → KeepsAt (end_in ends.now) c) }
    ensures some { IfSome result (NamesBreak (x.0, Sort.Num) (end_in ends.now)) }
{
    match clause_at_number(ends, x) {
        Some(clause) => Some(Verdict::Violates {
            name: x,
            index: None,
            clause,
        }),
        None => None,
    }
}

// The verdict on the least index of an array at which the condition fails.
fn break_at_array(ends: &PerCopy<Store>, a: Name) -> Option<Verdict>
    requires { HaveSort ends.now a.0 (Some Sort.Arr) }
    ensures none { IfNone result ((c : Cell) → variable c ≡ (a.0, Sort.Arr)
        → KeepsAt (end_in ends.now) c) }
    ensures some { IfSome result (NamesBreak (a.0, Sort.Arr) (end_in ends.now)) }
{
    match least_index(ends, a) {
        Some(i) => break_at_index(ends, a, i),
        None => None,
    }
}

// The verdict on an index at which the condition fails, and below which it holds.
fn break_at_index(ends: &PerCopy<Store>, a: Name, i: i128) -> Option<Verdict>
    requires sort { HaveSort ends.now a.0 (Some Sort.Arr) }
    requires fails { ¬ KeepsAt (end_in ends.now) (Element a.0 i) }
    requires least { (j : ℤ) → KeepsAt (end_in ends.now) (Element a.0 j) ⊎ (i ≤ℤ j) }
    ensures { IsSomeAnd result (NamesBreak (a.0, Sort.Arr) (end_in ends.now)) }
{
    match clause_at_element(ends, a, i) {
        Some(clause) => Some(Verdict::Violates {
            name: a,
            index: Some(i),
            clause,
        }),
        None => None,
    }
}

// The first clause that fails at a number variable.
fn clause_at_number(ends: &PerCopy<Store>, x: Name) -> Option<u8>
    requires { HaveSort ends.now x.0 (Some Sort.Num) }
    ensures kept { IsNone result ↔ KeepsAt (end_in ends.now) (Scalar x.0) }
    ensures broken { IfSome result (FailsAt (end_in ends.now) (Scalar x.0)) }
{
    let base = number_at(ends, CopyName::O, x);
    let a = number_at(ends, CopyName::A, x);
    let b = number_at(ends, CopyName::B, x);
    let candidate = number_at(ends, CopyName::M, x);
    keeps(base, a, b, candidate)
}

// The number in a copy's end.
fn number_at(ends: &PerCopy<Store>, copy: CopyName, x: Name) -> i128
    requires { HaveSort ends.now x.0 (Some Sort.Num) }
    ensures { result ≡ content (end_in ends.now (copy_named copy)) (Scalar x.0) }
{
    ends.get(copy).number(x)
}

// The first clause that fails at an element.
fn clause_at_element(ends: &PerCopy<Store>, a: Name, i: i128) -> Option<u8>
    requires { HaveSort ends.now a.0 (Some Sort.Arr) }
    ensures kept { IsNone result ↔ KeepsAt (end_in ends.now) (Element a.0 i) }
    ensures broken { IfSome result (FailsAt (end_in ends.now) (Element a.0 i)) }
{
    let base = element_at(ends, CopyName::O, a, i);
    let of_a = element_at(ends, CopyName::A, a, i);
    let of_b = element_at(ends, CopyName::B, a, i);
    let candidate = element_at(ends, CopyName::M, a, i);
    keeps(base, of_a, of_b, candidate)
}

// The element in a copy's end.
fn element_at(ends: &PerCopy<Store>, copy: CopyName, a: Name, i: i128) -> i128
    requires { HaveSort ends.now a.0 (Some Sort.Arr) }
    ensures { result ≡ content (end_in ends.now (copy_named copy)) (Element a.0 i) }
{
    ends.get(copy).cell(a, i)
}

// The least index at which the condition fails.
fn least_index(ends: &PerCopy<Store>, a: Name) -> Option<i128>
    requires { HaveSort ends.now a.0 (Some Sort.Arr) }
    ensures found { IfSome result (λ i. ¬ KeepsAt (end_in ends.now) (Element a.0 i)) }
    ensures least { (i : ℤ) → KeepsAt (end_in ends.now) (Element a.0 i) ⊎ IsUpTo result i }
{
    let first = least_of(ends, CopyName::O, a, None);
    let second = least_of(ends, CopyName::A, a, first);
    let third = least_of(ends, CopyName::B, a, second);
    least_of(ends, CopyName::M, a, third)
}

// The least of an index and those that aren't 0 in a copy's end and at which the condition fails.
fn least_of(ends: &PerCopy<Store>, copy: CopyName, a: Name, found: Option<i128>) -> Option<i128>
    requires sort { HaveSort ends.now a.0 (Some Sort.Arr) }
    requires found { IfSome found (λ i. ¬ KeepsAt (end_in ends.now) (Element a.0 i)) }
    ensures found { IfSome result (λ i. ¬ KeepsAt (end_in ends.now) (Element a.0 i)) }
    ensures old { (i : ℤ) → IsUpTo found i → IsUpTo result i }
    ensures new { (i : ℤ) → (content (end_in ends.now (copy_named copy)) (Element a.0 i) ≡ pos 0)
        ⊎ KeepsAt (end_in ends.now) (Element a.0 i) ⊎ IsUpTo result i }
{
    least_in(ends, a, cells_at(ends, copy, a), found)
}

// The cells of an array in a copy's end.
fn cells_at(ends: &PerCopy<Store>, copy: CopyName, a: Name) -> &[(i128, i128)]
    requires { HaveSort ends.now a.0 (Some Sort.Arr) }
    ensures { end_in ends.now (copy_named copy) a.0 ≡ plain.Array (listed result.now) }
{
    ends.get(copy).cells(a)
}

// The least of an index and those of cells at which the condition fails.
fn least_in(
    ends: &PerCopy<Store>,
    a: Name,
    cells: &[(i128, i128)],
    found: Option<i128>,
) -> Option<i128>
    requires sort { HaveSort ends.now a.0 (Some Sort.Arr) }
    requires found { IfSome found (λ i. ¬ KeepsAt (end_in ends.now) (Element a.0 i)) }
    ensures found { IfSome result (λ i. ¬ KeepsAt (end_in ends.now) (Element a.0 i)) }
    ensures old { (i : ℤ) → IsUpTo found i → IsUpTo result i }
    ensures new { (p : ℕ) → p < length cells.now
        → KeepsAt (end_in ends.now) (Element a.0 (index_at cells.now p))
        ⊎ IsUpTo result (index_at cells.now p) }
{
    let mut least = found;
    for p in 0..cells.len() {
        least = lesser_at(ends, a, cells, p, least);
    }
    least
}

// The lesser of the index of a cell, where the condition fails there, and another index.
fn lesser_at(
    ends: &PerCopy<Store>,
    a: Name,
    cells: &[(i128, i128)],
    p: usize,
    found: Option<i128>,
) -> Option<i128>
    requires sort { HaveSort ends.now a.0 (Some Sort.Arr) }
    requires found { IfSome found (λ i. ¬ KeepsAt (end_in ends.now) (Element a.0 i)) }
    requires inside { p < length cells.now }
    ensures found { IfSome result (λ i. ¬ KeepsAt (end_in ends.now) (Element a.0 i)) }
    ensures old { (i : ℤ) → IsUpTo found i → IsUpTo result i }
    ensures new { KeepsAt (end_in ends.now) (Element a.0 (index_at cells.now p))
        ⊎ IsUpTo result (index_at cells.now p) }
{
    lesser_break(ends, a, cells[p].0, found)
}

// The lesser of an index, where the condition fails there, and another index.
fn lesser_break(ends: &PerCopy<Store>, a: Name, i: i128, found: Option<i128>) -> Option<i128>
    requires sort { HaveSort ends.now a.0 (Some Sort.Arr) }
    requires found { IfSome found (λ i. ¬ KeepsAt (end_in ends.now) (Element a.0 i)) }
    ensures found { IfSome result (λ i. ¬ KeepsAt (end_in ends.now) (Element a.0 i)) }
    ensures old { (j : ℤ) → IsUpTo found j → IsUpTo result j }
    ensures new { KeepsAt (end_in ends.now) (Element a.0 i) ⊎ IsUpTo result i }
{
    if clause_at_element(ends, a, i).is_none() {
        return found;
    }
    lesser(i, found)
}

// The lesser of two indices.
fn lesser(i: i128, found: Option<i128>) -> Option<i128>
    ensures either { (result ≡ Some i) ⊎ (result ≡ found) }
    ensures old { (j : ℤ) → IsUpTo found j → IsUpTo result j }
    ensures new { IsUpTo result i }
{
    match found {
        None => Some(i),
        Some(j) => { if j < i { Some(j) } else { Some(i) } }
    }
}
