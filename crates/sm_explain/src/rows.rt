// Puts the lines of a cell of four ends at the end of a text.
ghost use Rattle.std.specs.Prelude.{◌≡◌, ◌++◌, Some, OnOk};
ghost use Rattle.sm_syntax.specs.claim.Keeps.{content, variable};
ghost use Rattle.sm_syntax.specs.trees.Copies.{copy_named};
ghost use Rattle.sm_replay.specs.Runs.{end_in, HaveSort};
ghost use Rattle.sm_replay.specs.Verdicts.{cell_of};
ghost use Rattle.sm_explain.specs.Cells.{cell_text};
ghost use Rattle.sm_explain.specs.Rows.{agree, loses_change, adds_change, said_if, sentences, labelled, values_text, words_of_a, words_of_b, words_of_candidate, rows, cell_rows};

use crate::cells::{put_cell, put_number};
use sm_eval::Store;
use sm_syntax::{CopyName, Name, NameTable, PerCopy};
use std::alloc::AllocError;

/// Puts the lines of a cell, none where the four ends have one value there.
pub(crate) fn put_rows(
    out: &mut Vec<u8>,
    names: &NameTable,
    ends: &PerCopy<Store>,
    name: Name,
    index: Option<i128>,
) -> Result<(), AllocError>
    requires { let output = variable (cell_of name.0 index) in
        HaveSort ends.now output.0 (Some output.1) }
    ensures { let cell = cell_of name.0 index in
        OnOk result
        (out.new.items ≡ out.old.items ++ cell_rows names.now (end_in ends.now) cell) }
{
    let base = value_in(ends, CopyName::O, name, index);
    let a = value_in(ends, CopyName::A, name, index);
    let b = value_in(ends, CopyName::B, name, index);
    let candidate = value_in(ends, CopyName::M, name, index);
    if agree(base, a, b, candidate) {
        return Ok(());
    }
    put_cell(out, names, name, index)?;
    put_values(out, base, a, b, candidate)?;
    put_sentences(out, base, a, b, candidate)?;
    Ok(())
}

// The value of a cell in a copy's end.
fn value_in(ends: &PerCopy<Store>, copy: CopyName, name: Name, index: Option<i128>) -> i128
    requires { let output = variable (cell_of name.0 index) in
        HaveSort ends.now output.0 (Some output.1) }
    ensures { result ≡ content (end_in ends.now (copy_named copy)) (cell_of name.0 index) }
{
    match index {
        None => ends.get(copy).number(name),
        Some(i) => ends.get(copy).cell(name, i),
    }
}

// Whether four values are one.
fn agree(base: i128, a: i128, b: i128, candidate: i128) -> bool
    ensures { result ≡ agree base a b candidate }
{
    base == a && a == b && b == candidate
}

// Puts four values behind their cell.
fn put_values(
    out: &mut Vec<u8>,
    base: i128,
    a: i128,
    b: i128,
    candidate: i128,
) -> Result<(), AllocError>
    ensures { OnOk result (out.new.items ≡ out.old.items ++ values_text base a b candidate) }
{
    put_value(out, " base ", base)?;
    put_value(out, " A ", a)?;
    put_value(out, " B ", b)?;
    put_value(out, " candidate ", candidate)?;
    out.extend_from_slice(b"\n")?;
    Ok(())
}

// Puts a value behind its label.
fn put_value(out: &mut Vec<u8>, label: &str, z: i128) -> Result<(), AllocError>
    ensures { OnOk result (out.new.items ≡ out.old.items ++ labelled label.now z) }
{
    out.extend_from_slice(label.as_bytes())?;
    put_number(out, z)
}

// Puts the words for each clause that fails.
fn put_sentences(
    out: &mut Vec<u8>,
    base: i128,
    a: i128,
    b: i128,
    candidate: i128,
) -> Result<(), AllocError>
    ensures { OnOk result (out.new.items ≡ out.old.items ++ sentences base a b candidate) }
{
    put_if(out, loses_change(base, a, candidate), words_of_a())?;
    put_if(out, loses_change(base, b, candidate), words_of_b())?;
    put_if(
        out,
        adds_change(base, a, b, candidate),
        words_of_candidate(),
    )?;
    Ok(())
}

// Puts words where a clause fails.
fn put_if(out: &mut Vec<u8>, fails: bool, words: &str) -> Result<(), AllocError>
    ensures { OnOk result (out.new.items ≡ out.old.items ++ said_if fails words.now) }
{
    if fails {
        out.extend_from_slice(words.as_bytes())
    } else {
        Ok(())
    }
}

// Whether the candidate loses a variant's change.
fn loses_change(base: i128, variant: i128, candidate: i128) -> bool
    ensures { result ≡ loses_change base variant candidate }
{
    base != variant && candidate != variant
}

// Whether the candidate has a change that nobody made.
fn adds_change(base: i128, a: i128, b: i128, candidate: i128) -> bool
    ensures { result ≡ adds_change base a b candidate }
{
    base == a && a == b && candidate != base
}

// The words for the first clause.
#[tactic(auto, unfolding(crate::specs::Rows::words_of_a))]
fn words_of_a() -> &'static str
    ensures { result.now ≡ words_of_a }
{
    "  A changed it, and the candidate doesn't have A's value\n"
}

// The words for the second clause.
#[tactic(auto, unfolding(crate::specs::Rows::words_of_b))]
fn words_of_b() -> &'static str
    ensures { result.now ≡ words_of_b }
{
    "  B changed it, and the candidate doesn't have B's value\n"
}

// The words for the third clause.
#[tactic(auto, unfolding(crate::specs::Rows::words_of_candidate))]
fn words_of_candidate() -> &'static str
    ensures { result.now ≡ words_of_candidate }
{
    "  base, A and B agree, and the candidate has another value\n"
}
