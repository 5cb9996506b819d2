// Which lines are used, from the last to the first.
ghost use Rattle.std.specs.Prelude.{◌≡◌, ℕ, suc, true, if◌then◌else◌, ◌∷◌, List, IfOk, IsTrue, OnOk, reverse};
ghost use Rattle.sm_theory.specs.Named.{is_closing, facts_added, is_split};
ghost use Rattle.sm_proof.specs.Lines.{NumberedLine, ProofLine, Cert, line_of, numbered_line};
ghost use Rattle.sm_prune.specs.UsedLines.{IsCertUsed, is_fact_named, is_one_named, lines_behind};
ghost use Rattle.sm_used.specs.Counted.{AreUsed, IsLineUsed, line_in};
ghost use Rattle.sm_used.specs.Names.{is_in, GoesOnce, Know, known};

use crate::counting::Counted;
use crate::names::{Names, add_line, is_in, join, no_names};
use sm_proof::Line;
use sm_theory::CertLine;
use std::alloc::{AllocError, Global};

// Whether a line closes its branch.
fn closes_branch(line: &CertLine) -> bool
    ensures { result ≡ is_closing (numbered_line line.now) }
{
    match line {
        CertLine::Close(_) | CertLine::Clash(_, _) => true,
        _ => false,
    }
}

// Whether it splits its branch.
fn splits_branch(line: &CertLine) -> bool
    ensures { result ≡ is_split (numbered_line line.now) }
{
    match line {
        CertLine::Either(_) | CertLine::Cases(_, _) | CertLine::Order(_) => true,
        _ => false,
    }
}

// Whether it adds two facts.
fn adds_two(line: &CertLine) -> bool
    ensures { facts_added (numbered_line line.now) ≡ (if result then 2 else 1) }
{
    match line {
        CertLine::Both(_) => true,
        _ => false,
    }
}

// The names of the branch that is closed first, which is taken off.
fn first_of(alloc: Global, branches: &mut Vec<Names>) -> Names
    ensures first { (n : ℕ) → is_in result n ≡ known (reverse branches.old.items) 0 n }
    ensures others { (j n : ℕ) → known (reverse branches.new.items) j n
        ≡ known (reverse branches.old.items) (suc j) n }
{
    match branches.pop() {
        Some(names) => names,
        None => no_names(alloc),
    }
}

// Whether one of two numbers is among names, or the first, where one is asked for.
fn is_one_in(names: &Names, two: bool, fact: u64) -> bool
    ensures { (lines : List ProofLine) →
        ((n : ℕ) → is_in names.now n ≡ is_fact_named lines n) → result ≡ true →
        IsTrue (is_one_named lines (if two then 2 else 1) fact) }
{
    if is_in(names, fact) {
        return true;
    }
    match fact.checked_add(1) {
        Some(next) => two && is_in(names, next),
        None => false,
    }
}

// A line that closes its branch.
fn put_closing(alloc: Global, branches: &mut Vec<Names>, line: &Line) -> Result<(), AllocError>
    ensures { (l : NumberedLine) (lines : List ProofLine) → line_of line.now ≡ Cert l →
        is_closing l ≡ true → Know branches.old.items lines →
        OnOk result (Know branches.new.items (Cert l ∷ lines)) }
{
    let mut names = no_names(alloc);
    add_line(&mut names, line)?;
    branches.push(names)?;
    Ok(())
}

// A line behind which one branch goes on. It tells whether one of the facts is named that it adds.
fn put_plain(
    alloc: Global,
    branches: &mut Vec<Names>,
    line: &Line,
    two: bool,
    facts: u64,
) -> Result<bool, AllocError>
    ensures know { (lines : List ProofLine) → GoesOnce (line_of line.now) →
        Know branches.old.items lines →
        OnOk result (Know branches.new.items (line_of line.now ∷ lines)) }
    ensures used { (lines : List ProofLine) → Know branches.old.items lines →
        IfOk result (λ used. used ≡ true →
        IsTrue (is_one_named lines (if two then 2 else 1) facts)) }
{
    let mut names = first_of(alloc, branches);
    let used = is_one_in(&names, two, facts);
    add_line(&mut names, line)?;
    branches.push(names)?;
    Ok(used)
}

// A line that splits its branch. It tells whether in both parts the fact is named that it adds there.
fn put_split(
    alloc: Global,
    branches: &mut Vec<Names>,
    line: &Line,
    facts: u64,
) -> Result<bool, AllocError>
    ensures know { (l : NumberedLine) (lines : List ProofLine) → line_of line.now ≡ Cert l →
        is_split l ≡ true → Know branches.old.items lines →
        OnOk result (Know branches.new.items (Cert l ∷ lines)) }
    ensures used { (lines : List ProofLine) → Know branches.old.items lines →
        IfOk result (λ used. used ≡ true →
        IsTrue (is_fact_named lines facts) × IsTrue (is_fact_named (lines_behind 1 lines) facts)) }
{
    let first = first_of(alloc, branches);
    let second = first_of(alloc, branches);
    let used = is_in(&first, facts) && is_in(&second, facts);
    let mut names = join(first, second)?;
    add_line(&mut names, line)?;
    branches.push(names)?;
    Ok(used)
}

// A line of a certificate. It tells whether the line is used.
fn put_cert(
    alloc: Global,
    branches: &mut Vec<Names>,
    line: &Line,
    cert: &CertLine,
    facts: u64,
) -> Result<bool, AllocError>
    requires { line_of line.now ≡ Cert (numbered_line cert.now) }
    ensures { let l = numbered_line cert.now in (lines : List ProofLine) →
        Know branches.old.items lines → IfOk result (λ used.
        Know branches.new.items (Cert l ∷ lines) × (used ≡ true → IsCertUsed facts l lines)) }
{
    if closes_branch(cert) {
        put_closing(alloc, branches, line)?;
        Ok(true)
    } else if splits_branch(cert) {
        put_split(alloc, branches, line, facts)
    } else {
        put_plain(alloc, branches, line, adds_two(cert), facts)
    }
}

// A line before others, of whose branches the names are known. It tells whether the line is used.
fn put_row(alloc: Global, branches: &mut Vec<Names>, row: &Counted) -> Result<bool, AllocError>
    ensures { (lines : List ProofLine) → Know branches.old.items lines → IfOk result (λ used.
        Know branches.new.items (line_in row.now ∷ lines)
        × (used ≡ true → IsLineUsed row.now.facts (line_in row.now) lines)) }
{
    match &row.line {
        Line::Cert(cert) => put_cert(alloc, branches, &row.line, cert, row.facts),
        _ => {
            put_plain(alloc, branches, &row.line, false, row.facts)?;
            Ok(true)
        }
    }
}

/// Whether each line is used.
pub(crate) fn are_used(alloc: Global, rows: Vec<Counted>) -> Result<bool, AllocError>
    ensures { IfOk result (λ used. used ≡ true → AreUsed rows.items) }
{
    let mut branches = Vec::new(alloc);
    let mut left = rows;
    while let Some(row) = left.pop() {
        if !put_row(alloc, &mut branches, &row)? {
            return Ok(false);
        }
    }
    Ok(true)
}
