// Certificates of branches: their parts put together.
ghost use Rattle.std.specs.Prelude.{◌≡◌, ◌≤◌, ℕ, List, [], ◌∷◌, ◌++◌, length, map, drop, if◌then◌else◌, IfOk, OnOk};
ghost use Rattle.sm_term.specs.Terms.{Tree};
ghost use Rattle.sm_term.specs.Formulas.{numbered};
ghost use Rattle.sm_theory.specs.Lines.{Both};
ghost use Rattle.sm_theory.specs.Views.{line_in, IsLineWithin};
ghost use Rattle.sm_cert.specs.Certificates.{Split};
ghost use Rattle.sm_cert.specs.Views.{certificate_in, lines_of, AreLinesWithin};
ghost use Rattle.sm_solve.specs.Leading.{both_line, both_lines, led_by};
ghost use Rattle.sm_list.specs.Parts.{all_numbered};

use sm_cert::{CertEnd, CertLines, CertTree};
use sm_term::{Formula, copy_formula};
use sm_theory::CertLine;
use std::alloc::{AllocError, Global};

// A copy of formulas.
pub(crate) fn copy_facts(alloc: Global, facts: &[Formula]) -> Result<Vec<Formula>, AllocError>
    ensures { IfOk result (λ v. all_numbered v.items ≡ all_numbered facts.now) }
{
    let mut list = Vec::with_capacity(alloc, facts.len())?;
    for f in facts {
        list.push(copy_formula(alloc, f)?)?;
    }
    Ok(list)
}

// A certificate under the lines that add the parts of the conjunctions from a place on.
pub(crate) fn led_tree(
    alloc: Global,
    facts: &[Formula],
    from: usize,
    tree: CertTree,
) -> Result<CertTree, AllocError>
    requires { from ≤ length facts.now }
    ensures tree { (trees : List Tree) →
        let lines = both_lines from (drop from (all_numbered facts.now)) in
        IfOk result (λ c. certificate_in trees c ≡ led_by lines (certificate_in trees tree)) }
    ensures within { (count : ℕ) → AreLinesWithin count (lines_of tree) →
        IfOk result (λ c. AreLinesWithin count (lines_of c)) }
{
    let lines = lines_of_parts(alloc, facts, from)?;
    under_lines(lines, tree)
}

// The lines that add the parts of the conjunctions from a place on.
fn lines_of_parts(
    alloc: Global,
    facts: &[Formula],
    from: usize,
) -> Result<Vec<CertLine>, AllocError>
    requires { from ≤ length facts.now }
    ensures lines { (trees : List Tree) → IfOk result (λ v.
        map (line_in trees) v.items ≡ both_lines from (drop from (all_numbered facts.now))) }
    ensures within { (count : ℕ) → IfOk result (λ v. AreLinesWithin count v.items) }
{
    let mut lines = Vec::new(alloc);
    let mut at = from;
    while at < facts.len() {
        push_line(&mut lines, &facts[at], at as u64)?;
        at += 1;
    }
    Ok(lines)
}

// Puts the line of the formula with a number last, where it is a conjunction.
fn push_line(lines: &mut Vec<CertLine>, f: &Formula, n: u64) -> Result<(), AllocError>
    ensures lines { (trees : List Tree) → OnOk result (map (line_in trees) lines.new.items
        ≡ map (line_in trees) lines.old.items ++ both_line n (numbered f.now)) }
    ensures within { (count : ℕ) → AreLinesWithin count lines.old.items →
        OnOk result (AreLinesWithin count lines.new.items) }
{
    if is_conjunction(f) {
        lines.push(CertLine::Both(n))?;
    }
    Ok(())
}

// Whether a formula is a conjunction.
fn is_conjunction(f: &Formula) -> bool
    ensures { (n : ℕ) → both_line n (numbered f.now) ≡ (if result then Both n ∷ [] else []) }
{
    match f {
        Formula::And(_, _) => true,
        _ => false,
    }
}

// A certificate under lines.
fn under_lines(lines: Vec<CertLine>, tree: CertTree) -> Result<CertTree, AllocError>
    ensures tree { (trees : List Tree) → IfOk result (λ c. certificate_in trees c
        ≡ led_by (map (line_in trees) lines.items) (certificate_in trees tree)) }
    ensures within { (count : ℕ) → AreLinesWithin count lines.items →
        AreLinesWithin count (lines_of tree) →
        IfOk result (λ c. AreLinesWithin count (lines_of c)) }
{
    let mut list = lines;
    let mut own = tree.lines;
    list.append(&mut own.list)?;
    Ok(CertTree {
        lines: CertLines { list },
        last: tree.last,
    })
}

// A certificate that a line splits in two.
pub(crate) fn split_tree(
    alloc: Global,
    line: CertLine,
    first: CertTree,
    second: CertTree,
) -> Result<CertTree, AllocError>
    ensures tree { (trees : List Tree) → IfOk result (λ c. certificate_in trees c ≡ Split
        (line_in trees line) (certificate_in trees first) (certificate_in trees second)) }
    ensures within { (count : ℕ) → IsLineWithin count line → AreLinesWithin count (lines_of first) →
        AreLinesWithin count (lines_of second) →
        IfOk result (λ c. AreLinesWithin count (lines_of c)) }
{
    let lines = CertLines {
        list: Vec::new(alloc),
    };
    let one = Box::new(alloc, first)?;
    let other = Box::new(alloc, second)?;
    Ok(CertTree {
        lines,
        last: CertEnd::Split(line, one, other),
    })
}
