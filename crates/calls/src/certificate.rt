// Lines of certificates, and certificates, and what is said of them.
ghost use Rattle.std.specs.Prelude.{length};
ghost use Rattle.std.specs.Bool.{OnTrue};
ghost use Rattle.sm_term.specs.Tables.{trees_in};
ghost use Rattle.sm_theory.specs.Views.{IsLineWithin};
ghost use Rattle.sm_cert.specs.Views.{lines_of, AreLinesWithin};

use crate::fact::put_fact;
use crate::printed::Printed;
use crate::refusal::Refusal;
use crate::scene::Scene;
use crate::word::two;
use sm_cert::{CertEnd, CertFault, CertLines, CertTree, check_tree};
use sm_euf::Euf;
use sm_exact::With;
use sm_lia::Lia;
use sm_proof::{Line, line_from};
use sm_rows::Rows;
use sm_theory::{CertLine, Fact, Theory};
use std::alloc::Global;

/// Prints which theory adds a fact for the line of words, and the fact, which is put on the branch.
pub fn line_answer(
    alloc: Global,
    scene: &mut Scene,
    text: &str,
    out: &mut Printed,
) -> Result<(), Refusal> {
    let line = read_line(alloc, text)?;
    put_added(alloc, scene, &line, out)
}

// Prints what the first theory that adds a fact adds, behind its name.
fn put_added(
    alloc: Global,
    scene: &mut Scene,
    line: &CertLine,
    out: &mut Printed,
) -> Result<(), Refusal> {
    match added(alloc, scene, line)? {
        Some((theory, fact)) => {
            write!(out, "{theory} ");
            put_fact(out, &fact);
            scene.branch.list.push(fact)?;
        }
        None => out.put("none"),
    }
    Ok(())
}

// What the first theory that adds a fact adds, with its name.
fn added(
    alloc: Global,
    scene: &Scene,
    line: &CertLine,
) -> Result<Option<(&'static str, Fact)>, Refusal> {
    if !is_line_within(scene, line) {
        return Err(Refusal::Bad);
    }
    if let Some(fact) = Euf::new().check_line(alloc, &scene.table, &scene.branch, line)? {
        return Ok(Some(("euf", fact)));
    }
    if let Some(fact) = Rows::new().check_line(alloc, &scene.table, &scene.branch, line)? {
        return Ok(Some(("rows", fact)));
    }
    let arithmetic = With::new(Lia::new());
    match arithmetic.check_line(alloc, &scene.table, &scene.branch, line)? {
        Some(fact) => Ok(Some((name_of_arithmetic(line), fact))),
        None => Ok(None),
    }
}

// The name of the part of arithmetic that a line belongs to.
fn name_of_arithmetic(line: &CertLine) -> &'static str {
    match line {
        CertLine::Exact(_) => "exact",
        _ => "lia",
    }
}

// Whether the terms that a line names are in the table.
fn is_line_within(scene: &Scene, line: &CertLine) -> bool
    ensures { OnTrue result (IsLineWithin (length (trees_in scene.now.table)) line.now) }
{
    match line {
        CertLine::Refl(t) => scene.has(*t),
        CertLine::Hit(t, _) => scene.has(*t),
        CertLine::Elim(_, _, t) => scene.has(*t),
        CertLine::Cases(t, u) => scene.has(*t) && scene.has(*u),
        CertLine::Cong(t, u, _) => scene.has(*t) && scene.has(*u),
        CertLine::Same(t, u) => scene.has(*t) && scene.has(*u),
        CertLine::Apart(t, u) => scene.has(*t) && scene.has(*u),
        CertLine::Miss(t, u, _) => scene.has(*t) && scene.has(*u),
        CertLine::Both(_) | CertLine::Either(_) | CertLine::Order(_) => true,
        CertLine::Sym(_) | CertLine::Trans(_, _) | CertLine::Subst(_, _) => true,
        CertLine::Lin(_) | CertLine::Tight(_) | CertLine::Exact(_) => true,
        CertLine::Close(_) | CertLine::Clash(_, _) => true,
    }
}

/// Prints whether the certificate of a text closes the branch. Its lines stand in preorder, with `;`
/// between them; before each stands what it does: `add`, `end` or `split`.
pub fn tree_answer(
    alloc: Global,
    scene: &Scene,
    text: &str,
    out: &mut Printed,
) -> Result<(), Refusal> {
    verdict(alloc, scene, &read_tree(alloc, text)?, out)
}

/// Prints whether a certificate closes the branch, or why it doesn't.
pub fn verdict(
    alloc: Global,
    scene: &Scene,
    tree: &CertTree,
    out: &mut Printed,
) -> Result<(), Refusal> {
    if !is_tree_within(scene, tree) {
        return Err(Refusal::Bad);
    }
    let (euf, arithmetic, rows) = (Euf::new(), With::new(Lia::new()), Rows::new());
    match check_tree(
        alloc,
        &euf,
        &arithmetic,
        &rows,
        &scene.table,
        &scene.branch,
        tree,
    ) {
        Ok(()) => out.put("closed"),
        Err(CertFault::Wrong { line }) => write!(out, "wrong {line}"),
        Err(CertFault::Deep) => out.put("deep"),
        Err(CertFault::Memory) => return Err(Refusal::Memory),
    }
    Ok(())
}

// Whether the terms that a certificate names are in the table.
fn is_tree_within(scene: &Scene, tree: &CertTree) -> bool
    ensures { let count = length (trees_in scene.now.table) in
        OnTrue result (AreLinesWithin count (lines_of tree.now)) }
{
    if !are_lines_within(scene, &tree.lines.list) {
        return false;
    }
    match &tree.last {
        CertEnd::Close(line) => is_line_within(scene, line),
        CertEnd::Split(line, first, second) => {
            if !is_line_within(scene, line) {
                return false;
            }
            if !is_tree_within(scene, first) {
                return false;
            }
            is_tree_within(scene, second)
        }
    }
}

// Whether the terms that lines name are in the table, one line under another.
fn are_lines_within(scene: &Scene, lines: &[CertLine]) -> bool
    ensures { OnTrue result (AreLinesWithin (length (trees_in scene.now.table)) lines.now) }
{
    for line in lines {
        if !is_line_within(scene, line) {
            return false;
        }
    }
    true
}

// The certificate of a text, whose lines are taken from the last to the first.
fn read_tree(alloc: Global, text: &str) -> Result<CertTree, Refusal> {
    let mut trees = Vec::new(alloc);
    for piece in text.rsplit(';') {
        put_line(alloc, &mut trees, piece.trim())?;
    }
    if trees.len() != 1 {
        return Err(Refusal::Bad);
    }
    next_tree(&mut trees)
}

// Puts the line of words before the certificates that stand behind it, of which the next is the
// last.
fn put_line(alloc: Global, trees: &mut Vec<CertTree>, text: &str) -> Result<(), Refusal> {
    let (mark, words) = two(text)?;
    let line = read_line(alloc, words)?;
    match mark {
        "add" => put_first(trees, line),
        "split" => put_split(alloc, trees, line),
        "end" => Ok(trees.push(closed(alloc, line))?),
        _ => Err(Refusal::Bad),
    }
}

// Puts a line that adds facts before the next certificate.
fn put_first(trees: &mut Vec<CertTree>, line: CertLine) -> Result<(), Refusal> {
    match trees.last_mut() {
        Some(tree) => Ok(tree.lines.list.insert(0, line)?),
        None => Err(Refusal::Bad),
    }
}

// Puts a line that splits the branch before the next two certificates.
fn put_split(alloc: Global, trees: &mut Vec<CertTree>, line: CertLine) -> Result<(), Refusal> {
    let first = boxed_next(alloc, trees)?;
    let second = boxed_next(alloc, trees)?;
    Ok(trees.push(split(alloc, line, first, second))?)
}

// The certificate that stands next, in a box.
fn boxed_next(alloc: Global, trees: &mut Vec<CertTree>) -> Result<Box<CertTree>, Refusal> {
    Ok(Box::new(alloc, next_tree(trees)?)?)
}

// The certificate that stands next.
fn next_tree(trees: &mut Vec<CertTree>) -> Result<CertTree, Refusal> {
    match trees.pop() {
        Some(tree) => Ok(tree),
        None => Err(Refusal::Bad),
    }
}

// The line of words that are those of a proof file.
fn read_line(alloc: Global, text: &str) -> Result<CertLine, Refusal> {
    match line_from(alloc, text.as_bytes())? {
        Line::Cert(line) => Ok(line),
        _ => Err(Refusal::Bad),
    }
}

/// A line that closes the branch.
pub fn closed(alloc: Global, line: CertLine) -> CertTree {
    ended(Vec::new(alloc), CertEnd::Close(line))
}

/// A line that splits the branch, with a certificate for either part.
pub fn split(
    alloc: Global,
    line: CertLine,
    first: Box<CertTree>,
    second: Box<CertTree>,
) -> CertTree {
    ended(Vec::new(alloc), CertEnd::Split(line, first, second))
}

/// Lines, and how the branch ends behind them.
pub fn ended(list: Vec<CertLine>, last: CertEnd) -> CertTree {
    let lines = CertLines { list };
    CertTree { lines, last }
}
