// What the lines of a proof say, in their order.
ghost use Rattle.std.specs.Prelude.{◌≡◌};
ghost use Rattle.sm_proof.specs.FieldRanges.{IsWithinFields};
ghost use Rattle.sm_proof.specs.Lines.{line_of};
ghost use Rattle.sm_check.specs.Checkers.{sorts_known};

use crate::arity::{Ways, ways_of};
use sm_check::{Checker, LineFault};
use sm_proof::{Line, NodeLine};
use sm_term::Formula;
use sm_theory::CertLine;
use std::alloc::AllocError;

// A node with the formula that it keeps, Yes where it keeps none.
#[derive(Drop)]
pub(crate) struct FlatNode {
    pub(crate) line: NodeLine,
    pub(crate) keep: Formula,
}

// The nodes and the lines of certificates so far, by terms of the table; how many facts stand before
// each certificate; and how many branches of the last are open.
#[derive(Drop)]
pub(crate) struct Gathered {
    pub(crate) nodes: Vec<FlatNode>,
    pub(crate) certs: Vec<CertLine>,
    pub(crate) starts: Vec<u64>,
    pub(crate) open: u64,
    /// How many lines there are.
    pub(crate) lines: u64,
}

// Puts a line of a certificate behind those so far. Where no branch is open, it is a certificate's
// first.
fn put_cert(gathered: &mut Gathered, line: CertLine, facts: u64) -> Result<(), AllocError> {
    if gathered.open == 0 {
        gathered.starts.push(facts)?;
        gathered.open = 1;
    }
    match ways_of(&line) {
        Ways::None => gathered.open = gathered.open.saturating_sub(1),
        Ways::One => {}
        Ways::Two => gathered.open = gathered.open.saturating_add(1),
    }
    gathered.certs.push(line)?;
    Ok(())
}

// Puts a node behind those so far.
fn put_node(gathered: &mut Gathered, node: FlatNode) -> Result<(), AllocError> {
    gathered.nodes.push(node)?;
    Ok(())
}

// Puts what a line says behind what the lines so far say.
fn put_line(checker: &Checker<'_>, gathered: &mut Gathered, line: &Line) -> Result<(), LineFault> {
    match line {
        Line::Header { .. } => Ok(()),
        Line::Term(_) => Ok(()),
        Line::Form(_) => Ok(()),
        Line::Node(line) => {
            let keep = checker.kept(line)?;
            put_node(gathered, FlatNode { line: *line, keep })?;
            Ok(())
        }
        Line::Cert(line) => {
            let named = checker.named(line)?;
            put_cert(gathered, named, checker.facts())?;
            Ok(())
        }
    }
}

/// Takes a line.
pub(crate) fn gather(
    checker: &mut Checker<'_>,
    gathered: &mut Gathered,
    line: &Line,
) -> Result<(), LineFault>
    requires { IsWithinFields (line_of line.now) }
    ensures { sorts_known checker.new ≡ sorts_known checker.old }
{
    put_line(checker, gathered, line)?;
    gathered.lines = gathered.lines.saturating_add(1);
    let _state = checker.line(line)?;
    Ok(())
}
