// Certificates, put together from their last line to the first.
use crate::arity::{Ways, ways_of};
use sm_cert::{CertEnd, CertLines, CertTree};
use sm_theory::CertLine;
use std::alloc::{AllocError, Global};

// A certificate of one line.
fn alone(alloc: Global, last: CertEnd) -> CertTree {
    CertTree {
        lines: CertLines {
            list: Vec::new(alloc),
        },
        last,
    }
}

// A certificate whose lines stood in the other order.
fn turned(tree: CertTree) -> CertTree {
    let mut list = tree.lines.list;
    list.reverse();
    CertTree {
        lines: CertLines { list },
        last: tree.last,
    }
}

// Takes off the last certificate, with its lines in order.
fn taken(alloc: Global, trees: &mut Vec<CertTree>) -> Result<Option<Box<CertTree>>, AllocError> {
    match trees.pop() {
        Some(tree) => Ok(Some(Box::new(alloc, turned(tree))?)),
        None => Ok(None),
    }
}

// Puts a line that splits before the last two certificates. It tells whether these are there.
fn split(alloc: Global, trees: &mut Vec<CertTree>, line: CertLine) -> Result<bool, AllocError> {
    let first = match taken(alloc, trees)? {
        Some(first) => first,
        None => return Ok(false),
    };
    let second = match taken(alloc, trees)? {
        Some(second) => second,
        None => return Ok(false),
    };
    trees.push(alone(alloc, CertEnd::Split(line, first, second)))?;
    Ok(true)
}

// Puts a line that adds facts before the last certificate. It tells whether that is there.
fn add(trees: &mut Vec<CertTree>, line: CertLine) -> Result<bool, AllocError> {
    match trees.pop() {
        Some(tree) => {
            let mut list = tree.lines.list;
            list.push(line)?;
            trees.push(CertTree {
                lines: CertLines { list },
                last: tree.last,
            })?;
            Ok(true)
        }
        None => Ok(false),
    }
}

// Puts a line before the certificates that it begins. It tells whether these are there.
fn put(alloc: Global, trees: &mut Vec<CertTree>, line: CertLine) -> Result<bool, AllocError> {
    match ways_of(&line) {
        Ways::None => {
            trees.push(alone(alloc, CertEnd::Close(line)))?;
            Ok(true)
        }
        Ways::One => add(trees, line),
        Ways::Two => split(alloc, trees, line),
    }
}

/// The certificates whose lines these are, one after another, None where they are no whole ones.
pub(crate) fn trees_of(
    alloc: Global,
    certs: Vec<CertLine>,
) -> Result<Option<Vec<CertTree>>, AllocError> {
    let mut lines = certs;
    let mut begun = Vec::new(alloc);
    while let Some(line) = lines.pop() {
        if !put(alloc, &mut begun, line)? {
            return Ok(None);
        }
    }
    let mut trees = Vec::new(alloc);
    while let Some(tree) = begun.pop() {
        trees.push(turned(tree))?;
    }
    Ok(Some(trees))
}
