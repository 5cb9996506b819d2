// Whether code has a hole.
ghost use Rattle.std.specs.Prelude.{◌≡◌};
ghost use Rattle.sm_syntax.specs.claim.Syntax.{End};
ghost use Rattle.sm_syntax.specs.trees.Views.{statement_of, code_of};
ghost use Rattle.sm_moves.specs.CodeShapes as shapes;

use sm_syntax::{Block, Stmt};

/// Whether a block has a hole.
#[cycle(has_hole)]
pub fn has_hole(block: &Block) -> bool
    ensures { result ≡ shapes.has_hole (code_of block.now) }
{
    for s in &block.list {
        if is_open(s) {
            return true;
        }
    }
    false
}

// Whether a statement has a hole or is one.
#[cycle(has_hole)]
#[tactic(auto, using(crate::proofs::WalksLemmas::hole_tests))]
fn is_open(s: &Stmt) -> bool
    ensures { result ≡ shapes.has_hole (statement_of s.now End) }
{
    match s {
        Stmt::Skip => false,
        Stmt::Assign(_, _) => false,
        Stmt::Store(_, _, _) => false,
        Stmt::If(_, c, d) => has_hole(c) || has_hole(d),
        Stmt::While(_, c) => has_hole(c),
        Stmt::Hole(_) => true,
    }
}
