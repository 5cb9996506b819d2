// The bodies of summaries, which a table numbers.
ghost use Rattle.std.specs.Prelude.{◌≡◌, ◌-◌, ◌^◌, min, IfOk};
ghost use Rattle.sm_syntax.specs.text.Conditions.{code_nodes};
ghost use Rattle.sm_syntax.specs.trees.Views.{code_of};

use sm_syntax::{Block, copy_block, nodes};
use std::alloc::{AllocError, Global};

// A body with its size, which is what is hashed of it.
#[derive(Drop)]
pub(crate) struct Body {
    pub(crate) nodes: u64,
    pub(crate) block: Block,
    ghost counted: { nodes ≡ min (code_nodes (code_of block)) (2 ^ 64 - 1) },
}

impl Body {
    // A body of its own with the same code.
    pub(crate) fn copied(alloc: Global, block: &Block) -> Result<Body, AllocError>
        ensures { IfOk result (λ b. code_of b.block ≡ code_of block.now) }
    {
        let block = copy_block(alloc, block)?;
        let nodes = nodes(&block);
        Ok(Body { nodes, block })
    }
}
