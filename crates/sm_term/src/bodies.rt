// When two bodies are equal.
ghost use Rattle.std.specs.Cmp.{partial_equiv_from_equiv};
ghost use Rattle.sm_term.specs.Bodies.{same_body, hashed_body, same_body-equiv, same_body-hashed};

use crate::body::Body;
use sm_syntax::same_block;
use std::hash::{Hash, Hasher};

impl PartialEq for Body {
    ghost eq = { same_body };

    ghost laws = { partial_equiv_from_equiv same_body-equiv };

    fn eq(&self, other: &Body) -> bool {
        same_block(&self.block, &other.block)
    }
}

impl Eq for Body {
    ghost laws = { same_body-equiv };
}

impl Hash for Body {
    ghost hash_input = { hashed_body };

    ghost respects_eq = { same_body-hashed };

    fn hash<H: Hasher>(&self, state: &mut H) {
        self.nodes.hash(state);
    }
}
