// How large what is drawn may still get.
ghost use Rattle.std.specs.Prelude.{◌≡◌, ◌+◌, ◌<◌, ◌≤◌, IfOk, IfErr, MatchResult};
ghost use Rattle.sm_sketch.specs.declared.error.ProductError.TheVariants.{TooMany};
ghost use Rattle.sm_product.specs.Rooms.{IsRoom};

use sm_sketch::ProductError;

// How many nodes a part of a sketch may have, and how many branching ones one under another.
#[derive(Clone, Copy)]
pub(crate) struct Room {
    pub nodes: u64,
    pub branches: u64,
}

impl Room {
    // That of a whole sketch.
    pub fn whole() -> Room
        ensures room { IsRoom result }
        ensures nodes { result.nodes ≡ 200000 }
        ensures branches { result.branches ≡ 1000 }
    {
        Room {
            nodes: 200_000,
            branches: 1000,
        }
    }

    // What is left where so many nodes stand beside.
    pub fn without(self, nodes: u64) -> Result<Room, ProductError>
        ensures { MatchResult result
            (λ r. (r.nodes + nodes ≡ self.nodes) × (r.branches ≡ self.branches))
            (λ e. (e ≡ TooMany) × (self.nodes < nodes)) }
    {
        if self.nodes < nodes {
            return Err(ProductError::TooMany);
        }
        Ok(Room {
            nodes: self.nodes - nodes,
            branches: self.branches,
        })
    }

    // What is left under a branching node.
    pub fn below_node(self) -> Result<Room, ProductError>
        ensures { MatchResult result
            (λ r. (r.branches + 1 ≡ self.branches) × (r.nodes ≡ self.nodes))
            (λ e. (e ≡ TooMany) × (self.branches ≡ 0)) }
    {
        if self.branches == 0 {
            return Err(ProductError::TooMany);
        }
        Ok(Room {
            nodes: self.nodes,
            branches: self.branches - 1,
        })
    }

    // What is left under a branching node where so many nodes stand beside.
    pub fn beside(self, nodes: u64) -> Result<Room, ProductError>
        ensures ok { IfOk result (λ r.
            (r.nodes + nodes ≡ self.nodes) × (r.branches + 1 ≡ self.branches)) }
        ensures err { IfErr result (λ e. e ≡ TooMany) }
        ensures full { IfErr result (λ e. 1 ≤ self.branches → self.nodes < nodes) }
    {
        if self.branches == 0 || self.nodes < nodes {
            return Err(ProductError::TooMany);
        }
        Ok(Room {
            nodes: self.nodes - nodes,
            branches: self.branches - 1,
        })
    }
}
