// The calls of a shelf or a sink in memory, and which of them fail.
ghost use Rattle.std.specs.Prelude.{◌≡◌, ◌↔◌, ◌+◌, ◌-◌, ◌^◌, ◌++◌, [], ◌∷◌, min, IsTrue, Contains, OnOk, OnErr, IsOkUnless};

use crate::error::IoError;
use std::alloc::Global;

// Which calls are to fail, by their numbers from 0, and how many were made.
#[derive(Drop)]
pub struct Calls {
    pub failing: Vec<u64>,
    pub made: u64,
}

impl Calls {
    pub fn new(alloc: Global) -> Calls
        ensures failing { result.failing.items ≡ [] }
        ensures made { result.made ≡ 0 }
    {
        Calls {
            failing: Vec::new(alloc),
            made: 0,
        }
    }

    pub fn fail_at(&mut self, call: u64) -> Result<(), IoError>
        ensures ok { OnOk result (self.new.failing.items ≡ self.old.failing.items ++ call ∷ []) }
        ensures err { OnErr result (self.new.failing.items ≡ self.old.failing.items) }
        ensures memory { IsOkUnless result IoError.Memory }
        ensures made { self.new.made ≡ self.old.made }
    {
        self.failing.push(call)?;
        Ok(())
    }

    // Counts one more call, and answers whether it is to fail.
    pub fn next_fails(&mut self) -> bool
        ensures fails { IsTrue result ↔ Contains self.old.failing.items self.old.made }
        ensures counted { self.new.made ≡ min (self.old.made + 1) (2 ^ 64 - 1) }
        ensures failing { self.new.failing.items ≡ self.old.failing.items }
    {
        let call = self.made;
        self.made = call.saturating_add(1);
        self.failing.contains(&call)
    }
}
