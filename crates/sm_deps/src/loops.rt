// The sets that are kept for loops: a loop that is gone over again goes on from its last set, since
// sets only grow.
ghost use Rattle.std.specs.Prelude.{◌<◌, length, OnOk, IfOk, ◌≡◌, [], ℕ};
ghost use Rattle.sm_deps.specs.Members.{members};
ghost use Rattle.sm_deps.specs.Loops.{IsReady, Resumes, KeepsSet};

use crate::members::{NameSet, add_all};
use std::alloc::{AllocError, Global};

// The last set of each loop that was met, by its number, and the number of the loop that is met
// next. Loops have their numbers as they are met from the end of the code, an outer one before
// those in its body.
#[derive(Drop)]
pub(crate) struct Loops {
    pub(crate) sets: Vec<NameSet>,
    pub(crate) next: usize,
}

// No loop was met.
pub(crate) fn no_loops(alloc: Global) -> Loops
    ensures next { result.next ≡ 0 }
    ensures sets { result.sets.items ≡ [] }
{
    Loops {
        sets: Vec::new(alloc),
        next: 0,
    }
}

// Meets the next loop, whose number it gives, and adds its last set to the one that it begins with.
pub(crate) fn resume(loops: &mut Loops, names: &mut NameSet) -> Result<usize, AllocError>
    requires { IsReady loops.old }
    ensures number { IfOk result (λ n. n ≡ loops.old.next) }
    ensures set { let before = loops.old in
        OnOk result (Resumes (members names.old) (members names.new) before loops.new) }
{
    let number = loops.next;
    if number < loops.sets.len() {
        let last = loops.sets[number].clone()?;
        add_all(names, last)?;
    } else {
        let first = names.clone()?;
        loops.sets.push(first)?;
    }
    loops.next = number + 1;
    Ok(number)
}

// Keeps a set for a loop that was met.
pub(crate) fn keep(loops: &mut Loops, number: usize, names: &NameSet) -> Result<(), AllocError>
    requires met { number < length loops.old.sets.items }
    requires ready { IsReady loops.old }
    ensures { OnOk result (KeepsSet number (members names.now) loops.old loops.new) }
{
    loops.sets[number] = names.clone()?;
    Ok(())
}
