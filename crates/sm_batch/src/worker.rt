// What is answered to tasks.
ghost use Rattle.std.specs.Prelude.{◌≡◌, ℕ, Bool, true, List, IfOk};
ghost use Rattle.sm_syntax.specs.claim.ConflictFree.{ConflictFree};
ghost use Rattle.sm_syntax.specs.text.Parts.{Parts, task_of};
ghost use Rattle.sm_text.specs.printing.Named.{HasText};
ghost use Rattle.sm_text.specs.Tasks.{parts_of};

use sm_task::Task;
use std::alloc::{AllocError, Global};

/// A reply to a task and, where it is the accepting one, a certificate.
#[derive(Drop)]
pub struct Answered {
    pub reply: Vec<u8>,
    pub cert: Option<Vec<u8>>,
}

/// Says what is replied to tasks that some text spells, and checks certificates for them. The
/// answers come from a closure: one may start threads, which a method of a trait may not.
pub trait Worker {
    // Which reply a task has.
    ghost replies: { Self → Parts → List ℕ → Type 0 };

    // Which tasks have the accepting reply.
    ghost accepts: { Self → Parts → Type 0 };

    // Which certificates it takes for a task.
    ghost takes: { Self → Parts → List ℕ → Bool };

    /// Whether a certificate is taken for a task.
    fn recheck(&self, alloc: Global, task: &Task, cert: &[u8]) -> Result<bool, AllocError>
        requires { HasText (parts_of task.now) }
        ensures { IfOk result (λ b. b ≡ takes self.now (parts_of task.now) cert.now) };

    // A task has one reply.
    ghost one_reply: { (w : Self) (t : Parts) (a b : List ℕ) →
        replies w t a → replies w t b → a ≡ b };

    // A task that some text spells, and for which a certificate is taken, is free of conflicts.
    ghost is_free: { (w : Self) (t : Parts) (c : List ℕ) →
        HasText t → takes w t c ≡ true → ConflictFree (task_of t) };
}

/// A task that some text spells, and for which a worker takes a certificate, is free of conflicts.
pub fn taken_is_free<W: Worker>(worker: &W)
    ensures { (t : Parts) (c : List ℕ) → HasText t → W.takes worker.now t c ≡ true →
        ConflictFree (task_of t) }
{}
