// Looks tasks up in what is kept.
ghost use Rattle.std.specs.Prelude.{◌≡◌, IfOk, IfSome, is_some, All};
ghost use Rattle.std.specs.List.{AllZip};
ghost use Rattle.sm_text.specs.printing.Named.{HasText};
ghost use Rattle.sm_text.specs.Tasks.{parts_of};
ghost use Rattle.sm_batch.specs.Entries.{IsAccepted};
ghost use Rattle.sm_batch.specs.Groups.{is_hit};
ghost use Rattle.sm_batch.specs.Keys.{key_of};
ghost use Rattle.sm_batch.specs.Steps.{IsLookedUp};

use crate::batch::Batch;
use crate::worker::Worker;
use sm_task::{Task, print_task};
use std::alloc::{AllocError, Global};

/// A task's key and, where it is a hit, the reply that is kept under it.
#[derive(Drop)]
pub(crate) struct Looked {
    pub(crate) key: Vec<u8>,
    pub(crate) reply: Option<Vec<u8>>,
}

impl<W: Worker> Batch<W> {
    /// Looks all tasks up. Nothing changes yet.
    pub(crate) fn look_all_up(
        &self,
        alloc: Global,
        tasks: &[Task],
    ) -> Result<Vec<Looked>, AllocError>
        requires { All (λ t. HasText (parts_of t)) tasks.now }
        ensures { let w = self.now.worker in let entries = self.now.entries in
            IfOk result (λ ls. AllZip
            (IsLookedUp (W.replies w) (W.accepts w) (W.takes w) entries) tasks.now ls.items) }
    {
        let mut all = Vec::new(alloc);
        for task in tasks {
            all.push(self.look_up(alloc, task)?)?;
        }
        Ok(all)
    }

    // Looks a task up.
    fn look_up(&self, alloc: Global, task: &Task) -> Result<Looked, AllocError>
        requires { HasText (parts_of task.now) }
        ensures { let w = self.now.worker in let entries = self.now.entries in
            IfOk result (IsLookedUp (W.replies w) (W.accepts w) (W.takes w) entries task.now) }
    {
        let key = print_task(alloc, task)?;
        let reply = self.kept_reply(alloc, task, &key)?;
        Ok(Looked { key, reply })
    }

    // The reply that is kept under a task's key, where the worker takes the certificate with it.
    fn kept_reply(
        &self,
        alloc: Global,
        task: &Task,
        key: &Vec<u8>,
    ) -> Result<Option<Vec<u8>>, AllocError>
        requires text { HasText (parts_of task.now) }
        requires key { key.now.items ≡ key_of (parts_of task.now) }
        ensures hit { let hit = is_hit (W.takes self.now.worker) self.now.entries in
            IfOk result (λ r. is_some r ≡ hit (parts_of task.now)) }
        ensures reply { let w = self.now.worker in
            IfOk result (λ o. IfSome o (λ r.
            IsAccepted (W.replies w) (W.accepts w) (parts_of task.now) r.items)) }
    {
        let Some(kept) = self.cache.peek(key) else {
            return Ok(None);
        };
        if self.worker.recheck(alloc, task, &kept.cert)? {
            Ok(Some(Vec::from_slice(alloc, &kept.reply)?))
        } else {
            Ok(None)
        }
    }
}
