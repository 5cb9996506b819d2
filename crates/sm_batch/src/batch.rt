// A batch: a worker, and what it accepted lately.
ghost use Rattle.std.specs.Prelude.{◌≡◌, ◌≤◌, ◌<◌, [], IfOk};

use crate::worker::Worker;
use lru::LruCache;
use std::alloc::{AllocError, Global};
use std::marker::Model;
use std::num::NonZeroUsize;

/// Answers tasks group by group. What was accepted lately is kept with its certificate.
#[derive(Drop)]
pub struct Batch<W: Worker> {
    pub(crate) worker: W,
    pub(crate) cache: LruCache<Vec<u8>, Kept>,
    pub(crate) hits: u64,
}

/// The accepting reply to a task, and a certificate.
#[derive(Drop)]
pub(crate) struct Kept {
    pub(crate) reply: Vec<u8>,
    pub(crate) cert: Vec<u8>,
}

impl<W: Worker> Model for Batch<W> {
    ghost use Rattle.sm_batch.specs.Batches.{BatchValue};
    ghost use Rattle.sm_batch.specs.Entries.{AreAccepted};

    ghost Value = { BatchValue W };

    ghost use Rattle.sm_batch.specs.Views.{entries_of};

    ghost view = { λ b. record {
      worker = b.worker;
      entries = entries_of b.cache.entries;
      capacity = b.cache.cap;
      hits = b.hits;
    } };

    ghost invariant = { λ b.
        AreAccepted (W.replies b.worker) (W.accepts b.worker) (entries_of b.cache.entries) };
}

impl<W: Worker + Drop> Batch<W> {
    /// A batch that keeps nothing yet, and at most so many replies.
    pub fn new(alloc: Global, worker: W, capacity: u32) -> Result<Batch<W>, AllocError>
        requires some { 0 < capacity }
        requires most { capacity ≤ 1000 }
        ensures worker { IfOk result (λ b. b.worker ≡ worker) }
        ensures entries { IfOk result (λ b. b.entries ≡ []) }
        ensures capacity { IfOk result (λ b. b.capacity ≡ capacity) }
        ensures hits { IfOk result (λ b. b.hits ≡ 0) }
    {
        let Some(most) = NonZeroUsize::new(capacity as usize) else {
            unreachable!()
        };
        Ok(Batch {
            worker,
            cache: LruCache::sparse(alloc, most)?,
            hits: 0,
        })
    }

    /// How many tasks were answered by what was kept.
    pub fn hits(&self) -> u64
        ensures { result ≡ self.now.hits }
    {
        self.hits
    }
}
