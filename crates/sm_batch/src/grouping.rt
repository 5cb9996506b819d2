// A group of tasks.
ghost use Rattle.std.specs.Prelude.{◌≡◌, ◌≤◌, ◌<◌, ◌+◌, ◌-◌, ◌^◌, min, All, map, count_by, IfOk, OnOk, OnErr};
ghost use Rattle.std.specs.List.{AllZip};
ghost use Rattle.sm_syntax.specs.claim.ConflictFree.{ConflictFree};
ghost use Rattle.sm_syntax.specs.text.Parts.{task_of};
ghost use Rattle.sm_text.specs.printing.Named.{HasText};
ghost use Rattle.sm_text.specs.Tasks.{parts_of};
ghost use Rattle.sm_batch.specs.Answers.{MayAnswer, AnswersForWorker};
ghost use Rattle.sm_batch.specs.Groups.{is_hit, Settles};
ghost use Rattle.sm_batch.specs.Steps.{IsReply, IsStep, AreSafe, after_looks, ArePutOrNot};

use crate::answering::{answer_all, missed};
use crate::batch::Batch;
use crate::settling::{look_all, put_all};
use crate::telling::{Step, hits_in, tell};
use crate::worker::{Answered, Worker, taken_is_free};
use sm_par::Gate;
use sm_task::Task;
use std::alloc::{AllocError, Global};
use std::thread::Threads;

impl<W: Worker> Batch<W> {
    /// The replies to tasks, each the worker's own. A task that is a hit has the reply that is
    /// kept; to the others the answers come from a closure, by 1 to 64 workers. What is kept
    /// changes last.
    pub fn group<R: Threads + Sync, G: Gate, A: Fn(&Task) -> Result<Answered, AllocError> + Sync>(
        &mut self,
        rt: &R,
        alloc: Global,
        gate: &G,
        answer: &A,
        tasks: &[Task],
        workers: u32,
    ) -> Result<Vec<Vec<u8>>, AllocError>
        requires able { (t : _) → HasText (parts_of t.now) → A.pre answer.now t }
        requires told { let w = self.old.worker in
            AnswersForWorker (W.replies w) (W.accepts w) (W.takes w)
            (MayAnswer A.Fn answer.now) }
        requires spelled { All (λ t. HasText (parts_of t)) tasks.now }
        requires some { 0 < workers }
        requires most { workers ≤ 64 }
        ensures replies { let w = self.old.worker in
            IfOk result (λ replies.
            AllZip (W.replies w) (map parts_of tasks.now) (map (λ r. r.items) replies.items)) }

        // A task with the accepting reply is free of conflicts.
        ensures free { let accepts = W.accepts self.old.worker in
            OnOk result (All (λ t. accepts t → ConflictFree (task_of t)) (map parts_of tasks.now)) }
        ensures entries { let w = self.old.worker in
            OnOk result (Settles (W.replies w) (W.accepts w) (W.takes w)
            self.old.capacity (map parts_of tasks.now) self.old.entries self.new.entries) }
        ensures hits { let hit = is_hit (W.takes self.old.worker) self.old.entries in
            OnOk result (self.new.hits
            ≡ min (self.old.hits + count_by hit (map parts_of tasks.now)) (2 ^ 64 - 1)) }
        ensures worker { self.new.worker ≡ self.old.worker }
        ensures capacity { self.new.capacity ≡ self.old.capacity }

        // Where memory is wanting, nothing changes.
        ensures same { OnErr result (self.new ≡ self.old) }
    {
        let (replies, steps) = self.replies_and_steps(rt, alloc, gate, answer, tasks, workers)?;
        self.settle(steps);
        Ok(replies)
    }

    // The reply to each task, and what is to be done for it. Nothing changes yet.
    fn replies_and_steps<
        R: Threads + Sync,
        G: Gate,
        A: Fn(&Task) -> Result<Answered, AllocError> + Sync,
    >(
        &self,
        rt: &R,
        alloc: Global,
        gate: &G,
        answer: &A,
        tasks: &[Task],
        workers: u32,
    ) -> Result<(Vec<Vec<u8>>, Vec<Step>), AllocError>
        requires able { (t : _) → HasText (parts_of t.now) → A.pre answer.now t }
        requires told { let w = self.now.worker in
            AnswersForWorker (W.replies w) (W.accepts w) (W.takes w)
            (MayAnswer A.Fn answer.now) }
        requires spelled { All (λ t. HasText (parts_of t)) tasks.now }
        requires some { 0 < workers }
        requires most { workers ≤ 64 }
        ensures replies { let w = self.now.worker in
            IfOk result (λ r. AllZip
            (IsReply (W.replies w) (W.accepts w) (W.takes w)) tasks.now r.0.items) }
        ensures steps { let w = self.now.worker in
            IfOk result (λ r. AllZip
            (IsStep (W.replies w) (W.accepts w) (W.takes w) self.now.entries) tasks.now r.1.items) }
    {
        taken_is_free(&self.worker);
        let looked = self.look_all_up(alloc, tasks)?;
        let wanted = missed(alloc, tasks, &looked)?;
        let answers = answer_all(rt, alloc, gate, answer, &wanted, workers)?;
        let told = tell(alloc, looked, answers)?;
        Ok(told)
    }

    // Does all steps. Nothing fails here.
    fn settle(&mut self, steps: Vec<Step>)
        requires { let w = self.old.worker in AreSafe (W.replies w) (W.accepts w) steps.items }
        ensures entries { ArePutOrNot self.old.capacity steps.items
            (after_looks steps.items self.old.entries) self.new.entries }
        ensures hits { self.new.hits
            ≡ min (self.old.hits + count_by (λ s. s.hit) steps.items) (2 ^ 64 - 1) }
        ensures worker { self.new.worker ≡ self.old.worker }
        ensures capacity { self.new.capacity ≡ self.old.capacity }
    {
        self.hits = self.hits.saturating_add(hits_in(&steps));
        look_all(&mut self.cache, &steps);
        put_all(&mut self.cache, steps);
    }
}
