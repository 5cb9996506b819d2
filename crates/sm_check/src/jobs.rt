// Certificates that are run as jobs.
ghost use Rattle.std.specs.Prelude.{◌≡◌, ◌<◌, ◌≤◌, ℕ, Bool, true, length, take, Some, IfOk, slice_get, slice_index_or};
ghost use Rattle.sm_term.specs.declared.term.TermId.{TermId};
ghost use Rattle.sm_term.specs.Tables.{trees_in, sorts_in};
ghost use Rattle.sm_proof.specs.Passing.{Progress};
ghost use Rattle.sm_check.specs.Aside.{certificates_of};
ghost use Rattle.sm_check.specs.Closing.{CloseFirst, Passes};
ghost use Rattle.sm_check.specs.LineEnds.{ended_in};
ghost use Rattle.sm_check.specs.declared.openings.Opening.{Opening};
ghost use Rattle.sm_check.specs.declared.raw_lines.RawLines.{RawLines};
ghost use Rattle.sm_check.specs.Walks.{Walks, terms_in};

use crate::alone::closes;
use crate::openings::{Opening, openings};
use crate::raw_lines::RawLines;
use crate::walk::Walk;
use sm_par::{Gate, Job, Phase, run_jobs};
use sm_term::{TermId, TermTable};
use sm_theory::Branch;
use std::alloc::{AllocError, Global};
use std::thread::Threads;

/// Who runs certificates: 1 to 64 workers, behind a gate.
#[derive(Drop)]
pub(crate) struct Crew<'c, R: Threads + Sync, G: Gate> {
    pub(crate) rt: &'c R,
    pub(crate) gate: &'c G,
    pub(crate) workers: u32,
    pub(crate) ghost some: { 0 < workers },
    pub(crate) ghost most: { workers ≤ 64 },
}

/// How many certificates close the branches that are due, the first the first, and so on. They are
/// read and run as jobs, each for its branch alone, where lines `exact` may stand or may not.
pub(crate) fn closed_first<R: Threads + Sync, G: Gate>(
    crew: &Crew<'_, R, G>,
    alloc: Global,
    walk: &Walk<'_>,
    certificates: &[RawLines],
    exact: bool,
) -> Result<usize, AllocError>
    ensures few { IfOk result (λ n. n ≤ length certificates.now) }
    ensures closed { (p : Progress) → Walks walk.now p → IfOk result (λ n.
        CloseFirst exact (sorts_in walk.now.table) p.terms p.pending
        (take n (certificates_of certificates.now))) }
{
    if certificates.is_empty() {
        return Ok(0);
    }
    let openings = openings(alloc, walk, certificates.len())?;
    let count = openings.len().min(certificates.len());
    let job = Certificates {
        table: &walk.table,
        terms: &walk.terms,
        path: &walk.path,
        openings: &openings,
        certificates,
        exact,
        count,
    };
    let closed = run_jobs(
        crew.rt,
        alloc,
        crew.gate,
        Phase::Certificate,
        &job,
        count as u64,
        crew.workers,
    )?;
    Ok(leading(&closed))
}

// How many are true before the first that isn't.
fn leading(list: &[bool]) -> usize
    ensures few { result ≤ length list.now }
    ensures all { (k : ℕ) (d : Bool) → k < result → slice_index_or list.now k d ≡ true }
{
    for i in 0..list.len() {
        if !list[i] {
            return i;
        }
    }
    list.len()
}

// Certificates and where they begin. Each is told whether it closes its branch.
#[derive(Drop)]
struct Certificates<'c> {
    table: &'c TermTable,
    terms: &'c [TermId],
    path: &'c Branch,
    openings: &'c [Opening],
    certificates: &'c [RawLines],
    // Lines `exact` may stand in them.
    exact: bool,
    count: usize,
    ghost before: { (k : ℕ) (t : TermId) → slice_get terms.now k ≡ Some t →
        t.0 < length (trees_in table.now) },
    ghost opened: { count ≤ length openings.now },
    ghost there: { count ≤ length certificates.now },
}

impl Job for Certificates<'_> {
    type Out = bool;

    ghost indices = { λ job. job.count };

    ghost stands_for = { λ job index out. let trees = trees_in job.table.now in
        (o : Opening) (c : RawLines) →
        slice_get job.openings.now index ≡ Some o → slice_get job.certificates.now index ≡ Some c →
        out ≡ true →
        Passes job.exact (sorts_in job.table.now) trees (terms_in trees job.terms.now)
        job.path.now.list.items o (ended_in c.bytes.items) };

    fn run(&self, alloc: Global, index: u64) -> Result<bool, AllocError> {
        let place = index as usize;
        closes(
            alloc,
            self.table,
            self.terms,
            self.path,
            &self.openings[place],
            &self.certificates[place].bytes,
            self.exact,
        )
    }
}
