// Certificates that jobs make ahead of the end of an attempt.
ghost use Rattle.std.specs.Prelude.{◌≤◌, ◌<◌, ℕ, length, take, slice_index_or, IfOk, OnOk};
ghost use Rattle.sm_term.specs.Tables.{trees_in, sorts_in};
ghost use Rattle.sm_term.specs.TableLaws.{ExtendsTable};
ghost use Rattle.sm_term.specs.Tails.{AreRowsSound};
ghost use Rattle.sm_expand.specs.Views.{AreDuesReady};
ghost use Rattle.sm_deeper.specs.declared.end_jobs.JobEnd.{JobEnd};

use crate::crew::Crew;
use crate::effort::Effort;
use crate::node_ends::{NodeEnd, put_trees};
use sm_cert::CertTree;
use sm_expand::Due;
use sm_list::renumbered_tree;
use sm_observed::Work;
use sm_par::{Gate, Phase, run_calls};
use sm_solve::Reach;
use sm_term::{TermId, TermRows, TermTable};
use std::alloc::{AllocError, Global};
use std::thread::Threads;

// What the goals of the node at a place come to.
#[derive(Drop)]
struct PlaceEnd {
    place: usize,
    end: NodeEnd,
}

// What a job's nodes come to over a copy of a table, with the copy's new terms.
#[derive(Drop)]
struct JobEnd {
    rows: TermRows,
    list: Vec<PlaceEnd>,
}

// What jobs end: the nodes at some places, dealt to so many jobs, each of which may do so much.
#[derive(Drop)]
struct Ends<'e> {
    dues: &'e [Due],
    places: &'e [usize],
    jobs: usize,
    reach: Reach,
    work: Work,
}

// Puts what the goals of the node at a place come to behind others. Whether the work sufficed.
fn put_end(
    alloc: Global,
    table: &mut TermTable,
    dues: &[Due],
    place: usize,
    list: &mut Vec<PlaceEnd>,
    effort: &mut Effort,
) -> Result<bool, AllocError>
    requires { AreDuesReady (sorts_in table.old) (trees_in table.old) dues.now }
    ensures { OnOk result (ExtendsTable table.old table.new) }
{
    let Some(due) = dues.get(place) else {
        return Ok(true);
    };
    let before = effort.work.left;
    let mut trees = Vec::new(alloc);
    let is_closed = put_trees(alloc, table, due, &mut trees, effort)?;
    if effort.work.is_spent() {
        return Ok(false);
    }
    let work = before.saturating_sub(effort.work.left);
    let end = NodeEnd {
        trees,
        is_closed,
        work,
    };
    list.push(PlaceEnd { place, end })?;
    Ok(true)
}

// Puts what the goals of a job's nodes come to behind others, as far as the work suffices.
fn put_ends(
    alloc: Global,
    table: &mut TermTable,
    ends: &Ends<'_>,
    job: u64,
    list: &mut Vec<PlaceEnd>,
    effort: &mut Effort,
) -> Result<(), AllocError>
    requires { AreDuesReady (sorts_in table.old) (trees_in table.old) ends.now.dues.now }
    ensures { OnOk result (ExtendsTable table.old table.new) }
{
    for n in 0..ends.places.len() {
        if n.checked_rem(ends.jobs) == Some(job as usize) {
            if !put_end(alloc, table, ends.dues, ends.places[n], list, effort)? {
                return Ok(());
            }
        }
    }
    Ok(())
}

// What a job's nodes come to, over a copy of a table.
fn job_end(
    alloc: Global,
    table: &TermTable,
    ends: &Ends<'_>,
    job: u64,
) -> Result<JobEnd, AllocError>
    requires { AreDuesReady (sorts_in table.now) (trees_in table.now) ends.now.dues.now }
    ensures { IfOk result (λ e. AreRowsSound (sorts_in table.now) (trees_in table.now) e.rows) }
{
    let mut copy = table.copy(alloc)?;
    let from = copy.len();
    let mut list = Vec::new(alloc);
    let mut effort = Effort {
        reach: ends.reach,
        work: ends.work,
    };
    put_ends(alloc, &mut copy, ends, job, &mut list, &mut effort)?;
    let rows = copy.tail(alloc, from)?;
    Ok(JobEnd { rows, list })
}

// What the nodes of all jobs come to.
fn all_ends<R: Threads + Sync, G: Gate>(
    crew: &Crew<'_, R, G>,
    alloc: Global,
    table: &TermTable,
    ends: &Ends<'_>,
) -> Result<Vec<JobEnd>, AllocError>
    requires { AreDuesReady (sorts_in table.now) (trees_in table.now) ends.now.dues.now }
    ensures { IfOk result (λ es. (k : ℕ) (e : JobEnd) → k < length es.items → AreRowsSound
        (sorts_in table.now) (trees_in table.now) (slice_index_or es.items k e).rows) }
{
    let call = move |job: u64| -> Result<JobEnd, AllocError>
        requires { AreDuesReady (sorts_in table.now) (trees_in table.now) ends.now.dues.now }
        ensures { IfOk result (λ e.
            AreRowsSound (sorts_in table.entry.now) (trees_in table.entry.now) e.rows) }
    { job_end(alloc, table, ends, job) };
    let count = ends.jobs as u64;
    let phase = Phase::Obligation;
    run_calls(crew.rt, alloc, crew.gate, phase, &call, count, crew.workers)
}

// Puts rows into a table, and gives the numbers there of the first terms and of theirs.
fn adopted(
    alloc: Global,
    table: &mut TermTable,
    from: u64,
    rows: &TermRows,
) -> Result<Vec<TermId>, AllocError>
    requires behind { from ≤ length (trees_in table.old) }
    requires sound { let first = take from (trees_in table.old) in
        AreRowsSound (sorts_in table.old) first rows.now }
    ensures { ExtendsTable table.old table.new }
{
    let new = table.adopt(alloc, rows, from)?;
    let mut list = Vec::new(alloc);
    for n in 0..from {
        list.push(TermId(n))?;
    }
    list.extend_from_slice(&new.list)?;
    Ok(list)
}

// Certificates under other numbers of terms.
fn renumbered_trees(
    alloc: Global,
    trees: &[CertTree],
    numbers: &[TermId],
) -> Result<Vec<CertTree>, AllocError> {
    let mut list = Vec::new(alloc);
    for tree in trees {
        list.push(renumbered_tree(alloc, tree, numbers)?)?;
    }
    Ok(list)
}

// Makes what a job's nodes come to known at their places, under other numbers of terms.
fn know_all(
    alloc: Global,
    list: &[PlaceEnd],
    numbers: &[TermId],
    known: &mut Vec<Option<NodeEnd>>,
) -> Result<(), AllocError> {
    for made in list {
        let trees = renumbered_trees(alloc, &made.end.trees, numbers)?;
        if made.place < known.len() {
            known[made.place] = Some(NodeEnd {
                trees,
                is_closed: made.end.is_closed,
                work: made.end.work,
            });
        }
    }
    Ok(())
}

// Makes what all jobs' nodes come to known at their places, and puts the jobs' new terms into the
// one table: those below `from` are the same here as in their copies.
fn take_all(
    alloc: Global,
    table: &mut TermTable,
    from: u64,
    ends: &[JobEnd],
    known: &mut Vec<Option<NodeEnd>>,
) -> Result<(), AllocError>
    requires behind { from ≤ length (trees_in table.old) }
    requires sound { (k : ℕ) (e : JobEnd) → k < length ends.now →
        AreRowsSound (sorts_in table.old) (take from (trees_in table.old))
        (slice_index_or ends.now k e).rows }
    ensures { OnOk result (ExtendsTable table.old table.new) }
{
    for end in ends {
        let numbers = adopted(alloc, table, from, &end.rows)?;
        know_all(alloc, &end.list, &numbers, known)?;
    }
    Ok(())
}

/// Makes known at their places what the goals of nodes at some places come to, by jobs; nothing with
/// one worker. What they come to is the same wherever they are walked, so it is free which of them
/// are known.
pub(crate) fn end_ahead<R: Threads + Sync, G: Gate>(
    crew: &Crew<'_, R, G>,
    alloc: Global,
    table: &mut TermTable,
    dues: &[Due],
    places: &[usize],
    known: &mut Vec<Option<NodeEnd>>,
    effort: &Effort,
) -> Result<(), AllocError>
    requires { AreDuesReady (sorts_in table.old) (trees_in table.old) dues.now }
    ensures { OnOk result (ExtendsTable table.old table.new) }
{
    if crew.workers == 1 || places.len() < 2 {
        return Ok(());
    }
    let ends = Ends {
        dues,
        places,
        jobs: places.len().min(crew.workers as usize),
        reach: effort.reach,
        work: effort.work,
    };
    let made = all_ends(crew, alloc, table, &ends)?;
    let from = table.len();
    take_all(alloc, table, from, &made, known)
}
