// Nodes of a round that are dealt to jobs.
ghost use Rattle.std.specs.Prelude.{◌≡◌, ◌<◌, ◌≤◌, ◌&&◌, ℕ, Bool, not, None, length, slice_index_or, IfOk};
ghost use Rattle.sm_term.specs.Tables.{trees_in, sorts_in};
ghost use Rattle.sm_expand.specs.Views.{dues_in, AreDuesReady};
ghost use Rattle.sm_sketch.specs.Choices.{Choice};
ghost use Rattle.sm_houdini.specs.Closing.{closing, owner_in};
ghost use Rattle.sm_houdini.specs.Known.{AreKnown};
ghost use Rattle.sm_houdini.specs.Marks.{all_marked, rows};
ghost use Rattle.sm_houdini.specs.NodeJobs.{NodeGoalsValue, TellsNodes, all_below, holds_but, is_left_out, leaves_out, number_at};

use crate::goal_jobs::Crew;
use crate::judging::{Round, judge_all};
use crate::marks::{Join, Marks, copied, joined_marks};
use crate::owners::owner;
use sm_expand::Due;
use sm_par::{Gate, Job, Phase, run_jobs};
use sm_solve::Reach;
use sm_term::TermTable;
use std::alloc::{AllocError, Global};
use std::marker::Model;
use std::thread::Threads;

// The nodes of a round that are judged. Where there are jobs, each node has the number of the one
// that it is dealt to, or any other number where they share it.
#[derive(Drop)]
pub(crate) enum Nodes<'n> {
    // All nodes.
    Every,
    // Those that jobs share.
    Shared {
        numbers: &'n [u64],
        jobs: u64,
    },
    // Those that are dealt to a job.
    OfJob {
        numbers: &'n [u64],
        jobs: u64,
        job: u64,
    },
}

/// Takes marks away from the templates one of whose goals doesn't close at a node that is dealt to
/// one of so many jobs of the phase Obligation. Each of them has a copy of the table.
pub(crate) fn marks_by_nodes<R: Threads + Sync, G: Gate>(
    crew: &Crew<'_, R, G>,
    alloc: Global,
    table: &TermTable,
    round: &Round<'_>,
    numbers: &[u64],
    marks: &Marks,
    jobs: u64,
) -> Result<Marks, AllocError>
    requires ready { AreDuesReady (sorts_in table.now) (trees_in table.now) round.now.dues.now }
    requires known { AreKnown table.now round.now.reach round.now.dues.now round.now.known.now }
    ensures { let sorts = sorts_in table.now in let trees = trees_in table.now in
        (passes : ℕ → ℕ → Bool) (choice : Choice) →
        rows marks.now.sites.items ≡ all_marked passes 0 choice → IfOk result (λ ms.
        rows ms.sites.items ≡ all_marked (λ s i. passes s i
        && holds_but (λ n. not (is_left_out numbers.now jobs None n)) (closing sorts round.now.reach)
        (owner_in round.now.owners.now) 0 (dues_in sorts trees round.now.dues.now) s i) 0 choice) }
{
    let job = NodeGoals {
        table,
        dues: round.dues,
        known: round.known,
        numbers,
        owners: round.owners,
        marks,
        reach: round.reach,
        jobs,
    };
    let parts = run_jobs(
        crew.rt,
        alloc,
        crew.gate,
        Phase::Obligation,
        &job,
        jobs,
        crew.workers,
    )?;
    all_parts(alloc, &parts, marks)
}

// The marks that all lists have, and these.
fn all_parts(alloc: Global, parts: &[Marks], marks: &Marks) -> Result<Marks, AllocError>
    ensures { (passes : ℕ → ℕ → Bool) (told : ℕ → ℕ → ℕ → Bool) (choice : Choice) →
        rows marks.now.sites.items ≡ all_marked passes 0 choice →
        ((k : ℕ) (d : Marks) → k < length parts.now →
        rows (slice_index_or parts.now k d).sites.items ≡ all_marked (told k) 0 choice) →
        IfOk result (λ ms. rows ms.sites.items
        ≡ all_marked (λ s i. passes s i && all_below (λ k. told k s i) (length parts.now)) 0
        choice) }
{
    let mut all = copied(alloc, marks)?;
    for part in parts {
        all = joined_marks(alloc, Join::Both, &all, part)?;
    }
    Ok(all)
}

// The number of the job that a node is dealt to.
fn number_at(numbers: &[u64], jobs: u64, node: usize) -> u64
    ensures { result ≡ number_at numbers.now jobs node }
{
    match numbers.get(node) {
        Some(number) => *number,
        None => jobs,
    }
}

/// Whether a node is left out: by a job all that aren't dealt to it, and where jobs share nodes, all
/// that are dealt.
pub(crate) fn is_left_out(nodes: &Nodes<'_>, node: usize) -> bool
    ensures { result ≡ leaves_out nodes.now node }
{
    match nodes {
        Nodes::Every => false,
        Nodes::Shared { numbers, jobs } => number_at(numbers, *jobs, node) < *jobs,
        Nodes::OfJob { numbers, jobs, job } => number_at(numbers, *jobs, node) != *job,
    }
}

/// For each node the number of the job that it is dealt to, where there are so many; the number of
/// the jobs for the first node and the last that a site asks, which the jobs share. Any answer is
/// right: it tells only who does what.
pub(crate) fn job_numbers(
    alloc: Global,
    owners: &[Option<u64>],
    dues: &[Due],
    jobs: u64,
) -> Result<Vec<u64>, AllocError>
    requires some { 0 < jobs }
    requires few { jobs ≤ 64 }
{
    let mut numbers = Vec::new(alloc);
    let mut rank: u64 = 0;
    for at in 0..dues.len() {
        if is_between(owners, dues, at) {
            numbers.push(job_of(jobs, rank))?;
            rank = rank.wrapping_add(1);
        } else {
            numbers.push(jobs)?;
        }
    }
    Ok(numbers)
}

// The job that the node of a rank is dealt to: they are dealt on and back, since more is to do at
// those behind.
fn job_of(jobs: u64, rank: u64) -> u64
    requires some { 0 < jobs }
    requires few { jobs ≤ 64 }
{
    let at = rank % (2 * jobs);
    if at < jobs { at } else { 2 * jobs - 1 - at }
}

// Whether a node is neither the first nor the last that a site asks.
fn is_between(owners: &[Option<u64>], dues: &[Due], at: usize) -> bool {
    match (at.checked_sub(1), at.checked_add(1)) {
        (Some(before), Some(behind)) => {
            have_one_owner(owners, dues.get(at), dues.get(before))
                && have_one_owner(owners, dues.get(at), dues.get(behind))
        }
        _ => false,
    }
}

// Whether one site asks what two nodes ask.
fn have_one_owner(owners: &[Option<u64>], due: Option<&Due>, other: Option<&Due>) -> bool {
    match (due, other) {
        (Some(due), Some(other)) => {
            match (owner(owners, due.node), owner(owners, other.node)) {
                (Some(site), Some(others_site)) => site == others_site,
                _ => false,
            }
        }
        _ => false,
    }
}

// What nodes ask that are dealt to so many jobs. A job gives the marks that stay of all templates
// after its own nodes.
#[derive(Drop)]
struct NodeGoals<'a> {
    table: &'a TermTable,
    dues: &'a [Due],
    known: &'a [bool],
    numbers: &'a [u64],
    owners: &'a [Option<u64>],
    marks: &'a Marks,
    reach: Reach,
    jobs: u64,
}

impl<'a> Model for NodeGoals<'a> {
    ghost use Rattle.sm_expand.specs.Views.{AreDuesReady};
    ghost use Rattle.sm_term.specs.Tables.{trees_in, sorts_in};
    ghost use Rattle.sm_houdini.specs.Known.{AreKnown};
    ghost use Rattle.sm_houdini.specs.NodeJobs.{NodeGoalsValue};

    ghost Value = { NodeGoalsValue };

    ghost use Rattle.sm_syntax.specs.contracts.tree.Block as block;
    ghost use Rattle.sm_term.specs.contracts.formula.Formula as formula;
    ghost use Rattle.std.specs.Coded.{codes};

    ghost coded = { Prim.hlevel (codes, block.the_row.coded, formula.the_row.coded) };

    ghost view = { λ g. record {
      table = g.table.now;
      dues = g.dues.now;
      known = g.known.now;
      numbers = g.numbers.now;
      owners = g.owners.now;
      marks = g.marks.now;
      reach = g.reach;
      jobs = g.jobs;
    } };

    ghost invariant = { λ g. AreDuesReady (sorts_in g.table.now) (trees_in g.table.now) g.dues.now
        × AreKnown g.table.now g.reach g.dues.now g.known.now };
}

impl Job for NodeGoals<'_> {
    type Out = Marks;

    ghost indices = { λ job. job.jobs };

    ghost stands_for = { TellsNodes };

    fn run(&self, alloc: Global, index: u64) -> Result<Marks, AllocError> {
        let mut table = self.table.copy(alloc)?;
        let mut marks = copied(alloc, self.marks)?;
        let round = Round {
            dues: self.dues,
            known: self.known,
            owners: self.owners,
            reach: self.reach,
        };
        let nodes = Nodes::OfJob {
            numbers: self.numbers,
            jobs: self.jobs,
            job: index,
        };
        judge_all(alloc, &mut table, &round, &nodes, &mut marks)?;
        Ok(marks)
    }
}
