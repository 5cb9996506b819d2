// A round's goals, run as jobs.
ghost use Rattle.std.specs.Prelude.{◌≡◌, ◌<◌, ◌≤◌, ◌&&◌, ℕ, Bool, length, slice_index_or, IfOk};
ghost use Rattle.sm_term.specs.Tables.{trees_in, sorts_in};
ghost use Rattle.sm_term.specs.TableLaws.{ExtendsTable};
ghost use Rattle.sm_expand.specs.Views.{dues_in, AreDuesReady};
ghost use Rattle.sm_sketch.specs.ChoiceViews.{choice_in};
ghost use Rattle.sm_houdini.specs.Closing.{closing, owner_in};
ghost use Rattle.sm_houdini.specs.GoalJobs.{RoundGoalsValue, TellsShare};
ghost use Rattle.sm_houdini.specs.Known.{AreKnown};
ghost use Rattle.sm_houdini.specs.Marks.{all_marked, in_share, rows};
ghost use Rattle.sm_houdini.specs.Rounds.{holds_at};

use crate::judging::{Round, judge_all};
use crate::marks::{Join, Marks, joined_marks, share_marks};
use crate::node_jobs::{Nodes, job_numbers, marks_by_nodes};
use sm_expand::Due;
use sm_par::{Gate, Job, Phase, run_jobs};
use sm_sketch::TemplateChoice;
use sm_solve::Reach;
use sm_term::TermTable;
use std::alloc::{AllocError, Global};
use std::marker::Model;
use std::thread::Threads;

/// Who runs goals: 1 to 64 workers, behind a gate.
#[derive(Drop)]
pub(crate) struct Crew<'c, R: Threads + Sync, G: Gate> {
    pub(crate) rt: &'c R,
    pub(crate) gate: &'c G,
    pub(crate) workers: u32,
    pub(crate) ghost some: { 0 < workers },
    pub(crate) ghost most: { workers ≤ 64 },
}

/// In how many parts work is cut: one for each worker, and more where the gate may be shut between
/// them.
pub(crate) fn parts_of<R: Threads + Sync, G: Gate>(crew: &Crew<'_, R, G>) -> u32
    ensures some { 0 < result }
    ensures most { result ≤ 64 }
{
    if crew.gate.may_shut() {
        64
    } else {
        crew.workers
    }
}

// The most templates that a site of a choice has.
fn most_at_site(choice: &TemplateChoice) -> usize {
    let mut most = 0;
    for numbers in &choice.sites {
        let count = numbers.as_slice().len();
        if count > most {
            most = count;
        }
    }
    most
}

// How many shares the templates have: no more than parts, nor than there are at one site.
fn shares_of(parts: u32, most: usize) -> u64
    requires parts { 0 < parts }
    requires most { 0 < most }
    ensures some { 0 < result }
    ensures few { result ≤ parts }
{
    let parts = parts as u64;
    let most = most as u64;
    if most < parts { most } else { parts }
}

/// Marks at the templates of a choice all of whose goals close. One worker walks all goals in turn,
/// over the one table, unless the gate may be shut; several have a share of each site's templates,
/// as jobs of the phase Obligation, each over a copy of it.
pub(crate) fn marks_after<R: Threads + Sync, G: Gate>(
    crew: &Crew<'_, R, G>,
    alloc: Global,
    table: &mut TermTable,
    round: &Round<'_>,
    choice: &TemplateChoice,
) -> Result<Marks, AllocError>
    requires ready { AreDuesReady (sorts_in table.old) (trees_in table.old) round.now.dues.now }
    requires known { AreKnown table.old round.now.reach round.now.dues.now round.now.known.now }
    ensures marks { let sorts = sorts_in table.old in let trees = trees_in table.old in
        IfOk result (λ ms. rows ms.sites.items ≡ all_marked (holds_at (closing sorts round.now.reach)
        (owner_in round.now.owners.now) (dues_in sorts trees round.now.dues.now)) 0
        (choice_in choice.now)) }
    ensures widens { ExtendsTable table.old table.new }
{
    let most = most_at_site(choice);
    let parts = parts_of(crew);
    if parts == 1 || most < 2 {
        let mut marks = share_marks(alloc, choice, 0, 1)?;
        let nodes = Nodes::Every;
        judge_all(alloc, table, round, &nodes, &mut marks)?;
        return Ok(marks);
    }
    let shares = shares_of(parts, most);
    marks_by_jobs(crew, alloc, table, round, choice, shares)
}

// The marks after a round, by so many jobs, twice. First each job has a share of the templates, at
// the first node and the last that a site asks: the last is the turn that all copies take, where
// most goals are asked and most templates fall. Then the other nodes are dealt to the jobs, for what
// is left of all templates: there it costs as much to make a node as to ask its goals.
fn marks_by_jobs<R: Threads + Sync, G: Gate>(
    crew: &Crew<'_, R, G>,
    alloc: Global,
    table: &TermTable,
    round: &Round<'_>,
    choice: &TemplateChoice,
    shares: u64,
) -> Result<Marks, AllocError>
    requires ready { AreDuesReady (sorts_in table.now) (trees_in table.now) round.now.dues.now }
    requires known { AreKnown table.now round.now.reach round.now.dues.now round.now.known.now }
    requires some { 0 < shares }
    requires few { shares ≤ 64 }
    ensures { let sorts = sorts_in table.now in let trees = trees_in table.now in
        IfOk result (λ ms. rows ms.sites.items ≡ all_marked (holds_at (closing sorts round.now.reach)
        (owner_in round.now.owners.now) (dues_in sorts trees round.now.dues.now)) 0
        (choice_in choice.now)) }
{
    let dealt = job_numbers(alloc, round.owners, round.dues, shares)?;
    let numbers = dealt.as_slice();
    let job = RoundGoals {
        table,
        dues: round.dues,
        known: round.known,
        numbers,
        owners: round.owners,
        choice,
        reach: round.reach,
        shares,
    };
    let parts = run_jobs(
        crew.rt,
        alloc,
        crew.gate,
        Phase::Obligation,
        &job,
        shares,
        crew.workers,
    )?;
    let marks = all_shares(alloc, &parts, choice)?;
    marks_by_nodes(crew, alloc, table, round, numbers, &marks, shares)
}

// The marks of all shares.
fn all_shares(alloc: Global, parts: &[Marks], choice: &TemplateChoice) -> Result<Marks, AllocError>
    requires some { 0 < length parts.now }
    ensures { (passes : ℕ → ℕ → Bool) →
        ((k : ℕ) → (d : Marks) → k < length parts.now →
        rows (slice_index_or parts.now k d).sites.items
        ≡ all_marked (λ s i. in_share (length parts.now) k i && passes s i) 0
        (choice_in choice.now)) →
        IfOk result (λ ms. rows ms.sites.items ≡ all_marked passes 0 (choice_in choice.now)) }
{
    let shares = parts.len() as u64;
    // None is in the share behind the last.
    let mut marks = share_marks(alloc, choice, shares, shares)?;
    for part in parts {
        marks = joined_marks(alloc, Join::Either, &marks, part)?;
    }
    Ok(marks)
}

// What nodes ask of the templates of a choice, in equal shares of each site's. A job has one share,
// and gives its marks that stay after the nodes that jobs share.
#[derive(Drop)]
struct RoundGoals<'a> {
    table: &'a TermTable,
    dues: &'a [Due],
    known: &'a [bool],
    numbers: &'a [u64],
    owners: &'a [Option<u64>],
    choice: &'a TemplateChoice,
    reach: Reach,
    shares: u64,
}

impl<'a> Model for RoundGoals<'a> {
    ghost use Rattle.sm_expand.specs.Views.{AreDuesReady};
    ghost use Rattle.sm_term.specs.Tables.{trees_in, sorts_in};
    ghost use Rattle.sm_houdini.specs.GoalJobs.{RoundGoalsValue};
    ghost use Rattle.sm_houdini.specs.Known.{AreKnown};
    ghost use Rattle.std.specs.Prelude.{◌<◌};

    ghost Value = { RoundGoalsValue };

    ghost use Rattle.sm_syntax.specs.contracts.tree.Block as block;
    ghost use Rattle.sm_term.specs.contracts.formula.Formula as formula;
    ghost use Rattle.std.specs.Coded.{codes};

    ghost coded = { Prim.hlevel (codes, block.the_row.coded, formula.the_row.coded) };

    ghost view = { λ g. record {
      table = g.table.now;
      dues = g.dues.now;
      known = g.known.now;
      numbers = g.numbers.now;
      owners = g.owners.now;
      choice = g.choice.now;
      reach = g.reach;
      shares = g.shares;
    } };

    ghost invariant = { λ g. AreDuesReady (sorts_in g.table.now) (trees_in g.table.now) g.dues.now
        × AreKnown g.table.now g.reach g.dues.now g.known.now × (0 < g.shares) };
}

impl Job for RoundGoals<'_> {
    type Out = Marks;

    ghost indices = { λ job. job.shares };

    ghost stands_for = { TellsShare };

    fn run(&self, alloc: Global, index: u64) -> Result<Marks, AllocError> {
        let mut table = self.table.copy(alloc)?;
        let mut marks = share_marks(alloc, self.choice, index, self.shares)?;
        let round = Round {
            dues: self.dues,
            known: self.known,
            owners: self.owners,
            reach: self.reach,
        };
        let nodes = Nodes::Shared {
            numbers: self.numbers,
            jobs: self.shares,
        };
        judge_all(alloc, &mut table, &round, &nodes, &mut marks)?;
        Ok(marks)
    }
}
