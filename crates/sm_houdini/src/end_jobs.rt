// Goals whose certificates are made by jobs.
ghost use Rattle.std.specs.Prelude.{◌≡◌, ◌≤◌, ◌<◌, ◌+◌, ◌++◌, ℕ, List, [], length, map, take, IfOk, OnOk, MatchOption, slice_index_or};
ghost use Rattle.std.specs.List.{range_with_len};
ghost use Rattle.sm_term.specs.Assertions.{Assertion};
ghost use Rattle.sm_term.specs.declared.formula.Formula.{Formula};
ghost use Rattle.sm_term.specs.Tables.{TableValue, trees_in, sorts_in};
ghost use Rattle.sm_term.specs.TableLaws.{ExtendsTable};
ghost use Rattle.sm_term.specs.Tails.{row_trees, AreRowsSound};
ghost use Rattle.sm_term.specs.Terms.{Tree};
ghost use Rattle.sm_cert.specs.Views.{certificate_in};
ghost use Rattle.sm_plan.specs.Views.{forms_in};
ghost use Rattle.sm_expand.specs.declared.due.Due.{Due};
ghost use Rattle.sm_expand.specs.Views.{due_in, dues_in, AreDuesReady};
ghost use Rattle.sm_terms.specs.Listing.{numbers_of};
ghost use Rattle.sm_list.specs.Renumbered.{AreTermsOf};
ghost use Rattle.sm_solve.specs.Walk.{walk};
ghost use Rattle.sm_solve.specs.declared.reach.Reach.{Reach};
ghost use Rattle.sm_write.specs.TreesWithin.{AreTreesWithin};
ghost use Rattle.sm_houdini.specs.declared.run_ends.RunEnd.{RunEnd};
ghost use Rattle.sm_houdini.specs.Certified.{asked};
ghost use Rattle.sm_houdini.specs.Collected.{AreCollected, goals_with, IsInsideClosed, RunStops, RunCloses, FinalStops, FinalCloses};
ghost use Rattle.sm_houdini.specs.EndJobs.{AreRunEnds, ArePlanEnds, size_of};

use crate::dealing::placed;
use crate::ending::Stop;
use crate::goal_jobs::{Crew, parts_of};
use crate::run_ends::{PlanEnds, RunEnd};
use sm_cert::CertTree;
use sm_expand::Due;
use sm_list::renumbered_tree;
use sm_par::{Gate, Phase, run_jobs};
use sm_solve::Reach;
use sm_term::{Formula, TermId, TermRows, TermTable};
use std::alloc::{AllocError, Global};
use std::thread::Threads;

/// Puts the certificates of all goals behind others, or tells the first goal for which there is
/// none, from what jobs made of each node's goals. The other goals are known to close.
pub(crate) fn end_by_jobs<R: Threads + Sync, G: Gate>(
    crew: &Crew<'_, R, G>,
    alloc: Global,
    table: &mut TermTable,
    dues: &[Due],
    trees: &mut Vec<CertTree>,
    reach: Reach,
) -> Result<Option<Stop>, AllocError>
    requires ready { AreDuesReady (sorts_in table.old) (trees_in table.old) dues.now }
    requires inside { IsInsideClosed table.old reach dues.now }
    ensures ends { let sorts = sorts_in table.old in let ts = trees_in table.old in
        let ds = dues_in sorts ts dues.now in
        AreCollected table.old [] trees.old.items → IfOk result (λ o. MatchOption o
        (FinalCloses (walk sorts reach) ds
        × AreCollected table.new (asked ds) trees.new.items)
        (FinalStops (walk sorts reach) ds)) }
    ensures widens { ExtendsTable table.old table.new }
{
    let each = runs_each(dues.len(), parts_of(crew) as usize);
    let ends = run_ends(crew, alloc, table, dues, each, reach)?;
    joined_all(alloc, table, dues, each, &ends, trees, reach)
}

// How many runs the goals of each node have, so that there is one for each part of the work.
fn runs_each(nodes: usize, parts: usize) -> usize
    ensures { 0 < result }
{
    if nodes == 0 || parts < nodes {
        return 1;
    }
    match (parts / nodes).checked_add(1) {
        Some(runs) => runs,
        None => 1,
    }
}

/// How many goals a run has, where there are so many runs of them.
pub(crate) fn size_of(goals: usize, runs: usize) -> usize
    requires { 0 < runs }
    ensures { result ≡ size_of goals runs }
{
    goals.div_ceil(runs)
}

// What the runs of all nodes' goals come to, as jobs of the phase Obligation.
fn run_ends<R: Threads + Sync, G: Gate>(
    crew: &Crew<'_, R, G>,
    alloc: Global,
    table: &TermTable,
    dues: &[Due],
    each: usize,
    reach: Reach,
) -> Result<Vec<RunEnd>, AllocError>
    requires ready { AreDuesReady (sorts_in table.now) (trees_in table.now) dues.now }
    requires some { 0 < each }
    ensures { IfOk result (λ ends. ArePlanEnds table.now reach dues.now each ends.items) }
{
    // So many runs fit no memory.
    let Some(count) = dues.len().checked_mul(each) else {
        return Err(AllocError);
    };
    let job = PlanEnds {
        table,
        dues,
        each,
        reach,
        count,
    };
    run_jobs(
        crew.rt,
        alloc,
        crew.gate,
        Phase::Obligation,
        &job,
        count as u64,
        crew.workers,
    )
}

// Puts the certificates of all nodes' goals behind others, up to the first goal for which there is
// none.
fn joined_all(
    alloc: Global,
    table: &mut TermTable,
    dues: &[Due],
    each: usize,
    ends: &[RunEnd],
    trees: &mut Vec<CertTree>,
    reach: Reach,
) -> Result<Option<Stop>, AllocError>
    requires ready { AreDuesReady (sorts_in table.old) (trees_in table.old) dues.now }
    requires inside { IsInsideClosed table.old reach dues.now }
    requires some { 0 < each }
    requires made { ArePlanEnds table.old reach dues.now each ends.now }
    ensures ends { let sorts = sorts_in table.old in let ts = trees_in table.old in
        let ds = dues_in sorts ts dues.now in
        AreCollected table.old [] trees.old.items → IfOk result (λ o. MatchOption o
        (FinalCloses (walk sorts reach) ds
        × AreCollected table.new (asked ds) trees.new.items)
        (FinalStops (walk sorts reach) ds)) }
    ensures widens { ExtendsTable table.old table.new }
{
    let from = table.len();
    for at in 0..dues.len() {
        let first = placed(dues.len(), at) * each;
        let end = joined(alloc, table, from, &ends[first..first + each], trees)?;
        if end.is_some() {
            return Ok(end);
        }
    }
    Ok(None)
}

// Puts the certificates of all runs of a node's goals behind others, in order, up to the first run
// with a goal for which there is none.
fn joined(
    alloc: Global,
    table: &mut TermTable,
    from: u64,
    runs: &[RunEnd],
    trees: &mut Vec<CertTree>,
) -> Result<Option<Stop>, AllocError>
    requires behind { from ≤ length (trees_in table.old) }
    requires sound { (k : ℕ) (run : RunEnd) → k < length runs.now →
        AreRowsSound (sorts_in table.old) (take from (trees_in table.old))
        (slice_index_or runs.now k run).rows }
    ensures ends { (v : TableValue) → ExtendsTable v table.old → from ≡ length (trees_in v) →
        let sorts = sorts_in v in let ts = trees_in v in
        (reach : Reach) (due : Due) (asks : List Formula)
        (goals : List (List Assertion × Assertion)) → AreRunEnds v reach due asks runs.now →
        AreCollected table.old goals trees.old.items → IfOk result (λ o. MatchOption o
        (RunCloses (walk sorts reach) (due_in sorts ts due) 0 (forms_in sorts ts asks)
        × AreCollected table.new
        (goals ++ goals_with (due_in sorts ts due).facts (forms_in sorts ts asks)) trees.new.items)
        (RunStops (walk sorts reach) (due_in sorts ts due) 0 (forms_in sorts ts asks))) }
    ensures widens { ExtendsTable table.old table.new }
{
    for run in runs {
        if run.stop.is_some() {
            return Ok(run.stop);
        }
        take_run(alloc, table, from, run, trees)?;
    }
    Ok(None)
}

// Puts the certificates of a run behind others, and its new terms into the one table: those below
// `from` are the same here as in its copy.
fn take_run(
    alloc: Global,
    table: &mut TermTable,
    from: u64,
    run: &RunEnd,
    trees: &mut Vec<CertTree>,
) -> Result<(), AllocError>
    requires behind { from ≤ length (trees_in table.old) }
    requires sound { let first = take from (trees_in table.old) in
        AreRowsSound (sorts_in table.old) first run.now.rows }
    ensures collected { let first = take from (trees_in table.old) in
        (copy : TableValue) (goals more : List (List Assertion × Assertion)) →
        sorts_in copy ≡ sorts_in table.old →
        trees_in copy ≡ first ++ row_trees first run.now.rows →
        AreCollected table.old goals trees.old.items →
        AreCollected copy more run.now.trees.items →
        OnOk result (AreCollected table.new (goals ++ more) trees.new.items) }
    ensures widens { ExtendsTable table.old table.new }
{
    let numbers = adopted(alloc, table, from, &run.rows)?;
    let mut renumbered = renumbered_trees(alloc, &run.trees, &numbers)?;
    trees.append(&mut renumbered)?;
    Ok(())
}

// Puts rows into a table, and gives the numbers there of the first terms and of theirs.
fn adopted(
    alloc: Global,
    table: &mut TermTable,
    from: u64,
    rows: &TermRows,
) -> Result<Vec<TermId>, AllocError>
    requires behind { from ≤ length (trees_in table.old) }
    requires sound { let first = take from (trees_in table.old) in
        AreRowsSound (sorts_in table.old) first rows.now }
    ensures numbers { let first = take from (trees_in table.old) in IfOk result (λ numbers.
        AreTermsOf (trees_in table.new) numbers.items (first ++ row_trees first rows.now)) }
    ensures widens { ExtendsTable table.old table.new }
{
    let new = table.adopt(alloc, rows, from)?;
    numbers_with(alloc, from, &new.list)
}

// The numbers of the first terms, and then others.
fn numbers_with(alloc: Global, from: u64, others: &[TermId]) -> Result<Vec<TermId>, AllocError>
    ensures { IfOk result (λ numbers.
        numbers_of numbers.items ≡ range_with_len 0 from ++ numbers_of others.now) }
{
    let mut list = Vec::new(alloc);
    for n in 0..from {
        list.push(TermId(n))?;
    }
    list.extend_from_slice(others)?;
    Ok(list)
}

// Certificates under other numbers of terms.
fn renumbered_trees(
    alloc: Global,
    certificates: &[CertTree],
    numbers: &[TermId],
) -> Result<Vec<CertTree>, AllocError>
    ensures same { (trees others : List Tree) → AreTermsOf others numbers.now trees →
        AreTreesWithin (length trees) certificates.now → IfOk result (λ v.
        map (certificate_in others) v.items ≡ map (certificate_in trees) certificates.now) }
    ensures within { (trees others : List Tree) → AreTermsOf others numbers.now trees →
        AreTreesWithin (length trees) certificates.now →
        IfOk result (λ v. AreTreesWithin (length others) v.items) }
{
    let mut list = Vec::new(alloc);
    for tree in certificates {
        let other = renumbered_tree(alloc, tree, numbers)?;
        list.push(other)?;
    }
    Ok(list)
}
