// Goals of a round that jobs walk ahead of it.
ghost use Rattle.std.specs.Prelude.{OnOk};
ghost use Rattle.sm_term.specs.Tables.{trees_in, sorts_in};
ghost use Rattle.sm_term.specs.TableLaws.{ExtendsTable};
ghost use Rattle.sm_plan.specs.ReadyStates.{AreFormsReady};
ghost use Rattle.sm_expand.specs.Views.{AreDuesReady};
ghost use Rattle.sm_goals.specs.Nodes.{IsNodeOf};

use crate::closing::{WalkEnd, boxed_node, pay_node, pay_walk};
use crate::crew::Crew;
use crate::effort::Effort;
use crate::judging::{Round, walk_at};
use crate::shares::{Share, jobs_with, leading_shares, leads_in, other_shares};
use crate::told::{Found, is_refuted, nothing_told, tell_all};
use sm_expand::Due;
use sm_observed::Work;
use sm_par::{Gate, Phase, run_calls};
use sm_solve::{FactBase, Reach};
use sm_term::TermTable;
use std::alloc::{AllocError, Global};
use std::thread::Threads;

// What jobs walk, with what is told so far, and the work that is left to each of them.
#[derive(Drop)]
struct Wave<'w> {
    dues: &'w [Due],
    shares: &'w [Share],
    told: &'w [Vec<Option<WalkEnd>>],
    reach: Reach,
    work: Work,
}

// The places of a share's goals.
fn places_of(
    alloc: Global,
    wave: &Wave<'_>,
    share: Share,
    count: usize,
) -> Result<Vec<usize>, AllocError> {
    let mut places = Vec::new(alloc);
    for at in 0..count {
        if at.checked_rem(share.step) == Some(share.first)
            && !is_refuted(wave.told, share.lead, at)
        {
            places.push(at)?;
        }
    }
    Ok(places)
}

// What the walks of goals of a node come to, by a node of its facts, where there is one, as far as
// the work suffices.
fn ends_at(
    alloc: Global,
    table: &mut TermTable,
    node: &mut Option<FactBase>,
    due: &Due,
    places: &[usize],
    reach: Reach,
    work: &mut Work,
) -> Result<Vec<WalkEnd>, AllocError>
    requires facts { AreFormsReady (sorts_in table.old) (trees_in table.old)
        due.now.facts.list.items }
    requires goals { AreFormsReady (sorts_in table.old) (trees_in table.old)
        due.now.targets.list.items }
    requires node { IsNodeOf table.old due.now.facts.list.items node.old }
    ensures { OnOk result (ExtendsTable table.old table.new) }
{
    let mut ends = Vec::new(alloc);
    for at in places {
        if work.is_spent() {
            return Ok(ends);
        }
        let end = walk_at(alloc, table, node, due, *at, reach)?;
        pay_walk(work, &due.facts, end, reach);
        ends.push(end)?;
    }
    Ok(ends)
}

// What the walks of a share come to.
fn ends_of(
    alloc: Global,
    table: &mut TermTable,
    due: &Due,
    places: &[usize],
    reach: Reach,
    work: &mut Work,
) -> Result<Vec<WalkEnd>, AllocError>
    requires facts { AreFormsReady (sorts_in table.old) (trees_in table.old)
        due.now.facts.list.items }
    requires goals { AreFormsReady (sorts_in table.old) (trees_in table.old)
        due.now.targets.list.items }
    ensures { OnOk result (ExtendsTable table.old table.new) }
{
    let is_shared = places.len() > 1;
    if is_shared {
        pay_node(work, &due.facts);
    }
    let mut node = boxed_node(alloc, table, &due.facts, is_shared, reach.steps)?;
    ends_at(alloc, table, &mut node, due, places, reach, work)
}

// Puts what walks at a place come to behind others.
fn put_found(
    found: &mut Vec<Found>,
    place: usize,
    places: &[usize],
    ends: &[WalkEnd],
) -> Result<(), AllocError> {
    for n in 0..ends.len() {
        if n < places.len() {
            found.push(Found {
                place,
                at: places[n],
                end: ends[n],
            })?;
        }
    }
    Ok(())
}

// Puts what the walks of a share come to behind others.
fn walk_share(
    alloc: Global,
    table: &mut TermTable,
    wave: &Wave<'_>,
    share: Share,
    found: &mut Vec<Found>,
    work: &mut Work,
) -> Result<(), AllocError>
    requires { AreDuesReady (sorts_in table.old) (trees_in table.old) wave.now.dues.now }
    ensures { OnOk result (ExtendsTable table.old table.new) }
{
    let Some(due) = wave.dues.get(share.place) else {
        return Ok(());
    };
    let places = places_of(alloc, wave, share, due.targets.list.len())?;
    let ends = ends_of(alloc, table, due, &places, wave.reach, work)?;
    put_found(found, share.place, &places, &ends)
}

// Puts what the walks of a job's shares come to behind others.
fn walk_shares(
    alloc: Global,
    table: &mut TermTable,
    wave: &Wave<'_>,
    job: u64,
    found: &mut Vec<Found>,
    work: &mut Work,
) -> Result<(), AllocError>
    requires { AreDuesReady (sorts_in table.old) (trees_in table.old) wave.now.dues.now }
    ensures { OnOk result (ExtendsTable table.old table.new) }
{
    for share in wave.shares {
        if share.job == job {
            walk_share(alloc, table, wave, *share, found, work)?;
        }
    }
    Ok(())
}

// What the walks of a job come to, over a copy of a table.
fn found_by(
    alloc: Global,
    table: &TermTable,
    wave: &Wave<'_>,
    job: u64,
) -> Result<Vec<Found>, AllocError>
    requires { AreDuesReady (sorts_in table.now) (trees_in table.now) wave.now.dues.now }
{
    let mut copy = table.copy(alloc)?;
    let mut found = Vec::new(alloc);
    let mut work = wave.work;
    walk_shares(alloc, &mut copy, wave, job, &mut found, &mut work)?;
    Ok(found)
}

// What the walks of all jobs come to.
fn all_found<R: Threads + Sync, G: Gate>(
    crew: &Crew<'_, R, G>,
    alloc: Global,
    table: &TermTable,
    wave: &Wave<'_>,
) -> Result<Vec<Vec<Found>>, AllocError>
    requires { AreDuesReady (sorts_in table.now) (trees_in table.now) wave.now.dues.now }
{
    let call = move |job: u64| -> Result<Vec<Found>, AllocError>
        requires { AreDuesReady (sorts_in table.now) (trees_in table.now) wave.now.dues.now }
    { found_by(alloc, table, wave, job) };
    let count = jobs_with(wave.shares);
    let phase = Phase::Obligation;
    run_calls(crew.rt, alloc, crew.gate, phase, &call, count, crew.workers)
}

// What the walks of shares come to, which jobs make; nothing where there is but one share.
fn found_in<R: Threads + Sync, G: Gate>(
    crew: &Crew<'_, R, G>,
    alloc: Global,
    table: &TermTable,
    dues: &[Due],
    shares: &[Share],
    told: &[Vec<Option<WalkEnd>>],
    effort: &Effort,
) -> Result<Vec<Vec<Found>>, AllocError>
    requires { AreDuesReady (sorts_in table.now) (trees_in table.now) dues.now }
{
    if shares.len() < 2 {
        return Ok(Vec::new(alloc));
    }
    let wave = Wave {
        dues,
        shares,
        told,
        reach: effort.reach,
        work: effort.work,
    };
    all_found(crew, alloc, table, &wave)
}

// Tells what the walks of shares come to.
fn tell_shares<R: Threads + Sync, G: Gate>(
    crew: &Crew<'_, R, G>,
    alloc: Global,
    table: &TermTable,
    dues: &[Due],
    shares: &[Share],
    told: &mut Vec<Vec<Option<WalkEnd>>>,
    effort: &Effort,
) -> Result<(), AllocError>
    requires { AreDuesReady (sorts_in table.now) (trees_in table.now) dues.now }
{
    let parts = found_in(crew, alloc, table, dues, shares, told, effort)?;
    tell_all(told, &parts);
    Ok(())
}

// Tells what the walks at leading nodes come to.
fn tell_leading<R: Threads + Sync, G: Gate>(
    crew: &Crew<'_, R, G>,
    alloc: Global,
    table: &TermTable,
    dues: &[Due],
    leads: &[Option<usize>],
    told: &mut Vec<Vec<Option<WalkEnd>>>,
    effort: &Effort,
) -> Result<(), AllocError>
    requires { AreDuesReady (sorts_in table.now) (trees_in table.now) dues.now }
{
    let shares = leading_shares(alloc, leads, dues, crew.workers)?;
    tell_shares(crew, alloc, table, dues, &shares, told, effort)
}

// Tells what the walks at other nodes come to.
fn tell_others<R: Threads + Sync, G: Gate>(
    crew: &Crew<'_, R, G>,
    alloc: Global,
    table: &TermTable,
    dues: &[Due],
    leads: &[Option<usize>],
    told: &mut Vec<Vec<Option<WalkEnd>>>,
    effort: &Effort,
) -> Result<(), AllocError>
    requires { AreDuesReady (sorts_in table.now) (trees_in table.now) dues.now }
{
    let shares = other_shares(alloc, leads, crew.workers)?;
    tell_shares(crew, alloc, table, dues, &shares, told, effort)
}

/// What walks of a round come to, which jobs make ahead of it; nothing with one worker. First each
/// job has a share of the goals of the leading node of each site, where most candidates fall; then
/// the other nodes are dealt to the jobs, for what is left. A job may walk goals that the round won't
/// ask, and may leave others out where its work is spent: what a walk comes to is the same wherever
/// it is made, so the round comes to the same.
pub(crate) fn told_ahead<R: Threads + Sync, G: Gate>(
    crew: &Crew<'_, R, G>,
    alloc: Global,
    table: &TermTable,
    round: &Round<'_>,
    effort: &Effort,
) -> Result<Vec<Vec<Option<WalkEnd>>>, AllocError>
    requires { AreDuesReady (sorts_in table.now) (trees_in table.now) round.now.dues.now }
{
    if crew.workers == 1 {
        return Ok(Vec::new(alloc));
    }
    let dues = round.dues;
    let leads = leads_in(alloc, round)?;
    let mut told = nothing_told(alloc, dues)?;
    tell_leading(crew, alloc, table, dues, &leads, &mut told, effort)?;
    tell_others(crew, alloc, table, dues, &leads, &mut told, effort)?;
    Ok(told)
}
