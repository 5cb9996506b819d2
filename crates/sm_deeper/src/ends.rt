// The end of an attempt: each goal closes, or a dead end or another goal doesn't.
ghost use Rattle.std.specs.Prelude.{OnOk};
ghost use Rattle.sm_term.specs.Tables.{trees_in, sorts_in};
ghost use Rattle.sm_term.specs.TableLaws.{ExtendsTable};
ghost use Rattle.sm_plan.specs.ReadyStates.{AreFormsReady};
ghost use Rattle.sm_expand.specs.Views.{AreDuesReady};

use crate::crew::Crew;
use crate::effort::Effort;
use crate::end_jobs::end_ahead;
use crate::node_ends::{NodeEnd, is_ended};
use crate::owners::{Owners, owner};
use sm_cert::CertTree;
use sm_expand::Due;
use sm_par::Gate;
use sm_term::TermTable;
use std::alloc::{AllocError, Global};
use std::thread::Threads;

/// What the obligations of a plan come to.
#[derive(Drop)]
pub(crate) enum Ended {
    /// Each goal has a certificate, in order.
    Closed(Vec<CertTree>),
    /// Only dead ends are open, at these nodes.
    Dead(Vec<u64>),
    /// Another goal is open.
    Open,
}

// Puts a node that no site asks behind others, where a goal of it has no certificate. Whether that
// can be repaired: a final goal can't.
fn put_open(
    alloc: Global,
    table: &mut TermTable,
    due: &Due,
    known: &mut Option<NodeEnd>,
    open: &mut Vec<u64>,
    effort: &mut Effort,
) -> Result<bool, AllocError>
    requires facts { AreFormsReady (sorts_in table.old) (trees_in table.old)
        due.now.facts.list.items }
    requires goals { AreFormsReady (sorts_in table.old) (trees_in table.old)
        due.now.targets.list.items }
    ensures { OnOk result (ExtendsTable table.old table.new) }
{
    if is_ended(alloc, table, due, known, effort)? {
        return Ok(true);
    }
    if due.last || effort.work.is_spent() {
        return Ok(false);
    }
    open.push(due.node)?;
    Ok(true)
}

// The nodes of dead ends that stay open; none where another goal does that no site asks.
fn open_ends(
    alloc: Global,
    table: &mut TermTable,
    dues: &[Due],
    owners: &Owners,
    ends: &mut Vec<Option<NodeEnd>>,
    effort: &mut Effort,
) -> Result<Option<Vec<u64>>, AllocError>
    requires { AreDuesReady (sorts_in table.old) (trees_in table.old) dues.now }
    ensures { OnOk result (ExtendsTable table.old table.new) }
{
    let mut open = Vec::new(alloc);
    for at in 0..dues.len() {
        let due = &dues[at];
        if at >= ends.len() || owner(owners, due.node).is_some() {
            continue;
        }
        if !put_open(alloc, table, due, &mut ends[at], &mut open, effort)? {
            return Ok(None);
        }
    }
    Ok(Some(open))
}

// Whether each goal has a certificate.
fn are_ended(
    alloc: Global,
    table: &mut TermTable,
    dues: &[Due],
    ends: &mut Vec<Option<NodeEnd>>,
    effort: &mut Effort,
) -> Result<bool, AllocError>
    requires { AreDuesReady (sorts_in table.old) (trees_in table.old) dues.now }
    ensures { OnOk result (ExtendsTable table.old table.new) }
{
    for at in 0..dues.len() {
        if at >= ends.len() {
            return Ok(false);
        }
        if !is_ended(alloc, table, &dues[at], &mut ends[at], effort)? {
            return Ok(false);
        }
    }
    Ok(true)
}

// The certificates of all goals, in order, which are taken from where they are known.
fn all_trees(alloc: Global, ends: &mut Vec<Option<NodeEnd>>) -> Result<Vec<CertTree>, AllocError> {
    let mut trees = Vec::new(alloc);
    for end in ends.iter_mut() {
        if let Some(end) = end {
            trees.append(&mut end.trees)?;
        }
    }
    Ok(trees)
}

// The places of what nodes ask that sites ask, or that none does.
fn places_of(
    alloc: Global,
    dues: &[Due],
    owners: &Owners,
    is_owned: bool,
) -> Result<Vec<usize>, AllocError> {
    let mut places = Vec::new(alloc);
    for at in 0..dues.len() {
        if owner(owners, dues[at].node).is_some() == is_owned {
            places.push(at)?;
        }
    }
    Ok(places)
}

// That nothing is known of what nodes ask, so many of them.
fn no_ends(alloc: Global, count: usize) -> Result<Vec<Option<NodeEnd>>, AllocError> {
    let mut ends = Vec::new(alloc);
    for _ in 0..count {
        ends.push(None)?;
    }
    Ok(ends)
}

// The nodes of dead ends that stay open; none where another goal does that no site asks. Jobs make
// certificates ahead.
fn dead_ends<R: Threads + Sync, G: Gate>(
    crew: &Crew<'_, R, G>,
    alloc: Global,
    table: &mut TermTable,
    dues: &[Due],
    owners: &Owners,
    ends: &mut Vec<Option<NodeEnd>>,
    effort: &mut Effort,
) -> Result<Option<Vec<u64>>, AllocError>
    requires { AreDuesReady (sorts_in table.old) (trees_in table.old) dues.now }
    ensures { OnOk result (ExtendsTable table.old table.new) }
{
    let places = places_of(alloc, dues, owners, false)?;
    end_ahead(crew, alloc, table, dues, &places, ends, effort)?;
    open_ends(alloc, table, dues, owners, ends, effort)
}

// Whether each goal has a certificate. Jobs make those ahead that sites ask.
fn are_closed<R: Threads + Sync, G: Gate>(
    crew: &Crew<'_, R, G>,
    alloc: Global,
    table: &mut TermTable,
    dues: &[Due],
    owners: &Owners,
    ends: &mut Vec<Option<NodeEnd>>,
    effort: &mut Effort,
) -> Result<bool, AllocError>
    requires { AreDuesReady (sorts_in table.old) (trees_in table.old) dues.now }
    ensures { OnOk result (ExtendsTable table.old table.new) }
{
    let places = places_of(alloc, dues, owners, true)?;
    end_ahead(crew, alloc, table, dues, &places, ends, effort)?;
    are_ended(alloc, table, dues, ends, effort)
}

// What the obligations of a plan come to, with what is known of what nodes ask.
fn end_by<R: Threads + Sync, G: Gate>(
    crew: &Crew<'_, R, G>,
    alloc: Global,
    table: &mut TermTable,
    dues: &[Due],
    owners: &Owners,
    ends: &mut Vec<Option<NodeEnd>>,
    effort: &mut Effort,
) -> Result<Ended, AllocError>
    requires { AreDuesReady (sorts_in table.old) (trees_in table.old) dues.now }
    ensures { OnOk result (ExtendsTable table.old table.new) }
{
    let Some(open) = dead_ends(crew, alloc, table, dues, owners, ends, effort)? else {
        return Ok(Ended::Open);
    };
    if !open.is_empty() {
        return Ok(Ended::Dead(open));
    }
    if are_closed(crew, alloc, table, dues, owners, ends, effort)? {
        return Ok(Ended::Closed(all_trees(alloc, ends)?));
    }
    Ok(Ended::Open)
}

/// What the obligations of a plan come to. Those that no site asks come first. Jobs make certificates
/// ahead where there are several workers.
pub(crate) fn end_of<R: Threads + Sync, G: Gate>(
    crew: &Crew<'_, R, G>,
    alloc: Global,
    table: &mut TermTable,
    dues: &[Due],
    owners: &Owners,
    effort: &mut Effort,
) -> Result<Ended, AllocError>
    requires { AreDuesReady (sorts_in table.old) (trees_in table.old) dues.now }
    ensures { OnOk result (ExtendsTable table.old table.new) }
{
    let mut ends = no_ends(alloc, dues.len())?;
    end_by(crew, alloc, table, dues, owners, &mut ends, effort)
}
