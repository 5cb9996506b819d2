// Candidates that are judged by what nodes ask of them.
ghost use Rattle.std.specs.Prelude.{OnOk};
ghost use Rattle.sm_term.specs.Tables.{trees_in, sorts_in};
ghost use Rattle.sm_term.specs.TableLaws.{ExtendsTable};
ghost use Rattle.sm_plan.specs.ReadyStates.{AreFormsReady};
ghost use Rattle.sm_expand.specs.Views.{AreDuesReady};
ghost use Rattle.sm_goals.specs.Nodes.{IsNodeOf};

use crate::closing::{WalkEnd, boxed_node, pay_node, pay_walk, walked};
use crate::effort::Effort;
use crate::marks::are_several;
use crate::owners::{Owners, owner};
use sm_expand::Due;
use sm_goals::are_same;
use sm_solve::{FactBase, Reach};
use sm_term::TermTable;
use std::alloc::{AllocError, Global};

/// What a round asks, and what the one before it asked.
#[derive(Drop)]
pub(crate) struct Round<'r> {
    pub(crate) dues: &'r [Due],
    pub(crate) before: &'r [Due],
    pub(crate) owners: &'r Owners,
}

// Whether what a node asks is known to close, because it asked of equal facts at this place in the
// round before: what it asks now was left of what it asked then.
fn is_known(due: &Due, place: usize, before: &[Due]) -> bool {
    match before.get(place) {
        Some(old) => old.node == due.node && are_same(&due.facts.list, &old.facts.list),
        None => false,
    }
}

/// The site whose candidates the node at a place of a round asks, where there is one and it isn't
/// known that all of them close.
pub(crate) fn asking_site(round: &Round<'_>, place: usize) -> Option<usize> {
    let due = round.dues.get(place)?;
    let site = owner(round.owners, due.node)?;
    if is_known(due, place, round.before) {
        return None;
    }
    Some(site)
}

/// What the walk of the goal at a place of a node comes to; it closes where there is none.
pub(crate) fn walk_at(
    alloc: Global,
    table: &mut TermTable,
    node: &mut Option<FactBase>,
    due: &Due,
    at: usize,
    reach: Reach,
) -> Result<WalkEnd, AllocError>
    requires facts { AreFormsReady (sorts_in table.old) (trees_in table.old)
        due.now.facts.list.items }
    requires goals { AreFormsReady (sorts_in table.old) (trees_in table.old)
        due.now.targets.list.items }
    requires node { IsNodeOf table.old due.now.facts.list.items node.old }
    ensures node { OnOk result (IsNodeOf table.new due.now.facts.list.items node.new) }
    ensures widens { OnOk result (ExtendsTable table.old table.new) }
{
    match due.targets.list.get(at) {
        Some(goal) => {
            let (end, _tree) = walked(alloc, table, node, &due.facts, goal, reach)?;
            Ok(end)
        }
        None => Ok(WalkEnd::Closed),
    }
}

// What is asked of a candidate at a node.
#[derive(Clone, Copy)]
enum Question {
    // Nothing: it was dropped.
    Nothing,
    // What is told of the walk of its goal.
    Told(WalkEnd),
    // The walk of its goal.
    Walk,
}

// What is asked of the candidate at a place.
fn asked_of(marks: &[bool], told: &[Option<WalkEnd>], at: usize) -> Question {
    if at >= marks.len() || !marks[at] {
        return Question::Nothing;
    }
    match told.get(at) {
        Some(Some(end)) => Question::Told(*end),
        Some(None) => Question::Walk,
        None => Question::Walk,
    }
}

// Whether a walk is asked of some candidate.
fn asks_walk(marks: &[bool], told: &[Option<WalkEnd>]) -> bool {
    for at in 0..marks.len() {
        if matches!(asked_of(marks, told, at), Question::Walk) {
            return true;
        }
    }
    false
}

// Whether a mark stays at a candidate after what a node asks.
fn stays(
    alloc: Global,
    table: &mut TermTable,
    node: &mut Option<FactBase>,
    due: &Due,
    at: usize,
    asked: Question,
    effort: &mut Effort,
) -> Result<bool, AllocError>
    requires facts { AreFormsReady (sorts_in table.old) (trees_in table.old)
        due.now.facts.list.items }
    requires goals { AreFormsReady (sorts_in table.old) (trees_in table.old)
        due.now.targets.list.items }
    requires node { IsNodeOf table.old due.now.facts.list.items node.old }
    ensures node { OnOk result (IsNodeOf table.new due.now.facts.list.items node.new) }
    ensures widens { OnOk result (ExtendsTable table.old table.new) }
{
    if effort.work.is_spent() {
        return Ok(false);
    }
    let end = match asked {
        Question::Nothing => return Ok(false),
        Question::Told(end) => end,
        Question::Walk => walk_at(alloc, table, node, due, at, effort.reach)?,
    };
    pay_walk(&mut effort.work, &due.facts, end, effort.reach);
    Ok(end == WalkEnd::Closed)
}

// The marks of a site after what a node asks, of which walks are told. Goals share its facts'
// classes, where some aren't told.
fn judged(
    alloc: Global,
    table: &mut TermTable,
    due: &Due,
    marks: &[bool],
    told: &[Option<WalkEnd>],
    effort: &mut Effort,
) -> Result<Vec<bool>, AllocError>
    requires facts { AreFormsReady (sorts_in table.old) (trees_in table.old)
        due.now.facts.list.items }
    requires goals { AreFormsReady (sorts_in table.old) (trees_in table.old)
        due.now.targets.list.items }
    ensures { OnOk result (ExtendsTable table.old table.new) }
{
    let is_shared = are_several(marks);
    if is_shared {
        pay_node(&mut effort.work, &due.facts);
    }
    let is_made = is_shared && asks_walk(marks, told);
    let mut node = boxed_node(alloc, table, &due.facts, is_made, effort.reach.steps)?;
    judged_at(alloc, table, &mut node, due, marks, told, effort)
}

// The marks of a site after what a node asks, by a node of the facts, where there is one.
fn judged_at(
    alloc: Global,
    table: &mut TermTable,
    node: &mut Option<FactBase>,
    due: &Due,
    marks: &[bool],
    told: &[Option<WalkEnd>],
    effort: &mut Effort,
) -> Result<Vec<bool>, AllocError>
    requires facts { AreFormsReady (sorts_in table.old) (trees_in table.old)
        due.now.facts.list.items }
    requires goals { AreFormsReady (sorts_in table.old) (trees_in table.old)
        due.now.targets.list.items }
    requires node { IsNodeOf table.old due.now.facts.list.items node.old }
    ensures { OnOk result (ExtendsTable table.old table.new) }
{
    let mut list = Vec::new(alloc);
    for at in 0..marks.len() {
        let asked = asked_of(marks, told, at);
        let holds = stays(alloc, table, node, due, at, asked, effort)?;
        list.push(holds)?;
    }
    Ok(list)
}

// What is told of the walks at a place of a round.
fn told_at(told: &[Vec<Option<WalkEnd>>], place: usize) -> &[Option<WalkEnd>] {
    match told.get(place) {
        Some(ends) => ends.as_slice(),
        None => &[],
    }
}

// Takes marks away from the candidates of a site whose goals at the node that asks at a place of a
// round don't close.
fn judge(
    alloc: Global,
    table: &mut TermTable,
    round: &Round<'_>,
    place: usize,
    told: &[Option<WalkEnd>],
    marks: &mut Vec<Vec<bool>>,
    effort: &mut Effort,
) -> Result<(), AllocError>
    requires { AreDuesReady (sorts_in table.old) (trees_in table.old) round.now.dues.now }
    ensures { OnOk result (ExtendsTable table.old table.new) }
{
    let Some(due) = round.dues.get(place) else {
        return Ok(());
    };
    let Some(site) = owner(round.owners, due.node) else {
        return Ok(());
    };
    effort.work.spend(due.facts.list.len());
    if site >= marks.len() || is_known(due, place, round.before) {
        return Ok(());
    }
    let left = judged(alloc, table, due, &marks[site], told, effort)?;
    marks[site] = left;
    Ok(())
}

/// Takes marks away from the candidates one of whose goals doesn't close. The last node that asks
/// comes first: it is the turn of all copies, where most candidates fall. Of walks that were made
/// ahead it is told what they come to; where nothing is told the walk is made.
pub(crate) fn judge_all(
    alloc: Global,
    table: &mut TermTable,
    round: &Round<'_>,
    told: &[Vec<Option<WalkEnd>>],
    marks: &mut Vec<Vec<bool>>,
    effort: &mut Effort,
) -> Result<(), AllocError>
    requires { AreDuesReady (sorts_in table.old) (trees_in table.old) round.now.dues.now }
    ensures { OnOk result (ExtendsTable table.old table.new) }
{
    let mut left = round.dues.len();
    while left > 0 {
        left -= 1;
        let ends = told_at(told, left);
        judge(alloc, table, round, left, ends, marks, effort)?;
    }
    Ok(())
}
