// Templates that are judged by what nodes ask of them.
ghost use Rattle.std.specs.Prelude.{◌≡◌, ◌+◌, ◌&&◌, ◌||◌, ℕ, Bool, true, OnOk};
ghost use Rattle.sm_term.specs.Tables.{trees_in, sorts_in};
ghost use Rattle.sm_term.specs.TableLaws.{ExtendsTable};
ghost use Rattle.sm_expand.specs.Views.{due_in, dues_in, AreDuesReady};
ghost use Rattle.sm_plan.specs.ReadyStates.{AreFormsReady};
ghost use Rattle.sm_sketch.specs.Choices.{Choice};
ghost use Rattle.sm_houdini.specs.Closing.{closing, stays_at, owner_in};
ghost use Rattle.sm_houdini.specs.Known.{AreKnown, ClosesAll};
ghost use Rattle.sm_houdini.specs.Marks.{all_marked, rows};
ghost use Rattle.sm_houdini.specs.NodeJobs.{holds_but, leaves_out};

use crate::closing::judged;
use crate::known::is_flagged;
use crate::marks::Marks;
use crate::node_jobs::{Nodes, is_left_out};
use crate::owners::owner;
use sm_expand::Due;
use sm_solve::Reach;
use sm_term::TermTable;
use std::alloc::{AllocError, Global};

// What the nodes of a round ask, with flags of those whose goals are all known to close, the owners
// of the nodes, and how far a walk goes.
#[derive(Drop)]
pub(crate) struct Round<'r> {
    pub(crate) dues: &'r [Due],
    pub(crate) known: &'r [bool],
    pub(crate) owners: &'r [Option<u64>],
    pub(crate) reach: Reach,
}

// Takes marks away from the templates whose goals in what a node asks don't close. Nothing is done
// where all are known to close.
fn judge(
    alloc: Global,
    table: &mut TermTable,
    round: &Round<'_>,
    due: &Due,
    is_known: bool,
    marks: &mut Marks,
) -> Result<(), AllocError>
    requires facts { AreFormsReady (sorts_in table.old) (trees_in table.old)
        due.now.facts.list.items }
    requires goals { AreFormsReady (sorts_in table.old) (trees_in table.old)
        due.now.targets.list.items }
    requires known { is_known ≡ true → ClosesAll table.old round.now.reach due.now }
    ensures judged { let sorts = sorts_in table.old in let trees = trees_in table.old in
        (passes : ℕ → ℕ → Bool) (choice : Choice) →
        rows marks.old.sites.items ≡ all_marked passes 0 choice →
        OnOk result (rows marks.new.sites.items ≡ all_marked (λ s i. passes s i
        && stays_at sorts round.now.reach (owner_in round.now.owners.now)
        (due_in sorts trees due.now) s i) 0 choice) }
    ensures widens { ExtendsTable table.old table.new }
{
    if is_known {
        return Ok(());
    }
    let site = match owner(round.owners, due.node) {
        Some(site) => site as usize,
        None => return Ok(()),
    };
    if site >= marks.sites.as_slice().len() {
        return Ok(());
    }
    let list = judged(alloc, table, due, &marks.sites[site], round.reach)?;
    marks.sites[site] = list;
    Ok(())
}

// Judges what a node asks, but of a node that is left out nothing is done.
fn judge_unless(
    alloc: Global,
    table: &mut TermTable,
    round: &Round<'_>,
    due: &Due,
    is_left: bool,
    is_known: bool,
    marks: &mut Marks,
) -> Result<(), AllocError>
    requires facts { AreFormsReady (sorts_in table.old) (trees_in table.old)
        due.now.facts.list.items }
    requires goals { AreFormsReady (sorts_in table.old) (trees_in table.old)
        due.now.targets.list.items }
    requires known { is_known ≡ true → ClosesAll table.old round.now.reach due.now }
    ensures judged { let sorts = sorts_in table.old in let trees = trees_in table.old in
        (passes : ℕ → ℕ → Bool) (choice : Choice) →
        rows marks.old.sites.items ≡ all_marked passes 0 choice →
        OnOk result (rows marks.new.sites.items ≡ all_marked (λ s i. passes s i && (is_left
        || stays_at sorts round.now.reach (owner_in round.now.owners.now)
        (due_in sorts trees due.now) s i)) 0 choice) }
    ensures widens { ExtendsTable table.old table.new }
{
    if is_left {
        return Ok(());
    }
    judge(alloc, table, round, due, is_known, marks)
}

/// Takes marks away from the templates one of whose goals doesn't close, at some nodes of a round.
/// The last that is asked comes first: it is the turn that all copies take, where templates are
/// refuted, and what is refuted isn't looked at again. Nor is what is known to close, by its flag.
pub(crate) fn judge_all(
    alloc: Global,
    table: &mut TermTable,
    round: &Round<'_>,
    nodes: &Nodes<'_>,
    marks: &mut Marks,
) -> Result<(), AllocError>
    requires ready { AreDuesReady (sorts_in table.old) (trees_in table.old) round.now.dues.now }
    requires known { AreKnown table.old round.now.reach round.now.dues.now round.now.known.now }
    ensures judged { let sorts = sorts_in table.old in let trees = trees_in table.old in
        (passes : ℕ → ℕ → Bool) (choice : Choice) →
        rows marks.old.sites.items ≡ all_marked passes 0 choice →
        OnOk result (rows marks.new.sites.items ≡ all_marked (λ s i. passes s i
        && holds_but (leaves_out nodes.now) (closing sorts round.now.reach)
        (owner_in round.now.owners.now) 0 (dues_in sorts trees round.now.dues.now) s i) 0 choice) }
    ensures widens { ExtendsTable table.old table.new }
{
    let dues = round.dues;
    let mut left = dues.len();
    while left > 0 {
        left -= 1;
        let is_left = is_left_out(nodes, left);
        let is_known = is_flagged(round.known, left);
        judge_unless(alloc, table, round, &dues[left], is_left, is_known, marks)?;
    }
    Ok(())
}
