// What runs of goals come to, each over a copy of the table.
ghost use Rattle.std.specs.Prelude.{◌≡◌, ◌<◌, ◌+◌, ◌^◌, [], length, take, drop, IfOk};
ghost use Rattle.sm_term.specs.declared.formula.Formula.{Formula};
ghost use Rattle.sm_term.specs.Tables.{trees_in, sorts_in};
ghost use Rattle.sm_plan.specs.ReadyStates.{AreFormsReady};
ghost use Rattle.sm_expand.specs.declared.due.Due.{Due};
ghost use Rattle.sm_expand.specs.Views.{AreDuesReady};
ghost use Rattle.sm_solve.specs.declared.reach.Reach.{Reach};
ghost use Rattle.sm_houdini.specs.declared.run_ends.RunEnd.{RunEnd};
ghost use Rattle.sm_houdini.specs.EndJobs.{IsPartEnd, TellsEnd, size_of};

use crate::dealing::dealt;
use crate::end_jobs::size_of;
use crate::ending::{Stop, end_run};
use sm_cert::CertTree;
use sm_expand::Due;
use sm_par::Job;
use sm_solve::Reach;
use sm_term::{Formula, TermRows, TermTable};
use std::alloc::{AllocError, Global};
use std::marker::Model;

/// What a run of goals comes to over a copy of a table: the copy's new terms, the certificates of
/// the goals up to the first for which there is none, and why there is none for that one.
#[derive(Drop)]
pub(crate) struct RunEnd {
    pub(crate) rows: TermRows,
    pub(crate) trees: Vec<CertTree>,
    pub(crate) stop: Option<Stop>,
}

/// The goals that nodes ask, so many runs of each; the last may be shorter. A job has one run, and
/// the runs of a node stand together at its place.
#[derive(Drop)]
pub(crate) struct PlanEnds<'a> {
    pub(crate) table: &'a TermTable,
    pub(crate) dues: &'a [Due],
    pub(crate) each: usize,
    pub(crate) reach: Reach,
    pub(crate) count: usize,
}

impl<'a> Model for PlanEnds<'a> {
    ghost use Rattle.sm_houdini.specs.EndJobs.{PlanEndsValue};
    ghost use Rattle.sm_term.specs.Tables.{trees_in, sorts_in};
    ghost use Rattle.sm_expand.specs.Views.{AreDuesReady};
    ghost use Rattle.std.specs.Prelude.{◌<◌, ◌≡◌, ◌*◌, length};

    ghost Value = { PlanEndsValue };

    ghost use Rattle.sm_syntax.specs.contracts.tree.Block as block;
    ghost use Rattle.sm_term.specs.contracts.formula.Formula as formula;
    ghost use Rattle.std.specs.Coded.{codes};

    ghost coded = { Prim.hlevel (codes, block.the_row.coded, formula.the_row.coded) };

    ghost view = { λ g. record {
      table = g.table.now;
      dues = g.dues.now;
      each = g.each;
      reach = g.reach;
      count = g.count;
    } };

    ghost invariant = { λ g. AreDuesReady (sorts_in g.table.now) (trees_in g.table.now) g.dues.now
        × (0 < g.each) × (g.count ≡ length g.dues.now * g.each) };
}

impl Job for PlanEnds<'_> {
    type Out = RunEnd;

    ghost indices = { λ job. job.count };

    ghost stands_for = { TellsEnd };

    fn run(&self, alloc: Global, index: u64) -> Result<RunEnd, AllocError> {
        let at = index as usize;
        let due = &self.dues[dealt(self.dues.len(), at / self.each)];
        run_end(
            alloc,
            self.table,
            due,
            at % self.each,
            self.each,
            self.reach,
        )
    }
}

// What a run of the goals of a node comes to, over a copy of a table.
fn run_end(
    alloc: Global,
    table: &TermTable,
    due: &Due,
    number: usize,
    each: usize,
    reach: Reach,
) -> Result<RunEnd, AllocError>
    requires facts { AreFormsReady (sorts_in table.now) (trees_in table.now)
        due.now.facts.list.items }
    requires goals { AreFormsReady (sorts_in table.now) (trees_in table.now)
        due.now.targets.list.items }
    requires some { 0 < each }
    ensures { IfOk result (IsPartEnd table.now reach due.now each number) }
{
    let goals = due.targets.list.as_slice();
    let size = size_of(goals.len(), each);
    // So many goals fit no memory.
    let Some(first) = number.checked_mul(size) else {
        return Err(AllocError);
    };
    let run = part(goals, first, size);
    let mut table = table.copy(alloc)?;
    let from = table.len();
    let mut trees = Vec::new(alloc);
    let stop = end_run(alloc, &mut table, due, first as u64, run, &mut trees, reach)?;
    let rows = table.tail(alloc, from)?;
    Ok(RunEnd { rows, trees, stop })
}

// So many goals from a place on, as far as there are some.
fn part(goals: &[Formula], first: usize, size: usize) -> &[Formula]
    ensures part { result.now ≡ take size (drop first goals.now) }
    ensures places { first + length result.now < 2 ^ 64 }
{
    if first >= goals.len() {
        return &[];
    }
    if goals.len() - first < size {
        return &goals[first..];
    }
    &goals[first..first + size]
}
