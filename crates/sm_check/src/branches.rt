// A line of a certificate at the branch that is due.
ghost use Rattle.std.specs.Prelude.{◌≡◌, ◌-◌, ◌^◌, suc, min, if◌then◌else◌, true, false, length, List, reverse, MatchOption, IfOk};
ghost use Rattle.sm_term.specs.Tables.{trees_in, sorts_in, AreBefore};
ghost use Rattle.sm_theory.specs.Facts.{BranchFact};
ghost use Rattle.sm_theory.specs.SortedFacts.{AreFactsSorted};
ghost use Rattle.sm_theory.specs.Views.{AllStand};
ghost use Rattle.sm_plan.specs.Limits.{is_shallow};
ghost use Rattle.sm_plan.specs.ReadyStates.{AreStoresReady};
ghost use Rattle.sm_plan.specs.Views.{stores_in};
ghost use Rattle.sm_proof.specs.declared.word.Word.TheVariants.{BadNumber};
ghost use Rattle.sm_proof.specs.Lines.{Cert, numbered_line};
ghost use Rattle.sm_proof.specs.Named.{found_or, named_line};
ghost use Rattle.sm_proof.specs.Passing.{Pending, Progress, taken, after_line};
ghost use Rattle.sm_check.specs.CertsTaken.{splits_above, pending_after, WalksIn};
ghost use Rattle.sm_check.specs.Pending.{IsReadyIfDue, AreWaitingReady, AllWait, PendingStands};
ghost use Rattle.sm_check.specs.Tells.{Tells};
ghost use Rattle.sm_check.specs.Walks.{Walks, terms_in};

use crate::certs::{after_line, splits_branch};
use crate::due::facts_on;
use crate::fault::LineFault;
use crate::names::named_line;
use crate::pending::{Due, OpenBranch, Waiting};
use crate::walk::Walk;
use sm_proof::{Word, line_head};
use sm_term::{TermId, TermTable};
use sm_theory::{Branch, CertLine};
use std::alloc::Global;

// How many splits stand above what a line opens, None where they are too many.
fn splits_over(line: &CertLine, splits: u64) -> Option<u64>
    ensures { let over = splits_above (numbered_line line.now) splits in
        MatchOption result (is_shallow over ≡ false)
        (λ n. (n ≡ over) × (is_shallow over ≡ true)) }
{
    let over = if splits_branch(line) {
        splits.saturating_add(1)
    } else {
        splits
    };
    if over <= 1000 { Some(over) } else { None }
}

// What is due after a line, over the terms of lines, at a branch that was due. The path has its facts.
pub(crate) fn line_at<'a>(
    alloc: Global,
    table: &TermTable,
    terms: &[TermId],
    path: &mut Branch,
    waiting: &mut Vec<Waiting<'a>>,
    branch: OpenBranch,
    line: &CertLine,
) -> Result<Option<Due<'a>>, LineFault>
    requires { AreBefore (length (trees_in table.now)) terms.now }
    ensures tells { let sorts = sorts_in table.now in let trees = trees_in table.now in
        (own : List BranchFact) (rest : List Pending) →
        AllStand sorts trees path.old.list.items own → AreFactsSorted sorts own →
        AllWait sorts trees own (length own) (reverse waiting.old.items) rest →
        Tells (λ d ps. PendingStands sorts trees path.new.list.items d waiting.new.items ps) result
        (pending_after sorts (terms_in trees terms.now) (stores_in trees branch.stores.value) own
        branch.splits rest (numbered_line line.now)) }
    ensures ready { let sorts = sorts_in table.now in let trees = trees_in table.now in
        AreStoresReady sorts trees branch.stores.value →
        AreWaitingReady sorts trees waiting.old.items →
        IfOk result (IsReadyIfDue sorts trees) }
    ensures later { let sorts = sorts_in table.now in let trees = trees_in table.now in
        AreStoresReady sorts trees branch.stores.value →
        AreWaitingReady sorts trees waiting.old.items →
        AreWaitingReady sorts trees waiting.new.items }
{
    let count = facts_on(path) as u64;
    let named = named_line(alloc, table, terms, count, line)?;
    let over = match splits_over(line, branch.splits) {
        Some(over) => over,
        None => return Err(LineFault::Wrong { word: Word::Deep }),
    };
    let head = line_head(line);
    let next = OpenBranch {
        stores: branch.stores,
        splits: over,
    };
    after_line(alloc, table, path, waiting, next, &named, head)
}

// Takes a line at a branch that was due and whose stores are held apart.
fn cert_at<'a>(
    alloc: Global,
    walk: &mut Walk<'a>,
    branch: OpenBranch,
    line: &CertLine,
) -> Result<(), LineFault>
    requires { AreStoresReady (sorts_in walk.old.table) (trees_in walk.old.table)
        branch.stores.value }
    ensures tells { let sorts = sorts_in walk.old.table in
        let held = stores_in (trees_in walk.old.table) branch.stores.value in
        let l = numbered_line line.now in
        (p : Progress) (own : List BranchFact) (rest : List Pending) → WalksIn walk.old p own rest →
        Tells (λ (_ : Unit {0}) (q : Progress). Walks walk.new q) result
        (found_or (named_line p.terms (length own) l) BadNumber
        (after_line sorts p held own branch.splits rest l)) }
    ensures sorts { sorts_in walk.new.table ≡ sorts_in walk.old.table }
{
    match line_at(
        alloc,
        &walk.table,
        &walk.terms,
        &mut walk.path,
        &mut walk.waiting,
        branch,
        line,
    ) {
        Ok(due) => {
            walk.due = due;
            Ok(())
        }
        Err(fault) => Err(fault),
    }
}

// Takes a line of a certificate. After an error nothing is known of what is pending.
pub(crate) fn take_cert(
    alloc: Global,
    walk: &mut Walk<'_>,
    line: &CertLine,
) -> Result<(), LineFault>
    ensures tells { (p : Progress) → Walks walk.old p →
        Tells (λ (_ : Unit {0}) (q : Progress). Walks walk.new q) result
        (taken (sorts_in walk.old.table) p (Cert (numbered_line line.now))) }
    ensures sorts { sorts_in walk.new.table ≡ sorts_in walk.old.table }
{
    match walk.due.take() {
        Some(Due::Branch { stores, splits }) => {
            cert_at(alloc, walk, OpenBranch { stores, splits }, line)
        }
        Some(Due::State { .. }) => Err(LineFault::Wrong { word: Word::Order }),
        None => Err(LineFault::Wrong { word: Word::Extra }),
    }
}
