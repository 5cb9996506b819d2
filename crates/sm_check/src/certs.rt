// Lines of certificates.
ghost use Rattle.std.specs.Prelude.{◌≡◌, ℕ, false, true, length, reverse, List, Ok, IfOk};
ghost use Rattle.sm_syntax.specs.claim.ConflictFree.{Copy};
ghost use Rattle.sm_term.specs.Symbolic.{SymbolicStore};
ghost use Rattle.sm_check.specs.declared.pending.Waiting.{Waiting};
ghost use Rattle.sm_term.specs.Tables.{trees_in, sorts_in};
ghost use Rattle.sm_theory.specs.Facts.{BranchFact};
ghost use Rattle.sm_theory.specs.SortedFacts.{AreFactsSorted};
ghost use Rattle.sm_theory.specs.Views.{AllStand, line_in, IsLineWithin};
ghost use Rattle.sm_theory.specs.Ways.{ways};
ghost use Rattle.sm_theory.specs.Named.{is_split, is_closing};
ghost use Rattle.sm_plan.specs.ReadyStates.{AreStoresReady};
ghost use Rattle.sm_plan.specs.Views.{stores_in};
ghost use Rattle.sm_proof.specs.declared.word.Word.TheVariants.{First};
ghost use Rattle.sm_proof.specs.Lines.{numbered_line};
ghost use Rattle.sm_proof.specs.Named.{found_or};
ghost use Rattle.sm_proof.specs.Passing.{Pending, branches_before};
ghost use Rattle.sm_check.specs.Tells.{Tells};
ghost use Rattle.sm_check.specs.Pending.{IsReadyIfDue, AreWaitingReady, AllWait, PendingStands};

use crate::due::{facts_on, next_due};
use crate::fault::LineFault;
use crate::pending::{Due, OpenBranch, Waiting};
use sm_cert::{add_line, closes, parts};
use sm_euf::Euf;
use sm_exact::With;
use sm_lia::Lia;
use sm_proof::{Head, Word};
use sm_rows::Rows;
use sm_term::TermTable;
use sm_theory::{Branch, CertLine};
use std::alloc::Global;

// What is due after a line at the branch that was due. The terms of the line are those of the table.
pub(crate) fn after_line<'a>(
    alloc: Global,
    table: &TermTable,
    path: &mut Branch,
    waiting: &mut Vec<Waiting<'a>>,
    branch: OpenBranch,
    line: &CertLine,
    head: Head,
) -> Result<Option<Due<'a>>, LineFault>
    requires { IsLineWithin (length (trees_in table.now)) line.now }
    ensures tells { let sorts = sorts_in table.now in let trees = trees_in table.now in
        (facts : List BranchFact) (rest : List Pending) →
        AllStand sorts trees path.old.list.items facts → AreFactsSorted sorts facts →
        AllWait sorts trees facts (length facts) (reverse waiting.old.items) rest →
        Tells (λ d pending.
        PendingStands sorts trees path.new.list.items d waiting.new.items pending) result
        (found_or (ways sorts facts (line_in trees line.now)) (First head)
        (λ to. Ok (branches_before (stores_in trees branch.stores.value) facts branch.splits to
        rest))) }
    ensures ready { let sorts = sorts_in table.now in let trees = trees_in table.now in
        AreStoresReady sorts trees branch.stores.value →
        AreWaitingReady sorts trees waiting.old.items →
        IfOk result (IsReadyIfDue sorts trees) }
    ensures later { let sorts = sorts_in table.now in let trees = trees_in table.now in
        AreStoresReady sorts trees branch.stores.value →
        AreWaitingReady sorts trees waiting.old.items →
        AreWaitingReady sorts trees waiting.new.items }
{
    if splits_branch(line) {
        split(alloc, table, path, waiting, branch, line, head)
    } else if closes_branch(line) {
        close(alloc, table, path, waiting, line, head)
    } else {
        add(alloc, table, path, branch, line, head)
    }
}

// What is due after a line that splits the branch: the second part waits.
fn split<'a>(
    alloc: Global,
    table: &TermTable,
    path: &mut Branch,
    waiting: &mut Vec<Waiting<'a>>,
    branch: OpenBranch,
    line: &CertLine,
    head: Head,
) -> Result<Option<Due<'a>>, LineFault>
    requires within { IsLineWithin (length (trees_in table.now)) line.now }
    requires kind { is_split (numbered_line line.now) ≡ true }
    ensures tells { let sorts = sorts_in table.now in let trees = trees_in table.now in
        (facts : List BranchFact) (rest : List Pending) →
        AllStand sorts trees path.old.list.items facts → AreFactsSorted sorts facts →
        AllWait sorts trees facts (length facts) (reverse waiting.old.items) rest →
        Tells (λ d pending.
        PendingStands sorts trees path.new.list.items d waiting.new.items pending) result
        (found_or (ways sorts facts (line_in trees line.now)) (First head)
        (λ to. Ok (branches_before (stores_in trees branch.stores.value) facts branch.splits to
        rest))) }
    ensures ready { let sorts = sorts_in table.now in let trees = trees_in table.now in
        AreStoresReady sorts trees branch.stores.value → IfOk result (IsReadyIfDue sorts trees) }
    ensures later { let sorts = sorts_in table.now in let trees = trees_in table.now in
        AreStoresReady sorts trees branch.stores.value →
        AreWaitingReady sorts trees waiting.old.items →
        AreWaitingReady sorts trees waiting.new.items }
{
    // The terms of a table are sorted, as its length ensures.
    table.len();
    match parts(alloc, table, path, line)? {
        Some((first, second)) => {
            let other = branch.stores.clone()?;
            waiting.push(Waiting::Branch {
                shared: facts_on(path),
                fact: second,
                stores: other,
                splits: branch.splits,
            })?;
            path.list.push(first)?;
            Ok(Some(Due::Branch {
                stores: branch.stores,
                splits: branch.splits,
            }))
        }
        None => Err(LineFault::Wrong {
            word: Word::First(head),
        }),
    }
}

// What is due after a line that closes the branch: what waits first.
fn close<'a>(
    alloc: Global,
    table: &TermTable,
    path: &mut Branch,
    waiting: &mut Vec<Waiting<'a>>,
    line: &CertLine,
    head: Head,
) -> Result<Option<Due<'a>>, LineFault>
    requires kind { is_closing (numbered_line line.now) ≡ true }
    ensures tells { let sorts = sorts_in table.now in let trees = trees_in table.now in
        (stores : Copy → SymbolicStore) (splits : ℕ) (facts : List BranchFact) (rest : List Pending) →
        AllStand sorts trees path.old.list.items facts → AreFactsSorted sorts facts →
        AllWait sorts trees facts (length facts) (reverse waiting.old.items) rest →
        Tells (λ d pending.
        PendingStands sorts trees path.new.list.items d waiting.new.items pending) result
        (found_or (ways sorts facts (line_in trees line.now)) (First head)
        (λ to. Ok (branches_before stores facts splits to rest))) }
    ensures ready { let sorts = sorts_in table.now in let trees = trees_in table.now in
        AreWaitingReady sorts trees waiting.old.items → IfOk result (IsReadyIfDue sorts trees) }
    ensures later { let sorts = sorts_in table.now in let trees = trees_in table.now in
        AreWaitingReady sorts trees waiting.old.items →
        AreWaitingReady sorts trees waiting.new.items }
{
    if closes(table, path, line) {
        let due = next_due(alloc, path, waiting)?;
        Ok(due)
    } else {
        Err(LineFault::Wrong {
            word: Word::First(head),
        })
    }
}

// What is due after a line that adds facts.
fn add<'a>(
    alloc: Global,
    table: &TermTable,
    path: &mut Branch,
    branch: OpenBranch,
    line: &CertLine,
    head: Head,
) -> Result<Option<Due<'a>>, LineFault>
    requires within { IsLineWithin (length (trees_in table.now)) line.now }
    requires kind { is_split (numbered_line line.now) ≡ false }
    requires other { is_closing (numbered_line line.now) ≡ false }
    ensures tells { let sorts = sorts_in table.now in let trees = trees_in table.now in
        (waiting : List Waiting) (facts : List BranchFact) (rest : List Pending) →
        AllStand sorts trees path.old.list.items facts → AreFactsSorted sorts facts →
        AllWait sorts trees facts (length facts) (reverse waiting) rest →
        Tells (λ d pending.
        PendingStands sorts trees path.new.list.items d waiting pending) result
        (found_or (ways sorts facts (line_in trees line.now)) (First head)
        (λ to. Ok (branches_before (stores_in trees branch.stores.value) facts branch.splits to
        rest))) }
    ensures ready { let sorts = sorts_in table.now in let trees = trees_in table.now in
        AreStoresReady sorts trees branch.stores.value → IfOk result (IsReadyIfDue sorts trees) }
{
    // The terms of a table are sorted, as its length ensures.
    table.len();
    if add_line(
        alloc,
        &Euf::new(),
        &With::new(Lia::new()),
        &Rows::new(),
        table,
        path,
        line,
    )? {
        Ok(Some(Due::Branch {
            stores: branch.stores,
            splits: branch.splits,
        }))
    } else {
        Err(LineFault::Wrong {
            word: Word::First(head),
        })
    }
}

// Whether a line splits the branch, by its kind.
pub(crate) fn splits_branch(line: &CertLine) -> bool
    ensures { result ≡ is_split (numbered_line line.now) }
{
    match line {
        CertLine::Either(_) | CertLine::Cases(_, _) | CertLine::Order(_) => true,
        _ => false,
    }
}

// Whether it closes the branch, by its kind.
pub(crate) fn closes_branch(line: &CertLine) -> bool
    ensures { result ≡ is_closing (numbered_line line.now) }
{
    match line {
        CertLine::Close(_) | CertLine::Clash(_, _) => true,
        _ => false,
    }
}
