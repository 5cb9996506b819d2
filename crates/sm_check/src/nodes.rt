// A node at the state that is due.
ghost use Rattle.std.specs.Prelude.{◌≡◌, ◌⊎◌, ◌+◌, true, false, None, List, [], length, IfOk, OnOk, IfSome, MatchBool, MatchOption};
ghost use Rattle.sm_term.specs.Assertions.{Assertion};
ghost use Rattle.sm_term.specs.TableLaws.{ExtendsTable, AreApart};
ghost use Rattle.sm_term.specs.Tables.{trees_in, sorts_in};
ghost use Rattle.sm_plan.specs.Limits.{is_shallow};
ghost use Rattle.sm_plan.specs.NodeLists.{above_opened};
ghost use Rattle.sm_plan.specs.Nodes as plan;
ghost use Rattle.sm_plan.specs.ReadyStates.{IsStateReady};
ghost use Rattle.sm_plan.specs.States.{State};
ghost use Rattle.sm_plan.specs.Views.{state_in, stores_in};
ghost use Rattle.sm_proof.specs.declared.word.Word.TheVariants.{BadNumber, First};
ghost use Rattle.sm_check.specs.declared.fault.LineFault.TheVariants.{Wrong};
ghost use Rattle.sm_proof.specs.Lines.{Node};
ghost use Rattle.sm_proof.specs.Named.{found_or, named_node, node_head};
ghost use Rattle.sm_proof.specs.Passing.{Pending, Progress, after_node, taken};
ghost use Rattle.sm_check.specs.FormRows.{RowsStand, AreRowsReady};
ghost use Rattle.sm_check.specs.Kept.{keep_of, IsThere, node_with};
ghost use Rattle.sm_check.specs.NodesTaken.{opened_or, OpensAs, IsOpenedReady, WalksAt};
ghost use Rattle.sm_check.specs.Tells.{Tells};
ghost use Rattle.sm_check.specs.Walks.{Walks};

use crate::due::make_due;
use crate::fault::LineFault;
use crate::forms::FormRow;
use crate::kept::{kept_formula, kept_number, node_row};
use crate::opened::put_opened;
use crate::pending::Due;
use crate::walk::Walk;
use sm_plan::{Opened, SymState, open};
use sm_proof::{Head, NodeLine, Word};
use sm_term::TermTable;
use sm_theory::Branch;
use std::alloc::Global;

// The first word of a line.
fn head(line: &NodeLine) -> Head
    ensures { result ≡ node_head line.now }
{
    match line {
        NodeLine::Step { .. } => Head::Step,
        NodeLine::Abs { .. } => Head::Abs,
        NodeLine::Fork { .. } => Head::Fork,
        NodeLine::Loop { .. } => Head::Loop,
        NodeLine::Block { .. } => Head::Block,
        NodeLine::Dead => Head::Dead,
        NodeLine::End => Head::End,
    }
}

// Whether more than one state may follow.
fn is_branching(line: &NodeLine) -> bool
    ensures { (f : Assertion) → result ≡ plan.is_branching (node_with f line.now) }
{
    match line {
        NodeLine::Fork { .. } => true,
        NodeLine::Loop { .. } => true,
        NodeLine::Block { .. } => true,
        _ => false,
    }
}

// How many branching nodes stand above what a line opens, None where they are too many.
fn above_it(line: &NodeLine, above: u64) -> Option<u64>
    ensures { (f : Assertion) → let over = above_opened (node_with f line.now) above in
        MatchOption result (is_shallow over ≡ false)
        (λ n. (n ≡ over) × (is_shallow over ≡ true)) }
{
    let over = if is_branching(line) {
        above.saturating_add(1)
    } else {
        above
    };
    if over <= 1000 { Some(over) } else { None }
}

// Whether the formula that a line keeps is there.
pub(crate) fn is_there(rows: &[FormRow], line: &NodeLine) -> bool
    ensures { MatchBool result (IsThere (length rows.now) (keep_of line.now))
        ((forms : List Assertion) → length rows.now ≡ length forms →
        named_node forms line.now ≡ None) }
{
    match kept_number(line) {
        Some(n) => n < rows.len() as u64,
        None => true,
    }
}

// What a line opens at a state, and how many branching nodes stand above that.
fn open_node<'a>(
    alloc: Global,
    table: &mut TermTable,
    rows: &[FormRow],
    number: u64,
    state: SymState<'a>,
    above: u64,
    line: &NodeLine,
) -> Result<(Opened<'a>, u64), LineFault>
    requires state { IsStateReady (sorts_in table.old) (trees_in table.old) state }
    requires rows { AreRowsReady (sorts_in table.old) (trees_in table.old) rows.now }
    ensures tells { let sorts = sorts_in table.old in let trees = trees_in table.old in
        (forms facts : List Assertion) → RowsStand sorts trees rows.now forms →
        Tells (OpensAs (sorts_in table.new) (trees_in table.new) facts) result
        (opened_or forms number (state_in sorts trees facts state.entry) above line.now) }

    // The stores beside goals are those of the state.
    ensures stores { IfOk result (λ o. (o.0.goals.list.items ≡ [])
        ⊎ (stores_in (trees_in table.new) o.0.stores
        ≡ stores_in (trees_in table.old) state.entry.stores)) }
    ensures ready { IfOk result (λ o. IsOpenedReady (sorts_in table.new) (trees_in table.new) o.0) }
    ensures widens { ExtendsTable table.old table.new }
    ensures apart { OnOk result (AreApart (trees_in table.new)) }
{
    if !is_there(rows, line) {
        return Err(LineFault::Wrong {
            word: Word::BadNumber,
        });
    }
    let over = match above_it(line, above) {
        Some(over) => over,
        None => return Err(LineFault::Wrong { word: Word::Deep }),
    };
    // The terms of a table are sorted, as its length ensures.
    table.len();
    let keep = match kept_formula(alloc, rows, line)? {
        Some(keep) => keep,
        None => return Err(unfit(line)),
    };
    let node = node_row(line, &keep);
    match open(alloc, table, number, state, &node)? {
        Some(opened) => {
            table.len();
            Ok((opened, over))
        }
        None => Err(unfit(line)),
    }
}

// The rule of a line doesn't fit.
fn unfit(line: &NodeLine) -> LineFault
    ensures { result ≡ Wrong (First (node_head line.now)) }
{
    LineFault::Wrong {
        word: Word::First(head(line)),
    }
}

// 1 more, None where that is no number of a node.
fn one_more(n: u64) -> Option<u64>
    ensures { IfSome result (λ m. m ≡ n + 1) }
{
    n.checked_add(1)
}

// How many facts stand on the path.
fn count_of(path: &Branch) -> usize
    ensures { result ≡ length path.now.list.items }
{
    path.list.len()
}

// Takes a node at a state that was due and is held apart.
fn node_at<'a>(
    alloc: Global,
    walk: &mut Walk<'a>,
    state: SymState<'a>,
    above: u64,
    line: &NodeLine,
) -> Result<(), LineFault>
    requires { IsStateReady (sorts_in walk.old.table) (trees_in walk.old.table) state }
    ensures tells { (p : Progress) (st : State) (rest : List Pending) →
        WalksAt walk.old state.entry p st rest →
        Tells (λ (_ : Unit {0}) (q : Progress). Walks walk.new q) result
        (found_or (named_node p.forms line.now) BadNumber (after_node p st above rest line.now)) }
    ensures sorts { sorts_in walk.new.table ≡ sorts_in walk.old.table }
{
    let (opened, over) = open_node(
        alloc,
        &mut walk.table,
        &walk.forms,
        walk.nodes,
        state,
        above,
        line,
    )?;
    let nodes = match one_more(walk.nodes) {
        Some(nodes) => nodes,
        None => return Err(LineFault::Memory),
    };
    let shared = count_of(&walk.path);
    put_opened(alloc, &mut walk.waiting, opened, shared, over)?;
    walk.nodes = nodes;
    make_due(alloc, walk)?;
    Ok(())
}

// Takes a node. After an error nothing is known of what is pending.
pub(crate) fn take_node(
    alloc: Global,
    walk: &mut Walk<'_>,
    line: &NodeLine,
) -> Result<(), LineFault>
    ensures tells { (p : Progress) → Walks walk.old p →
        Tells (λ (_ : Unit {0}) (q : Progress). Walks walk.new q) result
        (taken (sorts_in walk.old.table) p (Node line.now)) }
    ensures sorts { sorts_in walk.new.table ≡ sorts_in walk.old.table }
{
    match walk.due.take() {
        Some(Due::State { state, above }) => node_at(alloc, walk, state, above, line),
        Some(Due::Branch { .. }) => Err(LineFault::Wrong { word: Word::Order }),
        None => Err(LineFault::Wrong { word: Word::Extra }),
    }
}
