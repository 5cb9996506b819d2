// Lines of nodes.
ghost use Rattle.std.specs.Prelude.{◌≡◌, ◌∷◌, List, Some, suc, true, nat_eq, IfOk, OnOk, ℕ};
ghost use Rattle.std.specs.HashMap.{get};
ghost use Rattle.sm_term.specs.Tables.{trees_in, sorts_in};
ghost use Rattle.sm_term.specs.Terms.{Tree};
ghost use Rattle.sm_plan.specs.Limits.{is_shallow};
ghost use Rattle.sm_plan.specs.NodeLists.{above_opened};
ghost use Rattle.sm_plan.specs.Nodes as plan;
ghost use Rattle.sm_plan.specs.ReadyStates.{AreStoresReady, IsNodeReady};
ghost use Rattle.sm_plan.specs.States.{State};
ghost use Rattle.sm_proof.specs.FieldRanges.{IsNodeLineWithin};
ghost use Rattle.sm_proof.specs.Named.{named_node};
ghost use Rattle.sm_proof.specs.Passing.{Due, Pending, Progress, opened_before};
ghost use Rattle.sm_proof.specs.Verdicts.{Subject};
ghost use Rattle.sm_write.specs.NodesWritten.{line_of, WritesKeep, WritesNode};
ghost use Rattle.sm_write.specs.Values.{value_of};
ghost use Rattle.sm_write.specs.Writers.{Stands};

use crate::forms::{one_more, write_form};
use crate::states::name_state;
use crate::text::put_node;
use crate::writer::Writer;
use sm_plan::NodeRow;
use sm_proof::NodeLine;
use sm_syntax::PerCopy;
use sm_term::{SymStore, TermTable};
use std::alloc::{AllocError, Global};

// The line of a block.
fn block_line(counts: &PerCopy<u64>, keep: u64) -> NodeLine
    ensures line { let k = counts.now in
        result ≡ NodeLine.Block k.base k.variant_a k.variant_b k.candidate keep }
    ensures within { IsNodeLineWithin result }
{
    let PerCopy {
        base,
        variant_a,
        variant_b,
        candidate,
    } = counts;
    NodeLine::Block {
        k0: *base,
        k1: *variant_a,
        k2: *variant_b,
        k3: *candidate,
        keep,
    }
}

// The line of a node whose kept formula, if any, has a number.
fn node_line(row: &NodeRow<'_>, keep: u64) -> NodeLine
    ensures line { result ≡ line_of row.now keep }
    ensures within { IsNodeLineWithin result }
{
    match row {
        NodeRow::Step { copy } => NodeLine::Step {
            copy: copy.number(),
        },
        NodeRow::Abs { copy, count } => NodeLine::Abs {
            copy: copy.number(),
            count: *count,
        },
        NodeRow::Fork { copy } => NodeLine::Fork {
            copy: copy.number(),
        },
        NodeRow::Loop { set, .. } => NodeLine::Loop { set: *set, keep },
        NodeRow::Block { counts, .. } => block_line(counts, keep),
        NodeRow::Dead => NodeLine::Dead,
        NodeRow::End => NodeLine::End,
    }
}

// Writes the lines of the formula that a node keeps, and gives its number, 0 where there is none.
fn write_keep(
    alloc: Global,
    w: &mut Writer,
    table: &TermTable,
    row: &NodeRow<'_>,
) -> Result<u64, AllocError>
    requires { IsNodeReady (sorts_in table.now) (trees_in table.now) row.now }
    ensures { IfOk result
        (WritesKeep table.now (value_of w.old) (value_of w.new) row.now) }
{
    match row {
        NodeRow::Step { .. } => Ok(0),
        NodeRow::Abs { .. } => Ok(0),
        NodeRow::Fork { .. } => Ok(0),
        NodeRow::Loop { keep, .. } => write_form(alloc, w, table, keep),
        NodeRow::Block { keep, .. } => write_form(alloc, w, table, keep),
        NodeRow::Dead => Ok(0),
        NodeRow::End => Ok(0),
    }
}

// Writes the line of a node, of which there is one more.
fn add_node(w: &mut Writer, line: NodeLine) -> Result<(), AllocError>
    ensures stands { (s : Subject) (trees : List Tree) (p : Progress) (st : State) (above : ℕ)
        (rest : List Pending) (it : plan.Node) (q : plan.Opened) →
        Stands s trees (value_of w.old) p → p.pending ≡ Due st above ∷ rest →
        IsNodeLineWithin line → named_node p.forms line ≡ Some it →
        is_shallow (above_opened it above) ≡ true → plan.opened_by p.nodes st it ≡ Some q →
        OnOk result (Stands s trees (value_of w.new) (record p {
          nodes = suc p.nodes;
          pending = opened_before st (above_opened it above) q rest;
        })) }
    ensures names { get nat_eq w.new.names ≡ get nat_eq w.old.names }
{
    put_node(&mut w.text, line)?;
    let next = one_more(w.nodes)?;
    w.nodes = next;
    Ok(())
}

/// Writes a node behind the lines of its state's terms and of the formula that it keeps.
pub(crate) fn write_head(
    alloc: Global,
    w: &mut Writer,
    table: &TermTable,
    stores: &PerCopy<SymStore>,
    row: &NodeRow<'_>,
) -> Result<(), AllocError>
    requires stores { AreStoresReady (sorts_in table.now) (trees_in table.now) stores.now }
    requires node { IsNodeReady (sorts_in table.now) (trees_in table.now) row.now }
    ensures { OnOk result
        (WritesNode table.now (value_of w.old) (value_of w.new) stores.now row.now) }
{
    name_state(w, table, stores)?;
    let keep = write_keep(alloc, w, table, row)?;
    let line = node_line(row, keep);
    add_node(w, line)?;
    Ok(())
}
