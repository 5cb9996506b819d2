// What the nodes of a plan ask: goals over facts.
ghost use Rattle.std.specs.Prelude.{◌≡◌, true, List, IfOk};
ghost use Rattle.sm_term.specs.Tables.{trees_in, sorts_in};
ghost use Rattle.sm_term.specs.TableLaws.{ExtendsTable};
ghost use Rattle.sm_plan.specs.ReadyStates.{AreFormsReady};
ghost use Rattle.sm_list.specs.Parts.{all_numbered};
ghost use Rattle.sm_goals.specs.Nodes.{IsNodeOf};

use sm_pairs::is_same_formula;
use sm_plan::Formulas;
use sm_solve::FactBase;
use sm_term::{Formula, TermTable};
use std::alloc::{AllocError, Global};

/// The node of these facts, where goals are to share it: none where they aren't, and none where it
/// takes more than `steps` to make. The table only widens.
pub fn node_of(
    alloc: Global,
    table: &mut TermTable,
    facts: &Formulas,
    is_shared: bool,
    steps: u64,
) -> Result<Option<FactBase>, AllocError>
    requires { AreFormsReady (sorts_in table.old) (trees_in table.old) facts.now.list.items }
    ensures node { IfOk result (IsNodeOf table.new facts.now.list.items) }
    ensures widens { ExtendsTable table.old table.new }
{
    if !is_shared {
        return Ok(None);
    }
    let node = FactBase::of(alloc, table, &facts.list, steps)?;
    Ok(node)
}

/// Whether two lists have equal formulas, in order.
pub fn are_same(list: &[Formula], others: &[Formula]) -> bool
    ensures { result ≡ true → all_numbered list.now ≡ all_numbered others.now }
{
    if list.len() != others.len() {
        return false;
    }
    for n in 0..list.len() {
        if !is_same_formula(&list[n], &others[n]) {
            return false;
        }
    }
    true
}
