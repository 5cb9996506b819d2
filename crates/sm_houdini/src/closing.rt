// Goals that close.
ghost use Rattle.std.specs.Prelude.{◌≡◌, ◌&&◌, List, IfOk};
ghost use Rattle.sm_syntax.specs.text.Sorts.{Sorts};
ghost use Rattle.sm_term.specs.Formulas.{numbered, assertion_in};
ghost use Rattle.sm_term.specs.Tables.{trees_in, sorts_in};
ghost use Rattle.sm_term.specs.TableLaws.{ExtendsTable};
ghost use Rattle.sm_term.specs.Terms.{Tree};
ghost use Rattle.sm_plan.specs.ReadyStates.{IsFormReady, AreFormsReady};
ghost use Rattle.sm_plan.specs.Views.{forms_in};
ghost use Rattle.sm_expand.specs.Views.{due_in};
ghost use Rattle.sm_solve.specs.Answers.{Tells};
ghost use Rattle.sm_judge.specs.Forms.{Walked};
ghost use Rattle.sm_houdini.specs.Closing.{closing, closes_at};
ghost use Rattle.sm_houdini.specs.Marks.{still_marked};
ghost use Rattle.sm_goals.specs.Nodes.{IsNodeOf};
ghost use Rattle.sm_houdini.specs.Outcomes.{is_closing};

use crate::marks::Marked;
use sm_expand::Due;
use sm_goals::node_of;
use sm_plan::Formulas;
use sm_solve::{Answer, FactBase, Reach, solve_at};
use sm_term::{Formula, TermTable};
use std::alloc::{AllocError, Global};

// Whether an answer is a certificate.
fn is_closed(answer: &Answer) -> bool
    ensures { (sorts : Sorts) (trees : List Tree) (w : Walked) →
        Tells sorts trees answer.now w → result ≡ is_closing w }
{
    match answer {
        Answer::Closed(_) => true,
        Answer::Open { .. } => false,
        Answer::Steps => false,
        Answer::Coefficient { .. } => false,
    }
}

// Whether a goal closes over facts.
fn closes(
    alloc: Global,
    table: &mut TermTable,
    node: &mut Option<FactBase>,
    facts: &Formulas,
    goal: &Formula,
    reach: Reach,
) -> Result<bool, AllocError>
    requires facts { AreFormsReady (sorts_in table.old) (trees_in table.old)
        facts.now.list.items }
    requires goal { IsFormReady (sorts_in table.old) (trees_in table.old) goal.now }
    requires node { IsNodeOf table.old facts.now.list.items node.old }
    ensures closes { let sorts = sorts_in table.old in let trees = trees_in table.old in
        IfOk result (λ b. b ≡ closing sorts reach (forms_in sorts trees facts.now.list.items)
        (assertion_in sorts trees (numbered goal.now))) }
    ensures node { IfOk result (λ b. IsNodeOf table.new facts.now.list.items node.new) }
    ensures widens { ExtendsTable table.old table.new }
{
    let answer = solve_at(alloc, table, node, &facts.list, goal, reach)?;
    Ok(is_closed(&answer))
}

// Whether a mark stays at a template after what a node asks.
fn stays(
    alloc: Global,
    table: &mut TermTable,
    node: &mut Option<FactBase>,
    due: &Due,
    at: u64,
    holds: bool,
    reach: Reach,
) -> Result<bool, AllocError>
    requires facts { AreFormsReady (sorts_in table.old) (trees_in table.old)
        due.now.facts.list.items }
    requires goals { AreFormsReady (sorts_in table.old) (trees_in table.old)
        due.now.targets.list.items }
    requires node { IsNodeOf table.old due.now.facts.list.items node.old }
    ensures stays { let sorts = sorts_in table.old in let trees = trees_in table.old in
        IfOk result (λ b.
        b ≡ (holds && closes_at sorts reach (due_in sorts trees due.now) at)) }
    ensures node { IfOk result (λ b. IsNodeOf table.new due.now.facts.list.items node.new) }
    ensures widens { ExtendsTable table.old table.new }
{
    if !holds {
        return Ok(false);
    }
    match due.targets.list.get(at as usize) {
        Some(goal) => closes(alloc, table, node, &due.facts, goal, reach),
        None => Ok(true),
    }
}

// Whether two marks or more are there. Any answer is right: it tells only whether a node is made.
pub(crate) fn are_several(marks: &[Marked]) -> bool {
    let mut is_one = false;
    for mark in marks {
        if mark.holds {
            if is_one {
                return true;
            }
            is_one = true;
        }
    }
    false
}

// The marks of a site after what a node asks. Goals share its facts' classes.
pub(crate) fn judged(
    alloc: Global,
    table: &mut TermTable,
    due: &Due,
    marks: &[Marked],
    reach: Reach,
) -> Result<Vec<Marked>, AllocError>
    requires facts { AreFormsReady (sorts_in table.old) (trees_in table.old)
        due.now.facts.list.items }
    requires goals { AreFormsReady (sorts_in table.old) (trees_in table.old)
        due.now.targets.list.items }
    ensures judged { let sorts = sorts_in table.old in let trees = trees_in table.old in
        IfOk result (λ ms. ms.items
        ≡ still_marked (closes_at sorts reach (due_in sorts trees due.now)) 0 marks.now) }
    ensures widens { ExtendsTable table.old table.new }
{
    let mut node = node_of(alloc, table, &due.facts, are_several(marks), reach.steps)?;
    judged_at(alloc, table, &mut node, due, marks, reach)
}

// The marks of a site after what a node asks, by a node of the facts, where there is one.
fn judged_at(
    alloc: Global,
    table: &mut TermTable,
    node: &mut Option<FactBase>,
    due: &Due,
    marks: &[Marked],
    reach: Reach,
) -> Result<Vec<Marked>, AllocError>
    requires facts { AreFormsReady (sorts_in table.old) (trees_in table.old)
        due.now.facts.list.items }
    requires goals { AreFormsReady (sorts_in table.old) (trees_in table.old)
        due.now.targets.list.items }
    requires node { IsNodeOf table.old due.now.facts.list.items node.old }
    ensures judged { let sorts = sorts_in table.old in let trees = trees_in table.old in
        IfOk result (λ ms. ms.items
        ≡ still_marked (closes_at sorts reach (due_in sorts trees due.now)) 0 marks.now) }
    ensures widens { ExtendsTable table.old table.new }
{
    let mut list = Vec::new(alloc);
    for mark in marks {
        let at = list.as_slice().len() as u64;
        let holds = stays(alloc, table, node, due, at, mark.holds, reach)?;
        list.push(Marked {
            number: mark.number,
            holds,
        })?;
    }
    Ok(list)
}
