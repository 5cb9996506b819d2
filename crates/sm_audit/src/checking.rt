// Certificates that close the branches of goals, with lines that a proof file can have.
ghost use Rattle.std.specs.Bool.{OnTrue};
ghost use Rattle.std.specs.Prelude.{◌≡◌, ◌≤◌, ◌++◌, List, length, IfOk, OnOk};
ghost use Rattle.sm_syntax.specs.text.Sorts.{Sorts};
ghost use Rattle.sm_term.specs.Formulas.{numbered, assertion_in};
ghost use Rattle.sm_term.specs.Tables.{trees_in, sorts_in};
ghost use Rattle.sm_term.specs.Terms.{Tree};
ghost use Rattle.sm_theory.specs.Facts.{as_facts};
ghost use Rattle.sm_theory.specs.Views.{AllStand};
ghost use Rattle.sm_cert.specs.Certificates.{Closes};
ghost use Rattle.sm_cert.specs.Views.{certificate_in, lines_of, AreLinesWithin};
ghost use Rattle.sm_plan.specs.ReadyStates.{AreFormsReady, IsFormReady};
ghost use Rattle.sm_plan.specs.States.{State};
ghost use Rattle.sm_plan.specs.Views.{forms_in};
ghost use Rattle.sm_expand.specs.Views.{AreDuesReady, due_in, dues_in};
ghost use Rattle.sm_write.specs.Writable.{Goal, all_goals, denied, goals_of};
ghost use Rattle.sm_audit.specs.Fit.{AreGoalsFit, IsGoalFit, IsTreeFit};
ghost use Rattle.sm_audit.specs.Known.{AreLinesFit, IsLineFit, IsLineKnown};
ghost use Rattle.sm_audit.specs.Since.{AreSince};

use crate::entries::{are_known, is_known};
use crate::refusal::Refusal;
use sm_cert::{CertEnd, CertTree, check_tree};
use sm_euf::Euf;
use sm_exact::With;
use sm_expand::Due;
use sm_lia::Lia;
use sm_plan::Formulas;
use sm_rows::Rows;
use sm_term::{Formula, TermTable, copy_formula, negate};
use sm_theory::{Branch, CertLine, Fact};
use sm_write::is_short_line;
use std::alloc::{AllocError, Global};

// Whether each term that a line names can be named at a node.
fn is_line_known(since: &[Option<u64>], node: u64, line: &CertLine) -> bool
    ensures { OnTrue result (IsLineKnown since.now node line.now) }
{
    match line {
        CertLine::Refl(t) | CertLine::Hit(t, _) | CertLine::Elim(_, _, t) => {
            is_known(since, node, *t)
        }
        CertLine::Cases(t, u)
        | CertLine::Cong(t, u, _)
        | CertLine::Same(t, u)
        | CertLine::Apart(t, u)
        | CertLine::Miss(t, u, _) => are_known(since, node, *t, *u),
        _ => true,
    }
}

// Whether the line is also short.
fn is_line_fit(since: &[Option<u64>], node: u64, line: &CertLine) -> bool
    ensures { OnTrue result (IsLineFit since.now node line.now) }
{
    if !is_short_line(line) {
        return false;
    }
    is_line_known(since, node, line)
}

// Whether each of several lines is, and is short.
fn are_lines_fit(since: &[Option<u64>], node: u64, lines: &[CertLine]) -> bool
    ensures { OnTrue result (AreLinesFit since.now node lines.now) }
{
    for line in lines {
        if !is_line_fit(since, node, line) {
            return false;
        }
    }
    true
}

// Whether each line of a certificate is, and is short.
fn is_tree_fit(since: &[Option<u64>], node: u64, tree: &CertTree) -> bool
    ensures { OnTrue result (IsTreeFit since.now node tree.now) }
{
    if !are_lines_fit(since, node, tree.lines.list.as_slice()) {
        return false;
    }
    match &tree.last {
        CertEnd::Close(line) => is_line_fit(since, node, line),
        CertEnd::Split(line, first, second) => {
            if !is_line_fit(since, node, line) {
                return false;
            }
            if !is_tree_fit(since, node, first) {
                return false;
            }
            is_tree_fit(since, node, second)
        }
    }
}

// Formulas as facts.
fn facts_of(alloc: Global, forms: &Formulas) -> Result<Vec<Fact>, AllocError>
    ensures { (sorts : Sorts) (trees : List Tree) →
        AreFormsReady sorts trees forms.now.list.items → IfOk result (λ facts.
        AllStand sorts trees facts.items (as_facts (forms_in sorts trees forms.now.list.items))) }
{
    let mut list = Vec::new(alloc);
    for f in &forms.list {
        list.push(Fact::Form(copy_formula(alloc, f)?))?;
    }
    Ok(list)
}

// The branch of a goal.
fn branch_of(alloc: Global, facts: &Formulas, goal: &Formula) -> Result<Branch, AllocError>
    ensures { (sorts : Sorts) (trees : List Tree) →
        AreFormsReady sorts trees facts.now.list.items → IsFormReady sorts trees goal.now →
        IfOk result (λ b. AllStand sorts trees b.list.items
        (denied (forms_in sorts trees facts.now.list.items)
        (assertion_in sorts trees (numbered goal.now)))) }
{
    let mut list = facts_of(alloc, facts)?;
    list.push(Fact::Form(negate(alloc, goal)?))?;
    Ok(Branch { list })
}

// Checks a certificate on the branch of a goal.
fn check_branch(
    alloc: Global,
    table: &TermTable,
    facts: &Formulas,
    goal: &Formula,
    tree: &CertTree,
) -> Result<(), Refusal>
    requires facts { AreFormsReady (sorts_in table.now) (trees_in table.now) facts.now.list.items }
    requires goal { IsFormReady (sorts_in table.now) (trees_in table.now) goal.now }
    requires within { AreLinesWithin (length (trees_in table.now)) (lines_of tree.now) }
    ensures { let sorts = sorts_in table.now in let trees = trees_in table.now in
        OnOk result (Closes sorts (denied (forms_in sorts trees facts.now.list.items)
        (assertion_in sorts trees (numbered goal.now))) (certificate_in trees tree.now)) }
{
    let branch = branch_of(alloc, facts, goal)?;
    let (euf, arithmetic, rows) = (Euf::new(), With::new(Lia::new()), Rows::new());
    check_tree(alloc, &euf, &arithmetic, &rows, table, &branch, tree)?;
    Ok(())
}

// Checks a certificate for a goal that a node asks, and that a proof file can have its lines.
fn check_goal(
    alloc: Global,
    table: &TermTable,
    since: &[Option<u64>],
    due: &Due,
    goal: &Formula,
    tree: &CertTree,
) -> Result<(), Refusal>
    requires few { length since.now ≤ length (trees_in table.now) }
    requires facts { AreFormsReady (sorts_in table.now) (trees_in table.now)
        due.now.facts.list.items }
    requires goal { IsFormReady (sorts_in table.now) (trees_in table.now) goal.now }
    ensures { let sorts = sorts_in table.now in let trees = trees_in table.now in
        (states : List State) → AreSince sorts states trees since.now →
        OnOk result (IsGoalFit sorts states trees due.now.node
        (denied (forms_in sorts trees due.now.facts.list.items)
        (assertion_in sorts trees (numbered goal.now))) tree.now) }
{
    if !is_tree_fit(since, due.node, tree) {
        return Err(Refusal::Unfit);
    }
    check_branch(alloc, table, &due.facts, goal, tree)?;
    Ok(())
}

// Checks the first certificates for the goals that a node asks, and gives those that are left.
fn check_due<'c>(
    alloc: Global,
    table: &TermTable,
    since: &[Option<u64>],
    due: &Due,
    trees: &'c [CertTree],
) -> Result<&'c [CertTree], Refusal>
    requires few { length since.now ≤ length (trees_in table.now) }
    requires facts { AreFormsReady (sorts_in table.now) (trees_in table.now)
        due.now.facts.list.items }
    requires goals { AreFormsReady (sorts_in table.now) (trees_in table.now)
        due.now.targets.list.items }
    ensures { let sorts = sorts_in table.now in let terms = trees_in table.now in
        (states : List State) (gs : List Goal) → AreSince sorts states terms since.now →
        IfOk result (λ left. AreGoalsFit sorts states terms gs left.now →
        AreGoalsFit sorts states terms (goals_of (due_in sorts terms due.now) ++ gs) trees.now) }
{
    let mut left = trees;
    for goal in &due.targets.list {
        match left.split_first() {
            Some((tree, rest)) => {
                check_goal(alloc, table, since, due, goal, tree)?;
                left = rest;
            }
            None => return Err(Refusal::Unfit),
        }
    }
    Ok(left)
}

/// Checks certificates for all goals that a plan asks, in order, and that a proof file can have
/// their lines.
pub(crate) fn check_dues(
    alloc: Global,
    table: &TermTable,
    since: &[Option<u64>],
    dues: &[Due],
    trees: &[CertTree],
) -> Result<(), Refusal>
    requires { AreDuesReady (sorts_in table.now) (trees_in table.now) dues.now }
    ensures { let sorts = sorts_in table.now in let terms = trees_in table.now in
        (states : List State) → AreSince sorts states terms since.now → OnOk result
        (AreGoalsFit sorts states terms (all_goals (dues_in sorts terms dues.now)) trees.now) }
{
    if since.len() as u64 > table.len() {
        return Err(Refusal::Unfit);
    }
    let mut left = trees;
    for due in dues {
        left = check_due(alloc, table, since, due, left)?;
    }
    if left.is_empty() {
        Ok(())
    } else {
        Err(Refusal::Unfit)
    }
}
