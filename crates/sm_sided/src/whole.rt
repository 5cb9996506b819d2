// The plan of one-sided programs, with its certificates.
ghost use Rattle.std.specs.Prelude.{◌≡◌, ◌+◌, ◌<◌, ◌^◌, ◌++◌, List, map, length, option_map, true, Ok, IfOk, IfSome, OnOk, OnErr};
ghost use Rattle.std.specs.List.{AllByRecursion};
ghost use Rattle.sm_syntax.specs.claim.ConflictFree.{Copy, Task};
ghost use Rattle.sm_syntax.specs.text.Parts.{sort_of, sorted_outputs};
ghost use Rattle.sm_syntax.specs.text.Sorts.{Sorts, IsWellSorted, IsWellSortedCondition};
ghost use Rattle.sm_syntax.specs.trees.Copies.{of_copy};
ghost use Rattle.sm_syntax.specs.trees.Programs.{declared_of, outputs_of};
ghost use Rattle.sm_syntax.specs.trees.Views.{condition_of, code_of};
ghost use Rattle.sm_term.specs.Tables.{trees_in, sorts_in};
ghost use Rattle.sm_term.specs.TableLaws.{ExtendsTable};
ghost use Rattle.sm_term.specs.Terms.{Tree};
ghost use Rattle.sm_cert.specs.Views.{certificate_in};
ghost use Rattle.sm_plan.specs.Plans as plain;
ghost use Rattle.sm_plan.specs.Plans.{obligations, nodes_of};
ghost use Rattle.sm_plan.specs.SortedStates.{AreOutputsDeclared};
ghost use Rattle.sm_plan.specs.Starts.{AreNumbered};
ghost use Rattle.sm_expand.specs.NumberedPlans.{IsPlanReady};
ghost use Rattle.sm_expand.specs.Tasks.{HasParts};
ghost use Rattle.sm_expand.specs.Views.{numbered_plan, plan_in, dues_in};
ghost use Rattle.sm_sided.specs.OneSided.{IsOneSided};
ghost use Rattle.sm_sided.specs.WholeCertificates.{certificates_of, whole_certificates, AreWhole, NamesNoTerm};
ghost use Rattle.sm_sided.specs.WholeNodes.{summary_nodes};
ghost use Rattle.sm_sided.specs.WholePlan.{whole_plan, facts_before, IsShown, KeepsNone};

use crate::part_trees::{clash_tree, part_tree, turned_tree};
use crate::sided::{Change, only_change};
use sm_cert::CertTree;
use sm_expand::{Due, Last, Plan, Simple, Simples, expand};
use sm_syntax::{Block, Cond, Decls, Outputs, PerCopy};
use sm_term::TermTable;
use std::alloc::{AllocError, Global};

/// The certificates of goals, in order.
#[derive(Drop)]
pub struct CertTrees {
    pub list: Vec<CertTree>,
}

// All statements of a copy are done by their summary, where it has any.
fn add_summary(straight: &mut Vec<Simple>, copy: u8, body: &Block) -> Result<(), AllocError>
    ensures { OnOk result (straight.new.items
        ≡ straight.old.items ++ summary_nodes copy (code_of body.now)) }
{
    if body.list.is_empty() {
        return Ok(());
    }
    straight.push(Simple::Abs {
        copy,
        count: body.list.len() as u64,
    })?;
    Ok(())
}

// The plan: the summaries of all copies, and then the end.
fn plan_of(alloc: Global, programs: &PerCopy<Block>) -> Result<Plan, AllocError>
    ensures plan { (sorts : Sorts) (trees : List Tree) →
        let program = λ (c : Copy). code_of (of_copy programs.now c) in
        IfOk result (λ p. plan_in sorts trees p ≡ whole_plan program) }
    ensures ready { (sorts : Sorts) (trees : List Tree) →
        IfOk result (λ p. IsPlanReady sorts trees (numbered_plan p)) }
{
    let mut list = Vec::new(alloc);
    add_summary(&mut list, 0, &programs.base)?;
    add_summary(&mut list, 1, &programs.variant_a)?;
    add_summary(&mut list, 2, &programs.variant_b)?;
    add_summary(&mut list, 3, &programs.candidate)?;
    Ok(Plan {
        straight: Simples { list },
        last: Last::End,
    })
}

// How many facts stand before the first goal, 0 where there is none.
fn first_count(dues: &[Due]) -> u64
    ensures { (sorts : Sorts) (trees : List Tree) →
        result ≡ facts_before (dues_in sorts trees dues.now) }
{
    match dues.first() {
        Some(due) => due.facts.list.len() as u64,
        None => 0,
    }
}

// Whether there are fewer facts than any memory holds.
fn are_few(count: u64) -> bool
    ensures { result ≡ true → count < 2 ^ 62 }
{
    count < 4_611_686_018_427_387_904
}

// How many facts stand before the goals of a plan that has obligations.
fn count_facts(
    alloc: Global,
    table: &mut TermTable,
    decls: &Decls,
    outputs: &Outputs,
    assumed: Option<&Cond>,
    programs: &PerCopy<Block>,
    plan: &Plan,
) -> Result<u64, AllocError>
    requires declared { sorts_in table.old ≡ sort_of (declared_of decls.now) }
    requires numbered { AreNumbered (declared_of decls.now) }
    requires outputs { let declared = declared_of decls.now in
        AreOutputsDeclared (sort_of declared) (sorted_outputs declared (outputs_of outputs.now)) }
    requires assumed { let sorts = sorts_in table.old in
        IfSome assumed (λ b. IsWellSortedCondition sorts (condition_of b.now)) }
    requires programs { (c : Copy) →
        IsWellSorted (sorts_in table.old) (code_of (of_copy programs.now c)) }
    requires plan { IsPlanReady (sorts_in table.old) (trees_in table.old) (numbered_plan plan.now) }
    ensures count { let p = plan_in (sorts_in table.old) (trees_in table.old) plan.now in
        let all = sorted_outputs (declared_of decls.now) (outputs_of outputs.now) in
        let b = option_map (λ b. condition_of b.now) assumed.entry in
        (t : Task) → HasParts t b all (λ c. code_of (of_copy programs.now c)) →
        (dues : List plain.Due) → obligations t p ≡ Ok dues →
        IfOk result (λ n. n ≡ facts_before dues) }
    ensures few { IfOk result (λ n. n < 2 ^ 62) }
    ensures widens { ExtendsTable table.old table.new }
{
    let all = match expand(alloc, table, decls, outputs, assumed, programs, plan) {
        Ok(all) => all,
        Err(_) => return Err(AllocError),
    };
    let count = first_count(all.list.as_slice());
    if !are_few(count) {
        return Err(AllocError);
    }
    Ok(count)
}

// The certificates of the three goals of an output.
fn add_trees(
    alloc: Global,
    trees: &mut Vec<CertTree>,
    change: Change,
    n: u64,
) -> Result<(), AllocError>
    requires { n < 2 ^ 62 }
    ensures { (ts : List Tree) → OnOk result (map (certificate_in ts) trees.new.items
        ≡ map (certificate_in ts) trees.old.items ++ certificates_of change n) }
{
    match change {
        Change::OfA => {
            trees.push(part_tree(alloc, n, 2)?)?;
            trees.push(part_tree(alloc, n, 1)?)?;
            trees.push(clash_tree(alloc, n)?)?;
            Ok(())
        }
        Change::OfB => {
            trees.push(part_tree(alloc, n, 1)?)?;
            trees.push(part_tree(alloc, n, 2)?)?;
            trees.push(turned_tree(alloc, n, n + 3)?)?;
            Ok(())
        }
        Change::OfBoth => {
            trees.push(part_tree(alloc, n, 2)?)?;
            trees.push(part_tree(alloc, n, 2)?)?;
            trees.push(turned_tree(alloc, n, n + 1)?)?;
            Ok(())
        }
    }
}

// Those of the goals of all outputs.
fn trees_of(
    alloc: Global,
    outputs: &Outputs,
    change: Change,
    n: u64,
) -> Result<CertTrees, AllocError>
    requires { n < 2 ^ 62 }
    ensures { (ts : List Tree) → IfOk result (λ cs. map (certificate_in ts) cs.list.items
        ≡ whole_certificates change n (length outputs.now.list.items)) }
{
    let mut list = Vec::new(alloc);
    for _output in &outputs.list {
        add_trees(alloc, &mut list, change, n)?;
    }
    Ok(CertTrees { list })
}

/// The plan of one-sided programs, in which each copy does all its statements by their summary,
/// with a certificate for each goal. After an error the table has the terms that it had.
pub fn whole_plan(
    alloc: Global,
    table: &mut TermTable,
    decls: &Decls,
    outputs: &Outputs,
    assumed: Option<&Cond>,
    programs: &PerCopy<Block>,
) -> Result<(Plan, CertTrees), AllocError>
    requires declared { sorts_in table.old ≡ sort_of (declared_of decls.now) }
    requires numbered { AreNumbered (declared_of decls.now) }
    requires outputs { let declared = declared_of decls.now in
        AreOutputsDeclared (sort_of declared) (sorted_outputs declared (outputs_of outputs.now)) }
    requires assumed { let sorts = sorts_in table.old in
        IfSome assumed (λ b. IsWellSortedCondition sorts (condition_of b.now)) }
    requires programs { (c : Copy) →
        IsWellSorted (sorts_in table.old) (code_of (of_copy programs.now c)) }
    requires sided { IsOneSided (λ c. code_of (of_copy programs.now c)) }
    ensures plan { (sorts : Sorts) (trees : List Tree) →
        let program = λ (c : Copy). code_of (of_copy programs.now c) in
        IfOk result (λ r. plan_in sorts trees r.0 ≡ whole_plan program) }

    // The plan expands, and the certificates show its goals in order.
    ensures shown { let program = λ (c : Copy). code_of (of_copy programs.now c) in
        let all = sorted_outputs (declared_of decls.now) (outputs_of outputs.now) in
        let b = option_map (λ b. condition_of b.now) assumed.entry in
        (t : Task) → HasParts t b all program → (sorts : Sorts) (trees : List Tree) →
        IfOk result (λ r. IsShown sorts t (plan_in sorts trees r.0)
        (map (certificate_in trees) r.1.list.items)) }

    // No node keeps a formula, and no line names a term.
    ensures kept { (sorts : Sorts) (trees : List Tree) →
        IfOk result (λ r. AllByRecursion KeepsNone (nodes_of (plan_in sorts trees r.0))) }
    ensures unnamed { (trees : List Tree) → IfOk result (λ r.
        AllByRecursion NamesNoTerm (map (certificate_in trees) r.1.list.items)) }

    // The numbers of facts are small.
    ensures few { (trees : List Tree) → IfOk result (λ r.
        AreWhole (length outputs.now.list.items) (map (certificate_in trees) r.1.list.items)) }

    // Each term keeps its number.
    ensures widens { ExtendsTable table.old table.new }
    ensures err { OnErr result (trees_in table.new ≡ trees_in table.old) }
{
    let len = table.len();
    match made_whole_plan(alloc, table, decls, outputs, assumed, programs) {
        Ok(made) => Ok(made),
        Err(refused) => {
            table.cut(len);
            Err(refused)
        }
    }
}

// The plan and the certificates. An error leaves the terms that were made.
fn made_whole_plan(
    alloc: Global,
    table: &mut TermTable,
    decls: &Decls,
    outputs: &Outputs,
    assumed: Option<&Cond>,
    programs: &PerCopy<Block>,
) -> Result<(Plan, CertTrees), AllocError>
    requires declared { sorts_in table.old ≡ sort_of (declared_of decls.now) }
    requires numbered { AreNumbered (declared_of decls.now) }
    requires outputs { let declared = declared_of decls.now in
        AreOutputsDeclared (sort_of declared) (sorted_outputs declared (outputs_of outputs.now)) }
    requires assumed { let sorts = sorts_in table.old in
        IfSome assumed (λ b. IsWellSortedCondition sorts (condition_of b.now)) }
    requires programs { (c : Copy) →
        IsWellSorted (sorts_in table.old) (code_of (of_copy programs.now c)) }
    requires sided { IsOneSided (λ c. code_of (of_copy programs.now c)) }
    ensures plan { (sorts : Sorts) (trees : List Tree) →
        let program = λ (c : Copy). code_of (of_copy programs.now c) in
        IfOk result (λ r. plan_in sorts trees r.0 ≡ whole_plan program) }

    // The plan expands, and the certificates show its goals in order.
    ensures shown { let program = λ (c : Copy). code_of (of_copy programs.now c) in
        let all = sorted_outputs (declared_of decls.now) (outputs_of outputs.now) in
        let b = option_map (λ b. condition_of b.now) assumed.entry in
        (t : Task) → HasParts t b all program → (sorts : Sorts) (trees : List Tree) →
        IfOk result (λ r. IsShown sorts t (plan_in sorts trees r.0)
        (map (certificate_in trees) r.1.list.items)) }

    // No node keeps a formula, and no line names a term.
    ensures kept { (sorts : Sorts) (trees : List Tree) →
        IfOk result (λ r. AllByRecursion KeepsNone (nodes_of (plan_in sorts trees r.0))) }
    ensures unnamed { (trees : List Tree) → IfOk result (λ r.
        AllByRecursion NamesNoTerm (map (certificate_in trees) r.1.list.items)) }

    // The numbers of facts are small.
    ensures few { (trees : List Tree) → IfOk result (λ r.
        AreWhole (length outputs.now.list.items) (map (certificate_in trees) r.1.list.items)) }

    // Each term keeps its number.
    ensures widens { ExtendsTable table.old table.new }
{
    let change = match only_change(programs) {
        Some(change) => change,
        None => unreachable!(),
    };
    let plan = plan_of(alloc, programs)?;
    let n = count_facts(alloc, table, decls, outputs, assumed, programs, &plan)?;
    let trees = trees_of(alloc, outputs, change, n)?;
    Ok((plan, trees))
}
