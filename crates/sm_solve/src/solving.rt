// The answer to an obligation.
ghost use Rattle.std.specs.Prelude.{◌≡◌, ◌≤◌, ◌<◌, ℕ, List, [], ◌∷◌, ◌++◌, length, IfOk, OnErr};
ghost use Rattle.sm_syntax.specs.text.Sorts.{Sorts};
ghost use Rattle.sm_term.specs.Assertions.{Assertion, negate};
ghost use Rattle.sm_term.specs.Sorted.{IsFormSorted, AreFormsSorted};
ghost use Rattle.sm_term.specs.Tables.{trees_in, sorts_in};
ghost use Rattle.sm_term.specs.TableLaws.{AddsTerms};
ghost use Rattle.sm_term.specs.Terms.{Tree};
ghost use Rattle.sm_term.specs.Formulas.{numbered, assertion_in, IsFormulaWithin};
ghost use Rattle.sm_solve.specs.Answers.{Tells, Certifies, terms_walked, NamesOnly};
ghost use Rattle.sm_list.specs.Branches.{with_parts};
ghost use Rattle.sm_list.specs.Parts.{all_numbered, assertions_in, AreFormulasWithin};
ghost use Rattle.sm_list.specs.Renumbered.{AreTermsOf};
ghost use Rattle.sm_judge.specs.Forms.{Walked};
ghost use Rattle.sm_solve.specs.Naming.{AreNamed};
ghost use Rattle.sm_solve.specs.Walk.{walk, walk_from};
ghost use Rattle.sm_solve.specs.Walking.{TellsEnd, ShowsEnd, Shows};

use crate::branching::copy_facts;
use crate::ending::WalkEnd;
use crate::first::walk_alone;
use crate::reach::Reach;
use sm_cert::CertTree;
use sm_judge::linear_forms;
use sm_list::{add_parts, own_branch, renumbered, renumbered_tree};
use sm_num::Op;
use sm_term::{Formula, TermId, TermTable, Terms, negate};
use std::alloc::{AllocError, Global};

/// The facts of a branch that stays open.
#[derive(Drop)]
pub struct Leaf {
    pub list: Vec<Formula>,
}

/// What the walk of an obligation comes to.
#[derive(Drop)]
pub enum Answer {
    /// Each branch is closed; the certificate shows it.
    Closed(CertTree),
    /// The first branch that stays open.
    Open { leaf: Leaf },
    /// The steps don't suffice, or more than 1,000 splits stand above a branch.
    Steps,
    /// The first operation that leaves the range of linear forms.
    Coefficient { op: Op, a: i128, b: i128 },
}

/// Walks over the branches of the facts and the contrary of the target, and tells the first event.
/// With `exact` the forms of a branch that would stay open are decided exactly.
/// A certificate closes the branch of the facts and, last of them, the contrary. New terms go last
/// in the table; after want of memory it is as it was.
pub fn solve(
    alloc: Global,
    table: &mut TermTable,
    facts: &[Formula],
    target: &Formula,
    steps: u64,
    exact: bool,
) -> Result<Answer, AllocError>
    requires facts { AreFormulasWithin (length (trees_in table.old)) (all_numbered facts.now) }
    requires target { IsFormulaWithin (length (trees_in table.old)) (numbered target.now) }
    requires facts_sorted { AreFormsSorted (sorts_in table.old)
        (assertions_in (sorts_in table.old) (trees_in table.old) (all_numbered facts.now)) }
    requires target_sorted { IsFormSorted (sorts_in table.old)
        (assertion_in (sorts_in table.old) (trees_in table.old) (numbered target.now)) }
    ensures answer { let sorts = sorts_in table.old in let trees = trees_in table.old in
        let given = assertions_in sorts trees (all_numbered facts.now) in
        let goal = assertion_in sorts trees (numbered target.now) in
        IfOk result (λ a. Tells sorts (trees_in table.new) a (walk sorts
        (record { steps = steps; exact = exact }) given goal)) }
    ensures certifies { let sorts = sorts_in table.old in let trees = trees_in table.old in
        let given = assertions_in sorts trees (all_numbered facts.now) in
        let goal = assertion_in sorts trees (numbered target.now) in
        IfOk result (λ a. Certifies sorts (trees_in table.new) given goal a) }

    // The certificate names only terms of the walk.
    ensures names { let sorts = sorts_in table.old in let trees = trees_in table.old in
        let given = assertions_in sorts trees (all_numbered facts.now) in
        let goal = assertion_in sorts trees (numbered target.now) in
        IfOk result (NamesOnly (terms_walked given goal) (trees_in table.new)) }

    ensures grows { AddsTerms table.old table.new }
    ensures err { OnErr result (trees_in table.new ≡ trees_in table.old) }
{
    let len = table.len();
    match answered(alloc, table, facts, target, Reach { steps, exact }) {
        Ok(answer) => Ok(answer),
        Err(e) => {
            table.cut(len);
            Err(e)
        }
    }
}

// The answer to facts and a goal. An error leaves the terms that were made.
fn answered(
    alloc: Global,
    table: &mut TermTable,
    facts: &[Formula],
    target: &Formula,
    reach: Reach,
) -> Result<Answer, AllocError>
    requires facts { AreFormulasWithin (length (trees_in table.old)) (all_numbered facts.now) }
    requires target { IsFormulaWithin (length (trees_in table.old)) (numbered target.now) }
    requires facts_sorted { AreFormsSorted (sorts_in table.old)
        (assertions_in (sorts_in table.old) (trees_in table.old) (all_numbered facts.now)) }
    requires target_sorted { IsFormSorted (sorts_in table.old)
        (assertion_in (sorts_in table.old) (trees_in table.old) (numbered target.now)) }
    ensures answer { let sorts = sorts_in table.old in let trees = trees_in table.old in
        let given = assertions_in sorts trees (all_numbered facts.now) in
        let goal = assertion_in sorts trees (numbered target.now) in
        IfOk result (λ a. Tells sorts (trees_in table.new) a (walk sorts reach given goal)) }
    ensures certifies { let sorts = sorts_in table.old in let trees = trees_in table.old in
        let given = assertions_in sorts trees (all_numbered facts.now) in
        let goal = assertion_in sorts trees (numbered target.now) in
        IfOk result (λ a. Certifies sorts (trees_in table.new) given goal a) }
    ensures names { let sorts = sorts_in table.old in let trees = trees_in table.old in
        let given = assertions_in sorts trees (all_numbered facts.now) in
        let goal = assertion_in sorts trees (numbered target.now) in
        IfOk result (NamesOnly (terms_walked given goal) (trees_in table.new)) }
    ensures grows { AddsTerms table.old table.new }
{
    let all = given_facts(alloc, facts, target)?;
    let mut own = own_branch(alloc, table, &all)?;
    let end = walk_all(alloc, &own.table, reach, &mut own.facts)?;
    let answer = renumbered_end(alloc, end, &own.numbers)?;
    Ok(answer)
}

// Facts and the contrary of a target, with all parts of their conjunctions.
fn given_facts(
    alloc: Global,
    facts: &[Formula],
    target: &Formula,
) -> Result<Vec<Formula>, AllocError>
    ensures facts { (sorts : Sorts) (trees : List Tree) →
        let given = assertions_in sorts trees (all_numbered facts.now) in
        let goal = assertion_in sorts trees (numbered target.now) in
        IfOk result (λ v. assertions_in sorts trees (all_numbered v.items)
        ≡ with_parts (given ++ negate goal ∷ [])) }
    ensures within { (count : ℕ) → AreFormulasWithin count (all_numbered facts.now) →
        IsFormulaWithin count (numbered target.now) →
        IfOk result (λ v. AreFormulasWithin count (all_numbered v.items)) }
{
    let mut all = copy_facts(alloc, facts)?;
    all.push(negate(alloc, target)?)?;
    add_parts(alloc, &mut all, 0)?;
    Ok(all)
}

// Walks from the branch of these facts, which are given with all parts of their conjunctions. The
// certificate is of the branch of the facts that are given alone.
fn walk_all(
    alloc: Global,
    table: &TermTable,
    reach: Reach,
    facts: &mut Vec<Formula>,
) -> Result<WalkEnd, AllocError>
    requires within { let count = length (trees_in table.now) in
        AreFormulasWithin count (all_numbered facts.old.items) }
    requires sorted { AreFormsSorted (sorts_in table.now)
        (assertions_in (sorts_in table.now) (trees_in table.now) (all_numbered facts.old.items)) }
    requires named { let sorts = sorts_in table.now in let trees = trees_in table.now in
        AreNamed trees (assertions_in sorts trees (all_numbered facts.old.items)) }
    ensures tells { let sorts = sorts_in table.now in let trees = trees_in table.now in
        let all = assertions_in sorts trees (all_numbered facts.old.items) in
        IfOk result (λ e. TellsEnd sorts trees e (walk_from sorts trees reach 1001 0 all)) }
    ensures shows { let sorts = sorts_in table.now in let trees = trees_in table.now in
        (given : List Assertion) →
        assertions_in sorts trees (all_numbered facts.old.items) ≡ with_parts given →
        IfOk result (ShowsEnd sorts trees given 1001) }
{
    let forms = linear_forms(alloc, table)?;
    walk_alone(alloc, table, &forms, facts, reach)
}

// The end of a walk as an answer, under the numbers that its terms have in another table.
pub(crate) fn renumbered_end(
    alloc: Global,
    end: WalkEnd,
    numbers: &Terms,
) -> Result<Answer, AllocError>
    ensures tells { (sorts : Sorts) (trees others : List Tree) (w : Walked) →
        AreTermsOf others numbers.now.list.items trees → TellsEnd sorts trees end w →
        IfOk result (λ a. Tells sorts others a w) }
    ensures shows { (sorts : Sorts) (trees others : List Tree) (room : ℕ) (given : List Assertion) →
        AreTermsOf others numbers.now.list.items trees → ShowsEnd sorts trees given room end →
        IfOk result (λ a. Shows sorts others given room a) }
    ensures names { (sorts : Sorts) (trees others : List Tree) (room : ℕ) (given : List Assertion) →
        AreTermsOf others numbers.now.list.items trees → ShowsEnd sorts trees given room end →
        IfOk result (NamesOnly trees others) }
{
    match end {
        WalkEnd::Closed {
            count: _count,
            tree,
        } => {
            let other = renumbered_tree(alloc, &tree, &numbers.list)?;
            Ok(Answer::Closed(other))
        }
        WalkEnd::Open { leaf } => {
            let list = renumbered_facts(alloc, &leaf.list, &numbers.list)?;
            Ok(Answer::Open {
                leaf: Leaf { list },
            })
        }
        WalkEnd::Steps => Ok(Answer::Steps),
        WalkEnd::Coefficient { op, a, b } => Ok(Answer::Coefficient { op, a, b }),
    }
}

// Formulas under other numbers.
fn renumbered_facts(
    alloc: Global,
    facts: &[Formula],
    numbers: &[TermId],
) -> Result<Vec<Formula>, AllocError>
    ensures same { (sorts : Sorts) (trees others : List Tree) →
        AreTermsOf others numbers.now trees →
        AreFormulasWithin (length trees) (all_numbered facts.now) →
        IfOk result (λ v. assertions_in sorts others (all_numbered v.items)
        ≡ assertions_in sorts trees (all_numbered facts.now)) }
    ensures within { (trees others : List Tree) → AreTermsOf others numbers.now trees →
        AreFormulasWithin (length trees) (all_numbered facts.now) →
        IfOk result (λ v. AreFormulasWithin (length others) (all_numbered v.items)) }
{
    let mut list = Vec::new(alloc);
    for f in facts {
        list.push(renumbered(alloc, f, numbers)?)?;
    }
    Ok(list)
}
