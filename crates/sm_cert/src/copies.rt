// Branches copied.
ghost use Rattle.std.specs.Prelude.{List, IfOk};
ghost use Rattle.sm_syntax.specs.text.Sorts.{Sorts};
ghost use Rattle.sm_term.specs.Terms.{Tree};
ghost use Rattle.sm_theory.specs.Facts.{BranchFact};
ghost use Rattle.sm_theory.specs.Views.{FactStands, AllStand};

use sm_term::copy_formula;
use sm_theory::{Branch, Fact};
use std::alloc::{AllocError, Global};

// A copy of a branch.
pub(crate) fn copy_branch(alloc: Global, branch: &Branch) -> Result<Branch, AllocError>
    ensures { (sorts : Sorts) (trees : List Tree) (facts : List BranchFact) →
        AllStand sorts trees branch.now.list.items facts →
        IfOk result (λ b. AllStand sorts trees b.list.items facts) }
{
    let mut list = Vec::new(alloc);
    for fact in &branch.list {
        list.push(copy_fact(alloc, fact)?)?;
    }
    Ok(Branch { list })
}

// A copy of a fact.
fn copy_fact(alloc: Global, fact: &Fact) -> Result<Fact, AllocError>
    ensures { (sorts : Sorts) (trees : List Tree) (as_facts : BranchFact) →
        FactStands sorts trees fact.now as_facts →
        IfOk result (λ f. FactStands sorts trees f as_facts) }
{
    match fact {
        Fact::Form(f) => Ok(Fact::Form(copy_formula(alloc, f)?)),
        Fact::Lin(f) => Ok(Fact::Lin(f.copy(alloc)?)),
    }
}
