// What a line does to a branch: it adds facts, closes it, or splits it.
ghost use Rattle.std.specs.Prelude.{◌≡◌, ◌<◌, List, Option, length, take, IfOk, OnOk};
ghost use Rattle.sm_syntax.specs.text.Sorts.{Sorts};
ghost use Rattle.sm_term.specs.Terms.{Tree};
ghost use Rattle.sm_term.specs.Formulas.{numbered, assertion_in, IsFormulaWithin};
ghost use Rattle.sm_term.specs.Tables.{trees_in, sorts_in, tree_at};
ghost use Rattle.sm_theory.specs.Facts.{BranchFact};
ghost use Rattle.sm_theory.specs.Lines.{Both, Either, Cases, Order, Close, Clash};
ghost use Rattle.sm_theory.specs.SortedFacts.{AreFactsSorted};
ghost use Rattle.sm_theory.specs.Views.{line_in, IsLineWithin, FactStands, AllStand, StandsIf};
ghost use Rattle.sm_theory.specs.Ways.{ways_with, cannot_hold, is_absurd};
ghost use Rattle.sm_cert.specs.Certificates.{first_of_three};
ghost use Rattle.sm_cert.specs.Ways.{GoesOn, is_closed, SplitsInto};

use sm_num::is_contradiction;
use sm_syntax::Sort;
use sm_term::{Formula, TermId, TermTable, copy_formula};
use sm_theory::{
    Branch, CertLine, Fact, Theory, contrary_at, equation_at, fact_at, formula_at, same_term,
    says_unequal,
};
use std::alloc::{AllocError, Global};

// Puts the parts of conjunction n on the branch, if it is one.
fn add_both(alloc: Global, path: &mut Branch, n: u64) -> Result<bool, AllocError>
    ensures ways { (sorts : Sorts) (trees : List Tree) (facts : List BranchFact) (added : Option BranchFact) →
        AllStand sorts trees path.old.list.items facts → IfOk result (λ good.
        GoesOn sorts trees good path.new.list.items facts (ways_with sorts facts added (Both n))) }
    ensures kept { OnOk result (take (length path.old.list.items)
        path.new.list.items ≡ path.old.list.items) }
{
    let (f, g) = match formula_at(path, n) {
        Some(Formula::And(p, q)) => (copy_formula(alloc, p)?, copy_formula(alloc, q)?),
        _ => return Ok(false),
    };
    path.list.push(Fact::Form(f))?;
    path.list.push(Fact::Form(g))?;
    Ok(true)
}

// What the first of three theories adds that adds a fact.
fn added<E: Theory, L: Theory, R: Theory>(
    alloc: Global,
    euf: &E,
    lia: &L,
    rows: &R,
    table: &TermTable,
    path: &Branch,
    line: &CertLine,
) -> Result<Option<Fact>, AllocError>
    requires { IsLineWithin (length (trees_in table.now)) line.now }
    ensures { let trees = trees_in table.now in let sorts = sorts_in table.now in
        (facts : List BranchFact) → AllStand sorts trees path.now.list.items facts →
        AreFactsSorted sorts facts →
        IfOk result (λ o. StandsIf sorts trees o
        (first_of_three (E.adds euf.now) (L.adds lia.now) (R.adds rows.now) sorts facts
        (line_in trees line.now))) }
{
    if let Some(fact) = euf.check_line(alloc, table, path, line)? {
        return Ok(Some(fact));
    }
    if let Some(fact) = lia.check_line(alloc, table, path, line)? {
        return Ok(Some(fact));
    }
    rows.check_line(alloc, table, path, line)
}

/// Puts what a line adds on the branch, if the branch goes on in one way. After want of memory there
/// may be more facts behind.
pub fn add_line<E: Theory, L: Theory, R: Theory>(
    alloc: Global,
    euf: &E,
    lia: &L,
    rows: &R,
    table: &TermTable,
    path: &mut Branch,
    line: &CertLine,
) -> Result<bool, AllocError>
    requires { IsLineWithin (length (trees_in table.now)) line.now }
    ensures ways { let trees = trees_in table.now in let sorts = sorts_in table.now in
        let theories = first_of_three (E.adds euf.now) (L.adds lia.now) (R.adds rows.now) sorts in
        let l = line_in trees line.now in
        (facts : List BranchFact) → AllStand sorts trees path.old.list.items facts →
        AreFactsSorted sorts facts → IfOk result (λ good.
        GoesOn sorts trees good path.new.list.items facts
        (ways_with sorts facts (theories facts l) l)) }
    ensures kept { OnOk result (take (length path.old.list.items)
        path.new.list.items ≡ path.old.list.items) }
{
    match line {
        CertLine::Both(n) => add_both(alloc, path, *n),
        CertLine::Either(_) | CertLine::Cases(_, _) | CertLine::Order(_) => Ok(false),
        CertLine::Close(_) => Ok(false),
        CertLine::Clash(_, _) => Ok(false),
        _ => match added(alloc, euf, lia, rows, table, path, line)? {
            Some(fact) => {
                path.list.push(fact)?;
                Ok(true)
            }
            None => Ok(false),
        },
    }
}

/// Whether a line closes the branch.
pub fn closes(table: &TermTable, path: &Branch, line: &CertLine) -> bool
    ensures { let trees = trees_in table.now in let sorts = sorts_in table.now in
        (facts : List BranchFact) (added : Option BranchFact) →
        AllStand sorts trees path.now.list.items facts →
        result ≡ is_closed (ways_with sorts facts added (line_in trees line.now)) }
{
    match line {
        CertLine::Close(n) => closes_by(table, path, *n),
        CertLine::Clash(m, n) => clash(table, path, *m, *n),
        _ => false,
    }
}

// Whether fact n is there and can't hold.
#[tactic(auto, using(crate::proofs::WaysLemmas::closes_with, crate::proofs::WaysLemmas::closes_without))]
fn closes_by(table: &TermTable, path: &Branch, n: u64) -> bool
    ensures { let trees = trees_in table.now in let sorts = sorts_in table.now in
        (facts : List BranchFact) (added : Option BranchFact) →
        AllStand sorts trees path.now.list.items facts →
        result ≡ is_closed (ways_with sorts facts added (Close n)) }
{
    match fact_at(path, n) {
        Some(fact) => cannot_hold(table, fact),
        None => false,
    }
}

// Whether a fact can't hold.
#[tactic(auto, using(crate::proofs::WaysLemmas::form_cannot, crate::proofs::WaysLemmas::sum_cannot))]
fn cannot_hold(table: &TermTable, fact: &Fact) -> bool
    ensures { (as_facts : BranchFact) →
        FactStands (sorts_in table.now) (trees_in table.now) fact.now as_facts →
        result ≡ cannot_hold as_facts }
{
    // A table has no term twice, as its length ensures.
    table.len();
    match fact {
        Fact::Form(f) => is_absurd(table, f),
        Fact::Lin(f) => is_contradiction(f),
    }
}

// Whether a formula says that a term isn't equal to itself, or that nothing holds.
fn is_absurd(table: &TermTable, f: &Formula) -> bool
    ensures { let trees = trees_in table.now in let sorts = sorts_in table.now in
        IsFormulaWithin (length trees) (numbered f.now) →
        result ≡ is_absurd (assertion_in sorts trees (numbered f.now)) }
{
    match f {
        Formula::No => true,
        Formula::Ne(t, u) => same_term(table, *t, *u),
        Formula::Yes | Formula::Eq(_, _) | Formula::Le(_, _) | Formula::Lt(_, _) => false,
        Formula::And(_, _) | Formula::Or(_, _) => false,
    }
}

// Whether fact m is an equation and fact n its contrary, with the same sides.
#[tactic(auto, using(crate::proofs::WaysLemmas::clashes_with, crate::proofs::WaysLemmas::clashes_without))]
fn clash(table: &TermTable, path: &Branch, m: u64, n: u64) -> bool
    ensures { let trees = trees_in table.now in let sorts = sorts_in table.now in
        (facts : List BranchFact) (added : Option BranchFact) →
        AllStand sorts trees path.now.list.items facts →
        result ≡ is_closed (ways_with sorts facts added (Clash m n)) }
{
    match equation_at(path, m) {
        Some((t, u)) => says_unequal(table, path, n, t, u),
        None => false,
    }
}

/// The two facts by which a line splits the branch, none where it doesn't.
pub fn parts(
    alloc: Global,
    table: &TermTable,
    path: &Branch,
    line: &CertLine,
) -> Result<Option<(Fact, Fact)>, AllocError>
    requires { IsLineWithin (length (trees_in table.now)) line.now }
    ensures { let trees = trees_in table.now in let sorts = sorts_in table.now in
        (facts : List BranchFact) (added : Option BranchFact) →
        AllStand sorts trees path.now.list.items facts → IfOk result (λ o.
        SplitsInto sorts trees o (ways_with sorts facts added (line_in trees line.now))) }
{
    match line {
        CertLine::Either(n) => disjuncts(alloc, path, *n),
        CertLine::Cases(t, u) => Ok(cases(table, *t, *u)),
        CertLine::Order(n) => Ok(orders(table, path, *n)),
        _ => Ok(None),
    }
}

// The parts of disjunction n.
fn disjuncts(alloc: Global, path: &Branch, n: u64) -> Result<Option<(Fact, Fact)>, AllocError>
    ensures { (sorts : Sorts) (trees : List Tree) (facts : List BranchFact) (added : Option BranchFact) →
        AllStand sorts trees path.now.list.items facts → IfOk result (λ o.
        SplitsInto sorts trees o (ways_with sorts facts added (Either n))) }
{
    match formula_at(path, n) {
        Some(Formula::Or(p, q)) => {
            let f = Fact::Form(copy_formula(alloc, p)?);
            Ok(Some((f, Fact::Form(copy_formula(alloc, q)?))))
        }
        _ => Ok(None),
    }
}

// That two numbers are equal, and that they aren't.
fn cases(table: &TermTable, t: TermId, u: TermId) -> Option<(Fact, Fact)>
    requires left { t.0 < length (trees_in table.now) }
    requires right { u.0 < length (trees_in table.now) }
    ensures { let trees = trees_in table.now in let sorts = sorts_in table.now in
        (facts : List BranchFact) (added : Option BranchFact) →
        SplitsInto sorts trees result
        (ways_with sorts facts added (Cases (tree_at trees t.0) (tree_at trees u.0))) }
{
    if table.sort(t) == Sort::Num && table.sort(u) == Sort::Num {
        Some((Fact::Form(Formula::Eq(t, u)), Fact::Form(Formula::Ne(t, u))))
    } else {
        None
    }
}

// Of two numbers of which fact n says that they aren't equal, that the first is less, and that the
// second is.
fn orders(table: &TermTable, path: &Branch, n: u64) -> Option<(Fact, Fact)>
    ensures { let trees = trees_in table.now in let sorts = sorts_in table.now in
        (facts : List BranchFact) (added : Option BranchFact) →
        AllStand sorts trees path.now.list.items facts →
        SplitsInto sorts trees result (ways_with sorts facts added (Order n)) }
{
    match contrary_at(path, n) {
        Some((t, u)) => {
            if t.0 < table.len() && table.sort(t) == Sort::Num {
                Some((Fact::Form(Formula::Lt(t, u)), Fact::Form(Formula::Lt(u, t))))
            } else {
                None
            }
        }
        None => None,
    }
}
