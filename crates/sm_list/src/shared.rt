// The terms of a node's facts in a table of their own, behind which those of a goal go for a while.
ghost use Rattle.std.specs.Prelude.{◌≡◌, ℕ, ◌≤◌, List, [], ◌++◌, length, IfOk, OnOk, OnErr};
ghost use Rattle.sm_term.specs.Formulas.{numbered, assertion_in, IsFormulaWithin};
ghost use Rattle.sm_term.specs.Tables.{TableValue, trees_in, sorts_in, codes_in};
ghost use Rattle.sm_term.specs.TableLaws.{AddsTerms};
ghost use Rattle.sm_term.specs.Terms.{Tree};
ghost use Rattle.sm_theory.specs.TermsOfFormulas.{with_formula};
ghost use Rattle.sm_theory.specs.Views.{number_under};
ghost use Rattle.sm_list.specs.Branches.{terms_of};
ghost use Rattle.sm_terms.specs.Listing.{trees_at, AreBelow, IsClosed};
ghost use Rattle.sm_list.specs.Own.{AreBuilt, ArePlaced};
ghost use Rattle.sm_list.specs.Parts.{all_numbered, assertions_in, AreFormulasWithin};
ghost use Rattle.sm_list.specs.Shared.{AreShared, with_those_before};

use crate::own::put_term;
use crate::reads::list_reads;
use crate::renumber::{renumbered_formula, renumbered_formulas};
use crate::terms::list_terms;
use sm_numbering::Numbering;
use sm_term::{Formula, TermId, TermTable};
use sm_terms::list_formula;
use std::alloc::{AllocError, Global};

/// Terms of a table in a table of their own, where the number of each is its place in the list.
pub struct SharedTerms {
    /// Their own table.
    pub own: TermTable,
    /// The numbers that they have in the other table.
    pub listed: Numbering<u64>,
    /// For each number of the other table that of their own, where the term is there.
    pub numbers: Vec<TermId>,
}

// One call ends a value, and not one for each field: proofs of what has it stay small.
impl Drop for SharedTerms {
    fn drop(self) {
        let Self {
            own: _,
            listed: _,
            numbers: _,
        } = self;
    }
}

/// Facts over a table of their terms.
#[derive(Drop)]
pub struct SharedFacts {
    pub terms: SharedTerms,
    pub facts: Vec<Formula>,
}

/// Facts over a table of their terms. New terms go last in the table that the facts are over; after
/// want of memory it is as it was.
pub fn shared_facts(
    alloc: Global,
    table: &mut TermTable,
    facts: &[Formula],
) -> Result<SharedFacts, AllocError>
    requires { AreFormulasWithin (length (trees_in table.old)) (all_numbered facts.now) }
    ensures terms { let sorts = sorts_in table.old in let trees = trees_in table.old in
        let all = assertions_in sorts trees (all_numbered facts.now) in
        IfOk result (λ s. AreShared table.new (terms_of all) s.terms) }
    ensures facts { let sorts = sorts_in table.old in let trees = trees_in table.old in
        let all = assertions_in sorts trees (all_numbered facts.now) in
        IfOk result (λ s.
        assertions_in sorts (trees_in s.terms.own) (all_numbered s.facts.items) ≡ all) }
    ensures within { IfOk result (λ s.
        AreFormulasWithin (length (trees_in s.terms.own)) (all_numbered s.facts.items)) }
    ensures grows { AddsTerms table.old table.new }
    ensures err { OnErr result (trees_in table.new ≡ trees_in table.old) }
{
    let len = table.len();
    match listed_facts(alloc, table, facts) {
        Ok(shared) => Ok(shared),
        Err(e) => {
            table.cut(len);
            Err(e)
        }
    }
}

// The facts over the terms that goals share. An error leaves the terms that were made.
fn listed_facts(
    alloc: Global,
    table: &mut TermTable,
    facts: &[Formula],
) -> Result<SharedFacts, AllocError>
    requires { AreFormulasWithin (length (trees_in table.old)) (all_numbered facts.now) }
    ensures terms { let sorts = sorts_in table.old in let trees = trees_in table.old in
        let all = assertions_in sorts trees (all_numbered facts.now) in
        IfOk result (λ s. AreShared table.new (terms_of all) s.terms) }
    ensures facts { let sorts = sorts_in table.old in let trees = trees_in table.old in
        let all = assertions_in sorts trees (all_numbered facts.now) in
        IfOk result (λ s.
        assertions_in sorts (trees_in s.terms.own) (all_numbered s.facts.items) ≡ all) }
    ensures within { IfOk result (λ s.
        AreFormulasWithin (length (trees_in s.terms.own)) (all_numbered s.facts.items)) }
    ensures grows { AddsTerms table.old table.new }
{
    let mut terms = no_terms(alloc, table)?;
    list_terms(alloc, table, &mut terms.listed, facts)?;
    put_rest(
        alloc,
        table,
        terms.listed.as_slice(),
        &mut terms.own,
        &mut terms.numbers,
    )?;
    let facts = renumbered_formulas(alloc, facts, &terms.numbers)?;
    Ok(SharedFacts { terms, facts })
}

// No terms of a table yet, in a table of their own.
fn no_terms(alloc: Global, table: &TermTable) -> Result<SharedTerms, AllocError>
    ensures own { IfOk result (λ s. trees_in s.own ≡ []) }
    ensures sorts { IfOk result (λ s. sorts_in s.own ≡ sorts_in table.now) }
    ensures codes { IfOk result (λ s. codes_in s.own ≡ codes_in table.now) }
    ensures listed { IfOk result (λ s. s.listed ≡ []) }
    ensures numbers { IfOk result (λ s. s.numbers.items ≡ []) }
{
    let numbers = Vec::with_capacity(alloc, table.len() as usize)?;
    let own = table.copied_bodies(alloc)?;
    Ok(SharedTerms {
        own,
        listed: Numbering::new(alloc),
        numbers,
    })
}

// Puts terms of a table into another, which has the first of them.
fn put_rest(
    alloc: Global,
    table: &TermTable,
    terms: &[u64],
    own: &mut TermTable,
    numbers: &mut Vec<TermId>,
) -> Result<(), AllocError>
    requires below { AreBelow (length (trees_in table.now)) terms.now }
    requires built { AreBuilt [] (trees_at (trees_in table.now) terms.now) }
    requires first { (more : List Tree) ×
        (trees_at (trees_in table.now) terms.now ≡ trees_in own.old ++ more) }
    requires sorts { sorts_in own.old ≡ sorts_in table.now }
    requires codes { codes_in own.old ≡ codes_in table.now }
    requires count { length numbers.old.items ≤ length (trees_in table.now) }
    requires placed { ArePlaced (trees_in table.now) (trees_in own.old) numbers.old.items }
    ensures trees { let all = trees_at (trees_in table.now) terms.now in
        OnOk result (trees_in own.new ≡ all) }
    ensures sorts { OnOk result (sorts_in own.new ≡ sorts_in table.now) }
    ensures codes { OnOk result (codes_in own.new ≡ codes_in table.now) }
    ensures count { OnOk result (length numbers.new.items ≤ length (trees_in table.now)) }
    ensures placed { let trees = trees_in table.now in
        OnOk result (ArePlaced trees (trees_in own.new) numbers.new.items) }
{
    lengthen(numbers, table.len())?;
    let from = own.len() as usize;
    for k in from..terms.len() {
        put_term(alloc, table, TermId(terms[k]), own, numbers)?;
    }
    Ok(())
}

// Lengthens a list of numbers to so many. What is new has its own number.
fn lengthen(numbers: &mut Vec<TermId>, count: u64) -> Result<(), AllocError>
    requires { length numbers.old.items ≤ count }
    ensures count { OnOk result (length numbers.new.items ≡ count) }
    ensures same { (n : ℕ) →
        OnOk result (number_under numbers.new.items n ≡ number_under numbers.old.items n) }
{
    while (numbers.len() as u64) < count {
        let n = numbers.len() as u64;
        numbers.push(TermId(n))?;
    }
    Ok(())
}

impl SharedTerms {
    /// Puts the terms of a formula behind the others, and gives it over the table of their own. After
    /// want of memory the other table is as it was, and nothing is known of these.
    pub fn add(
        &mut self,
        alloc: Global,
        table: &mut TermTable,
        f: &Formula,
    ) -> Result<Formula, AllocError>
        requires within { IsFormulaWithin (length (trees_in table.old)) (numbered f.now) }
        requires shared { (terms : List Tree) × AreShared table.old terms self.old }
        ensures added { let form = assertion_in (sorts_in table.old) (trees_in table.old)
            (numbered f.now) in
            (terms : List Tree) → AreShared table.old terms self.old →
            OnOk result
            (AreShared table.new (with_those_before (with_formula form terms)) self.new) }
        ensures formula { let form = assertion_in (sorts_in table.old) (trees_in table.old)
            (numbered f.now) in
            IfOk result (λ g. assertion_in (sorts_in table.old) (trees_in self.new.own) (numbered g)
            ≡ form) }
        ensures inside { IfOk result (λ g.
            IsFormulaWithin (length (trees_in self.new.own)) (numbered g)) }
        ensures grows { AddsTerms table.old table.new }
        ensures err { OnErr result (trees_in table.new ≡ trees_in table.old) }
    {
        let len = table.len();
        match self.added(alloc, table, f) {
            Ok(g) => Ok(g),
            Err(e) => {
                table.cut(len);
                Err(e)
            }
        }
    }

    // Adds a goal's terms. An error leaves those that were made.
    fn added(
        &mut self,
        alloc: Global,
        table: &mut TermTable,
        f: &Formula,
    ) -> Result<Formula, AllocError>
        requires within { IsFormulaWithin (length (trees_in table.old)) (numbered f.now) }
        requires shared { (terms : List Tree) × AreShared table.old terms self.old }
        ensures added { let form = assertion_in (sorts_in table.old) (trees_in table.old)
            (numbered f.now) in
            (terms : List Tree) → AreShared table.old terms self.old →
            OnOk result
            (AreShared table.new (with_those_before (with_formula form terms)) self.new) }
        ensures formula { let form = assertion_in (sorts_in table.old) (trees_in table.old)
            (numbered f.now) in
            IfOk result (λ g. assertion_in (sorts_in table.old) (trees_in self.new.own) (numbered g)
            ≡ form) }
        ensures inside { IfOk result (λ g.
            IsFormulaWithin (length (trees_in self.new.own)) (numbered g)) }
        ensures grows { AddsTerms table.old table.new }
    {
        list_formula(alloc, table, &mut self.listed, f)?;
        list_reads(table, &mut self.listed)?;
        // No term is there twice.
        let _count = table.len();
        put_rest(
            alloc,
            table,
            self.listed.as_slice(),
            &mut self.own,
            &mut self.numbers,
        )?;
        let g = renumbered_formula(alloc, f, &self.numbers)?;
        Ok(g)
    }

    /// Cuts the terms from a place on.
    pub fn cut(&mut self, len: u64)
        requires { len ≤ length (trees_in self.old.own) }
        ensures { (table : TableValue) (terms more : List Tree) →
            AreShared table (terms ++ more) self.old → length terms ≡ len → IsClosed terms →
            AreShared table terms self.new }
    {
        self.own.cut(len);
        self.listed.truncate(len as usize);
    }
}
