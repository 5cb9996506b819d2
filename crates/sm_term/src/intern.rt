// Putting terms and bodies into a table.
ghost use Rattle.std.specs.Prelude.{◌≡◌, ◌≢◌, ◌<◌, length, true, false, Some, slice_get, IsTrue, IfOk, IfErr, OnOk, OnErr};
ghost use Rattle.sm_syntax.specs.text.Sorts.{IsWellSorted};
ghost use Rattle.sm_syntax.specs.trees.Views.{code_of};
ghost use Rattle.sm_term.specs.declared.body.Body.{Body};
ghost use Rattle.sm_term.specs.declared.term.Term.{Term};
ghost use Rattle.sm_term.specs.Bodies.{same_body};
ghost use Rattle.sm_term.specs.Rows.{same_term};
ghost use Rattle.sm_numbering.specs.Numbers.{with_value};
ghost use Rattle.sm_term.specs.Fitting.{has_sort, arguments_fit, term_fits};
ghost use Rattle.sm_term.specs.Tables.{trees_in, sorts_in, codes_in, tree_in, IsTermWithin, AreBefore};
ghost use Rattle.sm_term.specs.TableLaws.{with_tree, with_code, AddsTerms};
ghost use Rattle.sm_term.specs.Moves.{KeepsRows};

use crate::body::Body;
use crate::error::TermError;
use crate::table::TermTable;
use crate::term::{BodyId, Term, TermId};
use sm_numbering::Numbering;
use sm_syntax::{Block, Name, Sort};
use std::alloc::AllocError;

impl TermTable {
    /// The number of a body, the old one if it is there.
    pub fn body(&mut self, block: &Block) -> Result<BodyId, AllocError>
        requires { IsWellSorted (sorts_in self.old) (code_of block.now) }
        ensures codes { let codes = with_code (codes_in self.old) (code_of block.now) in
            OnOk result (codes_in self.new ≡ codes) }
        ensures stored { let code = code_of block.now in
            IfOk result (λ b. slice_get (codes_in self.new) b.0 ≡ Some code) }
        ensures sorts { sorts_in self.new ≡ sorts_in self.old }
        ensures trees { trees_in self.new ≡ trees_in self.old }
        ensures rows { KeepsRows self.old self.new }
        ensures err { OnErr result (self.new ≡ self.old) }
    {
        let body = Body::copied(self.bodies.allocator(), block)?;
        let index = number_of_body(&mut self.bodies, body)?;
        Ok(BodyId(index as u64))
    }

    /// The number of a term, the old one if it is there.
    pub fn intern(&mut self, t: Term) -> Result<TermId, TermError>
        requires { let n = length (trees_in self.old) in
            IsTermWithin (sorts_in self.old) (length (codes_in self.old)) n t }

        // It is there exactly where the sorts fit.
        ensures fits { let trees = trees_in self.old in
            IfOk result (λ _. IsTrue (term_fits (sorts_in self.old) trees t)) }
        ensures wrong_sort { let trees = trees_in self.old in IfErr result (λ e.
            e ≢ TermError.Memory → term_fits (sorts_in self.old) trees t ≡ false) }
        ensures memory { let trees = trees_in self.old in IfErr result (λ e.
            e ≢ TermError.WrongSort → IsTrue (term_fits (sorts_in self.old) trees t)) }

        // A new tree goes last.
        ensures trees { let tree = tree_in (codes_in self.old) (trees_in self.old) t in
            OnOk result (trees_in self.new ≡ with_tree (trees_in self.old) tree) }
        ensures stored { let tree = tree_in (codes_in self.old) (trees_in self.old) t in
            IfOk result (λ id. slice_get (trees_in self.new) id.0 ≡ Some tree) }
        ensures grows { AddsTerms self.old self.new }
        ensures err { OnErr result (self.new ≡ self.old) }
    {
        if !self.fits(&t) {
            return Err(TermError::WrongSort);
        }
        Ok(self.add(t)?)
    }

    // The number of a term that fits, the old one if it is there.
    pub(crate) fn add(&mut self, t: Term) -> Result<TermId, AllocError>
        requires within { let n = length (trees_in self.old) in
            IsTermWithin (sorts_in self.old) (length (codes_in self.old)) n t }
        requires fits { IsTrue (term_fits (sorts_in self.old) (trees_in self.old) t) }
        ensures trees { let tree = tree_in (codes_in self.old) (trees_in self.old) t in
            OnOk result (trees_in self.new ≡ with_tree (trees_in self.old) tree) }
        ensures stored { let tree = tree_in (codes_in self.old) (trees_in self.old) t in
            IfOk result (λ id. slice_get (trees_in self.new) id.0 ≡ Some tree) }
        ensures grows { AddsTerms self.old self.new }
        ensures rows { KeepsRows self.old self.new }
        ensures err { OnErr result (self.new ≡ self.old) }
    {
        let index = number_of_term(&mut self.terms, t)?;
        Ok(TermId(index as u64))
    }

    // Whether each argument of a term has the sort that the term needs there.
    fn fits(&self, t: &Term) -> bool
        requires { let n = length (trees_in self.now) in
            IsTermWithin (sorts_in self.now) (length (codes_in self.now)) n t.now }
        ensures { result ≡ term_fits (sorts_in self.now) (trees_in self.now) t.now }
    {
        match t {
            Term::Lit(_) | Term::Start(_) | Term::Cell => true,
            Term::Havoc { .. } | Term::Slot { .. } => true,
            Term::Read(a, i) => self.has_sort(*a, Sort::Arr) && self.has_sort(*i, Sort::Num),
            Term::Write(a, i, e) => {
                self.has_sort(*a, Sort::Arr)
                    && self.has_sort(*i, Sort::Num)
                    && self.has_sort(*e, Sort::Num)
            }
            Term::Neg(t) => self.has_sort(*t, Sort::Num),
            Term::Add(t, u) | Term::Sub(t, u) | Term::Mul(t, u) => {
                self.has_sort(*t, Sort::Num) && self.has_sort(*u, Sort::Num)
            }
            Term::Fun { from, args, .. } => self.arguments_fit(&from.list, &args.list),
        }
    }

    fn has_sort(&self, t: TermId, sort: Sort) -> bool
        requires { t.0 < length (trees_in self.now) }
        ensures { result ≡ has_sort (sorts_in self.now) (trees_in self.now) t sort }
    {
        self.sort(t) == sort
    }

    // Whether there are as many arguments as names, each of its name's sort.
    fn arguments_fit(&self, from: &[Name], args: &[TermId]) -> bool
        requires { AreBefore (length (trees_in self.now)) args.now }
        ensures { result ≡ arguments_fit (sorts_in self.now) (trees_in self.now) from.now args.now }
    {
        if from.len() != args.len() {
            return false;
        }
        for i in 0..from.len() {
            if !self.has_sort(args[i], self.sort_named(from[i])) {
                return false;
            }
        }
        true
    }
}

// The number of a body, which goes last where it isn't there.
fn number_of_body(bodies: &mut Numbering<Body>, body: Body) -> Result<usize, AllocError>
    ensures values { OnOk result (bodies.new ≡ with_value same_body bodies.old body) }
    ensures stored { IfOk result (λ n. (b : Body) × (slice_get bodies.new n ≡ Some b)
        × (same_body body b ≡ true)) }
    ensures err { OnErr result (bodies.new ≡ bodies.old) }
{
    match bodies.find(&body) {
        Some(index) => return Ok(index),
        None => {}
    }
    let key = Body::copied(bodies.allocator(), &body.block)?;
    let index = bodies.put(body, key)?;
    Ok(index)
}

// The number of a term, which goes last where it isn't there.
fn number_of_term(terms: &mut Numbering<Term>, term: Term) -> Result<usize, AllocError>
    ensures values { OnOk result (terms.new ≡ with_value same_term terms.old term) }
    ensures stored { IfOk result (λ n. (t : Term) × (slice_get terms.new n ≡ Some t)
        × (same_term term t ≡ true)) }
    ensures err { OnErr result (terms.new ≡ terms.old) }
{
    match terms.find(&term) {
        Some(index) => return Ok(index),
        None => {}
    }
    let key = term.copied(terms.allocator())?;
    let index = terms.put(term, key)?;
    Ok(index)
}
