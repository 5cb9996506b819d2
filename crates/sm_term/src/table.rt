// The table of terms, each by its number.
ghost use Rattle.std.specs.Prelude.{◌≡◌, ◌<◌, ◌≤◌, [], length, take, IsTrue, IfOk, nat_eq};
ghost use Rattle.std.specs.HashMap.{get};
ghost use Rattle.sm_syntax.specs.text.Parts.{sort_of};
ghost use Rattle.sm_syntax.specs.trees.Programs.{declared_of};
ghost use Rattle.sm_term.specs.Sorted.{sort_named, tree_sort};
ghost use Rattle.sm_term.specs.Tables.{trees_in, sorts_in, codes_in, tree_at, tree_in, IsTermWithin};
ghost use Rattle.sm_term.specs.TableLaws.{AreApart, AreTreesSorted, AreCodesApart, AreCodesSorted};
ghost use Rattle.sm_term.specs.Fitting.{term_fits};

use crate::body::Body;
use crate::term::{Term, TermId};
use sm_numbering::Numbering;
use sm_syntax::{Decls, Name, Sort, copy_decls};
use std::alloc::{AllocError, Global};
use std::collections::HashMap;
use std::marker::Model;

/// Terms without repeats, which know the sorts of names. A term's number is its place.
pub struct TermTable {
    pub(crate) decls: Decls,
    pub(crate) sorts: HashMap<u32, Sort>,
    pub(crate) bodies: Numbering<Body>,
    pub(crate) terms: Numbering<Term>,
}

// One call ends a value, and not one for each field: proofs of what has it stay small.
impl Drop for TermTable {
    fn drop(self) {
        let Self {
            decls: _,
            sorts: _,
            bodies: _,
            terms: _,
        } = self;
    }
}

impl Model for TermTable {
    ghost use Rattle.std.specs.Prelude.{◌≡◌, nat_eq, map};
    ghost use Rattle.std.specs.HashMap.{get};
    ghost use Rattle.sm_term.specs.Tables.{TableValue};

    ghost Value = { TableValue };

    ghost use Rattle.sm_syntax.specs.contracts.tree.Block as block;
    ghost use Rattle.std.specs.Coded.{codes};

    ghost coded = { Prim.hlevel (codes, block.the_row.coded) };

    ghost use Rattle.sm_syntax.specs.text.Parts.{sort_of};
    ghost use Rattle.sm_syntax.specs.trees.Programs.{declared_of};
    ghost use Rattle.sm_syntax.specs.trees.Views.{code_of};
    ghost use Rattle.sm_term.specs.Bodies.{block_of};
    ghost use Rattle.sm_term.specs.TableLaws.{IsTable};

    ghost view = { λ t. record {
      declared = declared_of t.decls;
      bodies = map block_of t.bodies;
      terms = t.terms;
    } };

    ghost invariant = { λ t.
        let sorts = sort_of (declared_of t.decls) in
        let codes = map code_of (map block_of t.bodies) in
        (get nat_eq t.sorts ≡ sorts) × IsTable sorts codes t.terms };
}

impl TermTable {
    /// A table of no terms over these declarations.
    pub fn new(alloc: Global, decls: &Decls) -> Result<TermTable, AllocError>
        ensures trees { IfOk result (λ t. trees_in t ≡ []) }
        ensures sorts { IfOk result (λ t. sorts_in t ≡ sort_of (declared_of decls.now)) }
        ensures codes { IfOk result (λ t. codes_in t ≡ []) }
    {
        let decls = copy_decls(alloc, decls)?;
        let sorts = sorts_of(alloc, &decls)?;
        Ok(TermTable {
            decls,
            sorts,
            bodies: Numbering::new(alloc),
            terms: Numbering::new(alloc),
        })
    }

    /// How many terms there are.
    pub fn len(&self) -> u64
        ensures len { result ≡ length (trees_in self.now) }

        // No tree is there twice, and each is well sorted. So is each body.
        ensures apart { AreApart (trees_in self.now) }
        ensures sorted { AreTreesSorted (sorts_in self.now) (trees_in self.now) }
        ensures codes_apart { AreCodesApart (codes_in self.now) }
        ensures codes_sorted { AreCodesSorted (sorts_in self.now) (codes_in self.now) }
    {
        self.terms.len() as u64
    }

    /// The term with a number.
    pub fn get(&self, t: TermId) -> &Term
        requires { t.0 < length (trees_in self.now) }
        ensures tree { let trees = trees_in self.now in
            tree_in (codes_in self.now) trees result.now ≡ tree_at trees t.0 }

        // Its parts stand before it.
        ensures before { let bodies = length (codes_in self.now) in
            IsTermWithin (sorts_in self.now) bodies t.0 result.now }
        ensures fits { IsTrue (term_fits (sorts_in self.now) (trees_in self.now) result.now) }
    {
        self.terms.get(t.0 as usize)
    }

    /// The sort of the term with a number.
    pub fn sort(&self, t: TermId) -> Sort
        requires { t.0 < length (trees_in self.now) }
        ensures { result ≡ tree_sort (sorts_in self.now) (tree_at (trees_in self.now) t.0) }
    {
        match self.get(t) {
            Term::Start(name) => self.sort_named(*name),
            Term::Havoc { name, .. } => self.sort_named(*name),
            Term::Slot { name, .. } => self.sort_named(*name),
            Term::Fun { name, .. } => self.sort_named(*name),
            Term::Write(_, _, _) => Sort::Arr,
            Term::Lit(_) | Term::Cell | Term::Read(_, _) | Term::Neg(_) => Sort::Num,
            Term::Add(_, _) | Term::Sub(_, _) | Term::Mul(_, _) => Sort::Num,
        }
    }

    /// The sort of a name; a name that isn't declared counts as a number.
    pub fn sort_named(&self, name: Name) -> Sort
        ensures { result ≡ sort_named (sorts_in self.now) name.0 }
    {
        match self.sorts.get(&name.0) {
            Some(sort) => *sort,
            None => Sort::Num,
        }
    }

    /// Leaves the first `len` terms, as the table was before later ones were put in.
    pub fn cut(&mut self, len: u64)
        requires { len ≤ length (trees_in self.old) }
        ensures trees { trees_in self.new ≡ take len (trees_in self.old) }
        ensures sorts { sorts_in self.new ≡ sorts_in self.old }
        ensures codes { codes_in self.new ≡ codes_in self.old }
    {
        self.terms.truncate(len as usize);
    }
}

// The sort of each declared name.
fn sorts_of(alloc: Global, decls: &Decls) -> Result<HashMap<u32, Sort>, AllocError>
    ensures { IfOk result (λ m. get nat_eq m ≡ sort_of (declared_of decls.now)) }
{
    let mut sorts = HashMap::new(alloc);
    for d in &decls.list {
        if !sorts.contains_key(&d.0.0) {
            sorts.insert(d.0.0, d.1)?;
        }
    }
    Ok(sorts)
}
