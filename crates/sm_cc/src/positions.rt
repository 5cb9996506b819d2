// Where terms stand in a list, by their numbers.
ghost use Rattle.std.specs.Prelude.{◌≡◌, ◌<◌, ◌≤◌, ℕ, List, [], length, map, take, get_or, None, nat_eq, IfOk, OnOk};
ghost use Rattle.std.specs.HashMap.{get};
ghost use Rattle.sm_term.specs.Terms.{Tree};
ghost use Rattle.sm_term.specs.Tables.{trees_in, tree_at, AreBefore};
ghost use Rattle.sm_euf.specs.Arguments.{argument_numbers};
ghost use Rattle.sm_pairs.specs.Longer.{IsLonger};
ghost use Rattle.sm_cc.specs.Standing.{element_of};
ghost use Rattle.sm_cc.specs.Views.{trees_of};
ghost use Rattle.sm_cc.specs.Positions.{place_at, read_at, ArePositions, first_or, same_pair, is_read, written_element, AreNoted};

use crate::row::Element;
use sm_term::{Term, TermId, TermTable};
use std::alloc::{AllocError, Global};
use std::collections::HashMap;

/// The first places of the terms of a list, by their numbers.
pub(crate) struct Positions {
    // by the number of the term; a number past the end has none
    places: Vec<Option<u64>>,
    // the elements that are read, by the numbers of the array and of the index
    reads: HashMap<(u64, u64), u64>,
    // the place of every term that isn't in the list
    count: u64,
}

// One call ends a value, and not one for each field: proofs of what has it stay small.
impl Drop for Positions {
    fn drop(self) {
        let Self {
            places: _,
            reads: _,
            count: _,
        } = self;
    }
}

impl Positions {
    /// The places of terms of a table.
    pub(crate) fn of(
        alloc: Global,
        table: &TermTable,
        terms: &[TermId],
    ) -> Result<Positions, AllocError>
        requires { AreBefore (length (trees_in table.now)) terms.now }
        ensures { let trees = trees_in table.now in
            IfOk result (λ p. ArePositions trees (trees_of trees terms.now) p) }
    {
        let mut places = lengthened(alloc, &[], table.len())?;
        let mut reads = HashMap::new(alloc);
        note_behind(table, terms, 0, &mut places, &mut reads)?;
        Ok(Positions {
            places,
            reads,
            count: terms.len() as u64,
        })
    }

    /// The places of terms behind those of these positions, in a table that may have more terms.
    pub(crate) fn more(
        &self,
        alloc: Global,
        table: &TermTable,
        terms: &[TermId],
        from: u64,
    ) -> Result<Positions, AllocError>
        requires before { AreBefore (length (trees_in table.now)) terms.now }
        requires led { (trees : List Tree) × (first : List TermId)
            × ArePositions trees (trees_of trees first) self.now
            × AreBefore (length trees) first × IsLonger trees (trees_in table.now)
            × IsLonger first terms.now × (length first ≡ from) }
        ensures { let trees = trees_in table.now in
            IfOk result (λ p. ArePositions trees (trees_of trees terms.now) p) }
    {
        let mut places = lengthened(alloc, &self.places, table.len())?;
        let mut reads = copy_reads(&self.reads)?;
        note_behind(table, terms, from, &mut places, &mut reads)?;
        Ok(Positions {
            places,
            reads,
            count: terms.len() as u64,
        })
    }

    /// The places of no terms.
    pub(crate) fn none(alloc: Global) -> Positions
        ensures { (trees : List Tree) → ArePositions trees [] result }
    {
        Positions {
            places: Vec::new(alloc),
            reads: HashMap::new(alloc),
            count: 0,
        }
    }

    /// The place of a term.
    pub(crate) fn place(&self, t: TermId) -> u64
        ensures { result ≡ place_at self.now t.0 }
    {
        match self.places.get(t.0 as usize) {
            Some(Some(place)) => *place,
            Some(None) => self.count,
            None => self.count,
        }
    }

    // The place of the element of an array at an index.
    fn read(&self, a: TermId, i: TermId) -> u64
        ensures { result ≡ read_at self.now a.0 i.0 }
    {
        match self.reads.get(&(a.0, i.0)) {
            Some(place) => *place,
            None => self.count,
        }
    }

    /// The places of a term's arguments.
    pub(crate) fn arguments(&self, alloc: Global, t: &Term) -> Result<Vec<u64>, AllocError>
        ensures { IfOk result (λ v.
            v.items ≡ map (λ a. place_at self.now a.0) (argument_numbers t.now)) }
    {
        match t {
            Term::Neg(a) => self.list(alloc, &[*a]),
            Term::Read(a, b) => self.list(alloc, &[*a, *b]),
            Term::Add(a, b) => self.list(alloc, &[*a, *b]),
            Term::Sub(a, b) => self.list(alloc, &[*a, *b]),
            Term::Mul(a, b) => self.list(alloc, &[*a, *b]),
            Term::Write(a, b, e) => self.list(alloc, &[*a, *b, *e]),
            Term::Fun { args, .. } => self.list(alloc, &args.list),
            Term::Lit(_) | Term::Start(_) | Term::Cell => Ok(Vec::new(alloc)),
            Term::Havoc { .. } | Term::Slot { .. } => Ok(Vec::new(alloc)),
        }
    }

    // The places of some terms.
    fn list(&self, alloc: Global, terms: &[TermId]) -> Result<Vec<u64>, AllocError>
        ensures { IfOk result (λ v. v.items ≡ map (λ a. place_at self.now a.0) terms.now) }
    {
        let mut places = Vec::new(alloc);
        for t in terms {
            places.push(self.place(*t))?;
        }
        Ok(places)
    }

    /// What a term reads, where it is an element of an array to which one was written.
    pub(crate) fn element(&self, table: &TermTable, t: TermId) -> Option<Element>
        requires { t.0 < length (trees_in table.now) }
        ensures { let trees = trees_in table.now in (terms : List Tree) →
            ArePositions trees terms self.now → result ≡ element_of terms (tree_at trees t.0) }
    {
        match table.get(t) {
            Term::Read(a, i) => self.written(table, *a, *i),
            _ => None,
        }
    }

    // What is read there, of the array and the index that are read.
    fn written(&self, table: &TermTable, a: TermId, i: TermId) -> Option<Element>
        requires array { a.0 < length (trees_in table.now) }
        requires index { i.0 < length (trees_in table.now) }
        ensures { let trees = trees_in table.now in (terms : List Tree) →
            ArePositions trees terms self.now →
            result ≡ written_element terms (tree_at trees a.0) (tree_at trees i.0) }
    {
        match table.get(a) {
            Term::Write(before, index, element) => Some(Element {
                index: self.place(*index),
                written: self.place(*element),
                other: self.place(i),
                before: self.read(*before, i),
            }),
            _ => None,
        }
    }
}

// Places for the terms of a table of some length, where those of shorter tables are known.
fn lengthened(
    alloc: Global,
    places: &[Option<u64>],
    len: u64,
) -> Result<Vec<Option<u64>>, AllocError>
    ensures len { IfOk result (λ v. length v.items ≡ len) }
    ensures kept { IfOk result (λ v. (n : ℕ) → n < len →
        get_or v.items n None ≡ get_or places.now n None) }
{
    let mut list = Vec::with_capacity(alloc, len as usize)?;
    list.extend_from_slice(places)?;
    list.resize(len as usize, None)?;
    Ok(list)
}

// A copy of elements with their places.
fn copy_reads(reads: &HashMap<(u64, u64), u64>) -> Result<HashMap<(u64, u64), u64>, AllocError>
    ensures { IfOk result (λ m. (q : ℕ × ℕ) →
        get same_pair m q ≡ get same_pair reads.now q) }
{
    let copy = reads.clone()?;
    Ok(copy)
}

// Notes the places of the terms of a list from one on, where those before it are noted.
fn note_behind(
    table: &TermTable,
    terms: &[TermId],
    from: u64,
    places: &mut Vec<Option<u64>>,
    reads: &mut HashMap<(u64, u64), u64>,
) -> Result<(), AllocError>
    requires before { AreBefore (length (trees_in table.now)) terms.now }
    requires from { from ≤ length terms.now }
    requires len { length places.old.items ≡ length (trees_in table.now) }
    requires noted { let trees = trees_in table.now in
        AreNoted trees (trees_of trees (take from terms.now)) places.old.items
        (get same_pair reads.old) }
    ensures { let trees = trees_in table.now in
        OnOk result (AreNoted trees (trees_of trees terms.now) places.new.items
        (get same_pair reads.new)) }
{
    // A table has no term twice, as its length ensures.
    table.len();
    for i in from as usize..terms.len() {
        note_term(places, terms[i], i as u64);
        note_read(reads, table.get(terms[i]), i as u64)?;
    }
    Ok(())
}

// Notes the place of a term, unless one is known.
fn note_term(places: &mut Vec<Option<u64>>, t: TermId, place: u64)
    requires { t.0 < length places.old.items }
    ensures len { length places.new.items ≡ length places.old.items }
    ensures noted { (n : ℕ) → get_or places.new.items n None
        ≡ first_or (get_or places.old.items n None) (nat_eq t.0 n) place }
{
    let number = t.0 as usize;
    if places[number].is_none() {
        places[number] = Some(place);
    }
}

// Notes the place of a term that reads an element, unless one is known.
fn note_read(reads: &mut HashMap<(u64, u64), u64>, t: &Term, place: u64) -> Result<(), AllocError>
    ensures { OnOk result ((a i : ℕ) → get same_pair reads.new (a, i)
        ≡ first_or (get same_pair reads.old (a, i)) (is_read t.now a i) place) }
{
    if let Term::Read(a, i) = t {
        note_pair(reads, (a.0, i.0), place)?;
    }
    Ok(())
}

// Notes the place of the term that reads an element, unless one is known.
fn note_pair(
    reads: &mut HashMap<(u64, u64), u64>,
    pair: (u64, u64),
    place: u64,
) -> Result<(), AllocError>
    ensures { OnOk result ((a i : ℕ) → get same_pair reads.new (a, i)
        ≡ first_or (get same_pair reads.old (a, i)) (same_pair pair (a, i)) place) }
{
    if !reads.contains_key(&pair) {
        reads.insert(pair, place)?;
    }
    Ok(())
}
