// A table of terms with a branch of facts over it.
ghost use Rattle.std.specs.Prelude.{◌≡◌, ◌<◌, [], ◌∷◌, length, IfOk, OnOk};
ghost use Rattle.std.specs.Bool.{OnTrue};
ghost use Rattle.sm_syntax.specs.text.Parts.{sort_of};
ghost use Rattle.sm_syntax.specs.trees.Programs.{declared_of};
ghost use Rattle.sm_term.specs.Sorted.{IsDeclaredIn};
ghost use Rattle.sm_term.specs.Tables.{trees_in, sorts_in, codes_in, IsTermWithin};
ghost use Rattle.calls.specs.Scenes.{Continues};

use crate::refusal::Refusal;
use crate::summary::is_well_sorted;
use sm_syntax::{Block, Decls, Name, Outputs, Sort, copy_decls};
use sm_term::{Term, TermId, TermTable, Terms};
use sm_theory::Branch;
use std::alloc::{AllocError, Global};

/// The declared names, a table over them, and a branch whose facts are over its terms.
pub struct Scene {
    pub decls: Decls,
    pub table: TermTable,
    pub branch: Branch,
    ghost declared: { sorts_in table ≡ sort_of (declared_of decls) },
}

// One call ends a value, and not one for each field: proofs of what has it stay small.
impl Drop for Scene {
    fn drop(self) {
        let Self {
            decls: _,
            table: _,
            branch: _,
        } = self;
    }
}

impl Scene {
    /// No terms and no facts.
    pub fn new(alloc: Global, decls: Decls) -> Result<Scene, AllocError> {
        let table = TermTable::new(alloc, &decls)?;
        let branch = Branch {
            list: Vec::new(alloc),
        };
        Ok(Scene {
            decls,
            table,
            branch,
        })
    }

    /// A scene with a copy of the table, and no facts.
    pub fn copied(&self, alloc: Global) -> Result<Scene, AllocError>
        ensures { IfOk result (λ s. Continues self.now.table s.table) }
    {
        Ok(Scene {
            decls: copy_decls(alloc, &self.decls)?,
            table: self.table.copy(alloc)?,
            branch: Branch {
                list: Vec::new(alloc),
            },
        })
    }

    /// Puts a term into the table, where its parts are there and its name is declared.
    pub fn intern(&mut self, t: Term) -> Result<TermId, Refusal>
        ensures { OnOk result (Continues self.old.table self.new.table) }
    {
        if !self.is_within(&t) {
            return Err(Refusal::Bad);
        }
        Ok(self.table.intern(t)?)
    }

    /// Puts the value of a name after a block into the table, from terms at two names.
    pub fn intern_summary(
        &mut self,
        alloc: Global,
        block: &Block,
        name: Name,
        first: (Name, TermId),
        second: (Name, TermId),
    ) -> Result<TermId, Refusal>
        ensures { OnOk result (Continues self.old.table self.new.table) }
    {
        if !is_well_sorted(alloc, &self.decls, block)? || !self.declares(name) {
            return Err(Refusal::Bad);
        }
        if !self.declares(first.0) || !self.declares(second.0) {
            return Err(Refusal::Bad);
        }
        if !self.has(first.1) || !self.has(second.1) {
            return Err(Refusal::Bad);
        }
        let body = self.table.body(block)?;
        let from = Outputs {
            list: two(alloc, first.0, second.0)?,
        };
        let args = Terms {
            list: two(alloc, first.1, second.1)?,
        };
        let term = Term::Fun {
            body,
            name,
            from,
            args,
        };
        Ok(self.table.intern(term)?)
    }

    // Whether a term's parts are in the table and its name is declared.
    fn is_within(&self, t: &Term) -> bool
        ensures { OnTrue result (IsTermWithin (sorts_in self.now.table)
            (length (codes_in self.now.table)) (length (trees_in self.now.table)) t.now) }
    {
        match t {
            Term::Lit(_) => true,
            Term::Cell => true,
            Term::Start(name) => self.declares(*name),
            Term::Havoc { copy, name, .. } => *copy < 4 && self.declares(*name),
            Term::Slot { copy, name } => *copy < 4 && self.declares(*name),
            Term::Read(a, i) => self.has(*a) && self.has(*i),
            Term::Write(a, i, e) => self.has(*a) && self.has(*i) && self.has(*e),
            Term::Neg(t) => self.has(*t),
            Term::Add(t, u) => self.has(*t) && self.has(*u),
            Term::Sub(t, u) => self.has(*t) && self.has(*u),
            Term::Mul(t, u) => self.has(*t) && self.has(*u),
            Term::Fun { .. } => false,
        }
    }

    /// Whether a name is declared.
    pub fn declares(&self, name: Name) -> bool
        ensures { OnTrue result (IsDeclaredIn (sorts_in self.now.table) name.0) }
    {
        is_declared(&self.decls, name)
    }

    /// Whether a number is that of a term.
    pub fn has(&self, t: TermId) -> bool
        ensures { OnTrue result (t.0 < length (trees_in self.now.table)) }
    {
        t.0 < self.table.len()
    }

    /// Leaves the first terms, and no facts.
    pub fn cut(&mut self, len: u64) -> Result<(), Refusal> {
        if len > self.table.len() {
            return Err(Refusal::Bad);
        }
        self.branch.list.clear();
        self.table.cut(len);
        Ok(())
    }

    /// Puts a copy of the table in its place.
    pub fn copy_table(&mut self, alloc: Global) -> Result<(), AllocError> {
        let copy = self.table.copy(alloc)?;
        self.table = copy;
        Ok(())
    }
}

// A list of two.
fn two<T: Drop>(alloc: Global, first: T, second: T) -> Result<Vec<T>, AllocError>
    ensures { IfOk result (λ v. v.items ≡ first ∷ second ∷ []) }
{
    let mut list = Vec::with_capacity(alloc, 2)?;
    list.push(first)?;
    list.push(second)?;
    Ok(list)
}

// Whether a name is among declarations.
fn is_declared(decls: &Decls, name: Name) -> bool
    ensures { OnTrue result (IsDeclaredIn (sort_of (declared_of decls.now)) name.0) }
{
    for d in &decls.list {
        if d.0.0 == name.0 {
            return true;
        }
    }
    false
}

/// Names by their sorts, `n` for a number and `a` for an array.
pub fn read_names(alloc: Global, words: &str) -> Result<Decls, Refusal> {
    let mut list = Vec::new(alloc);
    let mut number = 0u32;
    for word in words.split_whitespace() {
        list.push((Name(number), sort(word)?))?;
        number = number.saturating_add(1);
    }
    Ok(Decls { list })
}

// A sort by its letter.
fn sort(word: &str) -> Result<Sort, Refusal> {
    match word {
        "n" => Ok(Sort::Num),
        "a" => Ok(Sort::Arr),
        _ => Err(Refusal::Bad),
    }
}
