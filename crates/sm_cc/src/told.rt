// What the classes of equal terms tell.
ghost use Rattle.std.specs.Prelude.{◌≡◌, ◌↔◌, ◌<◌, ◌^◌, IsTrue, IfOk, length, map};
ghost use Rattle.sm_term.specs.Tables.{trees_in, sorts_in, tree_at, AreBefore};
ghost use Rattle.sm_theory.specs.Views.{line_in};
ghost use Rattle.sm_cc.specs.Classes.{Same, Apart};
ghost use Rattle.sm_cc.specs.Labels.{AreTermLabels};
ghost use Rattle.sm_cc.specs.LabelsAt.{label_at};
ghost use Rattle.sm_cc.specs.Positions.{place_at};
ghost use Rattle.sm_cc.specs.Views.{setting_of, equation_of, numbers_of};
ghost use Rattle.sm_cc.specs.Explained.{Explain, AreLinesOf};

use crate::classes::Classes;
use crate::lines::lines;
use crate::positions::Positions;
use sm_term::TermId;
use sm_theory::CertLine;
use std::alloc::{AllocError, Global};

impl<'a> Classes<'a> {
    /// Whether two terms are in one class.
    pub fn same(&self, t: TermId, u: TermId) -> bool
        requires left { t.0 < length (trees_in self.now.table) }
        requires right { u.0 < length (trees_in self.now.table) }
        ensures { let trees = trees_in self.now.table in
            IsTrue result ↔ Same (setting_of self.now) (tree_at trees t.0) (tree_at trees u.0) }
    {
        self.places
            .same(self.positions.place(t), self.positions.place(u))
    }

    /// A label for each term of the list: two terms have one exactly where they are in one class.
    pub fn labels(&self, alloc: Global) -> Result<Vec<u64>, AllocError>
        requires { AreBefore (length (trees_in self.now.table)) self.now.terms }
        ensures { IfOk result (λ v. AreTermLabels self.now v.items) }
    {
        let labels = self.places.labels(alloc)?;
        labels_of(alloc, &labels, &self.positions, self.terms)
    }

    /// Whether two terms are known apart.
    pub fn apart(&self, t: TermId, u: TermId) -> bool
        requires left { t.0 < length (trees_in self.now.table) }
        requires right { u.0 < length (trees_in self.now.table) }
        ensures { let trees = trees_in self.now.table in
            IsTrue result ↔ Apart (setting_of self.now) (tree_at trees t.0) (tree_at trees u.0) }
    {
        self.places
            .apart(self.positions.place(t), self.positions.place(u))
    }

    /// Lines that explain why two terms of a class are equal. On each branch of `start` facts that
    /// has the given ones under their numbers they add facts, the last of which is the equation. Each
    /// adds an equation or its contrary, and the terms that it names are in the list.
    pub fn explain(
        &self,
        alloc: Global,
        t: TermId,
        u: TermId,
        start: u64,
    ) -> Result<Vec<CertLine>, AllocError>
        requires left { t.0 < length (trees_in self.now.table) }
        requires right { u.0 < length (trees_in self.now.table) }
        requires same { let trees = trees_in self.now.table in
            Same (setting_of self.now) (tree_at trees t.0) (tree_at trees u.0) }
        requires small { start < 2 ^ 63 }
        ensures named { IfOk result (λ v. AreLinesOf self.now.terms v.items) }
        ensures lines { IfOk result (λ v.
            Explain (sorts_in self.now.table) (numbers_of self.now) (setting_of self.now).given start
            (map (line_in (trees_in self.now.table)) v.items) (equation_of self.now.table t u)) }
    {
        // Each term of a table is well sorted, as its length ensures.
        self.table.len();
        let i = self.positions.place(t);
        let j = self.positions.place(u);
        let steps = self.places.explain(alloc, i, j, start)?;
        let lines = lines(alloc, self.terms, &steps)?;
        Ok(lines)
    }
}

// The label at a place.
fn label_at(labels: &[u64], place: u64) -> u64
    ensures { result ≡ label_at labels.now place }
{
    match labels.get(place as usize) {
        Some(label) => *label,
        None => place,
    }
}

/// The labels of terms, by those of their places.
pub(crate) fn labels_of(
    alloc: Global,
    labels: &[u64],
    positions: &Positions,
    terms: &[TermId],
) -> Result<Vec<u64>, AllocError>
    ensures { IfOk result (λ v.
        v.items ≡ map (λ t. label_at labels.now (place_at positions.now t.0)) terms.now) }
{
    let mut list = Vec::with_capacity(alloc, terms.len())?;
    for t in terms {
        list.push(label_at(labels, positions.place(*t)))?;
    }
    Ok(list)
}
