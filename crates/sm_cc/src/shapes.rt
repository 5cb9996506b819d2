// The linear forms of numbers, with numbers for their parts.
ghost use Rattle.std.specs.Prelude.{◌≡◌, ◌<◌, ℕ, ℤ, [], length, IfOk, map, Some, slice_get};
ghost use Rattle.sm_term.specs.Tables.{trees_in, sorts_in, tree_at};
ghost use Rattle.sm_theory.specs.Standing.{AreLinearForms};
ghost use Rattle.sm_cc.specs.Numbered.{StandApart, IsShapeAt, parts_met};
ghost use Rattle.sm_pairs.specs.Longer.{IsLonger};

use crate::row::Shape;
use sm_num::LinForm;
use sm_numbering::Numbering;
use sm_syntax::Sort;
use sm_term::{TermId, TermTable};
use std::alloc::{AllocError, Global};

/// The parts of the forms that were met, each list once.
#[derive(Drop)]
pub(crate) struct Shapes {
    parts: Numbering<Vec<(u64, i128)>>,
}

impl Shapes {
    /// No forms.
    pub(crate) fn new(alloc: Global) -> Shapes
        ensures { result.parts ≡ [] }
    {
        Shapes {
            parts: Numbering::new(alloc),
        }
    }

    /// The form of a term, where it is a number, among those of all terms. Parts that weren't met
    /// before get a new number.
    pub(crate) fn shape(
        &mut self,
        alloc: Global,
        table: &TermTable,
        forms: &[LinForm],
        t: TermId,
    ) -> Result<Option<Shape>, AllocError>
        requires there { t.0 < length (trees_in table.now) }
        requires forms { AreLinearForms (trees_in table.now) forms.now }
        requires counted { length forms.now ≡ length (trees_in table.now) }
        ensures longer { IsLonger (parts_met self.old) (parts_met self.new) }
        ensures apart { StandApart (parts_met self.old) → StandApart (parts_met self.new) }
        ensures shape { let trees = trees_in table.now in
            IfOk result (λ o.
            IsShapeAt (sorts_in table.now) trees (parts_met self.new) (tree_at trees t.0) o) }
    {
        if table.sort(t) != Sort::Num {
            return Ok(None);
        }
        let form = &forms[t.0 as usize];
        let parts = self.number(alloc, form.parts())?;
        Ok(Some(Shape {
            parts,
            constant: form.constant(),
        }))
    }

    // The number of a list of parts.
    fn number(&mut self, alloc: Global, parts: &[(u64, i128)]) -> Result<u64, AllocError>
        ensures longer { IsLonger (parts_met self.old) (parts_met self.new) }
        ensures apart { StandApart (parts_met self.old) → StandApart (parts_met self.new) }
        ensures number { IfOk result (λ n. slice_get (parts_met self.new) n ≡ Some parts.now) }
    {
        let list = Vec::from_slice(alloc, parts)?;
        match self.parts.find(&list) {
            Some(number) => return Ok(number as u64),
            None => {}
        }
        let key = Vec::from_slice(alloc, parts)?;
        let number = self.parts.put(list, key)?;
        Ok(number as u64)
    }
}
