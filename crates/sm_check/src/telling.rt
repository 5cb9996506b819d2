// What the numbers of a line stand for in a proof on its way.
ghost use Rattle.std.specs.Prelude.{◌≡◌, IfOk, length};
ghost use Rattle.sm_term.specs.Tables.{sorts_in, trees_in};
ghost use Rattle.sm_theory.specs.Views.{IsLineWithin};
ghost use Rattle.sm_proof.specs.Passing.{Progress};
ghost use Rattle.sm_check.specs.Checkers.{HasFacts};
ghost use Rattle.sm_check.specs.Walks.{Walks};

use crate::due::facts_on;
use crate::fault::LineFault;
use crate::kept::kept_formula;
use crate::names::named_line;
use crate::nodes::is_there;
use crate::walk::Walk;
use sm_proof::{NodeLine, Word};
use sm_term::{Formula, TermTable};
use sm_theory::CertLine;
use std::alloc::Global;

impl<'a> Walk<'a> {
    /// A line of a certificate over the terms of the table, at the branch that is due.
    pub(crate) fn named(&self, alloc: Global, line: &CertLine) -> Result<CertLine, LineFault>
        ensures { IfOk result (IsLineWithin (length (trees_in self.now.table))) }
    {
        let count = facts_on(&self.path) as u64;
        named_line(alloc, &self.table, &self.terms, count, line)
    }

    /// The formula that a node keeps, over the terms of the table, Yes where it keeps none.
    pub(crate) fn kept(&self, alloc: Global, line: &NodeLine) -> Result<Formula, LineFault> {
        if !is_there(&self.forms, line) {
            return Err(LineFault::Wrong {
                word: Word::BadNumber,
            });
        }
        match kept_formula(alloc, &self.forms, line)? {
            Some(keep) => Ok(keep),
            None => Err(LineFault::Wrong {
                word: Word::BadNumber,
            }),
        }
    }

    /// How many facts the branch has that is due.
    pub(crate) fn facts(&self) -> u64
        ensures { (p : Progress) → Walks self.now p → HasFacts p.pending result }
    {
        facts_on(&self.path) as u64
    }

    /// The terms that were made.
    pub(crate) fn into_table(self) -> TermTable
        ensures { sorts_in result ≡ sorts_in self.entry.table }
    {
        self.table
    }
}
