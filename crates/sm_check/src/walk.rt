// A proof on its way.
ghost use Rattle.std.specs.Prelude.{◌≡◌};
ghost use Rattle.sm_term.specs.Tables.{sorts_in};
ghost use Rattle.sm_proof.specs.FieldRanges.{IsTermLineWithin, IsWithinFields};
ghost use Rattle.sm_proof.specs.Lines.{Term, Form, line_of};
ghost use Rattle.sm_proof.specs.Passing.{Progress, taken};
ghost use Rattle.sm_proof.specs.Verdicts.{none_waits};
ghost use Rattle.sm_check.specs.Tells.{Tells};
ghost use Rattle.sm_check.specs.Walks.{Walks};

use crate::branches::take_cert;
use crate::fault::LineFault;
use crate::forms::{FormRow, form_row};
use crate::nodes::take_node;
use crate::pending::{Due, Waiting};
use crate::terms::made_term;
use sm_proof::{FormLine, Line, TermLine, Word};
use sm_term::{TermId, TermTable};
use sm_theory::Branch;
use std::alloc::Global;
use std::marker::Model;

/// A proof on its way.
#[derive(Drop)]
pub(crate) struct Walk<'a> {
    pub(crate) table: TermTable,
    pub(crate) declared: u64,
    pub(crate) nodes: u64,
    pub(crate) terms: Vec<TermId>,
    pub(crate) forms: Vec<FormRow>,
    pub(crate) path: Branch,
    pub(crate) due: Option<Due<'a>>,
    pub(crate) waiting: Vec<Waiting<'a>>,
}

impl<'a> Model for Walk<'a> {
    ghost use Rattle.sm_check.specs.Walks.{WalkValue, IsWalkReady};

    ghost Value = { WalkValue };

    ghost use Rattle.sm_syntax.specs.contracts.tree.Block as block;
    ghost use Rattle.sm_syntax.specs.contracts.tree.Stmt as statement;
    ghost use Rattle.sm_term.specs.contracts.formula.Formula as formula;
    ghost use Rattle.std.specs.Coded.{codes};

    ghost coded = { Prim.hlevel (codes, block.the_row.coded, statement.the_row.coded, formula.the_row.coded) };

    ghost view = { λ w. record {
      table = w.table;
      declared = w.declared;
      nodes = w.nodes;
      terms = w.terms.items;
      forms = w.forms.items;
      path = w.path.list.items;
      due = w.due;
      waiting = w.waiting.items;
    } };

    ghost invariant = { λ w.
        IsWalkReady w.table w.declared w.terms.items w.forms.items w.due w.waiting.items };
}

impl<'a> Walk<'a> {
    /// Whether nothing is pending.
    pub(crate) fn is_done(&self) -> bool
        ensures { (p : Progress) → Walks self.now p → result ≡ none_waits p.pending }
    {
        self.due.is_none()
    }

    /// Takes a line behind the version line.
    pub(crate) fn take(&mut self, alloc: Global, line: &Line) -> Result<(), LineFault>
        requires { IsWithinFields (line_of line.now) }
        ensures tells { (p : Progress) → Walks self.old p →
            Tells (λ _ q. Walks self.new q) result
            (taken (sorts_in self.old.table) p (line_of line.now)) }
        ensures sorts { sorts_in self.new.table ≡ sorts_in self.old.table }
    {
        match line {
            Line::Header { .. } => Err(LineFault::Wrong {
                word: Word::BadLine,
            }),
            Line::Term(line) => self.term_line(line),
            Line::Form(line) => self.form_line(line),
            Line::Node(line) => take_node(alloc, self, line),
            Line::Cert(line) => take_cert(alloc, self, line),
        }
    }

    /// Takes a line `t`.
    pub(crate) fn term_line(&mut self, line: &TermLine) -> Result<(), LineFault>
        requires { IsTermLineWithin line.now }
        ensures tells { (p : Progress) → Walks self.old p →
            Tells (λ _ q. Walks self.new q) result
            (taken (sorts_in self.old.table) p (Term line.now)) }
        ensures sorts { sorts_in self.new.table ≡ sorts_in self.old.table }
    {
        let due = match &self.due {
            Some(due) => due,
            None => return Err(LineFault::Wrong { word: Word::Extra }),
        };
        let declared = self.declared;
        let made = made_term(
            &mut self.table,
            declared,
            &self.terms,
            due,
            &self.path,
            line,
        );
        // A table has no term twice, as its length ensures.
        self.table.len();
        match made {
            Ok(id) => {
                self.terms.push(id)?;
                Ok(())
            }
            Err(fault) => Err(fault),
        }
    }

    /// Takes a line `p`.
    pub(crate) fn form_line(&mut self, line: &FormLine) -> Result<(), LineFault>
        ensures tells { (p : Progress) → Walks self.old p →
            Tells (λ _ q. Walks self.new q) result
            (taken (sorts_in self.old.table) p (Form line.now)) }
        ensures sorts { sorts_in self.new.table ≡ sorts_in self.old.table }
    {
        let _due = match &self.due {
            Some(due) => due,
            None => return Err(LineFault::Wrong { word: Word::Extra }),
        };
        match form_row(&self.table, &self.terms, &self.forms, line) {
            Ok(row) => {
                self.forms.push(row)?;
                Ok(())
            }
            Err(fault) => Err(fault),
        }
    }
}
