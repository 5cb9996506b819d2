// A certificate that is taken for its branch alone.
ghost use Rattle.std.specs.Prelude.{◌≡◌, ◌∷◌, [], ℕ, Bool, List, length, true, Ok, IfOk};
ghost use Rattle.sm_syntax.specs.claim.ConflictFree.{Copy};
ghost use Rattle.sm_syntax.specs.text.Sorts.{Sorts};
ghost use Rattle.sm_term.specs.Symbolic.{SymbolicStore};
ghost use Rattle.sm_term.specs.Terms.{Tree};
ghost use Rattle.sm_theory.specs.Facts.{BranchFact};
ghost use Rattle.sm_theory.specs.SortedFacts.{AreFactsSorted};
ghost use Rattle.sm_theory.specs.Views.{AllStand};
ghost use Rattle.sm_proof.specs.Passing as plain;
ghost use Rattle.sm_term.specs.Tables.{trees_in, sorts_in, AreBefore};
ghost use Rattle.sm_proof.specs.Lines.{line_of};
ghost use Rattle.sm_proof.specs.Passing.{Pending};
ghost use Rattle.sm_proof.specs.Versions.{read_with};
ghost use Rattle.sm_check.specs.Closing.{LeadsTo, OpensAs, Passes};
ghost use Rattle.sm_check.specs.LineEnds.{ended_in};
ghost use Rattle.sm_check.specs.Pending.{PendingStands};
ghost use Rattle.sm_check.specs.Walks.{terms_in};

use crate::branches::line_at;
use crate::fault::LineFault;
use crate::openings::{Opening, opened};
use crate::pending::{Due, OpenBranch, Waiting};
use crate::raw_lines::first_line;
use sm_proof::{Line, LineError, line_with};
use sm_syntax::PerCopy;
use sm_term::{SymStore, TermId, TermTable};
use sm_theory::Branch;
use std::alloc::{AllocError, Global};
use std::rc::Rc;

// A branch that is closed alone: nothing of the rest of the proof waits behind it.
struct Alone<'a> {
    path: Branch,
    due: Option<Due<'a>>,
    waiting: Vec<Waiting<'a>>,
}

// One call ends a value, and not one for each field: proofs of what has it stay small.
impl Drop for Alone<'_> {
    fn drop(self) {
        let Self {
            path: _,
            due: _,
            waiting: _,
        } = self;
    }
}

/// Whether ended lines are read, where lines `exact` may stand or may not, and close the branch of
/// an opening, all of it, exactly at their end. An answer of false says nothing.
pub(crate) fn closes(
    alloc: Global,
    table: &TermTable,
    terms: &[TermId],
    path: &Branch,
    opening: &Opening,
    bytes: &[u8],
    exact: bool,
) -> Result<bool, AllocError>
    requires { AreBefore (length (trees_in table.now)) terms.now }
    ensures { let trees = trees_in table.now in IfOk result (λ closes. closes ≡ true →
        Passes exact (sorts_in table.now) trees (terms_in trees terms.now) path.now.list.items
        opening.now (ended_in bytes.now)) }
{
    let mut branch = lone_branch(alloc, path, opening)?;
    let mut left = bytes;
    while let Some((line, behind)) = first_line(left) {
        if !goes_on(alloc, table, terms, &mut branch, line, exact)? {
            return Ok(false);
        }
        left = behind;
    }
    Ok(branch.due.is_none())
}

// The branch of an opening. No line of a certificate looks at its stores, so it has empty ones.
fn lone_branch<'a>(alloc: Global, path: &Branch, opening: &Opening) -> Result<Alone<'a>, AllocError>
    ensures { (sorts : Sorts) (trees : List Tree) (facts own : List BranchFact) →
        (held : Copy → SymbolicStore) (splits : ℕ) →
        AllStand sorts trees path.now.list.items facts → AreFactsSorted sorts facts →
        OpensAs sorts trees facts opening.now (plain.Branch held own splits) →
        IfOk result (λ b. (stores : Copy → SymbolicStore)
        × PendingStands sorts trees b.path.list.items b.due b.waiting.items
        (plain.Branch stores own splits ∷ [])) }
{
    let stores = Rc::new(alloc, no_stores(alloc))?;
    Ok(Alone {
        path: opened(alloc, path, opening)?,
        due: Some(Due::Branch { stores, splits: 0 }),
        waiting: Vec::new(alloc),
    })
}

// Stores without a term.
fn no_stores(alloc: Global) -> PerCopy<SymStore>
    ensures base { result.base.list.items ≡ [] }
    ensures variant_a { result.variant_a.list.items ≡ [] }
    ensures variant_b { result.variant_b.list.items ≡ [] }
    ensures candidate { result.candidate.list.items ≡ [] }
{
    PerCopy {
        base: SymStore {
            list: Vec::new(alloc),
        },
        variant_a: SymStore {
            list: Vec::new(alloc),
        },
        variant_b: SymStore {
            list: Vec::new(alloc),
        },
        candidate: SymStore {
            list: Vec::new(alloc),
        },
    }
}

// Whether a line is read, and the branch goes on with it.
fn goes_on(
    alloc: Global,
    table: &TermTable,
    terms: &[TermId],
    branch: &mut Alone<'_>,
    line: &[u8],
    exact: bool,
) -> Result<bool, AllocError>
    requires { AreBefore (length (trees_in table.now)) terms.now }
    ensures { let sorts = sorts_in table.now in let trees = trees_in table.now in
        (ps : List Pending) → PendingStands sorts trees branch.old.path.list.items branch.old.due
        branch.old.waiting.items ps → IfOk result (λ goes. goes ≡ true → (qs : List Pending)
        × LeadsTo exact sorts (terms_in trees terms.now) ps line.now qs
        × PendingStands sorts trees branch.new.path.list.items branch.new.due
        branch.new.waiting.items qs) }
{
    match line_with(alloc, line, exact) {
        Ok(line) => goes_on_by(alloc, table, terms, branch, &line),
        Err(LineError::Memory) => Err(AllocError),
        Err(_) => Ok(false),
    }
}

// Whether the branch goes on with a line that was read.
fn goes_on_by(
    alloc: Global,
    table: &TermTable,
    terms: &[TermId],
    branch: &mut Alone<'_>,
    line: &Line,
) -> Result<bool, AllocError>
    requires { AreBefore (length (trees_in table.now)) terms.now }
    ensures { let sorts = sorts_in table.now in let trees = trees_in table.now in
        (exact : Bool) (bytes : List ℕ) → read_with exact bytes ≡ Ok (line_of line.now) →
        (ps : List Pending) → PendingStands sorts trees branch.old.path.list.items branch.old.due
        branch.old.waiting.items ps → IfOk result (λ goes. goes ≡ true → (qs : List Pending)
        × LeadsTo exact sorts (terms_in trees terms.now) ps bytes qs
        × PendingStands sorts trees branch.new.path.list.items branch.new.due
        branch.new.waiting.items qs) }
{
    let line = match line {
        Line::Cert(line) => line,
        _ => return Ok(false),
    };
    let at = match branch.due.take() {
        Some(Due::Branch { stores, splits }) => OpenBranch { stores, splits },
        _ => return Ok(false),
    };
    match line_at(
        alloc,
        table,
        terms,
        &mut branch.path,
        &mut branch.waiting,
        at,
        line,
    ) {
        Ok(due) => {
            branch.due = due;
            Ok(true)
        }
        Err(LineFault::Wrong { .. }) => Ok(false),
        Err(LineFault::Memory) => Err(AllocError),
    }
}
