// A proof file on its way.
ghost use Rattle.std.specs.Prelude.{◌≡◌, ◌∷◌, ◌++◌, ◌<◌, ◌^◌, ℕ, List, Some, Ok, [], length, suc, nat_eq, IfOk, OnOk};
ghost use Rattle.std.specs.HashMap.{get};
ghost use Rattle.std.specs.Map.{update};
ghost use Rattle.sm_term.specs.Tables.{tree_at};
ghost use Rattle.sm_term.specs.Terms.{Tree};
ghost use Rattle.sm_proof.specs.FieldRanges.{IsTermLineWithin};
ghost use Rattle.sm_proof.specs.Passing.{Pending, Progress, term_made};
ghost use Rattle.sm_proof.specs.Verdicts.{Subject};
ghost use Rattle.sm_write.specs.Values.{value_of};
ghost use Rattle.sm_write.specs.Writers.{Stands};

use crate::text::put_term;
use sm_proof::TermLine;
use sm_term::TermId;
use std::alloc::AllocError;
use std::collections::HashMap;

// The text behind the version line, whether it has lines `exact`, the number in it of each term that
// has one, the terms by these numbers, and how many formulas and nodes it has.
#[derive(Drop)]
pub(crate) struct Writer {
    pub(crate) text: Vec<u8>,
    pub(crate) exact: bool,
    pub(crate) names: HashMap<u64, TermId>,
    pub(crate) order: Vec<TermId>,
    pub(crate) forms: u64,
    pub(crate) nodes: u64,
}

// The number of the next term, behind these. There are never so many that it has more than 19 digits.
fn next_number(order: &[TermId]) -> u64
    ensures number { result ≡ length order.now }
    ensures few { suc result < 2 ^ 63 }
{
    order.len() as u64
}

// Writes a line that makes a term of the table, which gets the next number.
pub(crate) fn add_term(w: &mut Writer, t: TermId, line: TermLine) -> Result<(), AllocError>
    ensures stands { (s : Subject) (trees : List Tree) (p : Progress) (due : Pending)
        (rest : List Pending) → Stands s trees (value_of w.old) p → p.pending ≡ due ∷ rest →
        t.0 < length trees → IsTermLineWithin line →
        term_made s.sorts p.terms due line ≡ Ok (tree_at trees t.0) →
        OnOk result (Stands s trees (value_of w.new)
        (record p { terms = p.terms ++ tree_at trees t.0 ∷ [] })) }
    ensures named { OnOk result ((q : ℕ) → get nat_eq w.new.names q
        ≡ update nat_eq (get nat_eq w.old.names) t.0
        (Some (record { 0 = length w.old.order.items })) q) }
{
    put_term(&mut w.text, line)?;
    let n = TermId(next_number(w.order.as_slice()));
    w.order.push(t)?;
    w.names.insert(t.0, n)?;
    Ok(())
}
