// Lines that make formulas.
ghost use Rattle.std.specs.Prelude.{◌≡◌, ◌<◌, ◌∷◌, ◌++◌, List, Ok, [], length, suc, nat_eq, IfOk, OnOk};
ghost use Rattle.std.specs.HashMap.{get};
ghost use Rattle.sm_term.specs.Assertions.{Assertion};
ghost use Rattle.sm_term.specs.Formulas.{numbered, IsFormulaWithin};
ghost use Rattle.sm_term.specs.Tables.{trees_in};
ghost use Rattle.sm_term.specs.Terms.{Tree};
ghost use Rattle.sm_proof.specs.FieldRanges.{IsFormLineWithin};
ghost use Rattle.sm_proof.specs.Passing.{Pending, Progress, form_made};
ghost use Rattle.sm_proof.specs.Verdicts.{Subject};
ghost use Rattle.sm_write.specs.FormsWritten.{NamesPair, WritesForm};
ghost use Rattle.sm_write.specs.Values.{value_of};
ghost use Rattle.sm_write.specs.Writers.{Stands};

use crate::certs::file_number;
use crate::naming::name_term;
use crate::text::put_form;
use crate::writer::Writer;
use sm_proof::FormLine;
use sm_term::{Formula, TermId, TermTable};
use std::alloc::{AllocError, Global};

// The number after one. There is none past the greatest `u64`, to which no text in memory comes.
pub(crate) fn one_more(n: u64) -> Result<u64, AllocError>
    ensures { IfOk result (λ m. m ≡ suc n) }
{
    match n.checked_add(1) {
        Some(m) => Ok(m),
        None => Err(AllocError),
    }
}

// Writes a line that makes a formula, and gives its number.
pub(crate) fn add_form(w: &mut Writer, line: FormLine) -> Result<u64, AllocError>
    ensures stands { (s : Subject) (trees : List Tree) (p : Progress) (due : Pending)
        (rest : List Pending) (f : Assertion) → Stands s trees (value_of w.old) p →
        p.pending ≡ due ∷ rest → IsFormLineWithin line →
        form_made s.sorts p.terms p.forms line ≡ Ok f →
        OnOk result (Stands s trees (value_of w.new)
        (record p { forms = p.forms ++ f ∷ [] })) }
    ensures number { IfOk result (λ n. n ≡ w.old.forms) }
    ensures names { get nat_eq w.new.names ≡ get nat_eq w.old.names }
{
    put_form(&mut w.text, line)?;
    let n = w.forms;
    let next = one_more(n)?;
    w.forms = next;
    Ok(n)
}

// Gives two terms numbers.
fn name_pair(
    alloc: Global,
    w: &mut Writer,
    table: &TermTable,
    t: TermId,
    u: TermId,
) -> Result<(u64, u64), AllocError>
    requires first { t.0 < length (trees_in table.now) }
    requires second { u.0 < length (trees_in table.now) }
    ensures { IfOk result (NamesPair table.now (value_of w.old) (value_of w.new) t u) }
{
    name_term(alloc, w, table, t)?;
    name_term(alloc, w, table, u)?;
    let a = file_number(&w.names, t);
    let b = file_number(&w.names, u);
    Ok((a, b))
}

/// Writes the lines of a formula, and gives its number.
#[cycle(form)]
pub(crate) fn write_form(
    alloc: Global,
    w: &mut Writer,
    table: &TermTable,
    f: &Formula,
) -> Result<u64, AllocError>
    requires { IsFormulaWithin (length (trees_in table.now)) (numbered f.now) }
    ensures { IfOk result
        (WritesForm table.now (value_of w.old) (value_of w.new) (numbered f.now)) }
{
    match f {
        Formula::Yes => add_form(w, FormLine::Yes),
        Formula::No => add_form(w, FormLine::No),
        Formula::Eq(t, u) => {
            let (a, b) = name_pair(alloc, w, table, *t, *u)?;
            add_form(w, FormLine::Eq(a, b))
        }
        Formula::Ne(t, u) => {
            let (a, b) = name_pair(alloc, w, table, *t, *u)?;
            add_form(w, FormLine::Ne(a, b))
        }
        Formula::Le(t, u) => {
            let (a, b) = name_pair(alloc, w, table, *t, *u)?;
            add_form(w, FormLine::Le(a, b))
        }
        Formula::Lt(t, u) => {
            let (a, b) = name_pair(alloc, w, table, *t, *u)?;
            add_form(w, FormLine::Lt(a, b))
        }
        Formula::And(p, q) => {
            let a = write_form(alloc, w, table, p)?;
            let b = write_form(alloc, w, table, q)?;
            add_form(w, FormLine::And(a, b))
        }
        Formula::Or(p, q) => {
            let a = write_form(alloc, w, table, p)?;
            let b = write_form(alloc, w, table, q)?;
            add_form(w, FormLine::Or(a, b))
        }
    }
}
