// Lines of certificates behind the lines of their terms.
ghost use Rattle.std.specs.Prelude.{◌<◌, List, length, nat_eq, IfSome, OnOk};
ghost use Rattle.std.specs.HashMap.{get};
ghost use Rattle.sm_term.specs.Tables.{trees_in, tree_at};
ghost use Rattle.sm_theory.specs.Named.{EachNamed};
ghost use Rattle.sm_theory.specs.Views.{line_in, IsLineWithin};
ghost use Rattle.sm_plan.specs.States.{State};
ghost use Rattle.sm_proof.specs.Passing.{Progress};
ghost use Rattle.sm_proof.specs.Verdicts.{Subject};
ghost use Rattle.sm_write.specs.Seen.{IsBuilt, Seen};
ghost use Rattle.sm_write.specs.Stepped.{Wrote};
ghost use Rattle.sm_write.specs.Values.{value_of};
ghost use Rattle.sm_write.specs.Walked.{Extends, IsSet};
ghost use Rattle.sm_write.specs.Written.{IsLineNamed, IsNamed};

use crate::certs::{first_term, is_exact, put_cert, second_term};
use crate::naming::name_term;
use crate::writer::Writer;
use sm_term::{TermId, TermTable};
use sm_theory::CertLine;
use std::alloc::{AllocError, Global};

// Gives a term a number, if there is one.
fn name_some(
    alloc: Global,
    w: &mut Writer,
    table: &TermTable,
    t: Option<TermId>,
) -> Result<(), AllocError>
    requires { IfSome t (λ t. t.0 < length (trees_in table.now)) }
    ensures extends { let v = table.now in (s : Subject) (seen : List State) (p : Progress) →
        IsSet s v (value_of w.old) seen p →
        IfSome t (λ t. IsBuilt (Seen seen) (tree_at (trees_in v) t.0)) →
        OnOk result (Extends s (trees_in v) (value_of w.old) (value_of w.new) p) }
    ensures named { OnOk result (IfSome t (IsNamed (get nat_eq w.new.names))) }
{
    match t {
        Some(t) => name_term(alloc, w, table, t),
        None => Ok(()),
    }
}

// Gives the terms of a line numbers.
fn name_line(
    alloc: Global,
    w: &mut Writer,
    table: &TermTable,
    line: &CertLine,
) -> Result<(), AllocError>
    requires { IsLineWithin (length (trees_in table.now)) line.now }
    ensures { let v = table.now in (s : Subject) (seen : List State) (p : Progress) →
        IsSet s v (value_of w.old) seen p →
        EachNamed (IsBuilt (Seen seen)) (line_in (trees_in v) line.now) →
        OnOk result (Extends s (trees_in v) (value_of w.old) (value_of w.new) p
        × IsLineNamed (get nat_eq w.new.names) line.now) }
{
    name_some(alloc, w, table, first_term(line))?;
    name_some(alloc, w, table, second_term(line))?;
    Ok(())
}

/// Writes a line of a certificate, behind the lines of its terms.
pub(crate) fn write_line(
    alloc: Global,
    w: &mut Writer,
    table: &TermTable,
    line: &CertLine,
) -> Result<(), AllocError>
    requires { IsLineWithin (length (trees_in table.now)) line.now }
    ensures { let v = table.now in (s : Subject) (seen : List State) (p : Progress) →
        IsSet s v (value_of w.old) seen p →
        EachNamed (IsBuilt (Seen seen)) (line_in (trees_in v) line.now) →
        OnOk result (Wrote s v (value_of w.old) (value_of w.new) p line.now) }
{
    name_line(alloc, w, table, line)?;
    put_cert(&mut w.text, &w.names, line)?;
    w.exact = is_exact(line) || w.exact;
    Ok(())
}
