// What there is to know of the terms of a list.
ghost use Rattle.std.specs.Prelude.{◌≡◌, ◌<◌, ◌≤◌, ◌+◌, List, length, IfOk};
ghost use Rattle.sm_term.specs.Terms.{Tree};
ghost use Rattle.sm_term.specs.Tables.{trees_in, sorts_in, tree_at, AreBefore};
ghost use Rattle.sm_theory.specs.Standing.{AreLinearForms};
ghost use Rattle.sm_cc.specs.Numbered.{heads_met, parts_met};
ghost use Rattle.sm_cc.specs.Views.{trees_of};
ghost use Rattle.sm_cc.specs.Positions.{ArePositions};
ghost use Rattle.sm_cc.specs.Standing.{RowsStand};
ghost use Rattle.sm_cc.specs.RowOf.{IsRowOf, IsFurther, AreRowsFrom};
ghost use Rattle.sm_cc.specs.BaseClasses.{AreNumberedBy};

use crate::ground::Numbering;
use crate::heads::Heads;
use crate::positions::Positions;
use crate::row::Row;
use crate::shapes::Shapes;
use sm_num::LinForm;
use sm_term::{TermId, TermTable};
use std::alloc::{AllocError, Global};

/// A row for each term of a list, in order, with what the heads and the forms of the terms are
/// numbered by.
pub(crate) fn numbered_rows(
    alloc: Global,
    table: &TermTable,
    forms: &[LinForm],
    positions: &Positions,
    terms: &[TermId],
) -> Result<(Vec<Row>, Numbering), AllocError>
    requires forms { AreLinearForms (trees_in table.now) forms.now }
    requires counted { length forms.now ≡ length (trees_in table.now) }
    requires before { AreBefore (length (trees_in table.now)) terms.now }
    requires positions { let trees = trees_in table.now in
        ArePositions trees (trees_of trees terms.now) positions.now }
    ensures stand { IfOk result (λ p.
        RowsStand (sorts_in table.now) (trees_of (trees_in table.now) terms.now) p.0.items) }
    ensures numbered { IfOk result (λ p.
        AreNumberedBy table.now (trees_of (trees_in table.now) terms.now) p.0.items p.1) }
{
    // A table has no body twice, as its length ensures.
    table.len();
    let mut numbering = Numbering {
        heads: Heads::new(alloc),
        shapes: Shapes::new(alloc),
    };
    let rows = rows_from(alloc, table, forms, positions, &mut numbering, terms, 0)?;
    Ok((rows, numbering))
}

/// A row for each term from a place on, by what terms are numbered by.
pub(crate) fn rows_from(
    alloc: Global,
    table: &TermTable,
    forms: &[LinForm],
    positions: &Positions,
    numbering: &mut Numbering,
    terms: &[TermId],
    from: usize,
) -> Result<Vec<Row>, AllocError>
    requires forms { AreLinearForms (trees_in table.now) forms.now }
    requires counted { length forms.now ≡ length (trees_in table.now) }
    requires before { AreBefore (length (trees_in table.now)) terms.now }
    requires positions { let trees = trees_in table.now in
        ArePositions trees (trees_of trees terms.now) positions.now }
    requires inside { from ≤ length terms.now }
    ensures further { IsFurther numbering.old numbering.new }
    ensures count { IfOk result (λ rows. from + length rows.items ≡ length terms.now) }
    ensures rows { let trees = trees_in table.now in IfOk result (λ rows.
        AreRowsFrom table.now (trees_of trees terms.now) numbering.new from rows.items) }
{
    let mut rows = Vec::new(alloc);
    for i in from..terms.len() {
        let row = row(alloc, table, forms, positions, numbering, terms[i])?;
        rows.push(row)?;
    }
    Ok(rows)
}

// The row of a term.
fn row(
    alloc: Global,
    table: &TermTable,
    forms: &[LinForm],
    positions: &Positions,
    numbering: &mut Numbering,
    t: TermId,
) -> Result<Row, AllocError>
    requires forms { AreLinearForms (trees_in table.now) forms.now }
    requires counted { length forms.now ≡ length (trees_in table.now) }
    requires there { t.0 < length (trees_in table.now) }
    ensures further { IsFurther numbering.old numbering.new }
    ensures row { let trees = trees_in table.now in (terms : List Tree) →
        ArePositions trees terms positions.now → IfOk result (λ r.
        IsRowOf table.now terms (heads_met numbering.new.heads) (parts_met numbering.new.shapes)
        (tree_at trees t.0) r) }
{
    let term = table.get(t);
    let head = numbering.heads.number(alloc, term)?;
    let arguments = positions.arguments(alloc, term)?;
    let shape = numbering.shapes.shape(alloc, table, forms, t)?;
    let element = positions.element(table, t);
    Ok(Row {
        head,
        arguments,
        shape,
        element,
    })
}
