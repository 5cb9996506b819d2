// Certificates, line by line.
ghost use Rattle.std.specs.Prelude.{[], length, OnOk};
ghost use Rattle.sm_term.specs.Tables.{trees_in};
ghost use Rattle.sm_cert.specs.Views.{certificate_in, lines_of, AreLinesWithin};
ghost use Rattle.sm_write.specs.Stepped.{ClosesBranch, LinesLeft};
ghost use Rattle.sm_write.specs.Values.{value_of};

use crate::lines::write_line;
use crate::writer::Writer;
use sm_cert::{CertEnd, CertTree};
use sm_term::TermTable;
use sm_theory::CertLine;
use std::alloc::{AllocError, Global};

// Writes lines one behind the other.
fn write_lines(
    alloc: Global,
    w: &mut Writer,
    table: &TermTable,
    lines: &[CertLine],
) -> Result<(), AllocError>
    requires { AreLinesWithin (length (trees_in table.now)) lines.now }
    ensures { OnOk result (LinesLeft table.now (value_of w.old) (value_of w.new) lines.now []) }
{
    for line in lines {
        write_line(alloc, w, table, line)?;
    }
    Ok(())
}

/// Writes a certificate for the branch that is due. It goes as deep as the certificate has splits
/// one under another.
#[cycle(tree)]
pub(crate) fn write_tree(
    alloc: Global,
    w: &mut Writer,
    table: &TermTable,
    tree: &CertTree,
) -> Result<(), AllocError>
    requires { AreLinesWithin (length (trees_in table.now)) (lines_of tree.now) }
    ensures { OnOk result (ClosesBranch table.now (value_of w.old) (value_of w.new)
        (certificate_in (trees_in table.now) tree.now)) }
{
    write_lines(alloc, w, table, tree.lines.list.as_slice())?;
    match &tree.last {
        CertEnd::Close(line) => write_line(alloc, w, table, line),
        CertEnd::Split(line, first, second) => {
            write_line(alloc, w, table, line)?;
            write_tree(alloc, w, table, first)?;
            write_tree(alloc, w, table, second)
        }
    }
}
