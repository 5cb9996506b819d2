// Certificates of a node's goals.
ghost use Rattle.std.specs.Prelude.{length, map, IfOk};
ghost use Rattle.sm_term.specs.Tables.{trees_in};
ghost use Rattle.sm_cert.specs.Views.{certificate_in};
ghost use Rattle.sm_write.specs.GoalsWritten.{LeavesGoals};
ghost use Rattle.sm_write.specs.TreesWithin.{AreTreesWithin};
ghost use Rattle.sm_write.specs.Values.{value_of};

use crate::trees::write_tree;
use crate::writer::Writer;
use sm_cert::CertTree;
use sm_term::TermTable;
use std::alloc::{AllocError, Global};

/// Writes the certificates of so many goals, and gives those that are left.
pub(crate) fn write_goals<'c>(
    alloc: Global,
    w: &mut Writer,
    table: &TermTable,
    goals: usize,
    certs: &'c [CertTree],
) -> Result<&'c [CertTree], AllocError>
    requires { AreTreesWithin (length (trees_in table.now)) certs.now }
    ensures written { let trees = trees_in table.now in IfOk result (λ left.
        LeavesGoals table.now (value_of w.old) (value_of w.new) goals
        (map (certificate_in trees) certs.now) goals (map (certificate_in trees) left.now)) }
    ensures within { IfOk result (λ left. AreTreesWithin (length (trees_in table.now)) left.now) }
{
    let mut left = certs;
    for n in 0..goals {
        match left.split_first() {
            Some((tree, rest)) => {
                write_tree(alloc, w, table, tree)?;
                left = rest;
            }
            None => return Ok(left),
        }
    }
    Ok(left)
}
