// Certificates under other numbers of terms.
ghost use Rattle.std.specs.Prelude.{◌≡◌, List, length, IfOk};
ghost use Rattle.sm_term.specs.Terms.{Tree};
ghost use Rattle.sm_cert.specs.NamedTerms.{EachTerm};
ghost use Rattle.sm_cert.specs.Views.{certificate_in, lines_of, AreLinesWithin};
ghost use Rattle.sm_list.specs.Branches.{IsOneOf};
ghost use Rattle.sm_list.specs.Renumber.{AreLinesUnder};
ghost use Rattle.sm_list.specs.Renumbered.{AreTermsOf};

use sm_cert::{CertEnd, CertLines, CertTree};
use sm_term::TermId;
use sm_theory::{CertLine, line_under};
use std::alloc::{AllocError, Global};

/// A certificate under other numbers of terms.
#[cycle(renumber_tree)]
pub fn renumbered_tree(
    alloc: Global,
    tree: &CertTree,
    numbers: &[TermId],
) -> Result<CertTree, AllocError>
    ensures same { (trees others : List Tree) →
        AreTermsOf others numbers.now trees → AreLinesWithin (length trees) (lines_of tree.now) →
        IfOk result (λ c. certificate_in others c ≡ certificate_in trees tree.now) }
    ensures within { (trees others : List Tree) →
        AreTermsOf others numbers.now trees → AreLinesWithin (length trees) (lines_of tree.now) →
        IfOk result (λ c. AreLinesWithin (length others) (lines_of c)) }
    ensures names { (trees others : List Tree) →
        AreTermsOf others numbers.now trees → AreLinesWithin (length trees) (lines_of tree.now) →
        IfOk result (λ c. EachTerm (IsOneOf trees) (certificate_in others c)) }
{
    let list = renumbered_lines(alloc, &tree.lines.list, numbers)?;
    match &tree.last {
        CertEnd::Close(line) => {
            let last = line_under(alloc, line, numbers)?;
            Ok(CertTree {
                lines: CertLines { list },
                last: CertEnd::Close(last),
            })
        }
        CertEnd::Split(line, first, second) => {
            let last = line_under(alloc, line, numbers)?;
            let first = boxed_tree(alloc, first, numbers)?;
            let second = boxed_tree(alloc, second, numbers)?;
            Ok(CertTree {
                lines: CertLines { list },
                last: CertEnd::Split(last, first, second),
            })
        }
    }
}

#[cycle(renumber_tree)]
fn boxed_tree(
    alloc: Global,
    tree: &CertTree,
    numbers: &[TermId],
) -> Result<Box<CertTree>, AllocError>
    ensures same { (trees others : List Tree) →
        AreTermsOf others numbers.now trees → AreLinesWithin (length trees) (lines_of tree.now) →
        IfOk result (λ c. certificate_in others c.value ≡ certificate_in trees tree.now) }
    ensures within { (trees others : List Tree) →
        AreTermsOf others numbers.now trees → AreLinesWithin (length trees) (lines_of tree.now) →
        IfOk result (λ c. AreLinesWithin (length others) (lines_of c.value)) }
    ensures names { (trees others : List Tree) →
        AreTermsOf others numbers.now trees → AreLinesWithin (length trees) (lines_of tree.now) →
        IfOk result (λ c. EachTerm (IsOneOf trees) (certificate_in others c.value)) }
{
    Ok(Box::new(alloc, renumbered_tree(alloc, tree, numbers)?)?)
}

// Lines under other numbers of terms.
fn renumbered_lines(
    alloc: Global,
    lines: &[CertLine],
    numbers: &[TermId],
) -> Result<Vec<CertLine>, AllocError>
    ensures { IfOk result (λ v. AreLinesUnder numbers.now lines.now v.items) }
{
    let mut list = Vec::new(alloc);
    for line in lines {
        list.push(line_under(alloc, line, numbers)?)?;
    }
    Ok(list)
}
