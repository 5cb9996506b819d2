// Certificates without lines that nobody uses.
ghost use Rattle.std.specs.Prelude.{◌≡◌, ◌≤◌, ℕ, List, length, IfOk};
ghost use Rattle.std.specs.List.{Contains};
ghost use Rattle.sm_syntax.specs.text.Sorts.{Sorts};
ghost use Rattle.sm_term.specs.Terms.{Tree};
ghost use Rattle.sm_theory.specs.Facts.{BranchFact};
ghost use Rattle.sm_cert.specs.Certificates.{Closes, lines_in};
ghost use Rattle.sm_cert.specs.Views.{certificate_in, lines_of, AreLinesWithin};
ghost use Rattle.sm_trim.specs.Used.{IsUsed};
ghost use Rattle.sm_trim.specs.Laws.{trimmed};
ghost use Rattle.sm_trim.specs.Named.{terms_in, EachNamesFew};

use crate::closing::closed_up;
use crate::pruning::pruned;
use sm_cert::CertTree;
use std::alloc::{AllocError, Global};

/// A certificate that closes what the given one closes, without lines that nobody uses. `start`
/// facts stand before it. It goes as deep as splits stand above a line, which are at most 1,000
/// where the certificate closes a branch.
pub fn trim_tree(alloc: Global, tree: &CertTree, start: u64) -> Result<CertTree, AllocError>
    ensures trimmed { (trees : List Tree) → IfOk result (λ t.
        certificate_in trees t ≡ trimmed start (certificate_in trees tree.now)) }
    ensures closes { (sorts : Sorts) (trees : List Tree) (facts : List BranchFact) →
        length facts ≡ start → Closes sorts facts (certificate_in trees tree.now) →
        IfOk result (λ t. Closes sorts facts (certificate_in trees t)) }
    ensures used { (trees : List Tree) → IfOk result (λ t. IsUsed start (certificate_in trees t)) }

    // So to trim twice is to trim once.
    ensures stays { (trees : List Tree) → IsUsed start (certificate_in trees tree.now) →
        IfOk result (λ t. certificate_in trees t ≡ certificate_in trees tree.now) }

    ensures terms { (trees : List Tree) (term : Tree) → IfOk result (λ t.
        Contains (terms_in (certificate_in trees t)) term →
        Contains (terms_in (certificate_in trees tree.now)) term) }
    ensures shorter { (trees : List Tree) → IfOk result (λ t.
        lines_in (certificate_in trees t) ≤ lines_in (certificate_in trees tree.now)) }
    ensures few { (trees : List Tree) (most bound : ℕ) →
        EachNamesFew most bound (certificate_in trees tree.now) →
        IfOk result (λ t. EachNamesFew most bound (certificate_in trees t)) }
    ensures within { (count : ℕ) → AreLinesWithin count (lines_of tree.now) →
        IfOk result (λ t. AreLinesWithin count (lines_of t)) }
{
    trimmed(alloc, tree, start)
}

// What is left of the certificate, with numbers of facts closed up.
fn trimmed(alloc: Global, tree: &CertTree, start: u64) -> Result<CertTree, AllocError>
    ensures { (trees : List Tree) → IfOk result (λ t.
        certificate_in trees t ≡ trimmed start (certificate_in trees tree.now)) }
{
    let left = pruned(alloc, tree, start)?;
    let mut moved = Vec::new(alloc);
    closed_up(alloc, &left.tree, &mut moved, start)
}
