// Certificates whose lines read only the facts that they name: where these facts stand, such a
// certificate closes each other branch, too. An exact line reads all facts.
ghost use Rattle.std.specs.Prelude.{◌≡◌, true, List};
ghost use Rattle.sm_term.specs.Terms.{Tree};
ghost use Rattle.sm_theory.specs.Named.{reads_all};
ghost use Rattle.sm_theory.specs.Views.{line_in};
ghost use Rattle.sm_cert.specs.Certificates.{Certificate};
ghost use Rattle.sm_cert.specs.MovedTrees.{NamesWhatItReads};
ghost use Rattle.sm_cert.specs.Views.{certificate_in, lines_before};

use sm_cert::{CertEnd, CertTree};
use sm_theory::CertLine;

// Whether a certificate has no split, and its lines read only the facts that they name.
pub(crate) fn names_what_it_reads(tree: &CertTree) -> bool
    ensures { result ≡ true → (trees : List Tree) →
        NamesWhatItReads (certificate_in trees tree.now) }
{
    match &tree.last {
        CertEnd::Close(line) => {
            if reads_all(line) {
                return false;
            }
            name_what_they_read(&tree.lines.list)
        }
        CertEnd::Split(_, _, _) => false,
    }
}

// Whether lines read only the facts that they name, as the certificate under them does.
fn name_what_they_read(lines: &[CertLine]) -> bool
    ensures { result ≡ true → (trees : List Tree) (c : Certificate) → NamesWhatItReads c →
        NamesWhatItReads (lines_before trees lines.now c) }
{
    for line in lines {
        if reads_all(line) {
            return false;
        }
    }
    true
}

// Whether a line reads all facts of the branch.
fn reads_all(line: &CertLine) -> bool
    ensures { (trees : List Tree) → result ≡ reads_all (line_in trees line.now) }
{
    match line {
        CertLine::Exact(_) => true,
        _ => false,
    }
}
