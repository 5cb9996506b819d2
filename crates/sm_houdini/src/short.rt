// Certificates whose lines are short enough for a proof file.
ghost use Rattle.std.specs.Prelude.{◌≡◌, true, List};
ghost use Rattle.sm_term.specs.Terms.{Tree};
ghost use Rattle.sm_cert.specs.Certificates.{Certificate};
ghost use Rattle.sm_cert.specs.Views.{certificate_in, lines_before};
ghost use Rattle.sm_write.specs.Writable.{IsShort};

use sm_cert::{CertEnd, CertTree};
use sm_theory::CertLine;
use sm_write::is_short_line;

// Whether lines are short.
fn are_short_lines(lines: &[CertLine]) -> bool
    ensures { (trees : List Tree) (c : Certificate) → result ≡ true → IsShort c →
        IsShort (lines_before trees lines.now c) }
{
    for line in lines {
        if !is_short_line(line) {
            return false;
        }
    }
    true
}

// Whether each line of a certificate is short.
pub(crate) fn is_short(tree: &CertTree) -> bool
    ensures { (trees : List Tree) → result ≡ true → IsShort (certificate_in trees tree.now) }
{
    if !are_short_lines(&tree.lines.list) {
        return false;
    }
    match &tree.last {
        CertEnd::Close(line) => is_short_line(line),
        CertEnd::Split(line, first, second) => {
            is_short_line(line) && is_short(first) && is_short(second)
        }
    }
}
