// Which lines may stand in files of a version.
ghost use Rattle.std.specs.Prelude.{◌≡◌};
ghost use Rattle.sm_theory.specs.Named.{reads_all};
ghost use Rattle.sm_proof.specs.Lines.{line_of, numbered_line};
ghost use Rattle.sm_proof.specs.Versions.{is_exact, may_stand};

use crate::line::Line;
use sm_theory::CertLine;

/// Whether a line may stand where lines `exact` may or may not.
pub fn may_stand(line: &Line, exact: bool) -> bool
    ensures { result ≡ may_stand exact (line_of line.now) }
{
    exact || !is_exact(line)
}

// Whether a line is a line `exact`.
fn is_exact(line: &Line) -> bool
    ensures { result ≡ is_exact (line_of line.now) }
{
    match line {
        Line::Cert(line) => is_exact_step(line),
        _ => false,
    }
}

// Whether a line of a certificate is one.
fn is_exact_step(line: &CertLine) -> bool
    ensures { result ≡ reads_all (numbered_line line.now) }
{
    match line {
        CertLine::Exact(_) => true,
        _ => false,
    }
}
