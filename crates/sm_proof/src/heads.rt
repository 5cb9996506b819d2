// The first words of lines.
ghost use Rattle.std.specs.Prelude.{◌≡◌};
ghost use Rattle.sm_proof.specs.Lines.{numbered_line};
ghost use Rattle.sm_proof.specs.Named.{line_head};

use crate::word::Head;
use sm_theory::CertLine;

/// The first word of a line of a certificate.
pub fn line_head(line: &CertLine) -> Head
    ensures { result ≡ line_head (numbered_line line.now) }
{
    match line {
        CertLine::Both(_) => Head::Both,
        CertLine::Either(_) => Head::Either,
        CertLine::Cases(_, _) => Head::Cases,
        CertLine::Order(_) => Head::Order,
        CertLine::Refl(_) => Head::Refl,
        CertLine::Sym(_) => Head::Sym,
        CertLine::Trans(_, _) => Head::Trans,
        CertLine::Subst(_, _) => Head::Subst,
        CertLine::Cong(_, _, _) => Head::Cong,
        CertLine::Same(_, _) => Head::Same,
        CertLine::Apart(_, _) => Head::Apart,
        CertLine::Hit(_, _) => Head::Hit,
        CertLine::Miss(_, _, _) => Head::Miss,
        CertLine::Lin(_) => Head::Lin,
        CertLine::Elim(_, _, _) => Head::Elim,
        CertLine::Tight(_) => Head::Tight,
        CertLine::Exact(_) => Head::Exact,
        CertLine::Close(_) => Head::Close,
        CertLine::Clash(_, _) => Head::Clash,
    }
}
