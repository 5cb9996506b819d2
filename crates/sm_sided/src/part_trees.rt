// Trees that close a goal by two of its facts.
ghost use Rattle.std.specs.Prelude.{◌≡◌, ◌+◌, ◌<◌, ◌≤◌, ◌^◌, List, Ok, IfOk};
ghost use Rattle.sm_term.specs.Terms.{Tree};
ghost use Rattle.sm_theory.specs.Lines.{Both, Close};
ghost use Rattle.sm_theory.specs.Views.{line_in};
ghost use Rattle.sm_cert.specs.Certificates.{Next, Closed};
ghost use Rattle.sm_cert.specs.Views.{certificate_in, lines_before};
ghost use Rattle.sm_sided.specs.WholeCertificates.{by_clash, by_turned};

use sm_cert::{CertEnd, CertLines, CertTree};
use sm_theory::CertLine;
use std::alloc::{AllocError, Global};

// Lines, and one that closes the branch.
fn closed_by(list: Vec<CertLine>, line: CertLine) -> CertTree
    ensures { (trees : List Tree) → certificate_in trees result
        ≡ lines_before trees list.items (Closed (line_in trees line)) }
{
    CertTree {
        lines: CertLines { list },
        last: CertEnd::Close(line),
    }
}

/// Of the parts of a conjunction, which stands behind n facts, one can't be.
pub(crate) fn part_tree(alloc: Global, n: u64, part: u64) -> Result<CertTree, AllocError>
    requires few { n < 2 ^ 62 }
    requires part { part ≤ 2 }
    ensures { (trees : List Tree) →
        IfOk result (λ c. certificate_in trees c ≡ Next (Both n) (Closed (Close (n + part)))) }
{
    let mut lines = Vec::new(alloc);
    lines.push(CertLine::Both(n))?;
    Ok(closed_by(lines, CertLine::Close(n + part)))
}

/// Of the three parts of one two are contrary.
pub(crate) fn clash_tree(alloc: Global, n: u64) -> Result<CertTree, AllocError>
    requires { n < 2 ^ 62 }
    ensures { (trees : List Tree) → IfOk result (λ c. certificate_in trees c ≡ by_clash n) }
{
    let mut lines = Vec::new(alloc);
    lines.push(CertLine::Both(n))?;
    lines.push(CertLine::Both(n + 2))?;
    Ok(closed_by(lines, CertLine::Clash(n + 3, n + 4)))
}

/// The certificate of that, where equation m is turned round before.
pub(crate) fn turned_tree(alloc: Global, n: u64, m: u64) -> Result<CertTree, AllocError>
    requires { n < 2 ^ 62 }
    ensures { (trees : List Tree) → IfOk result (λ c. certificate_in trees c ≡ by_turned n m) }
{
    let mut lines = Vec::new(alloc);
    lines.push(CertLine::Both(n))?;
    lines.push(CertLine::Both(n + 2))?;
    lines.push(CertLine::Sym(m))?;
    Ok(closed_by(lines, CertLine::Clash(n + 5, n + 4)))
}
