// Certificates checked on a branch.
ghost use Rattle.std.specs.Prelude.{◌≡◌, ℕ, false, List, [], ◌∷◌, ◌++◌, length, take, nat_lt, IfOk, OnOk, IfErr, None};
ghost use Rattle.sm_syntax.specs.text.Sorts.{Sorts};
ghost use Rattle.sm_term.specs.Tables.{trees_in, sorts_in};
ghost use Rattle.sm_term.specs.Terms.{Tree};
ghost use Rattle.sm_term.specs.TableLaws.{AreTreesSorted};
ghost use Rattle.sm_theory.specs.Facts.{BranchFact, IsContradictory};
ghost use Rattle.sm_theory.specs.SortedFacts.{AreFactsSorted};
ghost use Rattle.sm_theory.specs.Views.{AllStand};
ghost use Rattle.sm_cert.specs.Certificates.{Certificate, first_of_three, first_bad, lines_in, splits_above, bad_line, refused};
ghost use Rattle.sm_cert.specs.Views.{lines_before, certificate_in, lines_of, AreLinesWithin, FaultTells};
ghost use Rattle.sm_cert.specs.NamedTerms.{IsCertificateSorted};
ghost use Rattle.sm_cert.specs.Check.{line_number, Arrives, Passes};

use crate::copies::copy_branch;
use crate::error::CertFault;
use crate::tree::{CertEnd, CertTree};
use crate::ways::{add_line, closes, parts};
use sm_term::TermTable;
use sm_theory::{Branch, CertLine, Fact, Theory};
use std::alloc::Global;

// Whether more than `allowed` splits stand above a line. It goes no deeper than that.
fn is_deep(tree: &CertTree, allowed: u64) -> bool
    ensures deep { (trees : List Tree) →
        result ≡ nat_lt allowed (splits_above (certificate_in trees tree.now)) }

    // Where it isn't, each line was met, and names what its terms are.
    ensures named { result ≡ false → (sorts : Sorts) (trees : List Tree) →
        AreTreesSorted sorts trees → AreLinesWithin (length trees) (lines_of tree.now) →
        IsCertificateSorted sorts (certificate_in trees tree.now) }
{
    match &tree.last {
        CertEnd::Close(_) => false,
        CertEnd::Split(_, first, second) => {
            if allowed == 0 {
                return true;
            }
            if is_deep(first, allowed - 1) {
                return true;
            }
            is_deep(second, allowed - 1)
        }
    }
}

// The three theories, which are asked in this order what a line adds.
#[derive(Drop)]
struct ThreeTheories<'a, E, L, R> {
    euf: &'a E,
    lia: &'a L,
    rows: &'a R,
}

// Puts what lines add on the branch, one after the other. It gives the number of the line after
// them.
fn add_lines<E: Theory, L: Theory, R: Theory>(
    alloc: Global,
    three: &ThreeTheories<'_, E, L, R>,
    table: &TermTable,
    path: &mut Branch,
    lines: &[CertLine],
    n: u64,
) -> Result<u64, CertFault>
    requires within { AreLinesWithin (length (trees_in table.now)) lines.now }
    requires sorted { AreTreesSorted (sorts_in table.now) (trees_in table.now) }
    ensures ok { let trees = trees_in table.now in let sorts = sorts_in table.now in
        let theories = first_of_three (E.adds three.now.euf.now) (L.adds three.now.lia.now)
        (R.adds three.now.rows.now) sorts in
        (facts : List BranchFact) (m : ℕ) → AllStand sorts trees path.old.list.items facts →
        AreFactsSorted sorts facts → n ≡ line_number m →
        IfOk result (Arrives theories sorts trees facts m lines.now path.new.list.items) }
    ensures err { let trees = trees_in table.now in let sorts = sorts_in table.now in
        let theories = first_of_three (E.adds three.now.euf.now) (L.adds three.now.lia.now)
        (R.adds three.now.rows.now) sorts in
        (facts : List BranchFact) (m : ℕ) (c : Certificate) →
        AllStand sorts trees path.old.list.items facts →
        AreFactsSorted sorts facts → n ≡ line_number m → IfErr result (λ e.
        FaultTells e (bad_line (first_bad theories sorts facts m (lines_before trees lines.now c)))) }
    ensures kept { OnOk result (take (length path.old.list.items)
        path.new.list.items ≡ path.old.list.items) }
{
    let mut at = n;
    for line in lines {
        if !add_line(alloc, three.euf, three.lia, three.rows, table, path, line)? {
            return Err(CertFault::Wrong { line: at });
        }
        at = at.saturating_add(1);
    }
    Ok(at)
}

// Checks a certificate, whose first line has number n, on the branch. It gives the number of the
// line after it, and may leave facts behind those of the branch.
#[cycle(check)]
fn check_at<E: Theory, L: Theory, R: Theory>(
    alloc: Global,
    three: &ThreeTheories<'_, E, L, R>,
    table: &TermTable,
    path: &mut Branch,
    tree: &CertTree,
    n: u64,
) -> Result<u64, CertFault>
    requires within { AreLinesWithin (length (trees_in table.now)) (lines_of tree.now) }
    requires sorted { AreTreesSorted (sorts_in table.now) (trees_in table.now) }
    ensures ok { let trees = trees_in table.now in let sorts = sorts_in table.now in
        let theories = first_of_three (E.adds three.now.euf.now) (L.adds three.now.lia.now)
        (R.adds three.now.rows.now) sorts in
        (facts : List BranchFact) (m : ℕ) → AllStand sorts trees path.old.list.items facts →
        AreFactsSorted sorts facts → n ≡ line_number m →
        IfOk result (Passes theories sorts facts m (certificate_in trees tree.now)) }
    ensures err { let trees = trees_in table.now in let sorts = sorts_in table.now in
        let theories = first_of_three (E.adds three.now.euf.now) (L.adds three.now.lia.now)
        (R.adds three.now.rows.now) sorts in
        (facts : List BranchFact) (m : ℕ) → AllStand sorts trees path.old.list.items facts →
        AreFactsSorted sorts facts → n ≡ line_number m → IfErr result (λ e.
        FaultTells e (bad_line (first_bad theories sorts facts m (certificate_in trees tree.now)))) }
    ensures kept { OnOk result (take (length path.old.list.items)
        path.new.list.items ≡ path.old.list.items) }
{
    let at = add_lines(alloc, three, table, path, &tree.lines.list, n)?;
    match &tree.last {
        CertEnd::Close(line) => {
            if closes(table, path, line) {
                Ok(at.saturating_add(1))
            } else {
                Err(CertFault::Wrong { line: at })
            }
        }
        CertEnd::Split(line, first, second) => match parts(alloc, table, path, line)? {
            Some((f, g)) => {
                let next = at.saturating_add(1);
                let next = check_side(alloc, three, table, path, f, first, next)?;
                check_side(alloc, three, table, path, g, second, next)
            }
            None => Err(CertFault::Wrong { line: at }),
        },
    }
}

// Checks a certificate on the branch with one more fact, and leaves the branch as it was.
#[cycle(check)]
fn check_side<E: Theory, L: Theory, R: Theory>(
    alloc: Global,
    three: &ThreeTheories<'_, E, L, R>,
    table: &TermTable,
    path: &mut Branch,
    fact: Fact,
    tree: &CertTree,
    n: u64,
) -> Result<u64, CertFault>
    requires within { AreLinesWithin (length (trees_in table.now)) (lines_of tree.now) }
    requires sorted { AreTreesSorted (sorts_in table.now) (trees_in table.now) }
    ensures ok { let trees = trees_in table.now in let sorts = sorts_in table.now in
        let theories = first_of_three (E.adds three.now.euf.now) (L.adds three.now.lia.now)
        (R.adds three.now.rows.now) sorts in
        (facts way : List BranchFact) (m : ℕ) → AllStand sorts trees path.old.list.items facts →
        AllStand sorts trees (fact ∷ []) way → AreFactsSorted sorts (facts ++ way) →
        n ≡ line_number m →
        IfOk result (Passes theories sorts (facts ++ way) m (certificate_in trees tree.now)) }
    ensures err { let trees = trees_in table.now in let sorts = sorts_in table.now in
        let theories = first_of_three (E.adds three.now.euf.now) (L.adds three.now.lia.now)
        (R.adds three.now.rows.now) sorts in
        (facts way : List BranchFact) (m : ℕ) → AllStand sorts trees path.old.list.items facts →
        AllStand sorts trees (fact ∷ []) way → AreFactsSorted sorts (facts ++ way) →
        n ≡ line_number m → IfErr result (λ e. FaultTells e
        (bad_line (first_bad theories sorts (facts ++ way) m (certificate_in trees tree.now)))) }
    ensures kept { OnOk result (path.new.list.items ≡ path.old.list.items) }
{
    let above = path.list.len();
    path.list.push(fact)?;
    let next = check_at(alloc, three, table, path, tree, n)?;
    path.list.truncate(above);
    Ok(next)
}

/// Checks a certificate on a branch. The terms that its lines name are in the table. Too many splits
/// above a line are found first, and then the first line whose condition fails.
pub fn check_tree<E: Theory, L: Theory, R: Theory>(
    alloc: Global,
    euf: &E,
    lia: &L,
    rows: &R,
    table: &TermTable,
    branch: &Branch,
    tree: &CertTree,
) -> Result<(), CertFault>
    requires { AreLinesWithin (length (trees_in table.now)) (lines_of tree.now) }
    ensures ok { let trees = trees_in table.now in let sorts = sorts_in table.now in
        let theories = first_of_three (E.adds euf.now) (L.adds lia.now) (R.adds rows.now) sorts in
        (facts : List BranchFact) → AllStand sorts trees branch.now.list.items facts →
        AreFactsSorted sorts facts →
        IfOk result (λ _. refused theories sorts facts (certificate_in trees tree.now) ≡ None) }
    ensures err { let trees = trees_in table.now in let sorts = sorts_in table.now in
        let theories = first_of_three (E.adds euf.now) (L.adds lia.now) (R.adds rows.now) sorts in
        (facts : List BranchFact) → AllStand sorts trees branch.now.list.items facts →
        AreFactsSorted sorts facts → IfErr result (λ e.
        FaultTells e (refused theories sorts facts (certificate_in trees tree.now))) }

    // Ok tells that the facts can't all hold, whoever wrote the certificate.
    ensures sound { let trees = trees_in table.now in let sorts = sorts_in table.now in
        (facts : List BranchFact) → AllStand sorts trees branch.now.list.items facts →
        AreFactsSorted sorts facts → IfOk result (λ _. IsContradictory facts) }
{
    if is_deep(tree, 1000) {
        return Err(CertFault::Deep);
    }
    // The terms of a table are sorted, as its length ensures.
    table.len();
    let mut path = copy_branch(alloc, branch)?;
    let three = ThreeTheories { euf, lia, rows };
    check_at(alloc, &three, table, &mut path, tree, 0)?;
    Ok(())
}
