// Elements that are read, of arrays to which one was written.
ghost use Rattle.std.specs.Prelude.{◌≡◌, ◌<◌, List, length, IfSome, IfNone};
ghost use Rattle.sm_term.specs.Terms.{Read};
ghost use Rattle.sm_term.specs.Tables.{tree_at, trees_in, sorts_in};
ghost use Rattle.sm_term.specs.SameTerms.{same_tree};
ghost use Rattle.sm_theory.specs.Facts.{BranchFact};
ghost use Rattle.sm_theory.specs.Lines.{Hit, Miss};
ghost use Rattle.sm_theory.specs.Elements.{element_adds};
ghost use Rattle.sm_theory.specs.Views.{AllStand, StandsIf};
ghost use Rattle.sm_rows.specs.Reads.{IsReadOfWrite, IsNoReadOfWrite};

use sm_term::{Formula, Term, TermId, TermTable};
use sm_theory::{Branch, Fact, same_term, says_equal, says_unequal};

// An element that is read, of an array to which one was written.
#[derive(Clone, Copy)]
struct ReadOfWrite {
    before: TermId,
    written_at: TermId,
    element: TermId,
    read_at: TermId,
}

// The element at the index that was written is what was written.
pub(crate) fn hit(table: &TermTable, branch: &Branch, t: TermId, n: u64) -> Option<Fact>
    requires { t.0 < length (trees_in table.now) }
    ensures { let trees = trees_in table.now in let sorts = sorts_in table.now in
        (facts : List BranchFact) → AllStand sorts trees branch.now.list.items facts →
        StandsIf sorts trees result (element_adds facts (Hit (tree_at trees t.0) n)) }
{
    let r = read_of_write(table, t)?;
    if says_equal(table, branch, n, r.written_at, r.read_at) {
        Some(Fact::Form(Formula::Eq(t, r.element)))
    } else {
        None
    }
}

// The element at another index is what was there before.
pub(crate) fn missed(
    table: &TermTable,
    branch: &Branch,
    t: TermId,
    u: TermId,
    n: u64,
) -> Option<Fact>
    requires left { t.0 < length (trees_in table.now) }
    requires right { u.0 < length (trees_in table.now) }
    ensures { let trees = trees_in table.now in let sorts = sorts_in table.now in
        (facts : List BranchFact) → AllStand sorts trees branch.now.list.items facts →
        let miss = Miss (tree_at trees t.0) (tree_at trees u.0) n in
        StandsIf sorts trees result (element_adds facts miss) }
{
    let r = read_of_write(table, t)?;
    if says_unequal(table, branch, n, r.written_at, r.read_at)
        && is_read(table, u, r.before, r.read_at)
    {
        Some(Fact::Form(Formula::Eq(t, u)))
    } else {
        None
    }
}

// What a term reads, where it is an element of an array to which one was written.
fn read_of_write(table: &TermTable, t: TermId) -> Option<ReadOfWrite>
    requires { t.0 < length (trees_in table.now) }
    ensures some { let trees = trees_in table.now in
        IfSome result (λ r. IsReadOfWrite trees r (tree_at trees t.0)) }
    ensures none { IfNone result (IsNoReadOfWrite (tree_at (trees_in table.now) t.0)) }
{
    match table.get(t) {
        Term::Read(a, i) => written(table, *a, *i),
        _ => None,
    }
}

// What is read there, of the array and the index that are read.
fn written(table: &TermTable, a: TermId, i: TermId) -> Option<ReadOfWrite>
    requires left { a.0 < length (trees_in table.now) }
    requires right { i.0 < length (trees_in table.now) }
    ensures some { let trees = trees_in table.now in
        IfSome result (λ r.
        IsReadOfWrite trees r (Read (tree_at trees a.0) (tree_at trees i.0))) }
    ensures none { let trees = trees_in table.now in
        IfNone result (IsNoReadOfWrite (Read (tree_at trees a.0) (tree_at trees i.0))) }
{
    match table.get(a) {
        Term::Write(before, written_at, element) => Some(ReadOfWrite {
            before: *before,
            written_at: *written_at,
            element: *element,
            read_at: i,
        }),
        _ => None,
    }
}

// Whether a term is the element of an array at an index.
fn is_read(table: &TermTable, u: TermId, a: TermId, i: TermId) -> bool
    requires element { u.0 < length (trees_in table.now) }
    requires array { a.0 < length (trees_in table.now) }
    requires index { i.0 < length (trees_in table.now) }
    ensures { let trees = trees_in table.now in
        result ≡ same_tree (tree_at trees u.0) (Read (tree_at trees a.0) (tree_at trees i.0)) }
{
    match table.get(u) {
        Term::Read(b, j) => same_term(table, *b, a) && same_term(table, *j, i),
        _ => false,
    }
}
