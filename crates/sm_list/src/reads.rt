// What each element that is read was before it was written, listed behind the terms.
ghost use Rattle.std.specs.Prelude.{◌≡◌, ◌<◌, ◌≤◌, ◌+◌, length, map, drop, Some, slice_get, IfOk, IfSome, OnOk};
ghost use Rattle.sm_term.specs.Terms.{Read};
ghost use Rattle.sm_term.specs.Tables.{trees_in, tree_at};
ghost use Rattle.sm_term.specs.TableLaws.{AddsTerms};
ghost use Rattle.sm_theory.specs.TermsOfFormulas.{put};
ghost use Rattle.sm_list.specs.Branches.{greatest_of, writes_on, put_if, read_before, with_reads, with_all_reads};
ghost use Rattle.sm_terms.specs.Listing.{trees_at, AreBelow, IsClosed};
ghost use Rattle.sm_list.specs.Reading.{read_told, read_under};

use sm_numbering::Numbering;
use sm_term::{Term, TermId, TermTable};
use std::alloc::AllocError;

// Lists what each element that is read was before it was written, and so on of what is new.
pub(crate) fn list_reads(
    table: &mut TermTable,
    listed: &mut Numbering<u64>,
) -> Result<(), AllocError>
    requires listed { AreBelow (length (trees_in table.old)) listed.old }
    requires closed { IsClosed (trees_at (trees_in table.old) listed.old) }
    ensures terms { let seen = trees_at (trees_in table.old) listed.old in
        let all = with_all_reads (greatest_of (map writes_on seen)) seen in
        OnOk result (trees_at (trees_in table.new) listed.new ≡ all) }
    ensures listed { OnOk result (AreBelow (length (trees_in table.new)) listed.new) }
    ensures grows { AddsTerms table.old table.new }
{
    let mut from = 0;
    while from < listed.len() {
        let end = listed.len();
        list_round(table, listed, from, end)?;
        from = end;
    }
    Ok(())
}

// Lists what the elements that are read from a place on were before.
fn list_round(
    table: &mut TermTable,
    listed: &mut Numbering<u64>,
    from: usize,
    end: usize,
) -> Result<(), AllocError>
    requires listed { AreBelow (length (trees_in table.old)) listed.old }
    requires end { end ≡ length listed.old }
    requires from { from ≤ end }
    ensures terms { let seen = trees_at (trees_in table.old) listed.old in
        let all = with_reads (drop from seen) seen in
        OnOk result (trees_at (trees_in table.new) listed.new ≡ all) }
    ensures listed { OnOk result (AreBelow (length (trees_in table.new)) listed.new) }
    ensures grows { AddsTerms table.old table.new }
{
    for k in from..end {
        let n = *listed.get(k);
        list_read_before(table, listed, TermId(n))?;
    }
    Ok(())
}

// Lists what an element that is read was before it was written.
fn list_read_before(
    table: &mut TermTable,
    listed: &mut Numbering<u64>,
    t: TermId,
) -> Result<(), AllocError>
    requires within { t.0 < length (trees_in table.old) }
    requires listed { AreBelow (length (trees_in table.old)) listed.old }
    ensures terms { let trees = trees_in table.old in
        let all = put_if (read_before (tree_at trees t.0)) (trees_at trees listed.old) in
        OnOk result (trees_at (trees_in table.new) listed.new ≡ all) }
    ensures listed { OnOk result (AreBelow (length (trees_in table.new)) listed.new) }
    ensures grows { AddsTerms table.old table.new }
{
    match read_before(table, t) {
        Some((a, i)) => list_read(table, listed, a, i),
        None => Ok(()),
    }
}

// The array before it was written, and the index at which it is read after that.
fn read_before(table: &TermTable, t: TermId) -> Option<(TermId, TermId)>
    requires { t.0 < length (trees_in table.now) }
    ensures tree { let trees = trees_in table.now in
        read_told trees result ≡ read_before (tree_at trees t.0) }
    ensures within { let count = length (trees_in table.now) in
        IfSome result (λ p. (p.0.0 < count) × (p.1.0 < count)) }
{
    match table.get(t) {
        Term::Read(a, i) => read_under(table, *a, *i),
        _ => None,
    }
}

// The array before it was written, with an index.
fn read_under(table: &TermTable, a: TermId, i: TermId) -> Option<(TermId, TermId)>
    requires array { a.0 < length (trees_in table.now) }
    requires index { i.0 < length (trees_in table.now) }
    ensures tree { let trees = trees_in table.now in
        read_told trees result ≡ read_under (tree_at trees a.0) (tree_at trees i.0) }
    ensures within { let count = length (trees_in table.now) in
        IfSome result (λ p. (p.0.0 < count) × (p.1.0 < count)) }
{
    match table.get(a) {
        Term::Write(before, _, _) => Some((*before, i)),
        _ => None,
    }
}

// Lists the element of an array at an index.
fn list_read(
    table: &mut TermTable,
    listed: &mut Numbering<u64>,
    a: TermId,
    i: TermId,
) -> Result<(), AllocError>
    requires array { a.0 < length (trees_in table.old) }
    requires index { i.0 < length (trees_in table.old) }
    requires listed { AreBelow (length (trees_in table.old)) listed.old }
    ensures terms { let trees = trees_in table.old in
        let read = Read (tree_at trees a.0) (tree_at trees i.0) in
        let all = put read (trees_at trees listed.old) in
        OnOk result (trees_at (trees_in table.new) listed.new ≡ all) }
    ensures listed { OnOk result (AreBelow (length (trees_in table.new)) listed.new) }
    ensures grows { AddsTerms table.old table.new }
{
    let t = read_number(table, a, i)?;
    // No term is there twice.
    let _count = table.len();
    listed.add(t.0)?;
    Ok(())
}

// The number of the element of an array at an index.
fn read_number(table: &mut TermTable, a: TermId, i: TermId) -> Result<TermId, AllocError>
    requires array { a.0 < length (trees_in table.old) }
    requires index { i.0 < length (trees_in table.old) }
    ensures stored { let trees = trees_in table.old in
        let read = Read (tree_at trees a.0) (tree_at trees i.0) in
        IfOk result (λ t. slice_get (trees_in table.new) t.0 ≡ Some read) }
    ensures grows { AddsTerms table.old table.new }
{
    match table.intern(Term::Read(a, i)) {
        Ok(t) => Ok(t),
        // Where an element of the written array is read, the sorts fit.
        Err(_) => Err(AllocError),
    }
}
