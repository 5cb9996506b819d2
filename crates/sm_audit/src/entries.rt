// From which nodes on terms can be named: an entry for each term of a table.
ghost use Rattle.std.specs.Bool.{OnTrue};
ghost use Rattle.std.specs.Prelude.{◌≡◌, ℕ, None, IfOk, IfSome};
ghost use Rattle.sm_audit.specs.Since.{entry_of, IsKnownBy, IsPut};

use sm_term::TermId;
use std::alloc::{AllocError, Global};

/// So many entries, which tell nothing.
pub(crate) fn no_entries(alloc: Global, count: u64) -> Result<Vec<Option<u64>>, AllocError>
    ensures { IfOk result (λ since. (n : ℕ) → entry_of since.items n ≡ None) }
{
    vec![in alloc; None; count as usize]
}

/// The entry of a term.
pub(crate) fn entry(since: &[Option<u64>], t: TermId) -> Option<u64>
    ensures { result ≡ entry_of since.now t.0 }
{
    match since.get(t.0 as usize) {
        Some(node) => *node,
        None => None,
    }
}

/// Makes a node the entry of a term, if it has one.
pub(crate) fn put(since: &mut Vec<Option<u64>>, t: TermId, node: u64)
    ensures { IsPut since.old.items since.new.items t.0 node }
{
    let place = t.0 as usize;
    if place >= since.len() {
        return;
    }
    since[place] = Some(node);
}

/// The first node at which two terms can be named.
pub(crate) fn when_both(since: &[Option<u64>], t: TermId, u: TermId) -> Option<u64>
    ensures { IfSome result (λ node. IsKnownBy since.now node t.0 × IsKnownBy since.now node u.0) }
{
    let first = entry(since, t)?;
    let second = entry(since, u)?;
    Some(first.max(second))
}

/// Whether a term can be named at a node.
pub(crate) fn is_known(since: &[Option<u64>], node: u64, t: TermId) -> bool
    ensures { OnTrue result (IsKnownBy since.now node t.0) }
{
    match entry(since, t) {
        Some(first) => first <= node,
        None => false,
    }
}

/// Whether two terms can be named at a node.
pub(crate) fn are_known(since: &[Option<u64>], node: u64, t: TermId, u: TermId) -> bool
    ensures { OnTrue result (IsKnownBy since.now node t.0 × IsKnownBy since.now node u.0) }
{
    is_known(since, node, t) && is_known(since, node, u)
}
