// Terms that can be named since their parts can.
ghost use Rattle.std.specs.Prelude.{◌≡◌, IfSome, List};
ghost use Rattle.sm_term.specs.Tables.{trees_in, sorts_in};
ghost use Rattle.sm_plan.specs.States.{State};
ghost use Rattle.sm_audit.specs.Since.{AreSince, IsKnownBy, IsMadeOf};

use crate::entries::{entry, put, when_both};
use sm_term::{Term, TermId, TermTable};

// The first node at which a term can be named.
fn when(since: &[Option<u64>], t: TermId) -> Option<u64>
    ensures { IfSome result (λ node. IsKnownBy since.now node t.0) }
{
    entry(since, t)
}

// The first node at which three terms can be named.
fn when_all(since: &[Option<u64>], t: TermId, u: TermId, w: TermId) -> Option<u64>
    ensures { IfSome result (λ node. IsKnownBy since.now node t.0
        × IsKnownBy since.now node u.0 × IsKnownBy since.now node w.0) }
{
    let first = entry(since, t)?;
    let others = when_both(since, u, w)?;
    Some(first.max(others))
}

// The first node at which the parts of a term can be named. A new value and a summary have none.
fn by_parts(since: &[Option<u64>], term: &Term) -> Option<u64>
    ensures { IfSome result (λ node. IsMadeOf since.now node term.now) }
{
    match term {
        Term::Lit(_) => Some(0),
        Term::Start(_) => Some(0),
        Term::Havoc { .. } => None,
        Term::Slot { .. } => Some(0),
        Term::Cell => Some(0),
        Term::Read(a, i) => when_both(since, *a, *i),
        Term::Write(a, i, e) => when_all(since, *a, *i, *e),
        Term::Neg(t) => when(since, *t),
        Term::Add(t, u) => when_both(since, *t, *u),
        Term::Sub(t, u) => when_both(since, *t, *u),
        Term::Mul(t, u) => when_both(since, *t, *u),
        Term::Fun { .. } => None,
    }
}

// Gives a term the entry that its parts tell, if they tell one.
fn spread_one(table: &TermTable, since: &mut Vec<Option<u64>>, t: TermId)
    ensures { (states : List State) →
        AreSince (sorts_in table.now) states (trees_in table.now) since.old.items →
        AreSince (sorts_in table.now) states (trees_in table.now) since.new.items }
{
    // The terms of a table are sorted, as its length ensures.
    if t.0 >= table.len() {
        return;
    }
    match by_parts(since.as_slice(), table.get(t)) {
        Some(node) => put(since, t, node),
        None => {}
    }
}

/// Gives each term the entry that its parts tell, if they tell one, the parts first.
pub(crate) fn spread(table: &TermTable, since: &mut Vec<Option<u64>>)
    ensures { (states : List State) →
        AreSince (sorts_in table.now) states (trees_in table.now) since.old.items →
        AreSince (sorts_in table.now) states (trees_in table.now) since.new.items }
{
    let count = since.len();
    for n in 0..count {
        spread_one(table, since, TermId(n as u64));
    }
}
