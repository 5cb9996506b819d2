// Numbers, each with the first term of its class.
ghost use Rattle.std.specs.Prelude.{◌≡◌, ◌<◌, ◌==◌, ◌++◌, ◌∷◌, [], ℕ, List, length, if◌then◌else◌, nat_eq, Some, IfOk, OnOk};
ghost use Rattle.std.specs.HashMap.{get};
ghost use Rattle.sm_term.specs.Tables.{trees_in, sorts_in, tree_at};
ghost use Rattle.sm_pairs.specs.Pairs.{Pairs};
ghost use Rattle.sm_judge.specs.Labelled.{TellClasses, noted_or, noted_first};
ghost use Rattle.sm_judge.specs.Making.{pair_with, pairs_of, places_of, ArePairsWithin};

use sm_syntax::Sort;
use sm_term::{TermId, TermTable};
use std::alloc::{AllocError, Global};
use std::collections::HashMap;

// Each number that isn't the first term of its class, with this one. Terms of one class have one
// label.
pub(crate) fn class_pairs(
    alloc: Global,
    labels: &[u64],
    table: &TermTable,
) -> Result<Vec<(TermId, TermId)>, AllocError>
    requires { length labels.now ≡ length (trees_in table.now) }
    ensures pairs { let trees = trees_in table.now in
        (equal : Pairs) → TellClasses trees equal labels.now → IfOk result (λ ps.
        places_of ps.items ≡ pairs_of (sorts_in table.now) equal trees 0 trees) }
    ensures within { IfOk result (λ ps. ArePairsWithin (length (trees_in table.now)) ps.items) }
{
    let mut firsts = HashMap::with_capacity(alloc, labels.len())?;
    let mut pairs = Vec::new(alloc);
    for n in 0..table.len() {
        let first = first_with(&mut firsts, labels[n as usize], n)?;
        add_pair(&mut pairs, table, TermId(n), TermId(first))?;
    }
    Ok(pairs)
}

// The place that is noted for a label; where none is, this one, which is noted then.
fn first_with(firsts: &mut HashMap<u64, u64>, label: u64, place: u64) -> Result<u64, AllocError>
    ensures first { IfOk result (λ f. f ≡ noted_or (get nat_eq firsts.old label) place) }
    ensures noted { OnOk result ((l : ℕ) →
        get nat_eq firsts.new l ≡ noted_first (get nat_eq firsts.old l) (nat_eq label l) place) }
{
    match firsts.get(&label) {
        Some(first) => Ok(*first),
        None => {
            firsts.insert(label, place)?;
            Ok(place)
        }
    }
}

// Adds a number with the first term of its class, where this is another.
fn add_pair(
    pairs: &mut Vec<(TermId, TermId)>,
    table: &TermTable,
    t: TermId,
    first: TermId,
) -> Result<(), AllocError>
    requires term { t.0 < length (trees_in table.now) }
    requires first { first.0 < length (trees_in table.now) }
    requires within { ArePairsWithin (length (trees_in table.now)) pairs.old.items }
    ensures pairs { let tree = tree_at (trees_in table.now) t.0 in
        OnOk result (places_of pairs.new.items ≡ places_of pairs.old.items
        ++ pair_with (sorts_in table.now) tree t.0 (Some first.0)) }
    ensures within { OnOk result (ArePairsWithin (length (trees_in table.now)) pairs.new.items) }
{
    if table.sort(t) != Sort::Num {
        return Ok(());
    }
    put_pair(pairs, t, first)
}

// Adds two terms, where they aren't one.
fn put_pair(pairs: &mut Vec<(TermId, TermId)>, t: TermId, u: TermId) -> Result<(), AllocError>
    ensures { OnOk result (pairs.new.items
        ≡ pairs.old.items ++ (if t.0 == u.0 then [] else (t, u) ∷ [])) }
{
    if t.0 != u.0 {
        pairs.push((t, u))?;
    }
    Ok(())
}
