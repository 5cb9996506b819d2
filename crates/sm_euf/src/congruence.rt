// Terms of one head whose arguments are equal.
ghost use Rattle.std.specs.Prelude.{◌≡◌, ◌<◌, List, length};
ghost use Rattle.sm_term.specs.Tables.{tree_at, trees_in, sorts_in, AreBefore};
ghost use Rattle.sm_term.specs.Heads.{same_head};
ghost use Rattle.sm_theory.specs.Facts.{BranchFact};
ghost use Rattle.sm_theory.specs.Lines.{Cong};
ghost use Rattle.sm_theory.specs.Equality.{equality_adds, say_equal};
ghost use Rattle.sm_theory.specs.Views.{AllStand, StandsIf};
ghost use Rattle.sm_euf.specs.Arguments.{argument_numbers, trees_of};

use crate::arguments::{argument, heads_match};
use sm_term::{Formula, Term, TermId, TermTable};
use sm_theory::{Branch, Fact, says_equal};

// The equation of two terms of one head, where the facts with these numbers say in order that their
// arguments are equal.
pub(crate) fn congruent(
    table: &TermTable,
    branch: &Branch,
    t: TermId,
    u: TermId,
    numbers: &[u64],
) -> Option<Fact>
    requires left { t.0 < length (trees_in table.now) }
    requires right { u.0 < length (trees_in table.now) }
    ensures { let trees = trees_in table.now in let sorts = sorts_in table.now in
        (facts : List BranchFact) → AllStand sorts trees branch.now.list.items facts →
        let cong = Cong (tree_at trees t.0) (tree_at trees u.0) numbers.now in
        StandsIf sorts trees result (equality_adds sorts facts cong) }
{
    if numbers.is_empty() || !same_head(table, t, u) {
        return None;
    }
    if equal_arguments(table, branch, table.get(t), table.get(u), numbers) {
        Some(Fact::Form(Formula::Eq(t, u)))
    } else {
        None
    }
}

// Whether two terms have one head.
fn same_head(table: &TermTable, t: TermId, u: TermId) -> bool
    requires left { t.0 < length (trees_in table.now) }
    requires right { u.0 < length (trees_in table.now) }
    ensures { let trees = trees_in table.now in
        result ≡ same_head (tree_at trees t.0) (tree_at trees u.0) }
{
    // A table has no body twice, as its length ensures.
    table.len();
    heads_match(table.get(t), table.get(u))
}

// Whether the facts with these numbers say in order that the arguments of two terms are equal.
fn equal_arguments(table: &TermTable, branch: &Branch, t: &Term, u: &Term, numbers: &[u64]) -> bool
    requires left { AreBefore (length (trees_in table.now)) (argument_numbers t.now) }
    requires right { AreBefore (length (trees_in table.now)) (argument_numbers u.now) }
    ensures { let trees = trees_in table.now in
        (facts : List BranchFact) →
        AllStand (sorts_in table.now) trees branch.now.list.items facts →
        result ≡ say_equal facts numbers.now (trees_of trees (argument_numbers t.now))
        (trees_of trees (argument_numbers u.now)) }
{
    for i in 0..numbers.len() {
        let Some(a) = argument(t, i) else {
            return false;
        };
        let Some(b) = argument(u, i) else {
            return false;
        };
        if !says_equal(table, branch, numbers[i], a, b) {
            return false;
        }
    }
    argument(t, numbers.len()).is_none() && argument(u, numbers.len()).is_none()
}
