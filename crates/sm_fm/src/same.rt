// Whether two forms are the same.
ghost use Rattle.std.specs.Prelude.{◌≡◌};
ghost use Rattle.sm_fm.specs.Elimination.{same_form, same_list};

use sm_num::LinForm;

// Whether two forms hold the same.
pub(crate) fn same(f: &LinForm, g: &LinForm) -> bool
    ensures { result ≡ same_form f.now g.now }
{
    same_parts(f.parts(), g.parts()) && f.constant() == g.constant() && f.kind() == g.kind()
}

// Whether two lists have the same parts in the same order.
fn same_parts(a: &[(u64, i128)], b: &[(u64, i128)]) -> bool
    ensures { result ≡ same_list a.now b.now }
{
    *a == *b
}
