// The condition at one cell.
ghost use Rattle.std.specs.Prelude.{◌≡◌, ◌↔◌, IsTrue, IsNone, IfSome};
ghost use Rattle.sm_syntax.specs.trees.FirstBroken.{IsFirstBroken};
ghost use Rattle.sm_syntax.specs.claim.Keeps.{Keeps, KeepsChange, AddsNothing};

/// The first part of `Keeps` that fails at a cell with these four values: 1 for the change of A, 2
/// for that of B, 3 for a change that nobody made. None where the candidate keeps both changes and
/// adds no other.
pub fn keeps(base: i128, a: i128, b: i128, candidate: i128) -> Option<u8>
    ensures kept { IsNone result ↔ Keeps base a b candidate }
    ensures broken { IfSome result (λ part. IsFirstBroken part base a b candidate) }
{
    if !keeps_change(base, a, candidate) {
        Some(1)
    } else if !keeps_change(base, b, candidate) {
        Some(2)
    } else if !adds_nothing(base, a, b, candidate) {
        Some(3)
    } else {
        None
    }
}

fn keeps_change(base: i128, variant: i128, candidate: i128) -> bool
    ensures { IsTrue result ↔ KeepsChange base variant candidate }
{
    base == variant || candidate == variant
}

fn adds_nothing(base: i128, a: i128, b: i128, candidate: i128) -> bool
    ensures { IsTrue result ↔ AddsNothing base a b candidate }
{
    base != a || a != b || candidate == base
}
