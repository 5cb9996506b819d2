// How far a walk goes.

/// How far a walk goes: its most steps, and whether the forms of a branch that nothing splits are
/// decided exactly, where it would stay open without.
#[derive(Clone, Copy)]
pub struct Reach {
    pub steps: u64,
    pub exact: bool,
}
