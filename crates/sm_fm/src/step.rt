// What a step of an elimination gives.
use sm_term::TermId;

/// What a step gives. `f` and `g` are places in the list of the given forms, which the kept sums
/// follow.
#[derive(Clone, Copy)]
pub enum ElimStep {
    /// The sum of the forms `f` and `g` without the atom, whether it is kept, and whether it is a
    /// contradiction.
    Line {
        f: u64,
        g: u64,
        atom: TermId,
        kept: bool,
        contradiction: bool,
    },
    /// Nothing is left.
    End,
}
