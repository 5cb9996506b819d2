// What waits for the answer of a list.
ghost use Rattle.std.specs.Prelude.{◌+◌, ◌≤◌, ◌^◌};

use sm_num::LinForm;

// From which side forms bound a variable.
#[derive(Clone, Copy)]
pub(crate) enum Side {
    Below,
    Above,
}

// What waits for the answer of the list at hand.
#[derive(Drop)]
pub(crate) enum Frame {
    // The variable gets its value by an equation.
    Equation {
        t: u64,
        e: LinForm,
    },
    // It gets its value by bounds.
    Bounds {
        t: u64,
        side: Side,
        forms: Vec<LinForm>,
    },
    // It gets its value by the lower bounds, where the list of dark shadows has a solution; where
    // it has none, the splinters of each are tried.
    Dark {
        s: u64,
        t: u64,
        forms: Vec<LinForm>,
    },
    // A solution stands; where there is none, the splinters that are left are tried.
    Splinters(Tried),
}

// The splinters that are left.
#[derive(Drop)]
pub(crate) struct Tried {
    pub(crate) s: u64,
    pub(crate) t: u64,
    pub(crate) forms: Vec<LinForm>,
    // The lower bound that is tried, so many splinters of it, and which is the next.
    pub(crate) bound: LinForm,
    pub(crate) left: u128,
    pub(crate) next: u128,
    // The place in the list behind that bound.
    pub(crate) after: usize,
    ghost few: { next + left ≤ 2 ^ 127 },
}
