// What is known of places, fact by fact.

/// What is known of two places.
#[derive(Clone, Copy)]
pub(crate) enum Known {
    Equal(u64, u64),
    Unequal(u64, u64),
}

/// A rule, with the numbers of the facts that it takes.
#[derive(Drop)]
pub(crate) enum Rule {
    Refl,
    Sym(u64),
    Trans(u64, u64),
    /// The left side of a contrary is replaced by what it equals.
    Subst(u64, u64),
    /// The linear forms are equal.
    Alike,
    /// The linear forms differ in the constant alone.
    Apart,
    /// The arguments are equal, one by one.
    Cong(Vec<u64>),
    /// An element is read where one was written.
    Hit(u64),
    /// An element is read at another place than one was written.
    Miss(u64),
}

/// Why a fact is known.
#[derive(Drop)]
pub(crate) enum Why {
    /// It was given under this number.
    Given(u64),
    By(Rule),
}

/// A fact that is known, with the numbers of earlier entries.
#[derive(Drop)]
pub(crate) struct Entry {
    pub(crate) why: Why,
    pub(crate) known: Known,
}

/// A pair of places that was given under a number.
#[derive(Clone, Copy)]
pub(crate) struct Given {
    pub(crate) fact: u64,
    pub(crate) left: u64,
    pub(crate) right: u64,
}

/// An equation that an entry says.
#[derive(Clone, Copy)]
pub(crate) struct Equation {
    pub(crate) left: u64,
    pub(crate) right: u64,
    pub(crate) entry: u64,
}

/// The contrary of an equation that an entry says.
#[derive(Clone, Copy)]
pub(crate) struct Contrary {
    pub(crate) left: u64,
    pub(crate) right: u64,
    pub(crate) entry: u64,
}

/// A step of an explanation: a fact by a rule, from facts with numbers.
#[derive(Drop)]
pub(crate) struct Step {
    pub(crate) rule: Rule,
    pub(crate) known: Known,
}
