// Lines of certificates.
use sm_term::TermId;

/// Numbers of facts.
#[derive(Debug, Drop)]
pub struct FactNumbers {
    pub list: Vec<u64>,
}

/// A line of a certificate. A number names a fact of the branch, but for that of `Exact`.
#[derive(Debug, Drop)]
pub enum CertLine {
    /// Both parts of a conjunction are added.
    Both(u64),
    /// The branch is split by the parts of a disjunction.
    Either(u64),
    /// The branch is split: two numbers are equal, or they aren't.
    Cases(TermId, TermId),
    /// The branch is split: of two numbers that aren't equal one is less, or the other is.
    Order(u64),
    /// A term is equal to itself.
    Refl(TermId),
    /// An equation, or the contrary of one, turned round.
    Sym(u64),
    /// `t = u` and `u = v` give `t = v`.
    Trans(u64, u64),
    /// `t != u` and `t = v` give `v != u`.
    Subst(u64, u64),
    /// Terms of one head are equal where their arguments are, by facts in the arguments' order.
    Cong(TermId, TermId, FactNumbers),
    /// Two numbers have one linear form.
    Same(TermId, TermId),
    /// Two numbers have linear forms that differ in the constant alone.
    Apart(TermId, TermId),
    /// What is read at the index that was written is what was written.
    Hit(TermId, u64),
    /// What is read at another index is what was there before.
    Miss(TermId, TermId, u64),
    /// A comparison of numbers as a linear form.
    Lin(u64),
    /// The sum of two forms in which an atom cancels.
    Elim(u64, u64, TermId),
    /// A form divided by what divides its coefficients, with its constant rounded.
    Tight(u64),
    /// The linear forms of the branch have no solution in whole numbers, by the exact decision in so
    /// many steps. The number is no fact's.
    Exact(u64),
    /// A fact that can't hold closes the branch.
    Close(u64),
    /// A fact and its contrary close the branch.
    Clash(u64, u64),
}
