// Lines of a proof file.
use sm_theory::CertLine;

/// A line `t`, which makes a term. A term is named by the number of its line among those of terms,
/// a fact by its number on the branch, a name by its number.
#[derive(Clone, Copy, Debug)]
pub enum TermLine {
    Lit(i128),
    /// The start value of a name.
    Start(u64),
    /// The index of an array's cell.
    Cell,
    /// The place of a copy's value of a name in a kept formula.
    Slot { copy: u8, name: u64 },
    /// The present term of a copy's name.
    Cur { copy: u8, name: u64 },
    /// The left term of a fact that compares two, side 0, or the right one, side 1.
    Of { fact: u64, side: u8 },
    /// An argument of a term, from 0.
    Arg { term: u64, place: u64 },
    Read(u64, u64),
    Write(u64, u64, u64),
    Neg(u64),
    Add(u64, u64),
    Sub(u64, u64),
    Mul(u64, u64),
}

/// A line `p`, which makes a formula. A formula is named by the number of its line among those of
/// formulas.
#[derive(Clone, Copy, Debug)]
pub enum FormLine {
    Yes,
    No,
    Eq(u64, u64),
    Ne(u64, u64),
    Le(u64, u64),
    Lt(u64, u64),
    And(u64, u64),
    Or(u64, u64),
}

/// A line that is a node of the plan.
#[derive(Clone, Copy, Debug)]
pub enum NodeLine {
    Step {
        copy: u8,
    },
    Abs {
        copy: u8,
        count: u64,
    },
    Fork {
        copy: u8,
    },
    /// The copies whose bits are set in `set`, the base's the least, and the formula that is kept.
    Loop {
        set: u8,
        keep: u64,
    },
    Block {
        k0: u64,
        k1: u64,
        k2: u64,
        k3: u64,
        keep: u64,
    },
    Dead,
    End,
}

/// A line of a proof file. The terms that a line of a certificate names are numbers of lines here.
#[derive(Debug, Drop)]
pub enum Line {
    Header { version: u8 },
    Term(TermLine),
    Form(FormLine),
    Node(NodeLine),
    Cert(CertLine),
}
