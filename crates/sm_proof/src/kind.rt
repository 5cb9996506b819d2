// The kinds of lines that make terms and formulas.
ghost use Rattle.std.specs.Prelude.{◌≡◌};
ghost use Rattle.sm_proof.specs.HeadWords.{form_word, term_word};

/// The kind of a line `t`, by its second word.
#[derive(Clone, Copy, Debug)]
pub enum TermKind {
    Lit,
    Start,
    Cell,
    Slot,
    Cur,
    Of,
    Arg,
    Read,
    Write,
    Neg,
    Add,
    Sub,
    Mul,
}

impl TermKind {
    /// The second word of the kind's lines.
    pub fn word(self) -> &'static str
        ensures { result.now ≡ term_word self }
    {
        match self {
            TermKind::Lit => "lit",
            TermKind::Start => "start",
            TermKind::Cell => "cell",
            TermKind::Slot => "slot",
            TermKind::Cur => "cur",
            TermKind::Of => "of",
            TermKind::Arg => "arg",
            TermKind::Read => "read",
            TermKind::Write => "write",
            TermKind::Neg => "neg",
            TermKind::Add => "add",
            TermKind::Sub => "sub",
            TermKind::Mul => "mul",
        }
    }
}

/// The kind of a line `p`, by its second word.
#[derive(Clone, Copy, Debug)]
pub enum FormKind {
    Yes,
    No,
    Eq,
    Ne,
    Le,
    Lt,
    And,
    Or,
}

impl FormKind {
    /// The second word of the kind's lines.
    pub fn word(self) -> &'static str
        ensures { result.now ≡ form_word self }
    {
        match self {
            FormKind::Yes => "yes",
            FormKind::No => "no",
            FormKind::Eq => "eq",
            FormKind::Ne => "ne",
            FormKind::Le => "le",
            FormKind::Lt => "lt",
            FormKind::And => "and",
            FormKind::Or => "or",
        }
    }
}
