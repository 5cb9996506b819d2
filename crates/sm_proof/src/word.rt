// Why a proof file is rejected.
ghost use Rattle.std.specs.Prelude.{◌≡◌};
ghost use Rattle.sm_proof.specs.HeadWords.{head_word, word_text};

/// The kind of a line, by the word that it begins with.
#[derive(Clone, Copy, Debug, PartialEq, Eq)]
pub enum Head {
    T,
    P,
    Step,
    Abs,
    Fork,
    Loop,
    Block,
    Dead,
    End,
    Both,
    Either,
    Cases,
    Order,
    Refl,
    Sym,
    Trans,
    Subst,
    Cong,
    Same,
    Apart,
    Hit,
    Miss,
    Lin,
    Elim,
    Tight,
    Exact,
    Close,
    Clash,
}

impl Head {
    /// The first word of the kind's lines.
    pub fn word(self) -> &'static str
        ensures { result.now ≡ head_word self }
    {
        match self {
            Head::T => "t",
            Head::P => "p",
            Head::Step => "step",
            Head::Abs => "abs",
            Head::Fork => "fork",
            Head::Loop => "loop",
            Head::Block => "block",
            Head::Dead => "dead",
            Head::End => "end",
            Head::Both => "both",
            Head::Either => "either",
            Head::Cases => "cases",
            Head::Order => "order",
            Head::Refl => "refl",
            Head::Sym => "sym",
            Head::Trans => "trans",
            Head::Subst => "subst",
            Head::Cong => "cong",
            Head::Same => "same",
            Head::Apart => "apart",
            Head::Hit => "hit",
            Head::Miss => "miss",
            Head::Lin => "lin",
            Head::Elim => "elim",
            Head::Tight => "tight",
            Head::Exact => "exact",
            Head::Close => "close",
            Head::Clash => "clash",
        }
    }
}

/// What is wrong with the first bad line of a proof file.
#[derive(Clone, Copy, Debug, PartialEq, Eq)]
pub enum Word {
    /// The line has no end, or isn't there though the proof isn't done.
    Truncated,
    /// The first line is no version line that passes for the task.
    BadVersion,
    /// It is no line by its words and their count, or is too long.
    BadLine,
    /// A number is ill spelled or beyond its field, or names nothing that is there.
    BadNumber,
    /// The proof is done.
    Extra,
    /// A node stands where a certificate is due, or a line of a certificate where a node is.
    Order,
    /// Too many branching nodes or splits stand above what the line opens.
    Deep,
    /// The line's condition fails.
    First(Head),
}

impl Word {
    /// The word as a rejection prints it.
    pub fn text(self) -> &'static str
        ensures { result.now ≡ word_text self }
    {
        match self {
            Word::Truncated => "Truncated",
            Word::BadVersion => "BadVersion",
            Word::BadLine => "BadLine",
            Word::BadNumber => "BadNumber",
            Word::Extra => "Extra",
            Word::Order => "Order",
            Word::Deep => "Deep",
            Word::First(head) => head.word(),
        }
    }
}
