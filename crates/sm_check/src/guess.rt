// What a line seems to do.

use crate::unfinished::LONGEST;

/// What a line seems to do to the branch that is due. A guess decides only which lines are set
/// aside, and where a certificate of theirs ends.
#[derive(Clone, Copy)]
pub(crate) enum Guess {
    Adds,
    Splits,
    Closes,
    /// It seems to be no line of a certificate.
    Other,
}

impl Guess {
    /// Goes by the first two bytes alone, unless the line is too long. No two words share them but
    /// `same` and that of the version line, which no goal is due before.
    pub(crate) fn of(line: &[u8]) -> Guess {
        if line.len() < 2 || line.len() > LONGEST {
            return Guess::Other;
        }
        let second = line[1];
        match line[0] {
            b'r' | b'h' | b'm' => Guess::Adds,
            b's' if second != b't' => Guess::Adds,
            b't' if second != b' ' => Guess::Adds,
            b'a' if second == b'p' => Guess::Adds,
            b'b' if second == b'o' => Guess::Adds,
            b'c' => match second {
                b'o' => Guess::Adds,
                b'a' => Guess::Splits,
                _ => Guess::Closes,
            },
            b'e' => match second {
                b'l' | b'x' => Guess::Adds,
                b'i' => Guess::Splits,
                _ => Guess::Other,
            },
            b'l' if second == b'i' => Guess::Adds,
            b'o' => Guess::Splits,
            _ => Guess::Other,
        }
    }

    /// Whether the line seems to add to its branch, which stays open.
    pub(crate) fn adds(self) -> bool {
        match self {
            Guess::Adds => true,
            _ => false,
        }
    }

    /// Whether the line seems to be one of a certificate.
    pub(crate) fn is_of_certificate(self) -> bool {
        match self {
            Guess::Other => false,
            _ => true,
        }
    }
}
