// The verdict where a proof file ends.
ghost use Rattle.std.specs.Prelude.{◌≡◌, ℕ, List, [], Decides};
ghost use Rattle.sm_proof.specs.Verdicts.{Subject, lines_in, verdict};
ghost use Rattle.sm_check.specs.Files.{verdict_of};
ghost use Rattle.sm_check.specs.Pieces.{AreEndedTaken};

use crate::checker::State;
use crate::taken_lines::TakenLines;
use crate::verifying::Checked;
use sm_proof::Word;

/// The verdict where a file ends whose ended lines were taken: behind them stands no byte, or some
/// do.
pub(crate) fn at_end(lines: &TakenLines, ends_whole: bool) -> Checked
    ensures { (s : Subject) (bytes : List ℕ) → AreEndedTaken lines.now s bytes →
        Decides ends_whole ((lines_in bytes).rest ≡ []) → verdict s bytes ≡ verdict_of result }
{
    if !ends_whole {
        return missing(lines);
    }
    match lines.state {
        State::Done => Checked::Pass,
        State::More => missing(lines),
    }
}

// The next line is missing, or has no end.
fn missing(lines: &TakenLines) -> Checked
    ensures { result ≡ Checked.Rejected lines.now.number Word.Truncated }
{
    Checked::Rejected {
        line: lines.number,
        word: Word::Truncated,
    }
}
