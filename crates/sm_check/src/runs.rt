// Lines in a row that seem to add to one branch.
ghost use Rattle.std.specs.Prelude.{◌≡◌, ◌≤◌, [], length, take};
ghost use Rattle.sm_proof.specs.Verdicts.{lines_in};
ghost use Rattle.sm_check.specs.LineEnds.{ended_in};

use crate::guess::Guess;
use crate::raw_lines::line_end;

/// How many bytes and lines the longest run has that bytes begin with: ended lines, at most so
/// many, each of which seems to add to its branch.
pub(crate) fn run_of(bytes: &[u8], most: u64) -> (usize, u64)
    ensures size { result.0 ≤ length bytes.now }
    ensures ended { (lines_in (take result.0 bytes.now)).rest ≡ [] }
    ensures counted { result.1 ≡ length (ended_in (take result.0 bytes.now)) }
{
    let mut size = 0;
    let mut count = 0;
    while count < most {
        let end = match line_end(&bytes[size..]) {
            Some(end) => end,
            None => break,
        };
        if !Guess::of(&bytes[size..size + end]).adds() {
            break;
        }
        size += end + 1;
        count += 1;
    }
    (size, count)
}
