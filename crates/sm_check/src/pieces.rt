// The lines of a proof file, piece by piece.
ghost use Rattle.std.specs.Prelude.{◌≡◌, ◌+◌, ◌^◌, ◌<◌, ◌≤◌, ◌++◌, ℕ, List, [], ◌∷◌, length, OnOk, IfErr};
ghost use Rattle.sm_proof.specs.Verdicts.{Subject};
ghost use Rattle.sm_check.specs.Aside.{AreRead, lines_aside};
ghost use Rattle.sm_check.specs.LineEnds.{HasNoEnd};
ghost use Rattle.sm_check.specs.Pieces.{StopsIn};

use crate::aside::Aside;
use crate::fault::Stopped;
use crate::jobs::Crew;
use crate::raw_lines::line_end;
use crate::taken_lines::TakenLines;
use crate::unfinished::Unfinished;
use sm_par::Gate;
use sm_proof::Word;
use std::alloc::Global;
use std::thread::Threads;

/// Takes the next bytes of a file. What is set aside stays aside.
pub(crate) fn take_piece<R: Threads + Sync, G: Gate>(
    crew: &Crew<'_, R, G>,
    lines: &mut TakenLines,
    aside: &mut Aside,
    unfinished: &mut Unfinished,
    alloc: Global,
    piece: &[u8],
) -> Result<(), Stopped>
    requires room { lines.old.number + length (lines_aside aside.old) + length piece.now < 2 ^ 64 }
    ensures number { OnOk result (lines.new.number + length (lines_aside aside.new)
        ≤ lines.old.number + length (lines_aside aside.old) + length piece.now) }
    ensures ok { (s : Subject) (bytes : List ℕ) →
        AreRead lines.old (lines_aside aside.old) unfinished.old s bytes → OnOk result
        (AreRead lines.new (lines_aside aside.new) unfinished.new s (bytes ++ piece.now)) }
    ensures err { (s : Subject) (bytes : List ℕ) →
        AreRead lines.old (lines_aside aside.old) unfinished.old s bytes →
        IfErr result (StopsIn s (bytes ++ piece.now)) }
{
    let mut start = 0;
    while let Some(end) = line_end(&piece[start..]) {
        let front = &piece[start..start + end];
        end_line(crew, lines, aside, unfinished, alloc, front)?;
        start += end + 1;
        start += aside.push_run(alloc, &piece[start..])?;
    }
    unfinished.add(&piece[start..])?;
    Ok(())
}

// Takes the unfinished line, which these bytes and a line end finish, or sets it aside. One that
// lies in them whole isn't copied.
fn end_line<R: Threads + Sync, G: Gate>(
    crew: &Crew<'_, R, G>,
    lines: &mut TakenLines,
    aside: &mut Aside,
    unfinished: &mut Unfinished,
    alloc: Global,
    front: &[u8],
) -> Result<(), Stopped>
    requires room { lines.old.number + length (lines_aside aside.old) + 1 < 2 ^ 64 }
    requires no_end { HasNoEnd front.now }
    ensures number { OnOk result (lines.new.number + length (lines_aside aside.new)
        ≡ lines.old.number + length (lines_aside aside.old) + 1) }
    ensures ok { (s : Subject) (bytes : List ℕ) →
        AreRead lines.old (lines_aside aside.old) unfinished.old s bytes → OnOk result
        (AreRead lines.new (lines_aside aside.new) unfinished.new s
        (bytes ++ (front.now ++ 10 ∷ []))) }
    ensures err { (s : Subject) (bytes : List ℕ) →
        AreRead lines.old (lines_aside aside.old) unfinished.old s bytes →
        IfErr result (StopsIn s (bytes ++ (front.now ++ 10 ∷ []))) }
{
    if unfinished.is_empty() {
        return lines.take(crew, alloc, aside, front);
    }
    unfinished.add(front)?;
    if unfinished.is_too_long {
        return Err(lines.refuse(crew, alloc, aside, Word::BadLine));
    }
    lines.take(crew, alloc, aside, unfinished.line())?;
    unfinished.bytes.clear();
    Ok(())
}
