// The lines of a proof file that were taken, and those set aside behind them.
ghost use Rattle.std.specs.Prelude.{◌≡◌, ◌+◌, ◌^◌, ◌<◌, ◌++◌, ℕ, List, [], length, Ok, Err, OnOk, IfErr};
ghost use Rattle.sm_proof.specs.FieldRanges.{IsWithinFields};
ghost use Rattle.sm_proof.specs.Lines.{line_of};
ghost use Rattle.sm_proof.specs.Verdicts.{Subject, Standing, Unopened, Reached, next_standing, reads_exact};
ghost use Rattle.sm_check.specs.Aside.{ComesTo, StopsAt, IsNoLine, certificates_of, joined, lines_aside, progress_at, standing_after, with_line};
ghost use Rattle.sm_check.specs.Checkers.{IsAt};
ghost use Rattle.sm_check.specs.Closing.{CloseFirst};
ghost use Rattle.sm_check.specs.LineEnds.{HasNoEnd, ended_in};
ghost use Rattle.sm_check.specs.Pieces.{RefusesAt, StandsAt, Takes};
ghost use Rattle.sm_check.specs.declared.fault.Stopped.TheVariants.{Memory};

use crate::aside::Aside;
use crate::certs::closes_branch;
use crate::checker::{Checker, State};
use crate::fault::{LineFault, Stopped};
use crate::guess::Guess;
use crate::jobs::Crew;
use crate::raw_lines::{RawLines, first_line};
use sm_par::Gate;
use sm_proof::{Line, LineError, Word, line_with};
use std::alloc::Global;
use std::thread::Threads;

/// The lines that were taken so far.
#[derive(Drop)]
pub(crate) struct TakenLines<'a> {
    pub(crate) checker: Checker<'a>,
    /// Whether the proof is done.
    pub(crate) state: State,
    /// The number of the next line, from 1.
    pub(crate) number: u64,
    /// No line of the certificate that is due was taken. It decides only what is set aside.
    pub(crate) at_start: bool,
}

impl<'a> TakenLines<'a> {
    /// None yet.
    pub(crate) fn new(checker: Checker<'a>) -> TakenLines<'a>
        ensures number { result.number ≡ 1 }
        ensures stands { (s : Subject) → IsAt checker.entry s (Ok Unopened) →
            StandsAt result s Unopened }
    {
        TakenLines {
            checker,
            state: State::More,
            number: 1,
            at_start: true,
        }
    }

    /// Takes an ended line, or sets it aside.
    pub(crate) fn take<R: Threads + Sync, G: Gate>(
        &mut self,
        crew: &Crew<'_, R, G>,
        alloc: Global,
        aside: &mut Aside,
        line: &[u8],
    ) -> Result<(), Stopped>
        requires room { self.old.number + length (lines_aside aside.old) + 1 < 2 ^ 64 }
        requires no_end { HasNoEnd line.now }
        ensures number { OnOk result (self.new.number + length (lines_aside aside.new)
            ≡ self.old.number + length (lines_aside aside.old) + 1) }
        ensures ok { (s : Subject) (r : Reached) → ComesTo self.old (lines_aside aside.old) s r →
            OnOk result
            (ComesTo self.new (lines_aside aside.new) s (with_line s line.now r)) }
        ensures err { (s : Subject) (r : Reached) → ComesTo self.old (lines_aside aside.old) s r →
            IfErr result (StopsAt (with_line s line.now r)) }
    {
        let guess = guessed(crew.workers, line);
        if !self.may_wait(alloc, aside, guess) {
            self.take_aside(crew, alloc, aside)?;
            return self.check(alloc, line);
        }
        aside.push(alloc, line, guess)?;
        if aside.is_full() {
            return self.take_aside(crew, alloc, aside);
        }
        Ok(())
    }

    /// The next line can't be read, unless one that is set aside is bad.
    pub(crate) fn refuse<R: Threads + Sync, G: Gate>(
        &mut self,
        crew: &Crew<'_, R, G>,
        alloc: Global,
        aside: &mut Aside,
        word: Word,
    ) -> Stopped
        requires room { self.old.number + length (lines_aside aside.old) < 2 ^ 64 }
        ensures { (s : Subject) (r : Reached) (line : List ℕ) → IsNoLine line word →
            ComesTo self.old (lines_aside aside.old) s r →
            StopsAt (with_line s line r) result }
    {
        match self.take_aside(crew, alloc, aside) {
            Ok(()) => self.unread(word),
            Err(stopped) => stopped,
        }
    }

    /// Takes all that is set aside.
    pub(crate) fn take_aside<R: Threads + Sync, G: Gate>(
        &mut self,
        crew: &Crew<'_, R, G>,
        alloc: Global,
        aside: &mut Aside,
    ) -> Result<(), Stopped>
        requires room { self.old.number + length (lines_aside aside.old) < 2 ^ 64 }
        ensures none { OnOk result (lines_aside aside.new ≡ []) }
        ensures number { OnOk result
            (self.new.number ≡ self.old.number + length (lines_aside aside.old)) }
        ensures ok { (s : Subject) (r : Reached) → ComesTo self.old (lines_aside aside.old) s r →
            OnOk result (ComesTo self.new [] s r) }
        ensures err { (s : Subject) (r : Reached) → ComesTo self.old (lines_aside aside.old) s r →
            IfErr result (StopsAt r) }
    {
        if aside.is_empty() {
            return Ok(());
        }
        let closed = self.checker.closed_first(crew, &aside.whole)?;
        self.skip(&aside.whole[..closed])?;
        self.check_each(alloc, &aside.whole[closed..])?;
        self.check_all(alloc, &aside.begun.bytes)?;
        *aside = Aside::new(alloc, 0);
        Ok(())
    }

    /// Takes the ended lines of bytes in turn.
    pub(crate) fn check_all(&mut self, alloc: Global, bytes: &[u8]) -> Result<(), Stopped>
        requires { self.old.number + length (ended_in bytes.now) < 2 ^ 64 }
        ensures number { OnOk result
            (self.new.number ≡ self.old.number + length (ended_in bytes.now)) }
        ensures ok { (s : Subject) (r : Reached) (more : List (List ℕ)) →
            ComesTo self.old (ended_in bytes.now ++ more) s r →
            OnOk result (ComesTo self.new more s r) }
        ensures err { (s : Subject) (r : Reached) (more : List (List ℕ)) →
            ComesTo self.old (ended_in bytes.now ++ more) s r → IfErr result (StopsAt r) }
    {
        let mut left = bytes;
        while let Some((line, behind)) = first_line(left) {
            self.check(alloc, line)?;
            left = behind;
        }
        Ok(())
    }

    // Whether a line may be set aside. The first one begins the certificate that is due.
    fn may_wait(&self, alloc: Global, aside: &mut Aside, guess: Guess) -> bool
        ensures { lines_aside aside.new ≡ lines_aside aside.old }
    {
        if !guess.is_of_certificate() {
            return false;
        }
        if self.at_start && aside.is_empty() {
            *aside = Aside::new(alloc, self.checker.goals_due());
        }
        aside.has_room()
    }

    // Skips certificates that close the branches that are due.
    fn skip(&mut self, certificates: &[RawLines]) -> Result<(), Stopped>
        requires { self.old.number + length (joined (certificates_of certificates.now)) < 2 ^ 64 }
        ensures number { OnOk result (self.new.number
            ≡ self.old.number + length (joined (certificates_of certificates.now))) }
        ensures ok { (s : Subject) (r : Reached) (more : List (List ℕ)) →
            let cs = certificates_of certificates.now in
            (t : ComesTo self.old (joined cs ++ more) s r) → let p = progress_at s t.at in
            CloseFirst (reads_exact t.at) s.sorts p.terms p.pending cs →
            OnOk result (ComesTo self.new more s r) }
        ensures err { IfErr result (λ e. e ≡ Memory) }
    {
        for lines in certificates {
            self.state = self.checker.skip_branch()?;
            self.number += lines.count;
            self.at_start = true;
        }
        Ok(())
    }

    // Takes the lines of certificates in turn.
    fn check_each(&mut self, alloc: Global, certificates: &[RawLines]) -> Result<(), Stopped>
        requires { self.old.number + length (joined (certificates_of certificates.now)) < 2 ^ 64 }
        ensures number { OnOk result (self.new.number
            ≡ self.old.number + length (joined (certificates_of certificates.now))) }
        ensures ok { (s : Subject) (r : Reached) (more : List (List ℕ)) →
            ComesTo self.old (joined (certificates_of certificates.now) ++ more) s r →
            OnOk result (ComesTo self.new more s r) }
        ensures err { (s : Subject) (r : Reached) (more : List (List ℕ)) →
            ComesTo self.old (joined (certificates_of certificates.now) ++ more) s r →
            IfErr result (StopsAt r) }
    {
        for lines in certificates {
            self.check_all(alloc, &lines.bytes)?;
        }
        Ok(())
    }

    // Reads a line and takes it.
    fn check(&mut self, alloc: Global, line: &[u8]) -> Result<(), Stopped>
        requires { self.old.number + 1 < 2 ^ 64 }
        ensures number { OnOk result (self.new.number ≡ self.old.number + 1) }
        ensures ok { (s : Subject) (at : Standing) → StandsAt self.old s at →
            OnOk result (Takes self.new s (standing_after s at line.now)) }
        ensures err { (s : Subject) (at : Standing) → StandsAt self.old s at →
            IfErr result (RefusesAt self.old.number (standing_after s at line.now)) }
    {
        match line_with(alloc, line, self.checker.reads_exact()) {
            Ok(line) => self.check_line(&line),
            Err(LineError::BadLine) => Err(self.unread(Word::BadLine)),
            Err(LineError::BadNumber) => Err(self.unread(Word::BadNumber)),
            Err(LineError::Truncated) => Err(self.unread(Word::Truncated)),
            Err(LineError::Memory) => Err(Stopped::Memory),
        }
    }

    // Takes a line that was read.
    fn check_line(&mut self, line: &Line) -> Result<(), Stopped>
        requires room { self.old.number + 1 < 2 ^ 64 }
        requires within { IsWithinFields (line_of line.now) }
        ensures number { OnOk result (self.new.number ≡ self.old.number + 1) }
        ensures ok { (s : Subject) (at : Standing) → StandsAt self.old s at →
            OnOk result (Takes self.new s (next_standing s at (Ok (line_of line.now)))) }
        ensures err { (s : Subject) (at : Standing) → StandsAt self.old s at →
            IfErr result (RefusesAt self.old.number (next_standing s at (Ok (line_of line.now)))) }
    {
        match self.checker.line(line) {
            Ok(state) => {
                self.state = state;
                self.number += 1;
                self.at_start = starts_after(line, self.at_start);
                Ok(())
            }
            Err(LineFault::Wrong { word }) => Err(Stopped::Wrong {
                line: self.number,
                word,
            }),
            Err(LineFault::Memory) => Err(Stopped::Memory),
        }
    }

    // The next line can't be read. The first line then has another word.
    fn unread(&self, word: Word) -> Stopped
        ensures { (s : Subject) (at : Standing) → StandsAt self.now s at →
            RefusesAt self.now.number (next_standing s at (Err word)) result }
    {
        Stopped::Wrong {
            line: self.number,
            word: if self.number == 1 {
                Word::BadVersion
            } else {
                word
            },
        }
    }
}

// What a line seems to do. With one worker none is looked at, and none is set aside.
fn guessed(workers: u32, line: &[u8]) -> Guess {
    if workers == 1 {
        Guess::Other
    } else {
        Guess::of(line)
    }
}

// Whether a certificate starts behind a line, where it started before or not. A closed part of a
// branch is none, but no goal is due then.
fn starts_after(line: &Line, starts: bool) -> bool {
    match line {
        Line::Node(_) => true,
        Line::Cert(line) => closes_branch(line),
        _ => starts,
    }
}
