// Certificates that are set aside.
ghost use Rattle.std.specs.Prelude.{◌≡◌, ◌++◌, ◌≤◌, true, [], ◌∷◌, length, take, OnOk, IfOk};
ghost use Rattle.sm_proof.specs.Verdicts.{lines_in};
ghost use Rattle.sm_check.specs.Aside.{lines_aside, HoldsNone};
ghost use Rattle.sm_check.specs.LineEnds.{HasNoEnd, ended_in};

use crate::guess::Guess;
use crate::raw_lines::RawLines;
use crate::runs::run_of;
use std::alloc::{AllocError, Global};
use std::mem;

/// How many lines a certificate may have that is set aside.
const LONGEST: u64 = 4096;

/// Certificates of goals of one node that are set aside, to be read and run together. How they are
/// cut decides only what runs together: where a cut is wrong, lines don't close their branch, and
/// are taken in turn.
#[derive(Drop)]
pub(crate) struct Aside {
    /// The certificates that are whole.
    pub(crate) whole: Vec<RawLines>,
    /// The lines of the next one.
    pub(crate) begun: RawLines,
    // How many of its branches seem to be open.
    open: u64,
    // How many goals are due.
    goals: usize,
}

impl Aside {
    /// Nothing is set aside yet, where so many goals are due.
    pub(crate) fn new(alloc: Global, goals: usize) -> Aside
        ensures lines { lines_aside result ≡ [] }
        ensures none { HoldsNone result }
    {
        Aside {
            whole: Vec::new(alloc),
            begun: RawLines::new(alloc),
            open: 1,
            goals,
        }
    }

    /// Whether nothing is set aside.
    pub(crate) fn is_empty(&self) -> bool
        ensures lines { result ≡ true → lines_aside self.now ≡ [] }
        ensures none { HoldsNone self.now → result ≡ true }
    {
        self.whole.is_empty() && self.begun.is_empty()
    }

    /// Whether a line may be set aside.
    pub(crate) fn has_room(&self) -> bool {
        if self.begun.is_empty() {
            self.whole.len() < self.goals
        } else {
            self.begun.count < LONGEST
        }
    }

    /// Whether the certificates of all goals that are due are set aside.
    pub(crate) fn is_full(&self) -> bool {
        self.begun.is_empty() && self.whole.len() >= self.goals
    }

    /// Sets a line of a certificate aside.
    pub(crate) fn push(
        &mut self,
        alloc: Global,
        line: &[u8],
        guess: Guess,
    ) -> Result<(), AllocError>
        requires { HasNoEnd line.now }
        ensures { OnOk result (lines_aside self.new ≡ lines_aside self.old ++ line.now ∷ []) }
    {
        let lines = mem::replace(&mut self.begun, RawLines::new(alloc));
        let begun = lines.with_line(line)?;
        let open = open_after(self.open, guess);
        if open > 0 {
            self.begun = begun;
            self.open = open;
            return Ok(());
        }
        self.whole.push(begun)?;
        self.open = 1;
        Ok(())
    }

    /// Sets the lines aside that bytes begin with, as long as they seem to go on with the branch
    /// of the certificate that is begun. Answers how many bytes they have.
    pub(crate) fn push_run(&mut self, alloc: Global, bytes: &[u8]) -> Result<usize, AllocError>
        ensures few { IfOk result (λ n. n ≤ length bytes.now) }
        ensures ended { IfOk result (λ n. (lines_in (take n bytes.now)).rest ≡ []) }
        ensures lines { OnOk result (IfOk result (λ n. lines_aside self.new
            ≡ lines_aside self.old ++ ended_in (take n bytes.now))) }
    {
        if self.begun.is_empty() || self.begun.count >= LONGEST {
            return Ok(0);
        }
        let (size, count) = run_of(bytes, LONGEST - self.begun.count);
        let lines = mem::replace(&mut self.begun, RawLines::new(alloc));
        self.begun = lines.with_run(&bytes[..size], count)?;
        Ok(size)
    }
}

// How many branches of a certificate seem to be open after a line.
fn open_after(open: u64, guess: Guess) -> u64 {
    match guess {
        Guess::Splits => open.saturating_add(1),
        Guess::Closes => open.saturating_sub(1),
        Guess::Adds | Guess::Other => open,
    }
}
