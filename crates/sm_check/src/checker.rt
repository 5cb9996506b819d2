// A proof on its way.
ghost use Rattle.std.specs.Prelude.{◌≡◌, ◌≤◌, ◌∷◌, Bool, List, Ok, Err, IfOk, IfErr, length, take};
ghost use Rattle.sm_proof.specs.FieldRanges.{IsWithinFields};
ghost use Rattle.sm_proof.specs.Lines.{line_of};
ghost use Rattle.sm_proof.specs.Passing.{Pending, Progress};
ghost use Rattle.sm_proof.specs.Verdicts.{Subject, Standing, Unopened, Underway, subject_of, next_standing, passes_version, reads_exact};
ghost use Rattle.sm_proof.specs.Versions.{has_exact};
ghost use Rattle.sm_term.specs.Tables.{sorts_in};
ghost use Rattle.sm_task.specs.Filling.{AreFilled};
ghost use Rattle.sm_text.specs.Tasks.{parts_of};
ghost use Rattle.sm_check.specs.Checkable.{IsCheckable};
ghost use Rattle.sm_check.specs.Aside.{certificates_of, progress_at};
ghost use Rattle.sm_check.specs.Checkers.{HasFacts, IsAt, GoesOn, Stops, sorts_known, state_of};
ghost use Rattle.sm_check.specs.Closing.{CloseFirst};
ghost use Rattle.sm_check.specs.Tells.{Tells};

use crate::due::make_due;
use crate::fault::LineFault;
use crate::jobs::{Crew, closed_first};
use crate::openings::goals_due;
use crate::raw_lines::RawLines;
use crate::start::start;
use crate::walk::Walk;
use sm_par::Gate;
use sm_proof::{Line, NodeLine, Word, may_stand};
use sm_syntax::{Block, PerCopy};
use sm_task::Task;
use sm_term::{Formula, TermTable};
use sm_theory::CertLine;
use std::alloc::{AllocError, Global};
use std::thread::Threads;

/// Whether a proof is done.
#[derive(Clone, Copy, Debug)]
pub enum State {
    /// Nothing is pending.
    Done,
    More,
}

/// A proof on its way, over the programs of its task.
#[derive(Drop)]
pub struct Checker<'a> {
    alloc: Global,
    walk: Walk<'a>,
    /// The task assumes something.
    assumes: bool,
    /// The version line is taken.
    opened: bool,
    /// Lines `exact` are read: before the version line, and where the version has them.
    exact: bool,
    stopped: Option<LineFault>,
}

impl<'a> Checker<'a> {
    /// A proof of which no line is taken yet.
    pub fn new(
        alloc: Global,
        task: &Task,
        programs: &'a PerCopy<Block>,
    ) -> Result<Checker<'a>, AllocError>
        requires filled { AreFilled (parts_of task.now) programs.now }
        requires checkable { IsCheckable (parts_of task.now) }
        ensures { let s = subject_of (parts_of task.now) in
            IfOk result (λ c. IsAt c s (Ok Unopened)) }
    {
        Ok(Checker {
            alloc,
            walk: start(alloc, task, programs)?,
            assumes: task.assumed.is_some(),
            opened: false,
            exact: true,
            stopped: None,
        })
    }

    /// Takes a line. After an error each call answers it again.
    pub fn line(&mut self, line: &Line) -> Result<State, LineFault>
        requires { IsWithinFields (line_of line.now) }
        ensures ok { (s : Subject) (at : Standing) → IsAt self.old s (Ok at) →
            IfOk result (GoesOn s (next_standing s at (Ok (line_of line.now))) self.new) }
        ensures err { (s : Subject) (at : Standing) → IsAt self.old s (Ok at) →
            IfErr result (Stops s (next_standing s at (Ok (line_of line.now))) self.new) }
        ensures stopped { (s : Subject) (e : LineFault) → IsAt self.old s (Err e) →
            (result ≡ Err e) × IsAt self.new s (Err e) }
        ensures sorts { sorts_known self.new ≡ sorts_known self.old }
    {
        if let Some(fault) = self.stopped {
            return Err(fault);
        }
        match self.take(line) {
            Ok(()) => Ok(self.state()),
            Err(fault) => {
                self.stopped = Some(fault);
                Err(fault)
            }
        }
    }

    /// A line of a certificate over the terms that were made, at the branch that is due.
    pub fn named(&self, line: &CertLine) -> Result<CertLine, LineFault> {
        self.walk.named(self.alloc, line)
    }

    /// The formula that a node keeps, over the terms that were made, Yes where it keeps none.
    pub fn kept(&self, line: &NodeLine) -> Result<Formula, LineFault> {
        self.walk.kept(self.alloc, line)
    }

    /// How many facts the branch has that is due.
    pub fn facts(&self) -> u64
        ensures { (s : Subject) (exact : Bool) (p : Progress) →
            IsAt self.now s (Ok (Underway exact p)) → HasFacts p.pending result }
    {
        self.walk.facts()
    }

    /// The terms that were made.
    pub fn into_table(self) -> TermTable
        ensures { sorts_in result ≡ sorts_known self.entry }
    {
        self.walk.into_table()
    }

    /// Whether lines `exact` are read.
    pub(crate) fn reads_exact(&self) -> bool
        ensures { (s : Subject) (at : Standing) → IsAt self.now s (Ok at) →
            result ≡ reads_exact at }
    {
        self.exact
    }

    /// How many goals of one node are due, up to 64.
    pub(crate) fn goals_due(&self) -> usize
        ensures { result ≤ 64 }
    {
        goals_due(&self.walk)
    }

    /// How many certificates close the branches that are due, the first the first, and so on.
    pub(crate) fn closed_first<R: Threads + Sync, G: Gate>(
        &self,
        crew: &Crew<'_, R, G>,
        certificates: &[RawLines],
    ) -> Result<usize, AllocError>
        ensures few { IfOk result (λ n. n ≤ length certificates.now) }
        ensures closed { (s : Subject) (at : Standing) → IsAt self.now s (Ok at) →
            let p = progress_at s at in IfOk result (λ n.
            CloseFirst (reads_exact at) s.sorts p.terms p.pending
            (take n (certificates_of certificates.now))) }
    {
        closed_first(crew, self.alloc, &self.walk, certificates, self.exact)
    }

    /// Skips the branch that is due, which lines close that aren't taken. After an error nothing is
    /// known of the proof.
    pub(crate) fn skip_branch(&mut self) -> Result<State, AllocError>
        ensures { (s : Subject) (exact : Bool) (p : Progress) (first : Pending)
            (rest : List Pending) →
            IsAt self.old s (Ok (Underway exact p)) → p.pending ≡ first ∷ rest → IfOk result
            (GoesOn s (Ok (Underway exact (record p { pending = rest }))) self.new) }
    {
        make_due(self.alloc, &mut self.walk)?;
        Ok(self.state())
    }

    // Takes a line of a proof that goes on.
    fn take(&mut self, line: &Line) -> Result<(), LineFault>
        requires { IsWithinFields (line_of line.now) }
        ensures tells { (s : Subject) (at : Standing) → IsAt self.old s (Ok at) →
            Tells (λ _ after. IsAt self.new s (Ok after)) result
            (next_standing s at (Ok (line_of line.now))) }
        ensures stopped { self.new.stopped ≡ self.old.stopped }
        ensures sorts { sorts_known self.new ≡ sorts_known self.old }
    {
        if self.opened {
            if !may_stand(line, self.exact) {
                return Err(LineFault::Wrong {
                    word: Word::BadLine,
                });
            }
            self.walk.take(self.alloc, line)
        } else if passes_version(line, self.assumes) {
            self.opened = true;
            self.exact = has_exact(line);
            Ok(())
        } else {
            Err(LineFault::Wrong {
                word: Word::BadVersion,
            })
        }
    }

    // Whether the proof is done.
    fn state(&self) -> State
        ensures { (s : Subject) (at : Standing) → IsAt self.now s (Ok at) → result ≡ state_of at }
    {
        if self.opened && self.walk.is_done() {
            State::Done
        } else {
            State::More
        }
    }
}

// Whether the first line of a file may be this one.
fn passes_version(line: &Line, assumes: bool) -> bool
    ensures { (s : Subject) → s.assumes ≡ assumes → result ≡ passes_version s (line_of line.now) }
{
    match line {
        Line::Header { version } => *version == 3 || *version == 2 || *version == 1 && !assumes,
        _ => false,
    }
}

// Whether the version that a line tells has lines `exact`.
fn has_exact(line: &Line) -> bool
    ensures { result ≡ has_exact (line_of line.now) }
{
    match line {
        Line::Header { version } => *version == 3,
        _ => false,
    }
}
