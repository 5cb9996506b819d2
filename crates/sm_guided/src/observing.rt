// Runs that are watched: they note the difference of each comparison in a guard.
ghost use Rattle.std.specs.Prelude.{◌≡◌, OnOk};
ghost use Rattle.sm_eval.specs.StoredValues.{sorts_of};
ghost use Rattle.sm_syntax.specs.claim.Syntax.{End, Write};
ghost use Rattle.sm_syntax.specs.text.Sorts.{IsWellSorted, IsWellSortedExpression, IsWellSortedCondition};
ghost use Rattle.sm_syntax.specs.trees.Views.{expression_of, condition_of, statement_of, code_of};

use crate::halt::Leave;
use crate::places::{Line, Outline, places_behind};
use crate::records::Note;
use sm_eval::{Store, value};
use sm_syntax::{Block, Cmp, Cond, Expr, Name, Stmt};
use std::alloc::{AllocError, Global};

/// How many steps a run may take.
pub const RUN_STEPS: u64 = 100_000;

// A write to an array takes a step more for so many cells that the array has, since cells may have
// to be moved.
const CELLS_A_STEP: usize = 16;

/// What is known and noted while a program is run.
#[derive(Drop)]
pub struct Watch<'a> {
    outline: &'a Outline,
    turns: u64,
    // How many steps may still be taken.
    left: u64,
    notes: Vec<Option<Note>>,
}

impl<'a> Watch<'a> {
    /// A run that hasn't begun: each loop takes at most so many turns each time it is met, and all
    /// so many steps.
    pub fn new(
        alloc: Global,
        outline: &'a Outline,
        turns: u64,
        steps: u64,
    ) -> Result<Watch<'a>, AllocError> {
        let mut notes = Vec::new(alloc);
        for _ in 0..outline.places() {
            notes.push(None)?;
        }
        Ok(Watch {
            outline,
            turns,
            left: steps,
            notes,
        })
    }

    /// How many steps may still be taken.
    pub fn left(&self) -> u64 {
        self.left
    }

    /// The notes, by place.
    pub fn into_notes(self) -> Vec<Option<Note>> {
        self.notes
    }

    // The statement with a number, which is about to be run.
    fn begin(&mut self, n: usize) -> Result<Line, Leave> {
        match self.outline.line(n) {
            None => Err(Leave::Event),
            Some(line) => {
                self.spend(line.steps)?;
                Ok(line)
            }
        }
    }

    // Takes steps.
    fn spend(&mut self, steps: u64) -> Result<(), Leave> {
        match self.left.checked_sub(steps) {
            None => {
                self.left = 0;
                Err(Leave::Event)
            }
            Some(left) => {
                self.left = left;
                Ok(())
            }
        }
    }

    // Notes a visit to a place. A difference that leaves 128 bits isn't noted.
    fn note(&mut self, place: usize, difference: Option<i128>) {
        if let Some(difference) = difference {
            if place < self.notes.len() {
                self.notes[place] = Some(match self.notes[place] {
                    None => Note::of(difference),
                    Some(note) => note.with(difference),
                });
            }
        }
    }
}

/// Runs a program from a store up to its end, or to the first event.
pub fn observe(program: &Block, s: &mut Store, watch: &mut Watch<'_>) -> Result<(), Leave>
    requires { IsWellSorted (sorts_of s.old) (code_of program.now) }
{
    run_block(program, 0, s, watch)
}

// Runs the statements of a block, whose first has a number.
#[cycle(observe)]
fn run_block(b: &Block, first: usize, s: &mut Store, watch: &mut Watch<'_>) -> Result<(), Leave>
    requires { IsWellSorted (sorts_of s.old) (code_of b.now) }
    ensures { OnOk result (sorts_of s.new ≡ sorts_of s.old) }
{
    let mut n = first;
    for t in &b.list {
        let line = watch.begin(n)?;
        run_stmt(t, line, s, watch)?;
        n = line.next;
    }
    Ok(())
}

// Runs a statement.
#[cycle(observe)]
fn run_stmt(t: &Stmt, line: Line, s: &mut Store, watch: &mut Watch<'_>) -> Result<(), Leave>
    requires { IsWellSorted (sorts_of s.old) (statement_of t.now End) }
    ensures { OnOk result (sorts_of s.new ≡ sorts_of s.old) }
{
    match t {
        Stmt::Skip | Stmt::Hole(_) => Ok(()),
        Stmt::Assign(x, e) => {
            let z = value(e, s)?;
            s.set(*x, z);
            Ok(())
        }
        Stmt::Store(a, i, e) => write(*a, i, e, s, watch),
        Stmt::If(c, d, e) => {
            let guard = observe_condition(c, line.place, s, watch)?;
            if guard.holds {
                run_block(d, line.inside, s, watch)
            } else {
                run_block(e, line.other, s, watch)
            }
        }
        Stmt::While(c, d) => run_loop(c, d, line, s, watch),
    }
}

// Runs a loop.
#[cycle(observe)]
fn run_loop(
    c: &Cond,
    b: &Block,
    line: Line,
    s: &mut Store,
    watch: &mut Watch<'_>,
) -> Result<(), Leave>
    requires guard { IsWellSortedCondition (sorts_of s.old) (condition_of c.now) }
    requires body { IsWellSorted (sorts_of s.old) (code_of b.now) }
    ensures { OnOk result (sorts_of s.new ≡ sorts_of s.old) }
{
    let mut left = watch.turns;
    while observe_condition(c, line.place, s, watch)?.holds {
        if left == 0 {
            return Err(Leave::Event);
        }
        left -= 1;
        watch.spend(line.steps)?;
        run_block(b, line.inside, s, watch)?;
    }
    Ok(())
}

// Writes to an element of an array.
fn write(a: Name, i: &Expr, e: &Expr, s: &mut Store, watch: &mut Watch<'_>) -> Result<(), Leave>
    requires { let code = Write a.0 (expression_of i.now) (expression_of e.now) End in
        IsWellSorted (sorts_of s.old) code }
    ensures { OnOk result (sorts_of s.new ≡ sorts_of s.old) }
{
    let index = value(i, s)?;
    let z = value(e, s)?;
    let moved = s.cells(a).len() / CELLS_A_STEP;
    watch.spend(moved as u64)?;
    s.set_cell(a, index, z)?;
    Ok(())
}

// Whether a condition holds, and the place behind it.
#[derive(Clone, Copy)]
struct Guard {
    holds: bool,
    behind: usize,
}

// Computes a condition whose first place has a number, and notes the comparisons that are made.
fn observe_condition(
    c: &Cond,
    place: usize,
    s: &Store,
    watch: &mut Watch<'_>,
) -> Result<Guard, Leave>
    requires { IsWellSortedCondition (sorts_of s.now) (condition_of c.now) }
{
    match c {
        Cond::Yes => Ok(Guard {
            holds: true,
            behind: place,
        }),
        Cond::No => Ok(Guard {
            holds: false,
            behind: place,
        }),
        Cond::Cmp(op, d, e) => {
            let holds = observe_comparison(*op, d, e, place, s, watch)?;
            Ok(Guard {
                holds,
                behind: place.saturating_add(1),
            })
        }
        Cond::Not(b) => {
            let guard = observe_condition(b, place, s, watch)?;
            Ok(Guard {
                holds: !guard.holds,
                behind: guard.behind,
            })
        }
        Cond::And(b, d) => {
            let left = observe_condition(b, place, s, watch)?;
            if left.holds {
                observe_condition(d, left.behind, s, watch)
            } else {
                Ok(passed(left, d))
            }
        }
        Cond::Or(b, d) => {
            let left = observe_condition(b, place, s, watch)?;
            if left.holds {
                Ok(passed(left, d))
            } else {
                observe_condition(d, left.behind, s, watch)
            }
        }
    }
}

// What a left part says where it decides, so that the right one isn't computed.
fn passed(left: Guard, right: &Cond) -> Guard {
    Guard {
        holds: left.holds,
        behind: places_behind(right, left.behind),
    }
}

// Makes a comparison, and notes its difference.
fn observe_comparison(
    op: Cmp,
    d: &Expr,
    e: &Expr,
    place: usize,
    s: &Store,
    watch: &mut Watch<'_>,
) -> Result<bool, Leave>
    requires left { IsWellSortedExpression (sorts_of s.now) (expression_of d.now) }
    requires right { IsWellSortedExpression (sorts_of s.now) (expression_of e.now) }
{
    let a = value(d, s)?;
    let b = value(e, s)?;
    watch.note(place, a.checked_sub(b));
    Ok(compare(op, a, b))
}

// Whether two numbers compare so.
fn compare(op: Cmp, a: i128, b: i128) -> bool {
    match op {
        Cmp::Eq => a == b,
        Cmp::Ne => a != b,
        Cmp::Lt => a < b,
        Cmp::Le => a <= b,
        Cmp::Gt => a > b,
        Cmp::Ge => a >= b,
    }
}
