// Marks of facts: which are named.
ghost use Rattle.std.specs.Prelude.{◌≡◌, ℕ, suc, ◌+◌, ◌||◌, Bool, false, nat_eq, nat_lt, List, OnOk, IfOk};
ghost use Rattle.std.specs.List.{list_any};
ghost use Rattle.sm_term.specs.Terms.{Tree};
ghost use Rattle.sm_theory.specs.Views.{line_in};
ghost use Rattle.sm_trim.specs.Used.{names_fact, some_pass};
ghost use Rattle.sm_trim.specs.Views.{is_marked, AreMarks, MarksMore};

use indexmap::IndexSet;
use sm_theory::CertLine;
use std::alloc::{AllocError, Global};

// Which of the facts before a line are marked. It takes memory by what is marked, and not by the
// facts, and so the marks of many branches under many facts can be had at once.
pub(crate) struct Marks {
    // How many facts there are.
    pub facts: u64,
    // Each of them below this is marked.
    pub all: u64,
    // Each of these is marked. Some may be none of the facts, since these were taken off.
    pub named: IndexSet<u64>,
}

// One call ends a value, and not one for each field: proofs of what has it stay small.
impl Drop for Marks {
    fn drop(self) {
        let Self {
            facts: _,
            all: _,
            named: _,
        } = self;
    }
}

// A mark for each of so many facts, none of which is named.
pub(crate) fn no_marks(alloc: Global, count: u64) -> Marks
    ensures { AreMarks count (λ n. false) result }
{
    Marks {
        facts: count,
        all: 0,
        named: IndexSet::new(alloc),
    }
}

// Marks the facts that a line names, which stands after all of these.
pub(crate) fn mark_line(marks: &mut Marks, line: &CertLine) -> Result<(), AllocError>
    ensures { (trees : List Tree) → OnOk result
        (MarksMore (names_fact marks.old.facts (line_in trees line.now)) marks.old marks.new) }
{
    match line {
        CertLine::Both(n)
        | CertLine::Either(n)
        | CertLine::Order(n)
        | CertLine::Sym(n)
        | CertLine::Hit(_, n)
        | CertLine::Miss(_, _, n)
        | CertLine::Lin(n)
        | CertLine::Tight(n)
        | CertLine::Close(n) => mark_each(marks, &[*n]),
        CertLine::Trans(m, n)
        | CertLine::Subst(m, n)
        | CertLine::Elim(m, n, _)
        | CertLine::Clash(m, n) => mark_each(marks, &[*m, *n]),
        CertLine::Cong(_, _, ns) => mark_each(marks, &ns.list),
        CertLine::Exact(_) => {
            mark_below(marks, marks.facts);
            Ok(())
        }
        _ => Ok(()),
    }
}

// Marks the facts with these numbers.
fn mark_each(marks: &mut Marks, facts: &[u64]) -> Result<(), AllocError>
    ensures { OnOk result
        (MarksMore (λ n. list_any (nat_eq n) facts.now) marks.old marks.new) }
{
    for fact in facts {
        mark(marks, *fact)?;
    }
    Ok(())
}

// Marks one fact.
fn mark(marks: &mut Marks, fact: u64) -> Result<(), AllocError>
    ensures { OnOk result (MarksMore (λ n. nat_eq n fact) marks.old marks.new) }
{
    marks.named.insert(fact)?;
    Ok(())
}

// Marks all facts below one.
fn mark_below(marks: &mut Marks, end: u64)
    ensures { MarksMore (λ n. nat_lt n end) marks.old marks.new }
{
    if marks.all < end {
        marks.all = end;
    }
}

// Takes off the last mark, and tells whether it was set.
pub(crate) fn take_mark(marks: &mut Marks) -> bool
    ensures { (at : ℕ) (needed : ℕ → Bool) → AreMarks (suc at) needed marks.old →
        (result ≡ needed at) × AreMarks at needed marks.new }
{
    if marks.facts == 0 {
        return false;
    }
    let last = marks.facts - 1;
    marks.facts = last;
    last < marks.all || marks.named.contains(&last)
}

// Takes off the last marks, and tells whether one was set.
pub(crate) fn take_marks(marks: &mut Marks, count: u64) -> bool
    ensures { (at : ℕ) (needed : ℕ → Bool) → AreMarks (at + count) needed marks.old →
        (result ≡ some_pass count at needed) × AreMarks at needed marks.new }
{
    let mut one = false;
    let mut left = count;
    while left > 0 {
        left -= 1;
        if take_mark(marks) {
            one = true;
        }
    }
    one
}

// Marks what is marked among as many others. The fewer go to the more, so that none moves often.
pub(crate) fn join(one: Marks, two: Marks) -> Result<Marks, AllocError>
    ensures { (at : ℕ) (needed other : ℕ → Bool) → AreMarks at needed one → AreMarks at other two →
        IfOk result (AreMarks at (λ n. needed n || other n)) }
{
    if one.named.len() < two.named.len() {
        let mut marks = two;
        mark_all(&mut marks, &one)?;
        Ok(marks)
    } else {
        let mut marks = one;
        mark_all(&mut marks, &two)?;
        Ok(marks)
    }
}

// Marks what is marked among others.
fn mark_all(marks: &mut Marks, others: &Marks) -> Result<(), AllocError>
    ensures { OnOk result (MarksMore (is_marked others.now) marks.old marks.new) }
{
    mark_each(marks, others.named.as_slice())?;
    mark_below(marks, others.all);
    Ok(())
}
