// The plan and the certificates of a proof file.
ghost use Rattle.std.specs.Prelude.{◌≡◌, IfOk, IfSome};
ghost use Rattle.sm_syntax.specs.text.Parts.{sort_of};
ghost use Rattle.sm_term.specs.Tables.{sorts_in};
ghost use Rattle.sm_task.specs.Filling.{AreFilled};
ghost use Rattle.sm_text.specs.Tasks.{parts_of};
ghost use Rattle.sm_check.specs.Checkable.{IsCheckable};
ghost use Rattle.sm_check.specs.Checkers.{sorts_known};

use crate::gathering::{FlatNode, Gathered, gather};
use crate::planting::plan_of;
use crate::putting::trees_of;
use sm_cert::CertTree;
use sm_check::{Checker, LineFault};
use sm_expand::Plan;
use sm_proof::{LineError, read_line};
use sm_syntax::{Block, PerCopy};
use sm_task::{Task, fill_all};
use sm_term::TermTable;
use sm_theory::CertLine;
use std::alloc::{AllocError, Global};

/// What a proof file says.
#[derive(Drop)]
pub struct Loaded {
    /// The terms, over the declarations of the task.
    pub table: TermTable,
    pub plan: Plan,
    /// A certificate for each goal of the plan's obligations, in order.
    pub trees: Vec<CertTree>,
    /// How many facts stand before each certificate.
    pub starts: Vec<u64>,
    /// How many lines the file has.
    pub lines: u64,
}

// Why lines aren't gathered.
#[derive(Clone, Copy)]
enum Fault {
    Wrong,
    Memory,
}

impl From<LineFault> for Fault {
    fn from(fault: LineFault) -> Fault {
        match fault {
            LineFault::Wrong { .. } => Fault::Wrong,
            LineFault::Memory => Fault::Memory,
        }
    }
}

impl From<LineError> for Fault {
    fn from(error: LineError) -> Fault {
        match error {
            LineError::Memory => Fault::Memory,
            _ => Fault::Wrong,
        }
    }
}

// Nothing gathered so far.
fn nothing(alloc: Global) -> Gathered {
    Gathered {
        nodes: Vec::new(alloc),
        certs: Vec::new(alloc),
        starts: Vec::new(alloc),
        open: 0,
        lines: 0,
    }
}

// What the lines of bytes say.
fn lines_gathered(alloc: Global, checker: &mut Checker<'_>, bytes: &[u8]) -> Result<Gathered, Fault>
    ensures { sorts_known checker.new ≡ sorts_known checker.old }
{
    let mut gathered = nothing(alloc);
    let mut left = bytes;
    while !left.is_empty() {
        let (line, size) = read_line(alloc, left)?;
        gather(checker, &mut gathered, &line)?;
        left = &left[size..];
    }
    Ok(gathered)
}

// The plan and the certificates that lines say, with how many facts stand before each, and how many
// lines there are.
#[derive(Drop)]
struct Said {
    plan: Plan,
    trees: Vec<CertTree>,
    starts: Vec<u64>,
    lines: u64,
}

// The plan of nodes with the certificates of lines.
fn plan_and_trees(
    alloc: Global,
    nodes: Vec<FlatNode>,
    certs: Vec<CertLine>,
) -> Result<Option<(Plan, Vec<CertTree>)>, AllocError> {
    let Some(plan) = plan_of(alloc, nodes)? else {
        return Ok(None);
    };
    match trees_of(alloc, certs)? {
        Some(trees) => Ok(Some((plan, trees))),
        None => Ok(None),
    }
}

// What the lines are put together to.
fn put_together(alloc: Global, gathered: Gathered) -> Result<Option<Said>, AllocError> {
    let starts = gathered.starts;
    let lines = gathered.lines;
    match plan_and_trees(alloc, gathered.nodes, gathered.certs)? {
        Some((plan, trees)) => Ok(Some(Said {
            plan,
            trees,
            starts,
            lines,
        })),
        None => Ok(None),
    }
}

// What bytes say, None where they are no whole proof.
fn said_in(
    alloc: Global,
    checker: &mut Checker<'_>,
    bytes: &[u8],
) -> Result<Option<Said>, AllocError>
    ensures { sorts_known checker.new ≡ sorts_known checker.old }
{
    match lines_gathered(alloc, checker, bytes) {
        Ok(gathered) => put_together(alloc, gathered),
        Err(Fault::Wrong) => Ok(None),
        Err(Fault::Memory) => Err(AllocError),
    }
}

// What is said over a table.
fn loaded_over(table: TermTable, said: Said) -> Loaded
    ensures { sorts_in result.table ≡ sorts_in table }
{
    Loaded {
        table,
        plan: said.plan,
        trees: said.trees,
        starts: said.starts,
        lines: said.lines,
    }
}

// What bytes say of a task with its programs, None where they are no whole proof.
fn loaded_by(
    alloc: Global,
    task: &Task,
    programs: &PerCopy<Block>,
    bytes: &[u8],
) -> Result<Option<Loaded>, AllocError>
    requires filled { AreFilled (parts_of task.now) programs.now }
    requires checkable { IsCheckable (parts_of task.now) }
    ensures { IfOk result (λ o. IfSome o (λ l.
        sorts_in l.table ≡ sort_of (parts_of task.now).declared)) }
{
    let mut checker = Checker::new(alloc, task, programs)?;
    let said = said_in(alloc, &mut checker, bytes);
    let table = checker.into_table();
    match said? {
        Some(said) => Ok(Some(loaded_over(table, said))),
        None => Ok(None),
    }
}

/// What the bytes of a proof file for a task say, None where they are no whole proof.
pub fn load_bytes(alloc: Global, task: &Task, bytes: &[u8]) -> Result<Option<Loaded>, AllocError>
    requires { IsCheckable (parts_of task.now) }
    ensures { IfOk result (λ o. IfSome o (λ l.
        sorts_in l.table ≡ sort_of (parts_of task.now).declared)) }
{
    let programs = fill_all(alloc, task)?;
    loaded_by(alloc, task, &programs, bytes)
}
