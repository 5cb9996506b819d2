// One drawing of a task, with its repairs.
ghost use Rattle.std.specs.Prelude.{IfOk, OnOk, IfSome};
ghost use Rattle.sm_term.specs.Tables.{trees_in, sorts_in};
ghost use Rattle.sm_expand.specs.Views.{AreDuesReady};
ghost use Rattle.sm_text.specs.Tasks.{parts_of};
ghost use Rattle.sm_goals.specs.Whole.{IsWhole};
ghost use Rattle.sm_candidates.specs.Subjects.{IsSubject, IsTableOf};

use crate::crew::Crew;
use crate::effort::Effort;
use crate::ends::{Ended, end_of};
use crate::owners::{Owners, owners_of};
use crate::rounds::{Asked, Product, settled};
use sm_audit::is_writable;
use sm_candidates::{Seen, Subject, candidates_of};
use sm_drawing::{DeadEnd, Drawing, DrawingError, Style, draw};
use sm_expand::Plan;
use sm_goals::Proof;
use sm_par::Gate;
use sm_sided::CertTrees;
use sm_term::TermTable;
use std::alloc::{AllocError, Global};
use std::thread::Threads;

/// How a plan is drawn, and whether candidates under guards are looked for.
#[derive(Clone, Copy)]
pub(crate) struct Manner {
    pub(crate) is_second: bool,
    pub(crate) with_guards: bool,
}

/// How often a drawing is repaired.
const REPAIRS: u32 = 8;

/// The work of a drawing.
const DRAWING: usize = 500_000;

// A drawing of a task in a style, none where it is too large.
fn drawing_in(
    alloc: Global,
    subject: &Subject<'_>,
    style: Style,
    open: &[Vec<u8>],
) -> Result<Option<Drawing>, AllocError> {
    let task = subject.task;
    match draw(alloc, task, subject.programs, subject.inputs, style, open) {
        Ok(drawing) => Ok(Some(drawing)),
        Err(DrawingError::TooMany) => Ok(None),
        Err(DrawingError::Memory) => Err(AllocError),
    }
}

/// The drawing of a task, the coarser one where the other is too large, none where both are.
pub(crate) fn drawing_of(
    alloc: Global,
    subject: &Subject<'_>,
    is_second: bool,
    open: &[Vec<u8>],
) -> Result<Option<Drawing>, AllocError> {
    let fine = Style {
        is_second,
        is_coarse: false,
    };
    if let Some(drawing) = drawing_in(alloc, subject, fine, open)? {
        return Ok(Some(drawing));
    }
    let coarse = Style {
        is_second,
        is_coarse: true,
    };
    drawing_in(alloc, subject, coarse, open)
}

// Whether a node is among some.
fn is_among(nodes: &[u64], node: u64) -> bool {
    for other in nodes {
        if *other == node {
            return true;
        }
    }
    false
}

// Puts the paths of dead ends at some nodes behind others.
fn put_paths(
    alloc: Global,
    open: &mut Vec<Vec<u8>>,
    dead: &[DeadEnd],
    nodes: &[u64],
) -> Result<(), AllocError> {
    for end in dead {
        if is_among(nodes, end.node) {
            let path = end.path.as_slice().to_vec(alloc)?;
            open.push(path)?;
        }
    }
    Ok(())
}

// A proof that was found, where it can be written.
fn audited(alloc: Global, subject: &Subject<'_>, proof: Proof) -> Result<Option<Proof>, AllocError>
    requires subject { IsSubject subject.now }
    requires declared { IsTableOf subject.now.task.now proof.table }
    ensures { IfOk result (λ o. IfSome o (IsWhole (parts_of subject.now.task.now))) }
{
    let Proof { table, plan, trees } = proof;
    let mut table = table;
    let is_whole = is_writable(alloc, &mut table, subject.task, &plan, &trees.list)?;
    if is_whole {
        return Ok(Some(Proof { table, plan, trees }));
    }
    Ok(None)
}

// The plan of a drawing that keeps what proves, with its obligations, where there is one.
fn settled_by<R: Threads + Sync, G: Gate>(
    crew: &Crew<'_, R, G>,
    alloc: Global,
    table: &mut TermTable,
    subject: &Subject<'_>,
    seen: &Seen<'_>,
    owners: &Owners,
    effort: &mut Effort,
) -> Result<Option<Asked>, AllocError>
    requires subject { IsSubject subject.now }
    requires declared { IsTableOf subject.now.task.now table.old }
    ensures ready { IfOk result (λ o. IfSome o (λ a.
        AreDuesReady (sorts_in table.new) (trees_in table.new) a.dues.items)) }
    ensures declared { OnOk result (IsTableOf subject.now.task.now table.new) }
{
    let candidates = candidates_of(alloc, table, subject, seen, &mut effort.work)?;
    let product = Product {
        plan: &seen.drawing.plan,
        owners,
    };
    settled(crew, alloc, table, subject, &product, candidates, effort)
}

// A plan that keeps what proves, with certificates for its obligations.
#[derive(Drop)]
struct Tried {
    plan: Plan,
    trees: CertTrees,
}

// The certificates of what obligations come to, where each is met. Where only dead ends stay open,
// their paths are put behind others.
fn trees_of(
    alloc: Global,
    end: Ended,
    dead: &[DeadEnd],
    open: &mut Vec<Vec<u8>>,
) -> Result<Option<CertTrees>, AllocError> {
    match end {
        Ended::Closed(list) => Ok(Some(CertTrees { list })),
        Ended::Dead(nodes) => {
            put_paths(alloc, open, dead, &nodes)?;
            Ok(None)
        }
        Ended::Open => Ok(None),
    }
}

// The plan of what was asked, with its certificates, where it has them.
fn tried_with(asked: Asked, trees: Option<CertTrees>) -> Option<Tried> {
    match trees {
        Some(trees) => Some(Tried {
            plan: asked.into_plan(),
            trees,
        }),
        None => None,
    }
}

// The plan of a drawing that keeps what proves, where its obligations are met. Where only dead ends
// stay open, their paths are put behind others.
fn tried_by<R: Threads + Sync, G: Gate>(
    crew: &Crew<'_, R, G>,
    alloc: Global,
    table: &mut TermTable,
    subject: &Subject<'_>,
    seen: &Seen<'_>,
    open: &mut Vec<Vec<u8>>,
    effort: &mut Effort,
) -> Result<Option<Tried>, AllocError>
    requires subject { IsSubject subject.now }
    requires declared { IsTableOf subject.now.task.now table.old }
    ensures { OnOk result (IsTableOf subject.now.task.now table.new) }
{
    let owners = owners_of(alloc, &seen.drawing.plan)?;
    let found = settled_by(crew, alloc, table, subject, seen, &owners, effort)?;
    let Some(asked) = found else {
        return Ok(None);
    };
    let end = end_of(crew, alloc, table, &asked.dues, &owners, effort)?;
    let trees = trees_of(alloc, end, &seen.drawing.dead, open)?;
    Ok(tried_with(asked, trees))
}

// A proof by a drawing, where it gives one. Where only dead ends stay open, their paths are put
// behind others.
fn proof_by<R: Threads + Sync, G: Gate>(
    crew: &Crew<'_, R, G>,
    alloc: Global,
    subject: &Subject<'_>,
    drawing: &Drawing,
    with_guards: bool,
    open: &mut Vec<Vec<u8>>,
    effort: &mut Effort,
) -> Result<Option<Proof>, AllocError>
    requires { IsSubject subject.now }
    ensures { IfOk result (λ o. IfSome o (IsWhole (parts_of subject.now.task.now))) }
{
    let seen = Seen {
        drawing,
        with_guards,
    };
    let mut table = TermTable::new(alloc, &subject.task.shared.decls)?;
    match tried_by(crew, alloc, &mut table, subject, &seen, open, effort)? {
        Some(Tried { plan, trees }) => audited(alloc, subject, Proof { table, plan, trees }),
        None => Ok(None),
    }
}

// A proof by a drawing that keeps away from the paths of dead ends so far, where it gives one.
fn proof_anew<R: Threads + Sync, G: Gate>(
    crew: &Crew<'_, R, G>,
    alloc: Global,
    subject: &Subject<'_>,
    manner: Manner,
    open: &mut Vec<Vec<u8>>,
    effort: &mut Effort,
) -> Result<Option<Proof>, AllocError>
    requires { IsSubject subject.now }
    ensures { IfOk result (λ o. IfSome o (IsWhole (parts_of subject.now.task.now))) }
{
    effort.work.spend(DRAWING);
    match drawing_of(alloc, subject, manner.is_second, open)? {
        Some(drawing) => proof_by(
            crew,
            alloc,
            subject,
            &drawing,
            manner.with_guards,
            open,
            effort,
        ),
        None => Ok(None),
    }
}

// A proof by drawings that are repaired as long as dead ends stay open, where one gives it.
fn repaired<R: Threads + Sync, G: Gate>(
    crew: &Crew<'_, R, G>,
    alloc: Global,
    subject: &Subject<'_>,
    manner: Manner,
    open: &mut Vec<Vec<u8>>,
    effort: &mut Effort,
) -> Result<Option<Proof>, AllocError>
    requires { IsSubject subject.now }
    ensures { IfOk result (λ o. IfSome o (IsWhole (parts_of subject.now.task.now))) }
{
    for _ in 0..REPAIRS {
        let known = open.len();
        if known == 0 || effort.work.is_spent() {
            return Ok(None);
        }
        if let Some(proof) = proof_anew(crew, alloc, subject, manner, open, effort)? {
            return Ok(Some(proof));
        }
        if open.len() == known {
            return Ok(None);
        }
    }
    Ok(None)
}

/// A proof of a task by a plan that is drawn in a manner, which is repaired where dead ends stay
/// open, where one is found. The first drawing is given.
pub(crate) fn attempt<R: Threads + Sync, G: Gate>(
    crew: &Crew<'_, R, G>,
    alloc: Global,
    subject: &Subject<'_>,
    first: &Drawing,
    manner: Manner,
    effort: &mut Effort,
) -> Result<Option<Proof>, AllocError>
    requires { IsSubject subject.now }
    ensures { IfOk result (λ o. IfSome o (IsWhole (parts_of subject.now.task.now))) }
{
    let mut open = Vec::new(alloc);
    let with_guards = manner.with_guards;
    if let Some(proof) = proof_by(crew, alloc, subject, first, with_guards, &mut open, effort)? {
        return Ok(Some(proof));
    }
    repaired(crew, alloc, subject, manner, &mut open, effort)
}
