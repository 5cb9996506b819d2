// Sums of forms while atoms are taken out of them, each counted before it is made.
ghost use Rattle.std.specs.Prelude.{◌≡◌, ◌≤◌, ◌++◌, ◌∷◌, [], ℕ, IsTrue, Some, length, slice_get, if◌then◌else◌, is_some, IfSome, IfOk, OnOk};
ghost use Rattle.std.specs.List.{list_any};
ghost use Rattle.sm_num.specs.Forms.{Linear};
ghost use Rattle.sm_num.specs.Combining.{Fits};
ghost use Rattle.sm_num.specs.Tightening.{is_contradictory};
ghost use Rattle.sm_fm.specs.Elimination.{events};
ghost use Rattle.sm_judge.specs.Holding.{Seen};
ghost use Rattle.sm_judge.specs.Refutations.{AreSources, TellsForms, ShowsWhy, IsCountWithin};
ghost use Rattle.sm_judge.specs.Summing.{AreNumbered, TellsSums, ShowsSums};
ghost use Rattle.sm_judge.specs.Forms.{Walked, by_forms, eliminated_by};

use crate::eliminating::{ByForms, ElimLine, Progress, Refutation};
use crate::forms::{Source, SourcedForms};
use sm_fm::{ElimStep, Elimination, Forms};
use sm_num::{LinForm, NumError, Op, is_contradiction};
use sm_term::{TermId, Terms};
use std::alloc::{AllocError, Global};

// How sums end.
#[derive(Clone, Copy)]
enum SumsEnd {
    // The last of them can't hold, with the count of steps so far.
    Contradiction { count: u64 },
    // No sum is left, with the count of steps so far.
    GoesOn { count: u64 },
    // No step is left.
    Steps,
    // An operation leaves the range.
    Coefficient { op: Op, a: i128, b: i128 },
}

// What forms over so many atoms come to after so many steps.
pub(crate) fn eliminate(
    alloc: Global,
    made: SourcedForms,
    atoms: u64,
    so_far: Progress,
) -> Result<ByForms, AllocError>
    requires { so_far.count ≤ so_far.steps }
    ensures tells { (next : ℕ → Walked) → IfOk result (λ r. TellsForms r
        (by_forms so_far.steps so_far.count atoms (Fits made.forms.list.items) next) next) }
    ensures why { (b : Seen) →
        AreSources b made.sources.items made.forms.list.items →
        IfOk result (λ r. ShowsWhy b r) }
    ensures counted { IfOk result (λ r. IsCountWithin so_far.steps r) }
{
    match first_contradiction(&made.forms.list) {
        Some(bad) => Ok(ByForms::Contradiction {
            count: so_far.count,
            refutation: Refutation {
                sources: made.sources,
                elims: Vec::new(alloc),
                bad,
            },
        }),
        None => sum_up(alloc, made.forms, made.sources, atoms, so_far),
    }
}

// What forms that can hold come to after so many steps.
fn sum_up(
    alloc: Global,
    forms: Forms,
    sources: Vec<Source>,
    atoms: u64,
    so_far: Progress,
) -> Result<ByForms, AllocError>
    requires { so_far.count ≤ so_far.steps }
    ensures tells { (next : ℕ → Walked) → IfOk result (λ r. TellsForms r
        (eliminated_by so_far.steps so_far.count (events forms.list.items atoms) next) next) }
    ensures why { (b : Seen) → AreSources b sources.items forms.list.items →
        IfOk result (λ r. ShowsWhy b r) }
    ensures counted { IfOk result (λ r. IsCountWithin so_far.steps r) }
{
    let mut elims = Vec::new(alloc);
    match end_of_sums(alloc, forms, atoms, so_far, &mut elims)? {
        SumsEnd::Contradiction { count } => {
            let bad = sources.len() as u64 + elims.len() as u64 - 1;
            Ok(ByForms::Contradiction {
                count,
                refutation: Refutation {
                    sources,
                    elims,
                    bad,
                },
            })
        }
        SumsEnd::GoesOn { count } => Ok(ByForms::GoesOn { count }),
        SumsEnd::Steps => Ok(ByForms::Steps),
        SumsEnd::Coefficient { op, a, b } => Ok(ByForms::Coefficient { op, a, b }),
    }
}

// How the sums of forms end after so many steps. It lists those that are kept, or can't hold.
fn end_of_sums(
    alloc: Global,
    forms: Forms,
    atoms: u64,
    so_far: Progress,
    elims: &mut Vec<ElimLine>,
) -> Result<SumsEnd, AllocError>
    requires counted { so_far.count ≤ so_far.steps }
    requires none { elims.old.items ≡ [] }
    ensures tells { (next : ℕ → Walked) → IfOk result (λ e. TellsSums e so_far.steps
        (eliminated_by so_far.steps so_far.count (events forms.list.items atoms) next) next) }
    ensures sums { IfOk result (ShowsSums forms.list.items elims.new.items) }
{
    let places = places_below(alloc, atoms)?;
    let mut elimination = Elimination::new(alloc, forms, places)?;
    take_sums(alloc, &mut elimination, so_far, elims)
}

// Takes the sums of an elimination one after the other, each counted, until they end.
fn take_sums(
    alloc: Global,
    elimination: &mut Elimination,
    so_far: Progress,
    elims: &mut Vec<ElimLine>,
) -> Result<SumsEnd, AllocError>
    requires counted { so_far.count ≤ so_far.steps }
    requires numbered { AreNumbered 0 elimination.old.atoms }
    requires none { elims.old.items ≡ [] }
    ensures tells { (next : ℕ → Walked) → IfOk result (λ e. TellsSums e so_far.steps
        (eliminated_by so_far.steps so_far.count elimination.old.left next) next) }
    ensures sums { IfOk result (ShowsSums elimination.old.forms elims.new.items) }
{
    let mut done = so_far.count;
    'sums: loop {
        match elimination.next(alloc) {
            Ok(ElimStep::End) => return Ok(SumsEnd::GoesOn { count: done }),
            Ok(
                ElimStep::Line {
                    f,
                    g,
                    atom,
                    kept,
                    contradiction,
                },
            ) => {
                if done == so_far.steps {
                    return Ok(SumsEnd::Steps);
                }
                done += 1;
                let line = ElimLine { f, g, atom };
                if contradiction {
                    elims.push(line)?;
                    return Ok(SumsEnd::Contradiction { count: done });
                }
                put_if(elims, line, kept)?;
            }
            Err(NumError::Beyond { op, a, b }) => {
                if done == so_far.steps {
                    return Ok(SumsEnd::Steps);
                }
                return Ok(SumsEnd::Coefficient { op, a, b });
            }
            Err(NumError::Memory) => return Err(AllocError),
        }
    }
}

// Puts a sum behind others where it is kept.
fn put_if(elims: &mut Vec<ElimLine>, line: ElimLine, kept: bool) -> Result<(), AllocError>
    ensures { OnOk result
        (elims.new.items ≡ elims.old.items ++ (if kept then line ∷ [] else [])) }
{
    if kept {
        elims.push(line)?;
    }
    Ok(())
}

// The place of the first form that can't hold.
fn first_contradiction(forms: &[LinForm]) -> Option<u64>
    ensures found { IfSome result (λ n. (f : Linear ℕ)
        × (slice_get forms.now n ≡ Some f) × IsTrue (is_contradictory f)) }
    ensures any { is_some result ≡ list_any is_contradictory forms.now }
{
    for i in 0..forms.len() {
        if is_contradiction(&forms[i]) {
            return Some(i as u64);
        }
    }
    None
}

// So many atoms, each with its place as its number.
fn places_below(alloc: Global, count: u64) -> Result<Terms, AllocError>
    ensures numbered { IfOk result (λ ts. AreNumbered 0 ts.list.items) }
    ensures count { IfOk result (λ ts. length ts.list.items ≡ count) }
{
    let mut list = Vec::new(alloc);
    for n in 0..count {
        list.push(TermId(n))?;
    }
    Ok(Terms { list })
}
