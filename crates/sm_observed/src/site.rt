// The candidates of a site.
ghost use Rattle.std.specs.Prelude.{◌≡◌, OnOk};
ghost use Rattle.sm_syntax.specs.text.Parts.{sort_of};
ghost use Rattle.sm_syntax.specs.trees.Programs.{declared_of};
ghost use Rattle.sm_term.specs.Tables.{sorts_in};
ghost use Rattle.sm_term.specs.TableLaws.{AddsTerms, ExtendsTable};
ghost use Rattle.sm_plan.specs.Starts.{AreNumbered};
ghost use Rattle.sm_observed.specs.LoopStates.{IsLoopSorted};

use crate::affine::{Sight, affine_formulas, put_guarded};
use crate::clauses::{MOST_CLAUSES, put_bounds, put_clauses, put_few_values};
use crate::columns::columns_of;
use crate::filter::{filtered, put_new};
use crate::guards::{Guards, guards_of};
use crate::names::{numbers_written, places_of};
use crate::rows::MOST_ROWS;
use crate::scene::{Scene, scene_of};
use crate::states::LoopState;
use crate::visits::Visits;
use crate::work::Work;
use sm_eval::Store;
use sm_plan::Formulas;
use sm_syntax::{Decls, Name, PerCopy};
use sm_template::{SiteContext, loop_templates};
use sm_term::{Formula, SymStore, TermTable, copy_formula};
use std::alloc::{AllocError, Global};

/// What runs from inputs show at a site, for a task with these declarations, and whether candidates
/// under guards are made.
#[derive(Drop)]
pub struct Observed<'o> {
    pub decls: &'o Decls,
    pub inputs: &'o [Store],
    pub visits: &'o Visits,
    pub with_guards: bool,
}

// The templates of a site, but for those with literals.
fn templates_of(
    alloc: Global,
    table: &mut TermTable,
    decls: &Decls,
    state: &LoopState<'_>,
) -> Result<Formulas, AllocError>
    requires declared { sorts_in table.old ≡ sort_of (declared_of decls.now) }
    requires numbered { AreNumbered (declared_of decls.now) }
    requires sorted { IsLoopSorted (sorts_in table.old) state.now }
    ensures { ExtendsTable table.old table.new }
{
    let literals = Vec::new(alloc);
    let site = SiteContext { decls, literals };
    loop_templates(alloc, table, &site, state.set, &state.rests)
}

// Puts copies of formulas behind others, where they are new.
fn put_all(alloc: Global, list: &mut Vec<Formula>, more: &[Formula]) -> Result<(), AllocError> {
    for f in more {
        let copy = copy_formula(alloc, f)?;
        put_new(list, copy)?;
    }
    Ok(())
}

// The work of putting so many formulas behind a list, where each is compared with all before it.
fn work_of_putting(list: &[Formula], more: usize) -> usize {
    let all = list.len().saturating_add(more);
    all.saturating_mul(more) / 64
}

// The work of looking for equalities among columns so often, and of putting them behind a list.
fn work_of_looking(sight: &Sight<'_>, list: &[Formula], looks: usize) -> usize {
    let columns = sight.columns.terms.len();
    let rows = sight.scene.visits.list.len().min(MOST_ROWS);
    let whole = rows.saturating_mul(columns).saturating_mul(columns);
    let once = whole / 256;
    let found = columns.saturating_mul(looks);
    let putting = work_of_putting(list, found);
    once.saturating_mul(looks).saturating_add(putting)
}

// Puts the affine equalities of visits behind other candidates.
fn put_affine(
    alloc: Global,
    table: &mut TermTable,
    sight: &Sight<'_>,
    list: &mut Vec<Formula>,
    work: &mut Work,
) -> Result<Vec<Formula>, AllocError>
    ensures { AddsTerms table.old table.new }
{
    work.spend(work_of_looking(sight, list.as_slice(), 1));
    if work.is_spent() {
        return Ok(Vec::new(alloc));
    }
    let affine = affine_formulas(alloc, table, sight)?;
    put_all(alloc, list, &affine)?;
    Ok(affine)
}

// Puts the affine equalities of visits, and those under guards, behind other candidates.
fn put_both(
    alloc: Global,
    table: &mut TermTable,
    sight: &Sight<'_>,
    guards: &Guards,
    with_guards: bool,
    list: &mut Vec<Formula>,
    work: &mut Work,
) -> Result<(), AllocError>
    ensures { AddsTerms table.old table.new }
{
    let affine = put_affine(alloc, table, sight, list, work)?;
    if !with_guards {
        return Ok(());
    }
    let looks = guards.whole.len().saturating_mul(2);
    work.spend(work_of_looking(sight, list.as_slice(), looks));
    if work.is_spent() {
        return Ok(());
    }
    put_guarded(alloc, table, sight, guards, &affine, list)
}

// Takes the work of what is suggested for names, and of clauses of guards.
fn spend_on_names(scene: &Scene<'_>, written: &[Name], list: &[Formula], work: &mut Work) {
    let names = written.len().saturating_mul(4);
    let most = names.saturating_mul(3).saturating_add(MOST_CLAUSES);
    let tried = names.saturating_mul(scene.visits.list.len());
    work.spend(work_of_putting(list, most).saturating_add(tried));
}

// What candidates of a site are made of: where names and guards stand, and what visits show.
#[derive(Drop)]
struct Suggesting<'n> {
    observed: &'n Observed<'n>,
    state: &'n LoopState<'n>,
    scene: &'n Scene<'n>,
    written: &'n [Name],
    places: &'n PerCopy<SymStore>,
    guards: &'n Guards,
}

// The places of all names. They have many parts, and are kept apart.
fn boxed_places(
    alloc: Global,
    table: &mut TermTable,
    decls: &Decls,
) -> Result<Box<PerCopy<SymStore>>, AllocError>
    requires { sorts_in table.old ≡ sort_of (declared_of decls.now) }
    ensures { AddsTerms table.old table.new }
{
    let places = places_of(alloc, table, decls)?;
    let boxed = Box::new(alloc, places)?;
    Ok(boxed)
}

// Puts equalities among columns behind other candidates.
fn put_equalities(
    alloc: Global,
    table: &mut TermTable,
    by: &Suggesting<'_>,
    list: &mut Vec<Formula>,
    work: &mut Work,
) -> Result<(), AllocError>
    ensures { AddsTerms table.old table.new }
{
    let decls = by.observed.decls;
    let columns = columns_of(alloc, table, decls, by.places, by.state, by.written)?;
    let sight = Sight {
        scene: &*by.scene,
        columns: &columns,
    };
    let with_guards = by.observed.with_guards;
    put_both(alloc, table, &sight, by.guards, with_guards, list, work)
}

// Puts what is suggested behind other candidates.
fn put_suggested(
    alloc: Global,
    table: &mut TermTable,
    by: &Suggesting<'_>,
    list: &mut Vec<Formula>,
    work: &mut Work,
) -> Result<(), AllocError>
    ensures { AddsTerms table.old table.new }
{
    put_equalities(alloc, table, by, list, work)?;
    spend_on_names(by.scene, by.written, list.as_slice(), work);
    if work.is_spent() {
        return Ok(());
    }
    put_bounds(&by.state.stores, by.places, by.written, list)?;
    put_few_values(alloc, table, by.scene, by.places, by.written, list)?;
    put_clauses(alloc, by.guards, list)
}

// Puts the candidates that visits suggest behind others.
fn put_seen(
    alloc: Global,
    table: &mut TermTable,
    observed: &Observed<'_>,
    state: &LoopState<'_>,
    scene: &Scene<'_>,
    list: &mut Vec<Formula>,
    work: &mut Work,
) -> Result<(), AllocError>
    requires { sorts_in table.old ≡ sort_of (declared_of observed.now.decls.now) }
    ensures { AddsTerms table.old table.new }
{
    let written = numbers_written(alloc, observed.decls, state)?;
    let places = boxed_places(alloc, table, observed.decls)?;
    let guards = guards_of(alloc, table, &places, state)?;
    let by = Suggesting {
        observed: &*observed,
        state: &*state,
        scene: &*scene,
        written: &written,
        places: &places,
        guards: &guards,
    };
    put_suggested(alloc, table, &by, list, work)
}

/// The candidates of a site that visits don't refute. A site without visits has none, nor has one
/// whose candidates cost more work than is left.
pub fn site_candidates(
    alloc: Global,
    table: &mut TermTable,
    observed: &Observed<'_>,
    state: &LoopState<'_>,
    work: &mut Work,
) -> Result<Formulas, AllocError>
    requires declared { sorts_in table.old ≡ sort_of (declared_of observed.now.decls.now) }
    requires numbered { AreNumbered (declared_of observed.now.decls.now) }
    requires sorted { IsLoopSorted (sorts_in table.old) state.now }
    ensures widens { OnOk result (ExtendsTable table.old table.new) }
{
    let templates = templates_of(alloc, table, observed.decls, state)?;
    let scene = scene_of(
        alloc,
        table,
        observed.decls,
        state,
        observed.inputs,
        observed.visits,
    )?;
    let mut list = templates.list;
    put_seen(alloc, table, observed, state, &scene, &mut list, work)?;
    filtered(alloc, table, &scene, list, work)
}
