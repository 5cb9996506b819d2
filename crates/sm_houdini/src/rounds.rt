// Rounds: templates are dropped until each goal of those that are left closes.
ghost use Rattle.std.specs.Prelude.{◌≡◌, ◌==◌, IfOk, OnOk};
ghost use Rattle.sm_syntax.specs.text.Parts.{sort_of};
ghost use Rattle.sm_syntax.specs.trees.Programs.{declared_of};
ghost use Rattle.sm_term.specs.TableLaws.{ExtendsTable};
ghost use Rattle.sm_text.specs.Tasks.{parts_of};
ghost use Rattle.sm_sketch.specs.ChoiceViews.{choice_in};
ghost use Rattle.sm_houdini.specs.Closing.{closing, Knows};
ghost use Rattle.sm_houdini.specs.Known.{IsAskedBefore};
ghost use Rattle.sm_houdini.specs.Rounds as plain;

use crate::asked::{Asked, for_next};
use crate::choosing::total;
use crate::dues::dues_of;
use crate::goal_jobs::{Crew, marks_after};
use crate::judging::Round;
use crate::known::known_dues;
use crate::marks::kept_choice;
use crate::product::Subject;
use sm_par::Gate;
use sm_sketch::TemplateChoice;
use sm_solve::Reach;
use sm_term::TermTable;
use std::alloc::{AllocError, Global};
use std::thread::Threads;

// The templates of a choice all of whose goals close under it. What was asked stays for the next
// round.
fn next_round<R: Threads + Sync, G: Gate>(
    crew: &Crew<'_, R, G>,
    alloc: Global,
    table: &mut TermTable,
    subject: &Subject<'_>,
    choice: &TemplateChoice,
    before: &mut Option<Asked>,
    reach: Reach,
) -> Result<TemplateChoice, AllocError>
    requires knows { Knows table.old subject.now.task.now subject.now.product.now }
    requires before { IsAskedBefore table.old reach subject.now.product.now.owners.items before.old }
    ensures next { let t = subject.now.task.now in
        let closes = closing (sort_of (declared_of t.shared.decls)) reach in
        IfOk result (λ c. choice_in c
        ≡ plain.next_round closes (parts_of t) (choice_in choice.now)) }
    ensures before { OnOk result (
        IsAskedBefore table.new reach subject.now.product.now.owners.items before.new) }
    ensures widens { ExtendsTable table.old table.new }
{
    let product = subject.product;
    let dues = dues_of(alloc, table, subject.task, product, choice)?.list;
    let owners = product.owners.as_slice();
    let known = known_dues(alloc, before, owners, &dues)?;
    let round = Round {
        dues: &dues,
        known: &known,
        owners,
        reach,
    };
    let marks = marks_after(crew, alloc, table, &round, choice)?;
    let next = kept_choice(alloc, &marks)?;
    *before = for_next(dues, marks);
    Ok(next)
}

// Takes the next round of a choice, and tells whether all its templates stay.
fn all_stay<R: Threads + Sync, G: Gate>(
    crew: &Crew<'_, R, G>,
    alloc: Global,
    table: &mut TermTable,
    subject: &Subject<'_>,
    choice: &mut TemplateChoice,
    before: &mut Option<Asked>,
    reach: Reach,
) -> Result<bool, AllocError>
    requires knows { Knows table.old subject.now.task.now subject.now.product.now }
    requires before { IsAskedBefore table.old reach subject.now.product.now.owners.items before.old }
    ensures next { let t = subject.now.task.now in
        let closes = closing (sort_of (declared_of t.shared.decls)) reach in
        OnOk result (choice_in choice.new
        ≡ plain.next_round closes (parts_of t) (choice_in choice.old)) }
    ensures stay { IfOk result (λ b.
        b ≡ (plain.total (choice_in choice.new) == plain.total (choice_in choice.old))) }
    ensures before { OnOk result (
        IsAskedBefore table.new reach subject.now.product.now.owners.items before.new) }
    ensures widens { ExtendsTable table.old table.new }
{
    let count = total(choice)?;
    let next = next_round(crew, alloc, table, subject, choice, before, reach)?;
    *choice = next;
    let left = total(choice)?;
    // A round only drops templates.
    Ok(left == count)
}

// Drops templates of a choice, round by round, up to the first round in which all stay.
fn settle<R: Threads + Sync, G: Gate>(
    crew: &Crew<'_, R, G>,
    alloc: Global,
    table: &mut TermTable,
    subject: &Subject<'_>,
    choice: &mut TemplateChoice,
    before: &mut Option<Asked>,
    reach: Reach,
) -> Result<(), AllocError>
    requires knows { Knows table.old subject.now.task.now subject.now.product.now }
    requires before { IsAskedBefore table.old reach subject.now.product.now.owners.items before.old }
    ensures settled { let t = subject.now.task.now in
        let closes = closing (sort_of (declared_of t.shared.decls)) reach in
        let next = plain.next_round closes (parts_of t) in
        OnOk result (choice_in choice.new
        ≡ plain.settled next (plain.total (choice_in choice.old)) (choice_in choice.old)) }
    ensures widens { ExtendsTable table.old table.new }
{
    let rounds = total(choice)?;
    for _ in 0..rounds {
        let stay = all_stay(crew, alloc, table, subject, choice, before, reach)?;
        if stay {
            return Ok(());
        }
    }
    Ok(())
}

/// The first choice that equals its next, from this one on, which is the choice of all templates.
pub(crate) fn settled<R: Threads + Sync, G: Gate>(
    crew: &Crew<'_, R, G>,
    alloc: Global,
    table: &mut TermTable,
    subject: &Subject<'_>,
    full: TemplateChoice,
    reach: Reach,
) -> Result<TemplateChoice, AllocError>
    requires knows { Knows table.old subject.now.task.now subject.now.product.now }
    ensures settled { let t = subject.now.task.now in
        let closes = closing (sort_of (declared_of t.shared.decls)) reach in
        let next = plain.next_round closes (parts_of t) in
        IfOk result (λ c. choice_in c
        ≡ plain.settled next (plain.total (choice_in full)) (choice_in full)) }
    ensures widens { ExtendsTable table.old table.new }
{
    let mut choice = full;
    let mut before = None;
    settle(crew, alloc, table, subject, &mut choice, &mut before, reach)?;
    Ok(choice)
}
