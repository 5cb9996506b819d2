// The trials.
ghost use Rattle.std.specs.Prelude.{◌≡◌, ◌+◌, ◌<◌, ◌^◌, pos, ◌-ℤ◌, Some, IfOk, OnOk};
ghost use Rattle.sm_eval.specs.StoredValues.{meaning, sorts_of};
ghost use Rattle.sm_eval.specs.Zeros.{zero_of};
ghost use Rattle.sm_syntax.specs.text.Parts.{sort_of};
ghost use Rattle.sm_syntax.specs.trees.Programs.{declared_of};
ghost use Rattle.sm_replay.specs.Updates.{GivesValue, Overrides};
ghost use Rattle.sm_replay.specs.Trials.{trial, number_in_trial, value_in_trial, elements_below};

use sm_eval::Store;
use sm_syntax::{Name, Sort};
use sm_task::Task;
use std::alloc::{AllocError, Global};

/// The trial with a number. Trial 0 is zero. In any other each number variable, and the elements at
/// 0 to 7 of each array, have a number from -6 to 12 that the trial's number and the name's
/// determine.
pub fn trial(alloc: Global, task: &Task, j: u8) -> Result<Store, AllocError>
    ensures value { let sorts = sort_of (declared_of task.now.shared.decls) in
        IfOk result (λ s. meaning s ≡ trial sorts j) }
    ensures sorts { IfOk result (λ s. sorts_of s ≡ sort_of (declared_of task.now.shared.decls)) }
{
    if j == 0 {
        return Store::zero(alloc, &task.shared.decls);
    }
    later_trial(alloc, task, j)
}

// A trial that isn't the first.
fn later_trial(alloc: Global, task: &Task, j: u8) -> Result<Store, AllocError>
    requires { 0 < j }
    ensures value { let sorts = sort_of (declared_of task.now.shared.decls) in
        IfOk result (λ s. meaning s ≡ trial sorts j) }
    ensures sorts { IfOk result (λ s. sorts_of s ≡ sort_of (declared_of task.now.shared.decls)) }
{
    let mut s = Store::zero(alloc, &task.shared.decls)?;
    for d in &task.shared.decls.list {
        let sort = s.sort(d.0);
        give(&mut s, d.0, sort, j)?;
    }
    Ok(s)
}

// Gives a name its value in a trial.
fn give(s: &mut Store, x: Name, sort: Option<Sort>, j: u8) -> Result<(), AllocError>
    requires { sorts_of s.old x.0 ≡ sort }
    ensures value { let value = value_in_trial j x.0 sort in
        OnOk result (GivesValue (zero_of sort) value x.0 (meaning s.old) (meaning s.new)) }
    ensures sorts { sorts_of s.new ≡ sorts_of s.old }
{
    match sort {
        None => Ok(()),
        Some(sort) => give_sorted(s, x, sort, j),
    }
}

// Gives a declared name its value in a trial.
fn give_sorted(s: &mut Store, x: Name, sort: Sort, j: u8) -> Result<(), AllocError>
    requires { sorts_of s.old x.0 ≡ Some sort }
    ensures value { let value = value_in_trial j x.0 (Some sort) in
        OnOk result (GivesValue (zero_of (Some sort)) value x.0 (meaning s.old) (meaning s.new)) }
    ensures sorts { sorts_of s.new ≡ sorts_of s.old }
{
    match sort {
        Sort::Num => {
            s.set(x, number_in_trial(j, x.0 as u64));
            Ok(())
        }
        Sort::Arr => give_elements(s, x, j),
    }
}

// Gives an array its elements in a trial.
fn give_elements(s: &mut Store, a: Name, j: u8) -> Result<(), AllocError>
    requires { sorts_of s.old a.0 ≡ Some Sort.Arr }
    ensures value { let given = elements_below 8 j a.0 in
        OnOk result (Overrides given a.0 (meaning s.old) (meaning s.new)) }
    ensures sorts { sorts_of s.new ≡ sorts_of s.old }
{
    for c in 0..8u64 {
        s.set_cell(a, c as i128, number_in_trial(j, a.0 as u64 + c + 1))?;
    }
    Ok(())
}

// The number with this number in a trial.
#[tactic(auto, unfolding(crate::specs::Trials::number_in_trial))]
fn number_in_trial(j: u8, k: u64) -> i128
    requires { k < 2 ^ 33 }
    ensures { result ≡ number_in_trial j k }
{
    let j = j as u64;
    less_six((j * (5 * k + 7) + (j / 8) * (3 * k + 1)) % 19)
}

// A number less 6.
fn less_six(n: u64) -> i128
    requires { n < 19 }
    ensures { result ≡ pos n -ℤ pos 6 }
{
    n as i128 - 6
}
