// Values that the variables get from the last frame to the first.
ghost use Rattle.std.specs.Prelude.{◌≡◌, ℕ, Some, nat_eq, if◌then◌else◌, IfOk, OnOk, IfErr};
ghost use Rattle.std.specs.HashMap.{get};
ghost use Rattle.sm_omega.specs.Counting.{Done};
ghost use Rattle.sm_omega.specs.Rules.{Answer};
ghost use Rattle.sm_exact.specs.Stack.{Awaits, all_zero};
ghost use Rattle.sm_exact.specs.Valued.{values_in, Leads, Fails, FailsAll};

use crate::frame::{Frame, Side};
use crate::values::{bound_of, value_by};
use sm_num::NumError;
use std::alloc::{AllocError, Global};
use std::collections::HashMap;

// Gives the variables of frames their values, from the last on.
pub(crate) fn give_all(alloc: Global, frames: Vec<Frame>) -> Result<HashMap<u64, i128>, NumError>
    ensures ok { IfOk result (λ m. (limit c : ℕ) (whole : Answer) →
        Awaits limit frames.items (Done c (Some all_zero)) whole →
        whole ≡ Done c (Some (values_in (get nat_eq m)))) }
    ensures err { IfErr result (λ e. (limit c : ℕ) (whole : Answer) →
        Awaits limit frames.items (Done c (Some all_zero)) whole → FailsAll whole e) }
{
    let mut left = frames;
    let mut values = HashMap::new(alloc);
    while let Some(frame) = left.pop() {
        give(&mut values, frame)?;
    }
    Ok(values)
}

// Gives the variable of a frame its value.
fn give(values: &mut HashMap<u64, i128>, frame: Frame) -> Result<(), NumError>
    ensures ok { OnOk result
        (Leads frame
        (values_in (get nat_eq values.old)) (values_in (get nat_eq values.new))) }
    ensures err { IfErr result (Fails frame (values_in (get nat_eq values.old))) }
{
    match frame {
        Frame::Equation { t, e } => {
            let z = value_by(values, t, &e)?;
            Ok(put(values, t, &z)?)
        }
        Frame::Bounds { t, side, forms } => {
            let z = bound_of(values, t, side, &forms)?;
            Ok(put(values, t, &z)?)
        }
        Frame::Dark { s: _, t, forms } => {
            let z = bound_of(values, t, Side::Below, &forms)?;
            Ok(put(values, t, &z)?)
        }
        Frame::Splinters(_) => Ok(()),
    }
}

// Gives a variable its value.
fn put(values: &mut HashMap<u64, i128>, t: u64, z: &i128) -> Result<(), AllocError>
    ensures { OnOk result ((a : ℕ) → get nat_eq values.new a
        ≡ (if nat_eq t a then Some z.now else get nat_eq values.old a)) }
{
    values.insert(t, *z)?;
    Ok(())
}
