// The search for an input whose ends break the condition.
ghost use Rattle.std.specs.Prelude.{◌<◌, ◌≤◌};

use crate::crew::Crew;
use crate::guiding::try_guided;
use crate::halt::Halt;
use crate::inputs::InputCell;
use crate::search::Search;
use crate::setting::Setting;
use crate::small::{FIRST_SMALL, LAST_SMALL, STATED, small_input, stated_input};
use crate::trials::{add_wave, wave_size};
use sm_par::Gate;
use std::alloc::{AllocError, Global};
use std::thread::Threads;

/// Runs the stated trials, then small inputs, then those that are led to where no run has gone.
pub fn try_all<R: Threads + Sync, G: Gate>(
    crew: &Crew<'_, R, G>,
    alloc: Global,
    setting: &Setting<'_>,
    search: &mut Search,
) -> Result<(), Halt> {
    try_range(crew, alloc, setting, search, 0, STATED, true)?;
    let end = LAST_SMALL + 1;
    try_range(crew, alloc, setting, search, FIRST_SMALL, end, false)?;
    try_guided(crew, alloc, setting, search)
}

// Runs the stated trials with the numbers of a range, or the small inputs, wave by wave.
fn try_range<R: Threads + Sync, G: Gate>(
    crew: &Crew<'_, R, G>,
    alloc: Global,
    setting: &Setting<'_>,
    search: &mut Search,
    first: u64,
    end: u64,
    is_stated: bool,
) -> Result<(), Halt>
    requires { end ≤ 1024 }
{
    let size = wave_size(crew, setting, 1) as u64;
    for j in first..end {
        if (j - first).checked_rem(size) == Some(0) {
            let behind = end.min(j.saturating_add(size));
            let wave = inputs_from(alloc, &setting.cells, j, behind, is_stated)?;
            add_wave(crew, alloc, setting, search, wave, is_stated)?;
        }
    }
    Ok(())
}

// The stated trials with the numbers of a range, or the small inputs.
fn inputs_from(
    alloc: Global,
    cells: &[InputCell],
    first: u64,
    end: u64,
    is_stated: bool,
) -> Result<Vec<Vec<i128>>, AllocError>
    requires { end ≤ 1024 }
{
    let mut inputs = Vec::new(alloc);
    for j in first..end {
        inputs.push(numbered_input(alloc, cells, j, is_stated)?)?;
    }
    Ok(inputs)
}

// The stated trial with a number, or the small input.
fn numbered_input(
    alloc: Global,
    cells: &[InputCell],
    j: u64,
    is_stated: bool,
) -> Result<Vec<i128>, AllocError>
    requires { j < 1024 }
{
    if is_stated {
        return stated_input(alloc, cells, j);
    }
    small_input(alloc, cells, j)
}
