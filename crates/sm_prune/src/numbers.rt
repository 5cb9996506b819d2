// The new numbers of terms and formulas.
ghost use Rattle.std.specs.Prelude.{◌≡◌, ◌++◌, ◌∷◌, [], IfOk, OnOk};
ghost use Rattle.sm_proof.specs.Lines.{line_of};
ghost use Rattle.sm_prune.specs.LeftLines.{more_if, new_number, numbers_after};
ghost use Rattle.sm_prune.specs.Numbers.{numbering_of};

use sm_proof::Line;
use std::alloc::AllocError;

// The new number of each term and each formula so far, and how many are left of them.
#[derive(Drop)]
pub(crate) struct Numbers {
    pub(crate) terms: Vec<u64>,
    pub(crate) forms: Vec<u64>,
    pub(crate) terms_left: u64,
    pub(crate) forms_left: u64,
}

// A new number.
pub(crate) fn new_number(moved: &[u64], n: u64) -> u64
    ensures { result ≡ new_number moved.now n }
{
    let place = n as usize;
    if place < moved.len() { moved[place] } else { 0 }
}

// One more, if a line is left. There is no memory for more lines than a `u64` counts.
fn more_if(left: bool, n: u64) -> Result<u64, AllocError>
    ensures { IfOk result (λ m. m ≡ more_if left n) }
{
    if !left {
        return Ok(n);
    }
    match n.checked_add(1) {
        Some(m) => Ok(m),
        None => Err(AllocError),
    }
}

// A number for one more, which is that of the next that is left.
fn add_number(moved: &mut Vec<u64>, count: u64, left: bool) -> Result<u64, AllocError>
    ensures count { IfOk result (λ n. n ≡ more_if left count) }
    ensures moved { OnOk result (moved.new.items ≡ moved.old.items ++ count ∷ []) }
{
    let next = more_if(left, count)?;
    moved.push(count)?;
    Ok(next)
}

// The number of a term more.
fn number_term(numbers: &mut Numbers, left: bool) -> Result<(), AllocError>
    ensures { let m = numbering_of numbers.old in OnOk result
        (numbering_of numbers.new ≡ record m {
          terms = m.terms ++ m.terms_left ∷ [];
          terms_left = more_if left m.terms_left;
        }) }
{
    let next = add_number(&mut numbers.terms, numbers.terms_left, left)?;
    numbers.terms_left = next;
    Ok(())
}

// The number of a formula more.
fn number_form(numbers: &mut Numbers, left: bool) -> Result<(), AllocError>
    ensures { let m = numbering_of numbers.old in OnOk result
        (numbering_of numbers.new ≡ record m {
          forms = m.forms ++ m.forms_left ∷ [];
          forms_left = more_if left m.forms_left;
        }) }
{
    let next = add_number(&mut numbers.forms, numbers.forms_left, left)?;
    numbers.forms_left = next;
    Ok(())
}

/// The numbers behind a line that is left or isn't.
pub(crate) fn number_line(numbers: &mut Numbers, line: &Line, left: bool) -> Result<(), AllocError>
    ensures { OnOk result (numbering_of numbers.new
        ≡ numbers_after left (line_of line.now) (numbering_of numbers.old)) }
{
    match line {
        Line::Header { .. } => Ok(()),
        Line::Term(_) => number_term(numbers, left),
        Line::Form(_) => number_form(numbers, left),
        Line::Node(_) => Ok(()),
        Line::Cert(_) => Ok(()),
    }
}
