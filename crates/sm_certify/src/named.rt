// How many terms formulas name.
ghost use Rattle.std.specs.Prelude.{◌≡◌, [], length, IfOk};
ghost use Rattle.sm_term.specs.Tables.{trees_in, sorts_in};
ghost use Rattle.sm_theory.specs.TermsOfFormulas.{with_formulas};
ghost use Rattle.sm_list.specs.Parts.{all_numbered, assertions_in, AreFormulasWithin};

use sm_list::list_formulas;
use sm_numbering::Numbering;
use sm_term::{Formula, TermTable};
use std::alloc::{AllocError, Global};

/// How many terms formulas name, with their arguments.
pub fn count_named(alloc: Global, table: &TermTable, facts: &[Formula]) -> Result<usize, AllocError>
    requires { AreFormulasWithin (length (trees_in table.now)) (all_numbered facts.now) }
    ensures { let all = assertions_in (sorts_in table.now) (trees_in table.now)
        (all_numbered facts.now) in
        IfOk result (λ n. n ≡ length (with_formulas all [])) }
{
    let mut listed = Numbering::new(alloc);
    list_formulas(alloc, table, &mut listed, facts)?;
    Ok(listed.len())
}
