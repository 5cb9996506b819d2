// Forms that are computed, as facts.
ghost use Rattle.std.specs.Prelude.{List, IfOk};
ghost use Rattle.sm_syntax.specs.text.Sorts.{Sorts};
ghost use Rattle.sm_num.specs.Forms.{Linear};
ghost use Rattle.sm_num.specs.Combining.{Outcome};
ghost use Rattle.sm_term.specs.Terms.{Tree};
ghost use Rattle.sm_theory.specs.Arithmetic.{form_fact};
ghost use Rattle.sm_theory.specs.Views.{StandsIf};
ghost use Rattle.sm_lia.specs.Computing.{ReturnsFor};

use sm_num::{LinForm, NumError};
use sm_theory::Fact;
use std::alloc::AllocError;

// A form as a fact, None where an operation left the range.
pub(crate) fn fact_of(computed: Result<LinForm, NumError>) -> Result<Option<Fact>, AllocError>
    ensures { (sorts : Sorts) (trees : List Tree) (outcome : Outcome (Linear Tree)) →
        ReturnsFor trees outcome computed →
        IfOk result (λ o. StandsIf sorts trees o (form_fact outcome)) }
{
    match computed {
        Ok(f) => Ok(Some(Fact::Lin(f))),
        Err(NumError::Beyond { .. }) => Ok(None),
        Err(NumError::Memory) => Err(AllocError),
    }
}
