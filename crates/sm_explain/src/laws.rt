// Laws of places and of clauses, as contracts.
ghost use Rattle.std.specs.Prelude.{ℤ};
ghost use Rattle.sm_explain.specs.Laws.{PlaceIsOne, ClausesFail};

/// An offset of a text has one place.
pub fn place_is_one()
    ensures { PlaceIsOne }
{}

/// Words are said exactly where their clause of the condition fails, and none fails where the four
/// values are one.
pub fn clauses_fail()
    ensures { (base a b candidate : ℤ) → ClausesFail base a b candidate }
{}
