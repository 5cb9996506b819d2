// What is asked of pairs of equal terms, answered by classes.
ghost use Rattle.sm_term.specs.Tables.{trees_in};
ghost use Rattle.sm_cc.specs.Classes.{are_apart};
ghost use Rattle.sm_cc.specs.Rounds.{are_equal};
ghost use Rattle.sm_cc.specs.Views.{setting_of};

use crate::classes::Classes;
use sm_pairs::Sees;
use sm_term::TermId;

impl<'a> Sees for Classes<'a> {
    ghost use Rattle.sm_term.specs.Tables.{trees_in};
    ghost use Rattle.sm_cc.specs.Classes.{are_apart};
    ghost use Rattle.sm_cc.specs.Rounds.{are_equal};
    ghost use Rattle.sm_cc.specs.Views.{setting_of};

    ghost trees = { λ c. trees_in c.table };

    ghost equal = { λ c. are_equal (setting_of c) };

    ghost apart = { λ c. are_apart (setting_of c) (are_equal (setting_of c)) };

    fn equal(&self, t: TermId, u: TermId) -> bool {
        self.same(t, u)
    }

    fn apart(&self, t: TermId, u: TermId) -> bool {
        Classes::apart(self, t, u)
    }
}
