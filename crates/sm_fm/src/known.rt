// The forms of the list, as they are looked up.
ghost use Rattle.std.specs.Prelude.{◌≡◌, IfOk, OnOk, OnErr};
ghost use Rattle.std.specs.Cmp.{partial_equiv_from_equiv};
ghost use Rattle.sm_fm.specs.Known.{same_known, hashed, Learns, KnowsAll};
ghost use Rattle.sm_fm.specs.KnownLaws.{same_known-equiv, same_known-hashed};

use crate::same::same;
use sm_num::LinForm;
use std::alloc::{AllocError, Global};
use std::collections::HashSet;
use std::hash::{Hash, Hasher};

// A form by which others are found that are the same.
#[derive(Drop)]
pub(crate) struct Known {
    pub(crate) form: LinForm,
}

impl PartialEq for Known {
    ghost eq = { same_known };

    ghost laws = { partial_equiv_from_equiv same_known-equiv };

    fn eq(&self, other: &Known) -> bool {
        same(&self.form, &other.form)
    }
}

impl Eq for Known {
    ghost laws = { same_known-equiv };
}

impl Hash for Known {
    ghost hash_input = { hashed };

    ghost respects_eq = { same_known-hashed };

    #[tactic(auto, unfolding(crate::specs::Known::hashed))]
    fn hash<H: Hasher>(&self, state: &mut H) {
        self.form.parts().hash(state);
        self.form.constant().hash(state);
    }
}

// A set of all forms of a list.
pub(crate) fn know_all(alloc: Global, forms: &[LinForm]) -> Result<HashSet<Known>, AllocError>
    ensures { IfOk result (λ s. KnowsAll s.keys forms.now) }
{
    let mut known = HashSet::new(alloc);
    for form in forms {
        learn(
            &mut known,
            Known {
                form: form.copy(alloc)?,
            },
        )?;
    }
    Ok(known)
}

// Puts a form into a set.
pub(crate) fn learn(known: &mut HashSet<Known>, form: Known) -> Result<(), AllocError>
    ensures ok { OnOk result (Learns known.old.keys known.new.keys form.form) }
    ensures err { OnErr result (known.new.keys ≡ known.old.keys) }
{
    known.insert(form)?;
    Ok(())
}
