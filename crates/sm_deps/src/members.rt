// Sets of names.
ghost use Rattle.std.specs.Prelude.{◌≡◌, IfOk, OnOk};
ghost use Rattle.std.specs.List.Sorted.{IsStrictlySortedBy};
ghost use Rattle.std.specs.Ordering.{nat_cmp};
ghost use Rattle.sm_syntax.specs.trees.Programs.{outputs_of};
ghost use Rattle.sm_deps.specs.Members.{members, either, only};

use sm_syntax::{Name, Outputs};
use std::alloc::{AllocError, Global};
use std::collections::BTreeSet;

// The numbers of the names.
pub(crate) type NameSet = BTreeSet<u32>;

// One name more.
pub(crate) fn add_name(names: &mut NameSet, x: Name) -> Result<(), AllocError>
    ensures { OnOk result (members names.new ≡ either (members names.old) (only x.0)) }
{
    names.insert(x.0)?;
    Ok(())
}

// The names of another set too.
pub(crate) fn add_all(names: &mut NameSet, mut others: NameSet) -> Result<(), AllocError>
    ensures { OnOk result (members names.new ≡ either (members names.old) (members others)) }
{
    names.append(&mut others)
}

// The names, ascending.
pub(crate) fn list_of(alloc: Global, names: &NameSet) -> Result<Outputs, AllocError>
    ensures listed { IfOk result (λ o. outputs_of o ≡ names.now.keys) }
    ensures ordered { IsStrictlySortedBy nat_cmp names.now.keys }
{
    let mut list = Vec::new(alloc);
    for x in names {
        list.push(Name(*x))?;
    }
    Ok(Outputs { list })
}
