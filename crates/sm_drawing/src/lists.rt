// The list of moments that is carried along a drawing.
use crate::error::DrawingError;
use crate::moments::{Moments, Parted, after_statement, parted_by};
use crate::running::Bound;
use sm_syntax::{Cond, CopyName, Stmt};
use std::alloc::Global;

/// The moments that come to a node, or none where it is drawn without runs.
pub(crate) type Carried = Option<Moments>;

/// Two lists.
#[derive(Drop)]
pub(crate) struct TwoCarried {
    pub(crate) one: Carried,
    pub(crate) other: Carried,
}

/// Whether a list is there and has no moment.
pub(crate) fn is_unreached(carried: &Carried) -> bool {
    match carried {
        Some(moments) => moments.list.is_empty(),
        None => false,
    }
}

/// The list after a statement of a copy.
pub(crate) fn carried_on(
    alloc: Global,
    carried: Carried,
    copy: CopyName,
    statement: &Stmt,
    bound: &mut Bound,
) -> Result<Carried, DrawingError> {
    match carried {
        Some(moments) => Ok(Some(after_statement(alloc, moments, copy, statement, bound)?)),
        None => Ok(None),
    }
}

/// The lists of either branch of a fork.
pub(crate) fn carried_apart(
    alloc: Global,
    carried: Carried,
    copy: CopyName,
    guard: &Cond,
) -> Result<TwoCarried, DrawingError> {
    match carried {
        Some(moments) => {
            let Parted { one, other } = parted_by(alloc, moments, copy, guard)?;
            Ok(TwoCarried {
                one: Some(one),
                other: Some(other),
            })
        }
        None => Ok(TwoCarried {
            one: None,
            other: None,
        }),
    }
}

/// The list behind loops: none where no run got out.
pub(crate) fn carried_after(moments: Moments) -> Carried {
    if moments.list.is_empty() {
        return None;
    }
    Some(moments)
}
