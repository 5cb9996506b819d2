// What a walk goes over, and how far it goes.
use crate::reach::Reach;
use sm_num::LinForm;
use sm_term::{TermTable, Terms};

/// The table of a walk's terms, their linear forms, the terms in a list, and how far the walk goes.
#[derive(Clone, Copy)]
pub(crate) struct WalkContext<'a> {
    pub(crate) table: &'a TermTable,
    pub(crate) forms: &'a [LinForm],
    pub(crate) terms: &'a Terms,
    pub(crate) reach: Reach,
}
