// What runs show at the loops of a plan.
use sm_eval::Store;
use sm_syntax::PerCopy;

/// The stores with which the runs from an input came to the loops of a site. The input is named by
/// its place.
#[derive(Drop)]
pub struct Entry {
    pub input: usize,
    pub stores: PerCopy<Store>,
}

/// The stores before a turn of the loops of a site, or after the last one. The entry is named by
/// its place.
#[derive(Drop)]
pub struct Visit {
    pub entry: usize,
    pub stores: PerCopy<Store>,
}

/// What runs show at the loops of a site. Where it is reached by a way that no run takes, it has
/// none.
#[derive(Drop)]
pub struct Visits {
    pub entries: Vec<Entry>,
    pub list: Vec<Visit>,
}
