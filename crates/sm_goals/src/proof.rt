// Plans with their certificates.
use sm_expand::Plan;
use sm_sided::CertTrees;
use sm_term::TermTable;

/// A plan of a task, over a table of terms, with a certificate for each goal that it asks.
#[derive(Drop)]
pub struct Proof {
    pub table: TermTable,
    pub plan: Plan,
    pub trees: CertTrees,
}
