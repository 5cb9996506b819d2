// What a decision comes to.
use sm_num::Op;

/// The values of variables, by ascending variable.
#[derive(Drop)]
pub struct Pairs {
    pub list: Vec<(u64, i128)>,
}

/// What a decision comes to.
#[derive(Drop)]
pub enum ExactAnswer {
    /// No whole numbers satisfy the forms; so many forms were computed.
    Refuted { count: u64 },
    /// These whole numbers do, one for each variable of the forms.
    Solution(Pairs),
    /// More steps would be needed.
    Steps,
    /// The operation, with its operands, whose exact result leaves the range of forms.
    Beyond { op: Op, a: i128, b: i128 },
}
