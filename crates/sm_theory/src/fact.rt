// Facts of a branch.
use sm_num::LinForm;
use sm_term::Formula;

/// What is known on a branch: a formula, or a linear form whose atoms are numbers of terms.
#[derive(Drop)]
pub enum Fact {
    Form(Formula),
    Lin(LinForm),
}

/// The facts of a branch. A fact's number is its place, from 0.
#[derive(Drop)]
pub struct Branch {
    pub list: Vec<Fact>,
}
