// The tokens of a text.
use sm_syntax::{LexFault, Token};

/// The tokens before the first lexical fault, in order, and that fault, if there is one.
#[derive(Drop)]
pub struct Tokens {
    pub list: Vec<Token>,
    pub fault: Option<LexFault>,
}
