// The symbols of a text.
use sm_syntax::{NameTable, Symbol};

/// What the grammar sees of the tokens of a text, in order, and the names that it gives numbers.
#[derive(Drop)]
pub struct Symbols {
    pub list: Vec<Symbol>,
    pub names: NameTable,
}
