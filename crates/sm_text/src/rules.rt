// From symbols to trees: a function for each rule of the grammar.
pub(crate) mod conditions;
pub(crate) mod expressions;
pub(crate) mod names;
pub(crate) mod reading;
pub(crate) mod sections;
pub(crate) mod statements;
