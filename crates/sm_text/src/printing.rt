// From trees to their canonical text.
pub(crate) mod expressions;
pub(crate) mod print;
pub(crate) mod sections;
pub(crate) mod statements;
