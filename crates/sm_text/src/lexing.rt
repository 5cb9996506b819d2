// From bytes to tokens.
pub(crate) mod front;
pub(crate) mod lexer;
pub(crate) mod marks;
pub(crate) mod token_list;
