// From tokens to symbols, with names numbered by first appearance.
pub(crate) mod resolve;
pub(crate) mod symbol_list;
