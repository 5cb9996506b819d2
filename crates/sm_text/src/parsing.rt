// From a text to what it spells, or to its first fault.
pub(crate) mod prefix;
pub(crate) mod program;
pub(crate) mod text;
