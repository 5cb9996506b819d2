// Programs and the parts of a task.
use crate::names::NameTable;
use crate::tree::{Block, Name, Sort};

/// The declared names with their sorts, in the order of the text.
#[derive(Drop)]
pub struct Decls {
    pub list: Vec<(Name, Sort)>,
}

/// The output names, in the order of the text.
#[derive(Drop)]
pub struct Outputs {
    pub list: Vec<Name>,
}

/// The statements that stand for a hole.
#[derive(Drop)]
pub struct Filling {
    pub hole: u32,
    pub block: Block,
}

/// The fillings of one copy, in the order of the text.
#[derive(Drop)]
pub struct Fillings {
    pub list: Vec<Filling>,
}

/// A program: the texts of its names, its declarations, its outputs and its statements.
pub struct Program {
    pub names: NameTable,
    pub decls: Decls,
    pub outputs: Outputs,
    pub body: Block,
}

// One call ends a value, and not one for each field: proofs of what has it stay small.
impl Drop for Program {
    fn drop(self) {
        let Self {
            names: _,
            decls: _,
            outputs: _,
            body: _,
        } = self;
    }
}
