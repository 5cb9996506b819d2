//! What programs mean, when a merge is free of conflicts, and which text spells a task.
//!
//! Read `specs/claim/ConflictFree.antt` first: it states the claim. `specs/claim/Meaning.antt` says
//! what a program does, `specs/claim/Keeps.antt` what a merge keeps at one cell.
//! `specs/text/Spells.antt` ties a text to a task, by `specs/text/Tokens.antt`,
//! `specs/text/Symbols.antt`, the grammar from `specs/text/ExpressionGrammar.antt` up to
//! `specs/text/TaskGrammar.antt`, and `specs/text/Conditions.antt`.
#![tactic(auto)]

mod cell;
mod checks;
mod copies;
mod copy;
mod error;
mod laws;
mod measures;
mod names;
mod program;
mod same;
mod symbol;
mod token;
mod tree;

pub use cell::keeps;
pub use checks::{well_formed, well_formed_block, well_formed_cond};
pub use copies::{CopyName, PerCopy};
pub use copy::{copy_block, copy_cond, copy_decls, copy_expr, copy_outputs, copy_stmt};
pub use error::SyntaxError;
pub use laws::{keeps_exactly, more_turns, run_of_appended, unassigned_stays, well_sorted_is_all};
pub use measures::{depth, nodes};
pub use names::NameTable;
pub use program::{Decls, Filling, Fillings, Outputs, Program};
pub use same::{same_block, same_cond, same_expr};
pub use symbol::{Mark, Symbol};
pub use token::{LexFault, LexKind, Token, TokenKind};
pub use tree::{Block, Cmp, Cond, Expr, Name, Sort, Stmt};
