//! The text of a task, read and printed: tokens, then symbols, then the rules of the grammar.
//!
//! - `tokens` cuts a text into exactly its tokens, up to its first lexical fault.
//!   `tokens_are_cut` is the law that says them a second way (`specs/lexing/Cutting.antt`).
//! - `symbols` and `names` give what the grammar sees of them, with names numbered by first
//!   appearance.
//! - `read_task` reads exactly the texts that the grammar spells, where nothing nests too deep,
//!   each into what it spells. A refusal names the first fault of the text: its kind and its place.
//! - `parse_program` reads exactly the texts of a program alone, and a refusal names the first
//!   fault in the same way.
//! - `parse_head` and `parse_block` read the front of a task, and a block from a token on, whatever
//!   follows.
//! - `print_task`, `print_program`, `print_block` and `print_cond` give the canonical text. That of
//!   a task spells the task again; the others do where what is printed is no deeper than 64. What
//!   `parse_program`, `parse_head` and `parse_block` give can be printed.
//! - Laws: the grammar spells at most one task by a text (`one_parse`) and numbers what it declares
//!   in order (`declared_in_order`), a text in the grammar has no fault (`no_fault_in_grammar`),
//!   and any other text has one first fault (`one_first_fault`).
//!
//! The folders are the steps of the way: `lexing` from bytes to tokens, `resolving` from tokens to
//! symbols, `rules` from symbols to trees, `parsing` from a text to what it spells, and `printing`
//! back to text. `src`, `specs` and the proofs of functions have the same folders.
//!
//! What is read stands in `specs/` of `sm_syntax`, what the trees of a task, of its front and of a
//! program carry in `specs/Tasks.antt` here, which fault is the first in
//! `specs/parsing/Places.antt` here, and what is printed in `specs/printing/Canonical.antt`.
//! `specs/rules` has the parsers that the code follows. The first line of each file in `specs/`
//! says whether public clauses cite it.
#![tactic(auto)]

mod error;
mod laws;
mod lexing;
mod parsing;
mod printing;
mod resolving;
mod rules;
mod task;

pub use error::TextError;
pub use laws::{
    declared_in_order, no_fault_in_grammar, one_first_fault, one_parse, tokens_are_cut,
};
pub use lexing::lexer::tokens;
pub use lexing::token_list::Tokens;
pub use parsing::prefix::{parse_block, parse_head};
pub use parsing::program::parse_program;
pub use parsing::text::read_task;
pub use printing::print::{print_block, print_cond, print_program, print_task};
pub use resolving::resolve::{names, symbols};
pub use resolving::symbol_list::Symbols;
pub use task::Task;
