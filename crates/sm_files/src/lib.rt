//! What becomes of the file of a proof.
//!
//! - `write_proof` has a proof written to its file, and answers whether it stands there whole.
//! - `trim_in` writes a proof that passes for a task to another file, without the lines that nobody
//!   uses, and tells how many lines there were and are.
//!
//! `specs/ProofFile.antt` says what is left in the file, and `specs/Trim.antt` what is answered.
#![tactic(auto)]

mod trimming;
mod writing;

pub use trimming::trim_in;
pub use writing::write_proof;
