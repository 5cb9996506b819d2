//! The deeper search for a plan that proves a task: observe, then prove.
//!
//! - `search_deeper` runs the four programs from many inputs, draws plans along these runs, reads
//!   off what the runs show at each loop which formulas can be invariants, and drops those that
//!   don't prove. Where all obligations of what is left close, the plan with its certificates is
//!   tested once more (`sm_audit`): what is answered can be written as a proof file that passes.
//! - Nothing of what runs show is believed, nor what is found before that test. Where it answers
//!   none, nothing follows.
//! - A search ends in time: the work of all drawings, walks and trials of candidates is bounded.
//!
//! `search` tries drawings; `attempt` is one, with its repairs: `sm_candidates` walks over its plan
//! for the candidates of each loop, `rounds` drops those that don't prove, and `ends` gives
//! certificates. Walks are jobs (`ahead`, `end_jobs`): what is found doesn't depend on the number of
//! workers. What runs show at a loop is read off by `sm_observed`, and `sm_drawing` draws.
#![tactic(auto)]

mod ahead;
mod attempt;
mod closing;
mod crew;
mod effort;
mod end_jobs;
mod ends;
mod facts;
mod judging;
mod kept;
mod marks;
mod node_ends;
mod owners;
mod rounds;
mod same;
mod search;
mod shares;
mod told;

pub use search::search_deeper;
