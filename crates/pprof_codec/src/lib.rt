//! Profiles from the bytes of a pprof.
#![tactic(auto)]

mod base;
mod build;
mod fault;
mod functions;
mod ids;
mod judged;
mod laws;
mod locations;
mod numbers;
mod parts;
mod reader;
mod room;
mod runs;
mod samples;
mod stacks;
mod sums;
#[cfg(test)]
mod tests;
mod texts;
mod totals;

pub use base::Base;
pub use fault::{Member, PprofFault};
pub use laws::one_answer;
pub use reader::read_pprof;
