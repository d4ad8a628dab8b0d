//! What a request to ingest says: its parameters name the series, and its body holds the stacks.
//!
//! The parameters and the forms of the body are those of Pyroscope's `/ingest`. Which forms are read, the order of
//! the faults and the bounds are this project's own.
#![tactic(auto)]

mod body;
mod fault;
mod form;
mod laws;
mod parameters;
mod reader;
#[cfg(test)]
mod tests;

pub use fault::IngestFault;
pub use laws::one_answer;
pub use reader::read_ingest;
