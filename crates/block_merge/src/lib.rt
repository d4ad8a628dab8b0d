//! Several objects as one.
//!
//! Objects that follow each other in the history are merged into the object of all their pushes, in order. Its file is
//! no longer than theirs together.
#![tactic(auto)]

mod laws;
mod merging;
#[cfg(test)]
mod tests;

pub use laws::{files_of_merged_objects, merged_objects};
pub use merging::merge;
