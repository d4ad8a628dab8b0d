//! Folded stacks as text: lines to the sums of each stack, and back.
#![tactic(auto)]

mod fault;
mod frames;
mod interner;
mod laws;
mod line;
mod reader;
mod writer;

pub use fault::FoldedFault;
pub use laws::{one_answer, written_is_read_back};
pub use reader::{read_folded, read_lines};
pub use writer::write_folded;

#[cfg(test)]
mod tests;
