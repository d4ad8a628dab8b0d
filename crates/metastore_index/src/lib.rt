//! The index of a store: which objects hold which pushes of the history.
//!
//! An [`Entry`] is a run of pushes with the object that holds them; its body is a record of the index file.
//! An [`Index`] has the live entries, which divide the history from its first push to its end.
#![tactic(auto)]

mod changes;
mod entry;
mod fault;
mod index;
mod laws;
mod number;
mod runs;

pub use entry::{Entry, MAX_LEVEL};
pub use fault::ApplyFault;
pub use index::Index;
pub use laws::{holders_of_a_push, levels_of_entries, one_index, records_taken_in_turn};

#[cfg(test)]
mod tests;
