//! The compaction that is due in a store.
//!
//! A level has a [`Job`] where it has eight entries or 32 MiB: its oldest entries are merged then, and one entry of the
//! next level stands in for them. The lowest level comes first.
#![tactic(auto)]

mod job;
mod laws;
mod plan;
#[cfg(test)]
mod tests;

pub use job::Job;
pub use laws::{jobs_of_entries, levels_without_a_job};
pub use plan::{ENOUGH_BYTES, MAX_ENTRIES, due};
