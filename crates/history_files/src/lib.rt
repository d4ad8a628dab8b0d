//! What the files of a disk stand for, and the calls by which a store reads and writes them.
//!
//! `Index(0)` lists the entries, as a journal; `Object(id)` has the pushes of one entry. An object is on the disk before
//! its entry is listed, so that each crash leaves files that stand for a history.
#![tactic(auto)]

mod entry;
mod fault;
mod laws;
mod object;
mod open;
mod spare;
mod writing;

pub use entry::entry_of;
pub use fault::{FilesFault, OpenFault};
pub use laws::{entries_turn_histories, files_stand_for_one_history};
pub use object::read_object;
pub use open::{open_index, read_index, sync_all};
pub use spare::remove_spares;
pub use writing::{CommitFault, commit};

#[cfg(test)]
mod tests;
