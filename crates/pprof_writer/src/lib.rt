//! Profiles to the bytes of a pprof.
#![tactic(auto)]

mod laws;
mod names;
#[cfg(test)]
mod tests;
mod writer;

pub use laws::{names_stand_once, written_is_a_message, written_is_read_back};
pub use writer::write_pprof;
