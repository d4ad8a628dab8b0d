//! The message of a pprof profile, read from its bytes as they spell it and not judged.
//!
//! The fields are those of pprof's `profile.proto`, in the wire format of Protocol Buffers. Places of
//! the string table, ids and values are told as they stand. What isn't known is skipped.
#![tactic(auto)]

mod fault;
mod found;
mod gathered;
mod laws;
mod lists;
mod location;
mod message;
mod numbers;
mod reader;
mod repeated;
mod runs;
mod sample;

pub use fault::MessageFault;
pub use laws::{one_reading, packed_numbers_have_one_reading};
pub use lists::{Function, Label, LocationRef, SampleRef, ValueType};
pub use message::PprofMessage;
pub use reader::read_message;

#[cfg(test)]
mod tests;
