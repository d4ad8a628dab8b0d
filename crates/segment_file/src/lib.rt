//! An object: consecutive pushes of a history, and the file that keeps them.
//!
//! A file is a list of fields: numbers, the highest byte first, and texts with their length before them. Each list has
//! its count before it.
#![tactic(auto)]

mod cursor;
mod decoding;
mod encode;
mod fault;
mod laws;
mod length;
mod object;
mod part;
mod reader;
mod reader_labels;
mod reader_profiles;
mod reader_pushes;
mod reader_samples;
mod rules;
#[cfg(test)]
mod tests;
#[cfg(test)]
mod tests_decode;
mod texts;

pub use decoding::decode;
pub use fault::{ObjectFault, ObjectRule};
pub use laws::{
    bytes_have_one_fault, each_file_decodes, light_pushes_have_room, objects_have_one_spelling,
};
pub use object::Object;
pub use part::{Part, Row};
