//! What queries find in a history that is read along a pass, gathered part by part: one part is in memory at a time.
#![tactic(auto)]

mod gather;
mod reading;
#[cfg(test)]
mod tests;

pub use gather::Gather;
pub use reading::{ReadingFault, read_all};
