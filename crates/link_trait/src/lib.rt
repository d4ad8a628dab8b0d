//! One connection: it gives and takes bytes, tells the moment, and counts its faults; over memory, and over the
//! standard streams.
#![tactic(auto)]

mod link;
mod memory_link;
mod stdio_link;
#[cfg(test)]
mod tests;

pub use link::{Failed, LAST_MOMENT, Link};
pub use memory_link::MemoryLink;
pub use stdio_link::StdioLink;
