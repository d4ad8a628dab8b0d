//! What stops a call that reads: a fault of what is read and its place, or want of memory.
#![tactic(auto)]

mod place;
mod refused;
#[cfg(test)]
mod tests;

pub use place::Place;
pub use refused::Refused;
