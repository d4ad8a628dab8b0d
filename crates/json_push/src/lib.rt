//! What a JSON push says: series of raw profiles in base64.
//!
//! The body is that of Pyroscope's `push.v1.PusherService/Push`. The order of the faults and the bounds are this
//! project's own.
#![tactic(auto)]

mod fault;
mod gathered;
mod laws;
mod reader;
mod samples;
mod series;
#[cfg(test)]
mod tests;

pub use fault::PushFault;
pub use laws::one_answer;
pub use reader::read_push;
