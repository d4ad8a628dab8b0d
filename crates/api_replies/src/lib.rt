//! The reply to a request.
#![tactic(auto)]

mod answered;
mod fault_body;
mod labels;
mod laws;
mod refusal;
mod render;
#[cfg(test)]
mod tests;
mod verdict;

pub use answered::{Answered, answer};
pub use laws::one_or_the_other;
pub use refusal::{closing_reply, memory_reply};
pub use verdict::{Verdict, acknowledge};
