//! What is kept of each tenant beside a history, and what becomes of pushes that ask to be kept.
#![tactic(auto)]

mod asks;
mod books;
mod judging;
mod laws;
mod limits;
#[cfg(test)]
mod tests;
mod verdict;

pub use asks::PushAsk;
pub use books::{Books, TotalPassed};
pub use judging::{Judged, judge, would_keep};
pub use laws::{each_is_judged, one_judgement};
pub use limits::Limits;
pub use verdict::{Receipt, Verdict};
