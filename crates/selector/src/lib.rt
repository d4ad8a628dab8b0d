//! Selectors of profiles by their labels: read from text, and matched.
#![tactic(auto)]

mod budget;
mod fault;
mod inside;
mod judge;
mod laws;
mod matcher;
mod matchers;
mod operator;
mod pattern;
mod query;
mod selector;
mod tokens;
mod written;

pub use budget::{MAX_PATTERN_BYTES, left_by_patterns};
pub use fault::SelectorFault;
pub use laws::{one_answer, one_meaning};
pub use matchers::{MAX_MATCHERS, NAME_LABEL, TYPE_LABEL};
pub use operator::Operator;
pub use query::Query;
pub use selector::Selector;

#[cfg(test)]
mod tests;
