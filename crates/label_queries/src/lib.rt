//! The answers of the query methods that list labels: names, values and series.
#![tactic(auto)]

mod label_sets;
mod laws;
mod listing;
mod shown;
#[cfg(test)]
mod tests;
mod text;

pub use label_sets::{LabelSets, is_asked};
pub use laws::{each_member_once, sets_of_more_profiles};
pub use shown::shown_labels;
pub use text::{names_text, series_text};
