//! What a query comes to, over rows that come part by part.
#![tactic(auto)]

mod asked;
mod grid;
mod groups;
mod join;
mod label_lists;
mod laws;
mod merge;
mod points;
mod runs;
mod stats;
#[cfg(test)]
mod tests;
mod types;

pub use grid::{MAX_STEP, MAX_TIME_MS};
pub use groups::Series;
pub use label_lists::LabelLists;
pub use laws::{
    answers_are_told_once, one_query_of_a_text, parts_are_rows, parts_stay_bounded,
    points_are_first, rows_in_any_order,
};
pub use merge::Merge;
pub use points::Points;
pub use stats::Stats;
pub use types::Types;
