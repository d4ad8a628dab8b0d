//! What the parameters of a query string say, as far as they don't depend on a route.
#![tactic(auto)]

mod parameters;
mod scan;
mod series_name;
#[cfg(test)]
mod tests;
mod times;

pub use parameters::{Parameter, first_value, read_parameters};
pub use series_name::{MAX_SERVICE_BYTES, NameFault, SeriesName, read_series_name};
pub use times::{MAX_TIME_MS, read_time};
