//! The bodies in JSON that requests carry, read into types.
#![tactic(auto)]

mod fields;
mod kept;
mod laws;
mod leaves;
mod lists;
mod number;
mod object;
mod push;
mod queries;
mod series;
#[cfg(test)]
mod tests;
mod texts;
mod walk;

pub use fields::FieldFault;
pub use laws::faults_exclude_bodies;
pub use object::{JsonFault, JsonObject};
pub use push::{PushBody, PushedSeries, ShapeFault};
pub use queries::{LabelNamesBody, LabelValuesBody, SeriesBody};
