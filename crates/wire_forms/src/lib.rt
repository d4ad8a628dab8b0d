//! Forms that many readers share.
#![tactic(auto)]

mod decimal;
mod gzip;
#[cfg(test)]
mod tests;

pub use decimal::{digits_of, read_digits};
pub use gzip::begins_as_gzip;
