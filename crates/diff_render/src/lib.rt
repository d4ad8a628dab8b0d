//! Flame graphs of two sides: the stacks of two trees, side by side.
#![tactic(auto)]

mod both;
mod doubles;
mod joined;
mod laws;

pub use doubles::{DoubleFlame, double};
pub use laws::{each_side_stays_one_side, equal_sides_show_equal_numbers};

#[cfg(test)]
mod tests;
