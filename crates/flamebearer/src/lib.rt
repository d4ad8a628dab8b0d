//! Flame graphs of stacks and their values.
#![tactic(auto)]

mod branches;
mod drawing;
mod kept;
mod laws;
mod levels;
mod names;
mod pictures;
mod rows;
mod tree;

pub use branches::{Branches, Frame, Value};
pub use drawing::{picture, single};
pub use laws::what_flame_graphs_show;
pub use pictures::{Flame, Picture};
pub use tree::Tree;

#[cfg(test)]
mod tests;
