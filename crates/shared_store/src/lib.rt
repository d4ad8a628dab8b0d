//! A store with the history that it stands for: queries read it along passes, so that each connection is told of one history
//! that only grows.
#![tactic(auto)]

mod cursor;
mod flush;
mod gate;
mod hold;
mod laws;
mod names;
mod refusal;
mod settle;
mod solo;

pub use cursor::{Cursor, FrontAhead, Profiles};
pub use gate::{FreeGate, Gate};
pub use laws::parts_are_whole;
pub use names::Names;
pub use refusal::Refusal;
pub use solo::Solo;

#[cfg(test)]
mod tests;
#[cfg(test)]
mod tests_settling;
