//! How much of one history was seen: a spine stands for the history, and a pass for the part of it that a connection saw.
//! Where the two meet, what the pass had turns out to be a prefix of what the spine has.
#![tactic(auto)]

mod laws;
mod naming;
mod pass;
mod rule;
mod spine;
mod standing;
#[cfg(test)]
mod tests;
mod view;

pub use laws::{meetings_grow, runs_grow};
pub use naming::Naming;
pub use pass::Pass;
pub use spine::{BlankSpine, Spine};
pub use standing::Standing;
pub use view::Mark;
