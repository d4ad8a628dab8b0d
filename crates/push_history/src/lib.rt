//! What a history of accepted pushes holds of one tenant.
#![tactic(auto)]

mod history;
mod kept;

pub use history::{front, standing};
pub use kept::Standing;
