//! A store of pushes over a disk: what it has acknowledged stays, whatever call of the disk fails and whenever the power does.
#![tactic(auto)]

mod fault;
mod flight;
mod mending;
mod opening;
mod parts;
mod reading;
mod settling;
mod store;

pub use fault::{MendFault, OpenCause, OpenRefused, ReadFault, SettleFault};
pub use settling::Settled;
pub use store::Store;

#[cfg(test)]
mod tests;
#[cfg(test)]
mod tests_faults;
#[cfg(test)]
mod tests_open;
