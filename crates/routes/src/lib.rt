//! Which route a method and a path name.
//!
//! The routes follow Pyroscope's server: what it takes and answers over HTTP. A path is compared byte by byte;
//! a route has one method.
#![tactic(auto)]

mod route;
mod router;
#[cfg(test)]
mod tests;

pub use route::{Found, Route};
pub use router::Routes;
