//! Requests from a connection's bytes, and replies as bytes.
//!
//! A [`Reader`] reads one request after another from a connection's link; [`write_reply`] writes a reply to it.
#![tactic(auto)]

mod bad_request;
mod buffer;
mod framing;
mod head;
mod laws;
mod method;
mod reader;
mod reply;
mod request;
#[cfg(test)]
mod tests;
mod write;

pub use bad_request::BadRequest;
pub use laws::one_reading;
pub use method::Method;
pub use reader::{NextRequest, Reader};
pub use reply::{Allow, Body, KEPT_LIMIT, Reply, Status, Text};
pub use request::{MAX_REQUESTS, Request, RequestParts};
pub use write::{LinkFault, write_reply};
