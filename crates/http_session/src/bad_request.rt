//! Why bytes are no request that is served.
ghost use Rattle.std.specs.Prelude.{◌≡◌, option_map};
ghost use Rattle.http_session.specs.Codes.{fault_code};

/// The faults of a connection's bytes. After each of them the connection is closed.
#[derive(Clone, Copy, Debug, PartialEq, Eq)]
pub enum BadRequest {
    /// No head, or headers that say no body's length.
    Malformed,
    /// More headers than a head may have, or no whole head in as many bytes as it may have.
    HeadTooLarge,
    /// A Content-Length above what a body may have.
    BodyTooLarge,
    /// Transfer-Encoding is `chunked`, which isn't read.
    Chunked,
    /// The input ended inside a request.
    CutOff,
}

impl BadRequest {
    /// The code that a reply shows. A request that was cut off has no reply, and one whose body is
    /// chunked has none of these codes.
    pub fn code(self) -> Option<&'static str>
        ensures { option_map (λ code. code.now) result ≡ fault_code self }
    {
        match self {
            BadRequest::Malformed => Some("H1"),
            BadRequest::HeadTooLarge => Some("H2"),
            BadRequest::BodyTooLarge => Some("H3"),
            BadRequest::Chunked | BadRequest::CutOff => None,
        }
    }
}
