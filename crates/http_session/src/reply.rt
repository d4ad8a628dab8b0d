//! A reply, before it is bytes.
ghost use Rattle.std.specs.Prelude.{◌≡◌, ◌≤◌, [], length};
ghost use Rattle.http_session.specs.Reply.{code_of, reason_of, type_of, name_of};

use arrayvec::ArrayVec;
use std::marker::Model;

/// The statuses of replies.
#[derive(Clone, Copy, Debug, PartialEq, Eq)]
pub enum Status {
    Ok,
    BadRequest,
    Unauthorized,
    NotFound,
    MethodNotAllowed,
    Conflict,
    ContentTooLarge,
    UnsupportedMediaType,
    UnprocessableContent,
    HeadersTooLarge,
    InternalServerError,
    NotImplemented,
    ServiceUnavailable,
    InsufficientStorage,
}

impl Status {
    pub fn code(self) -> u16
        ensures { result ≡ code_of self }
    {
        match self {
            Status::Ok => 200,
            Status::BadRequest => 400,
            Status::Unauthorized => 401,
            Status::NotFound => 404,
            Status::MethodNotAllowed => 405,
            Status::Conflict => 409,
            Status::ContentTooLarge => 413,
            Status::UnsupportedMediaType => 415,
            Status::UnprocessableContent => 422,
            Status::HeadersTooLarge => 431,
            Status::InternalServerError => 500,
            Status::NotImplemented => 501,
            Status::ServiceUnavailable => 503,
            Status::InsufficientStorage => 507,
        }
    }

    pub fn reason(self) -> &'static str
        ensures value { result.now ≡ reason_of self }
        ensures short { length result.now ≤ 31 }
    {
        match self {
            Status::Ok => "OK",
            Status::BadRequest => "Bad Request",
            Status::Unauthorized => "Unauthorized",
            Status::NotFound => "Not Found",
            Status::MethodNotAllowed => "Method Not Allowed",
            Status::Conflict => "Conflict",
            Status::ContentTooLarge => "Content Too Large",
            Status::UnsupportedMediaType => "Unsupported Media Type",
            Status::UnprocessableContent => "Unprocessable Content",
            Status::HeadersTooLarge => "Request Header Fields Too Large",
            Status::InternalServerError => "Internal Server Error",
            Status::NotImplemented => "Not Implemented",
            Status::ServiceUnavailable => "Service Unavailable",
            Status::InsufficientStorage => "Insufficient Storage",
        }
    }
}

/// What a body is.
#[derive(Clone, Copy, Debug, PartialEq, Eq)]
pub enum Text {
    Json,
    Plain,
    Octets,
}

impl Text {
    /// The content type.
    pub fn content_type(self) -> &'static str
        ensures value { result.now ≡ type_of self }
        ensures short { length result.now ≤ 24 }
    {
        match self {
            Text::Json => "application/json",
            Text::Plain => "text/plain",
            Text::Octets => "application/octet-stream",
        }
    }
}

/// The one method that a route takes.
#[derive(Clone, Copy, Debug, PartialEq, Eq)]
pub enum Allow {
    Get,
    Post,
}

impl Allow {
    pub fn name(self) -> &'static str
        ensures value { result.now ≡ name_of self }
        ensures short { length result.now ≤ 4 }
    {
        match self {
            Allow::Get => "GET",
            Allow::Post => "POST",
        }
    }
}

/// The longest body that is kept in place.
pub const KEPT_LIMIT: usize = 256;

/// The body of a reply. A short one is kept in place, without memory.
#[derive(Drop)]
pub struct Body {
    bytes: Bytes,
}

#[derive(Drop)]
enum Bytes {
    Kept(ArrayVec<u8, KEPT_LIMIT>),
    Long(Vec<u8>),
}

impl Model for Body {
    ghost use Rattle.std.specs.Prelude.{ℕ, List};

    ghost Value = { List ℕ };

    ghost use Rattle.http_session.specs.BodyBytes.{bytes_in};

    ghost view = { λ a. bytes_in a.bytes };
}

impl Body {
    pub fn empty() -> Body
        ensures { result ≡ [] }
    {
        Body {
            bytes: Bytes::Kept(ArrayVec::new()),
        }
    }

    /// A body that is kept in place.
    pub fn kept(bytes: &[u8]) -> Body
        requires { length bytes.now ≤ KEPT_LIMIT }
        ensures { result ≡ bytes.now }
    {
        let mut kept = ArrayVec::new();
        let _ = kept.try_extend_from_slice(bytes);
        Body {
            bytes: Bytes::Kept(kept),
        }
    }

    pub fn from_vec(bytes: Vec<u8>) -> Body
        ensures { result ≡ bytes.items }
    {
        Body {
            bytes: Bytes::Long(bytes),
        }
    }

    pub fn as_slice(&self) -> &[u8]
        ensures { result.now ≡ self.now }
    {
        match &self.bytes {
            Bytes::Kept(kept) => kept.as_slice(),
            Bytes::Long(long) => long,
        }
    }
}

/// A reply.
#[derive(Drop)]
pub struct Reply {
    pub status: Status,
    pub text: Text,
    pub body: Body,
    /// The method that the route takes, where another was asked.
    pub allow: Option<Allow>,
    /// How many pushes the reply counts, where it shows that.
    pub front: Option<u64>,
    /// The moment, in milliseconds since 1970.
    pub now: u64,
    /// Whether the connection closes after it.
    pub close: bool,
}
