//! The method of a request.
ghost use Rattle.std.specs.Prelude.{◌≡◌};
ghost use Rattle.http_session.specs.Asked.{method_of};

/// The methods that routes tell apart.
#[derive(Clone, Copy, Debug, PartialEq, Eq)]
pub enum Method {
    Get,
    Post,
    Other,
}

impl Method {
    /// The method that a request line names.
    pub fn from_text(text: &[u8]) -> Method
        ensures { result ≡ method_of text.now }
    {
        if text == b"GET".as_slice() {
            Method::Get
        } else if text == b"POST".as_slice() {
            Method::Post
        } else {
            Method::Other
        }
    }
}
