// How a connection ended.
ghost use Rattle.std.specs.Prelude.{◌≡◌};
ghost use Rattle.pyro_server.specs.Statuses.{status_of};

use crate::status::ExitStatus;
use http_session::BadRequest;

/// How one connection ended.
#[derive(Clone, Copy, Debug, PartialEq, Eq)]
pub enum Ending {
    /// The input ended between two requests.
    Done,
    /// The last request asked for closing, and was answered.
    Closed,
    /// The last request that a connection may have was answered.
    LastRequest,
    /// What came is no request, for this reason.
    Refused(BadRequest),
    /// Memory ran out while a request was read.
    NoMemory,
    /// The link counted a fault.
    LinkFault,
}

impl Ending {
    /// The status of a run whose one connection ended so.
    pub fn status(self) -> ExitStatus
        ensures { result ≡ status_of self }
    {
        match self {
            Ending::Done | Ending::Closed => ExitStatus::Done,
            Ending::LastRequest => ExitStatus::LastRequest,
            Ending::Refused(_) => ExitStatus::BadRequest,
            Ending::NoMemory => ExitStatus::NoMemory,
            Ending::LinkFault => ExitStatus::StreamFault,
        }
    }
}
