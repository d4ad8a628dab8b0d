// The exit statuses of the program.
ghost use Rattle.std.specs.Prelude.{◌≡◌};
ghost use Rattle.pyro_server.specs.Statuses.{code_of};

/// How a run ended.
#[derive(Clone, Copy, Debug, PartialEq, Eq)]
pub enum ExitStatus {
    /// The input ended between two requests, or the last request asked for closing and was answered.
    Done,
    /// The words are no command.
    NoCommand,
    /// Memory ran out while a request was read.
    NoMemory,
    /// The standard stream counted a fault.
    StreamFault,
    /// The last request that a connection may have was answered.
    LastRequest,
    /// The connection's bytes were no request.
    BadRequest,
}

impl ExitStatus {
    /// The exit status of the program.
    pub fn code(self) -> u8
        ensures { result ≡ code_of self }
    {
        match self {
            ExitStatus::Done => 0,
            ExitStatus::NoCommand => 2,
            ExitStatus::NoMemory => 3,
            ExitStatus::StreamFault => 6,
            ExitStatus::LastRequest => 9,
            ExitStatus::BadRequest => 11,
        }
    }
}
