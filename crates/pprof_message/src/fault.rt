// Why bytes are no message.
ghost use Rattle.std.specs.Prelude.{◌≡◌};
ghost use Rattle.faults.specs.declared.refused.Refused.TheVariants.{Fault};

use faults::Refused;
use std::error::Error;
use std::fmt;

/// Why bytes are no message.
#[derive(Clone, Copy, Debug, PartialEq, Eq)]
pub enum MessageFault {
    /// The place of the first byte of the innermost field that can't be read. Packed numbers have that of
    /// their field.
    Broken(u64),
}

impl fmt::Display for MessageFault {
    fn fmt<W: fmt::Write>(&self, f: &mut fmt::Formatter<W>) -> fmt::Result {
        match self {
            MessageFault::Broken(at) => write!(f, "the field at byte {at} can't be read"),
        }
    }
}

impl Error for MessageFault {}

impl From<MessageFault> for Refused<MessageFault> {
    ghost from_gives = { λ fault refused. refused ≡ Fault fault };

    fn from(fault: MessageFault) -> Refused<MessageFault> {
        Refused::Fault(fault)
    }
}
