// Why an entry wasn't taken.
ghost use Rattle.std.specs.Prelude.{◌≡◌};
ghost use Rattle.faults.specs.declared.refused.Refused.TheVariants.{Fault};

use faults::Refused;
use std::error::Error;
use std::fmt;

/// Why an entry wasn't taken.
#[derive(Clone, Copy, Debug, PartialEq, Eq)]
pub enum ApplyFault {
    /// It neither follows the last entry nor stands in for a run, or its id isn't the next or a later one below 2^63.
    NotARun,
}

impl fmt::Display for ApplyFault {
    fn fmt<W: fmt::Write>(&self, f: &mut fmt::Formatter<W>) -> fmt::Result {
        match self {
            ApplyFault::NotARun => write!(
                f,
                "the entry's id isn't a new one below 2^63, or it neither follows the last entry nor stands in for a run"
            ),
        }
    }
}

impl Error for ApplyFault {}

impl From<ApplyFault> for Refused<ApplyFault> {
    ghost from_gives = { λ fault refused. refused ≡ Fault fault };

    fn from(fault: ApplyFault) -> Refused<ApplyFault> {
        Refused::Fault(fault)
    }
}
