// Why a call gives no value.
ghost use Rattle.std.specs.Prelude.{◌≡◌};
ghost use Rattle.faults.specs.declared.refused.Refused.TheVariants.{Memory};
ghost use Rattle.faults.specs.Answers.{IfFault, IsMapped};

use std::alloc::{AllocError, AllocFailed};
use std::error::Error;
use std::fmt;

/// A fault of what is read, or want of memory, which can come at any call that takes memory and says nothing of what is read.
#[derive(Clone, Copy, Debug, PartialEq, Eq, Drop)]
pub enum Refused<F> {
    Fault(F),
    Memory,
}

impl<F> Refused<F> {
    /// The same, its fault told by another.
    pub fn map<G, M: FnOnce(F) -> G>(self, tell: M) -> Refused<G>
        requires { IfFault (M.pre tell) self }
        ensures { IsMapped (M.post tell) self result }
    {
        match self {
            Refused::Fault(fault) => Refused::Fault(tell(fault)),
            Refused::Memory => Refused::Memory,
        }
    }
}

impl<F: fmt::Display> fmt::Display for Refused<F> {
    fn fmt<W: fmt::Write>(&self, f: &mut fmt::Formatter<W>) -> fmt::Result {
        match self {
            Refused::Fault(fault) => write!(f, "{fault}"),
            Refused::Memory => write!(f, "out of memory"),
        }
    }
}

impl<F: Error> Error for Refused<F> {}

impl<F: Drop> From<AllocError> for Refused<F> {
    ghost from_gives = { λ _ refused. refused ≡ Memory };

    fn from(_error: AllocError) -> Refused<F> {
        Refused::Memory
    }
}

impl<F: Drop, T: Drop> From<AllocFailed<T>> for Refused<F> {
    ghost from_gives = { λ _ refused. refused ≡ Memory };

    fn from(_error: AllocFailed<T>) -> Refused<F> {
        Refused::Memory
    }
}
