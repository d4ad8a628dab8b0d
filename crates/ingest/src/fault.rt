// Why a request to ingest says no push.
ghost use Rattle.std.specs.Prelude.{◌≡◌, ◌≤◌, length};
ghost use Rattle.faults.specs.Places.{numbers_of};
ghost use Rattle.faults.specs.declared.refused.Refused.TheVariants.{Fault};
ghost use Rattle.ingest.specs.Faults.{code_of, place_of};

use faults::{Place, Refused};
use folded_reader::FoldedFault;
use pprof_codec::PprofFault;
use profile_model::LabelFault;
use std::error::Error;
use std::fmt;

/// The first fault of the parameters and the body.
#[derive(Clone, Copy, Debug, PartialEq, Eq)]
pub enum IngestFault {
    /// The length of the longest prefix of the parameter `name` that begins the name of a series; 0 without it.
    Name(usize),
    Label(LabelFault),
    /// The parameter `from` is no time.
    From,
    /// The parameter `format` names no format.
    Format,
    Folded(FoldedFault),
    Pprof(PprofFault),
    /// The push weighs more than a push may.
    Weight,
}

impl IngestFault {
    /// The code that stands for the fault in a reply.
    pub fn code(&self) -> &'static str
        ensures { result.now ≡ code_of self.now }
    {
        match self {
            IngestFault::Name(_) => "I1",
            IngestFault::Label(fault) => fault.code(),
            IngestFault::From => "I2",
            IngestFault::Format => "I3",
            IngestFault::Folded(fault) => fault.code(),
            IngestFault::Pprof(fault) => fault.code(),
            IngestFault::Weight => "P14",
        }
    }

    /// The numbers of what has the fault: none, one or two.
    pub fn place(&self) -> Place
        ensures place { numbers_of result ≡ place_of self.now }
        ensures short { length (numbers_of result) ≤ 2 }
    {
        match self {
            IngestFault::Name(at) => Place::At(*at as u64),
            IngestFault::Label(fault) => fault.place(),
            IngestFault::From | IngestFault::Format => Place::Whole,
            IngestFault::Folded(fault) => fault.place(),
            IngestFault::Pprof(fault) => fault.place(),
            IngestFault::Weight => Place::Pair(0, 0),
        }
    }
}

impl fmt::Display for IngestFault {
    fn fmt<W: fmt::Write>(&self, f: &mut fmt::Formatter<W>) -> fmt::Result {
        match self {
            IngestFault::Name(at) => write!(f, "`name` is no series' name at byte {at}"),
            IngestFault::Label(fault) => write!(f, "{fault}"),
            IngestFault::From => write!(f, "`from` is no time"),
            IngestFault::Format => write!(f, "`format` is none that is read"),
            IngestFault::Folded(fault) => write!(f, "{fault}"),
            IngestFault::Pprof(fault) => write!(f, "{fault}"),
            IngestFault::Weight => write!(f, "the push is too large"),
        }
    }
}

impl Error for IngestFault {}

impl From<IngestFault> for Refused<IngestFault> {
    ghost from_gives = { λ fault refused. refused ≡ Fault fault };

    fn from(fault: IngestFault) -> Refused<IngestFault> {
        Refused::Fault(fault)
    }
}
