// Why a body is no push.
ghost use Rattle.std.specs.Prelude.{◌≡◌};
ghost use Rattle.faults.specs.Places.{numbers_of};
ghost use Rattle.json_push.specs.Faults.{code_of, place_of};

use faults::Place;
use pprof_codec::PprofFault;
use profile_model::LabelFault;
use std::error::Error;
use std::fmt;

/// The first fault of a body. Series and the samples of a series are numbered from 0.
#[derive(Clone, Copy, Debug, PartialEq, Eq)]
pub enum PushFault {
    /// The body is no JSON object.
    NotObject,
    /// The shape is another there.
    Shape {
        series: u64,
        sample: u64,
    },
    Label {
        series: u64,
        fault: LabelFault,
    },
    /// The text isn't standard base64 with padding.
    NotBase64 {
        series: u64,
        sample: u64,
    },
    Pprof {
        series: u64,
        sample: u64,
        fault: PprofFault,
    },
    /// There are more than 4,096 profiles up to there.
    TooMany {
        series: u64,
        sample: u64,
    },
    /// The push weighs more than a push may up to there.
    Weight {
        series: u64,
        sample: u64,
    },
}

impl PushFault {
    /// The code that stands for the fault in a reply.
    pub fn code(&self) -> &'static str
        ensures { result.now ≡ code_of self.now }
    {
        match self {
            PushFault::NotObject => "J1",
            PushFault::Shape { .. } => "J2",
            PushFault::Label { fault, .. } => fault.code(),
            PushFault::NotBase64 { .. } => "J4",
            PushFault::Pprof { .. } => "J5",
            PushFault::TooMany { .. } => "J6",
            PushFault::Weight { .. } => "J7",
        }
    }

    /// The numbers of the series and the sample that have the fault, and then its own.
    pub fn place(&self) -> Place
        ensures { numbers_of result ≡ place_of self.now }
    {
        match self {
            PushFault::NotObject => Place::Whole,
            PushFault::Label { series, fault } => fault.place().within(*series),
            PushFault::Pprof {
                series,
                sample,
                fault,
            } => Place::Triple(*series, *sample, fault.number()),
            PushFault::Shape { series, sample }
            | PushFault::NotBase64 { series, sample }
            | PushFault::TooMany { series, sample }
            | PushFault::Weight { series, sample } => Place::Pair(*series, *sample),
        }
    }
}

impl fmt::Display for PushFault {
    fn fmt<W: fmt::Write>(&self, f: &mut fmt::Formatter<W>) -> fmt::Result {
        match self {
            PushFault::NotObject => write!(f, "the body is no JSON object"),
            PushFault::Shape { series, sample } => {
                write!(f, "another shape at series {series}, sample {sample}")
            }
            PushFault::Label { series, fault } => write!(f, "series {series}: {fault}"),
            PushFault::NotBase64 { series, sample } => {
                write!(f, "series {series}, sample {sample}: no base64")
            }
            PushFault::Pprof {
                series,
                sample,
                fault,
            } => write!(f, "series {series}, sample {sample}: {fault}"),
            PushFault::TooMany { series, sample } => {
                write!(f, "too many profiles at series {series}, sample {sample}")
            }
            PushFault::Weight { series, sample } => {
                write!(
                    f,
                    "the push is too large at series {series}, sample {sample}"
                )
            }
        }
    }
}

impl Error for PushFault {}
