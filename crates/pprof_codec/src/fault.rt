// Why bytes are no pprof.
ghost use Rattle.std.specs.Prelude.{◌≡◌, ◌≤◌, length};
ghost use Rattle.faults.specs.Places.{numbers_of};
ghost use Rattle.faults.specs.declared.refused.Refused.TheVariants.{Fault};
ghost use Rattle.pprof_codec.specs.Faults.{code_of, field_of, number_of, place_of};

use faults::{Place, Refused};
use std::error::Error;
use std::fmt;

/// What of a profile's message has a fault.
#[derive(Clone, Copy, Debug, PartialEq, Eq)]
pub enum Member {
    SampleType,
    Sample,
    Location,
    Function,
    PeriodType,
}

impl Member {
    /// The number of its field in pprof's `profile.proto`.
    pub fn field(&self) -> u64
        ensures { result ≡ field_of self.now }
    {
        match self {
            Member::SampleType => 1,
            Member::Sample => 2,
            Member::Location => 4,
            Member::Function => 5,
            Member::PeriodType => 11,
        }
    }
}

impl fmt::Display for Member {
    fn fmt<W: fmt::Write>(&self, f: &mut fmt::Formatter<W>) -> fmt::Result {
        match self {
            Member::SampleType => write!(f, "sample type"),
            Member::Sample => write!(f, "sample"),
            Member::Location => write!(f, "location"),
            Member::Function => write!(f, "function"),
            Member::PeriodType => write!(f, "period type"),
        }
    }
}

/// The first rule that a pprof breaks. Members are numbered from 0 in the order of the bytes.
#[derive(Clone, Copy, Debug, PartialEq, Eq)]
pub enum PprofFault {
    /// The place of the first byte of the innermost field that can't be read.
    Broken(u64),
    /// The string table has no first text, or one that isn't empty.
    NoEmptyText,
    /// The member names a text that isn't in the string table.
    NoSuchText { member: Member, number: u64 },
    ZeroId { member: Member, number: u64 },
    /// An earlier member of its kind has the same id.
    RepeatedId { member: Member, number: u64 },
    NoSuchLocation { sample: u64 },
    NoSuchFunction { location: u64 },
    /// The sample has another count of values than there are sample types.
    WrongValueCount { sample: u64 },
    NegativeValue { sample: u64, value: u64 },
    /// The sample type's values come to more than 2^63 - 1.
    TooLarge { sample_type: u64 },
    /// The sample has more frames than a stack may have.
    TooDeep { sample: u64 },
    NotUtf8 { text: u64 },
    /// The bytes begin as gzip does.
    Compressed,
    /// The function's frame has more bytes than a frame may have.
    LongFrame { function: u64 },
    /// There are more sample types than a push may have profiles, or the profiles weigh too much.
    Weight,
}

impl PprofFault {
    /// The code that stands for the fault in a reply.
    pub fn code(&self) -> &'static str
        ensures { result.now ≡ code_of self.now }
    {
        match self {
            PprofFault::Broken(_) => "P1",
            PprofFault::NoEmptyText => "P2",
            PprofFault::NoSuchText { .. } => "P3",
            PprofFault::ZeroId { .. } => "P4",
            PprofFault::RepeatedId { .. } => "P5",
            PprofFault::NoSuchLocation { .. } => "P6",
            PprofFault::NoSuchFunction { .. } => "P7",
            PprofFault::WrongValueCount { .. } => "P8",
            PprofFault::NegativeValue { .. } => "P9",
            PprofFault::TooLarge { .. } => "P10",
            PprofFault::TooDeep { .. } => "P11",
            PprofFault::NotUtf8 { .. } => "P12",
            PprofFault::Compressed => "P13",
            PprofFault::LongFrame { .. } | PprofFault::Weight => "P14",
        }
    }

    /// The number in the code.
    pub fn number(&self) -> u64
        ensures { result ≡ number_of self.now }
    {
        match self {
            PprofFault::Broken(_) => 1,
            PprofFault::NoEmptyText => 2,
            PprofFault::NoSuchText { .. } => 3,
            PprofFault::ZeroId { .. } => 4,
            PprofFault::RepeatedId { .. } => 5,
            PprofFault::NoSuchLocation { .. } => 6,
            PprofFault::NoSuchFunction { .. } => 7,
            PprofFault::WrongValueCount { .. } => 8,
            PprofFault::NegativeValue { .. } => 9,
            PprofFault::TooLarge { .. } => 10,
            PprofFault::TooDeep { .. } => 11,
            PprofFault::NotUtf8 { .. } => 12,
            PprofFault::Compressed => 13,
            PprofFault::LongFrame { .. } | PprofFault::Weight => 14,
        }
    }

    /// The numbers of what has the fault: none, one or two.
    pub fn place(&self) -> Place
        ensures place { numbers_of result ≡ place_of self.now }
        ensures short { length (numbers_of result) ≤ 2 }
    {
        match self {
            PprofFault::NoEmptyText | PprofFault::Compressed => Place::Whole,
            PprofFault::Broken(number)
            | PprofFault::NoSuchLocation { sample: number }
            | PprofFault::NoSuchFunction { location: number }
            | PprofFault::WrongValueCount { sample: number }
            | PprofFault::TooLarge {
                sample_type: number,
            }
            | PprofFault::TooDeep { sample: number }
            | PprofFault::NotUtf8 { text: number } => Place::At(*number),
            PprofFault::NoSuchText { member, number }
            | PprofFault::ZeroId { member, number }
            | PprofFault::RepeatedId { member, number } => Place::Pair(member.field(), *number),
            PprofFault::NegativeValue { sample, value } => Place::Pair(*sample, *value),
            PprofFault::LongFrame { function } => Place::Pair(Member::Function.field(), *function),
            PprofFault::Weight => Place::Pair(0, 0),
        }
    }
}

impl fmt::Display for PprofFault {
    fn fmt<W: fmt::Write>(&self, f: &mut fmt::Formatter<W>) -> fmt::Result {
        match self {
            PprofFault::Broken(at) => write!(f, "the field at byte {at} can't be read"),
            PprofFault::NoEmptyText => write!(
                f,
                "the string table doesn't begin with an empty text"
            ),
            PprofFault::NoSuchText { member, number } => {
                write!(f, "{member} {number} names a text that isn't there")
            }
            PprofFault::ZeroId { member, number } => write!(f, "{member} {number} has the id 0"),
            PprofFault::RepeatedId { member, number } => {
                write!(f, "{member} {number} has the id of an earlier one")
            }
            PprofFault::NoSuchLocation { sample } => {
                write!(f, "sample {sample} names a location that isn't there")
            }
            PprofFault::NoSuchFunction { location } => {
                write!(f, "location {location} names a function that isn't there")
            }
            PprofFault::WrongValueCount { sample } => {
                write!(f, "sample {sample} hasn't one value for each sample type")
            }
            PprofFault::NegativeValue { sample, value } => {
                write!(f, "value {value} of sample {sample} is negative")
            }
            PprofFault::TooLarge { sample_type } => {
                write!(f, "the values of sample type {sample_type} are too large")
            }
            PprofFault::TooDeep { sample } => write!(f, "sample {sample} has too many frames"),
            PprofFault::NotUtf8 { text } => write!(f, "text {text} isn't UTF-8"),
            PprofFault::Compressed => write!(f, "the profile is compressed"),
            PprofFault::LongFrame { function } => write!(
                f,
                "function {function} has a name that is too long"
            ),
            PprofFault::Weight => write!(f, "the profiles weigh too much"),
        }
    }
}

impl Error for PprofFault {}

impl From<PprofFault> for Refused<PprofFault> {
    ghost from_gives = { λ fault refused. refused ≡ Fault fault };

    fn from(fault: PprofFault) -> Refused<PprofFault> {
        Refused::Fault(fault)
    }
}
