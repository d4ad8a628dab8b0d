// Why a body is no folded text.
ghost use Rattle.std.specs.Prelude.{◌≡◌, ◌≤◌, length};
ghost use Rattle.faults.specs.Places.{numbers_of};
ghost use Rattle.faults.specs.declared.refused.Refused.TheVariants.{Fault};
ghost use Rattle.folded_reader.specs.Faults.{code_of, place_of};

use faults::{Place, Refused};
use std::error::Error;
use std::fmt;

/// The first rule that a body breaks. A number is that of the line, from 1.
#[derive(Clone, Copy, Debug, PartialEq, Eq)]
pub enum FoldedFault {
    /// The line has no space.
    NoCount(u64),
    /// What follows the line's last space isn't decimal digits alone, or is above 2^63 - 1.
    BadCount(u64),
    EmptyFrame(u64),
    /// All counts up to this line come to more than 2^63 - 1.
    TooLarge(u64),
    /// The line has more frames than a stack may have.
    TooDeep(u64),
    /// The place is the length of the longest valid prefix.
    NotUtf8(usize),
    /// The body begins as gzip does.
    Compressed,
    /// A frame has more bytes than a name may have.
    LongFrame(u64),
}

impl FoldedFault {
    /// The code that stands for the fault in a reply.
    pub fn code(&self) -> &'static str
        ensures { result.now ≡ code_of self.now }
    {
        match self {
            FoldedFault::NoCount(_) => "F1",
            FoldedFault::BadCount(_) => "F2",
            FoldedFault::EmptyFrame(_) => "F3",
            FoldedFault::TooLarge(_) => "F4",
            FoldedFault::TooDeep(_) => "F5",
            FoldedFault::NotUtf8(_) => "F6",
            FoldedFault::Compressed => "F7",
            FoldedFault::LongFrame(_) => "F8",
        }
    }

    /// The number of the line, or the place of the byte. A compressed body has none.
    pub fn place(&self) -> Place
        ensures place { numbers_of result ≡ place_of self.now }
        ensures short { length (numbers_of result) ≤ 1 }
    {
        match self {
            FoldedFault::NoCount(line)
            | FoldedFault::BadCount(line)
            | FoldedFault::EmptyFrame(line)
            | FoldedFault::TooLarge(line)
            | FoldedFault::TooDeep(line)
            | FoldedFault::LongFrame(line) => Place::At(*line),
            FoldedFault::NotUtf8(at) => Place::At(*at as u64),
            FoldedFault::Compressed => Place::Whole,
        }
    }
}

impl fmt::Display for FoldedFault {
    fn fmt<W: fmt::Write>(&self, f: &mut fmt::Formatter<W>) -> fmt::Result {
        match self {
            FoldedFault::NoCount(line) => write!(f, "line {line} has no count"),
            FoldedFault::BadCount(line) => write!(f, "line {line} ends in no count"),
            FoldedFault::EmptyFrame(line) => write!(f, "line {line} has an empty frame"),
            FoldedFault::TooLarge(line) => write!(f, "the counts up to line {line} are too large"),
            FoldedFault::TooDeep(line) => write!(f, "line {line} has too many frames"),
            FoldedFault::NotUtf8(at) => write!(f, "no UTF-8 at byte {at}"),
            FoldedFault::Compressed => write!(f, "the body is compressed"),
            FoldedFault::LongFrame(line) => write!(f, "line {line} has a frame that is too long"),
        }
    }
}

impl Error for FoldedFault {}

impl From<FoldedFault> for Refused<FoldedFault> {
    ghost from_gives = { λ fault refused. refused ≡ Fault fault };

    fn from(fault: FoldedFault) -> Refused<FoldedFault> {
        Refused::Fault(fault)
    }
}
