// Why a text is no selector or query.
ghost use Rattle.std.specs.Prelude.{◌≡◌};
ghost use Rattle.faults.specs.Places.{numbers_of};
ghost use Rattle.faults.specs.declared.refused.Refused.TheVariants.{Fault};
ghost use Rattle.selector.specs.Faults.{code_of, place_of};

use faults::{Place, Refused};
use std::error::Error;
use std::fmt;

/// The first rule that a selector or a query breaks.
#[derive(Clone, Copy, Debug, PartialEq, Eq)]
pub enum SelectorFault {
    /// What stands before the braces isn't the five parts of a profile's type.
    Kind,
    /// The text isn't of the grammar; the place is the length of its longest prefix that begins some text of it.
    Syntax(usize),
    /// More than 16 matchers.
    TooMany,
    /// The grammar of `regex` doesn't read the pattern of the matcher with this number, from 0.
    Pattern(usize),
    /// `regex` refuses that pattern for another cause than its syntax.
    PatternRefused(usize),
}

impl SelectorFault {
    /// The code that stands for the fault: `S1` to `S5`.
    pub fn code(&self) -> &'static str
        ensures { result.now ≡ code_of self.now }
    {
        match self {
            SelectorFault::Kind => "S1",
            SelectorFault::Syntax(_) => "S2",
            SelectorFault::Pattern(_) => "S3",
            SelectorFault::TooMany => "S4",
            SelectorFault::PatternRefused(_) => "S5",
        }
    }

    /// The place of the byte, or the number of the matcher.
    pub fn place(&self) -> Place
        ensures { numbers_of result ≡ place_of self.now }
    {
        match self {
            SelectorFault::Syntax(at) => Place::At(*at as u64),
            SelectorFault::Pattern(number) | SelectorFault::PatternRefused(number) => {
                Place::At(*number as u64)
            }
            SelectorFault::Kind | SelectorFault::TooMany => Place::Whole,
        }
    }
}

impl fmt::Display for SelectorFault {
    fn fmt<W: fmt::Write>(&self, f: &mut fmt::Formatter<W>) -> fmt::Result {
        match self {
            SelectorFault::Kind => write!(f, "a profile's type has five parts"),
            SelectorFault::Syntax(at) => write!(f, "no selector goes on as at byte {at}"),
            SelectorFault::TooMany => write!(f, "more than 16 matchers"),
            SelectorFault::Pattern(number) => write!(f, "matcher {number} has no pattern"),
            SelectorFault::PatternRefused(number) => write!(
                f,
                "the pattern of matcher {number} is too large"
            ),
        }
    }
}

impl Error for SelectorFault {}

impl From<SelectorFault> for Refused<SelectorFault> {
    ghost from_gives = { λ fault refused. refused ≡ Fault fault };

    fn from(fault: SelectorFault) -> Refused<SelectorFault> {
        Refused::Fault(fault)
    }
}
