// Why a request isn't served.
ghost use Rattle.std.specs.Prelude.{◌≡◌, ◌≤◌, length, option_map};
ghost use Rattle.faults.specs.Places.{numbers_of};
ghost use Rattle.request_meaning.specs.Refusals.{code_of, place_of};

use faults::{Place, Refused};
use http_session::Allow;
use ingest::IngestFault;
use json_push::PushFault;
use selector::SelectorFault;

/// Why a request isn't served.
#[derive(Clone, Copy, Debug, PartialEq, Eq)]
pub enum Refusal {
    NoRoute,
    /// The path is a route's, which has this method alone.
    WrongMethod(Allow),
    /// A form that isn't built yet.
    Unbuilt,
    NoTenant,
    /// The first wrong byte of the tenant's name.
    BadTenant(usize),
    /// The body isn't sent as it is.
    Encoded,
    /// The header `X-Pyro-Front` is no number of 1 to 19 digits.
    Front,
    Ingest(IngestFault),
    Push(PushFault),
    /// A render without the parameter `query`.
    NoQuery,
    Selector(SelectorFault),
    /// The parameter `from` is no time.
    From,
    /// The parameter `until` is no time.
    Until,
    /// The window ends before it begins.
    Window,
    /// The body is no JSON object.
    NotObject,
    /// The number of a field that is of a wrong kind.
    WrongKind(u64),
}

impl Refusal {
    /// The code or the word that stands for it in a reply.
    pub fn code(self) -> &'static str
        ensures value { result.now ≡ code_of self }
        ensures short { length result.now ≤ 100 }
    {
        match self {
            Refusal::NoRoute => "route",
            Refusal::WrongMethod(_) => "method",
            Refusal::Unbuilt => "unbuilt",
            Refusal::NoTenant => "tenant",
            Refusal::BadTenant(_) => "T1",
            Refusal::Encoded => "encoding",
            Refusal::Front => "X1",
            Refusal::Ingest(fault) => fault.code(),
            Refusal::Push(fault) => fault.code(),
            Refusal::NoQuery => "Q1",
            Refusal::Selector(fault) => fault.code(),
            Refusal::From | Refusal::Until => "Q2",
            Refusal::Window => "Q3",
            Refusal::NotObject => "J1",
            Refusal::WrongKind(_) => "J3",
        }
    }

    /// Where the fault stands, where it is one of what is read.
    pub fn place(self) -> Option<Place>
        ensures { option_map numbers_of result ≡ place_of self }
    {
        match self {
            Refusal::NoRoute
            | Refusal::WrongMethod(_)
            | Refusal::Unbuilt
            | Refusal::NoTenant
            | Refusal::Encoded => None,
            Refusal::BadTenant(at) => Some(Place::At(at as u64)),
            Refusal::Ingest(fault) => Some(fault.place()),
            Refusal::Push(fault) => Some(fault.place()),
            Refusal::Selector(fault) => Some(fault.place()),
            Refusal::From => Some(Place::At(1)),
            Refusal::Until => Some(Place::At(2)),
            Refusal::WrongKind(number) => Some(Place::At(number)),
            Refusal::Front | Refusal::NoQuery | Refusal::Window | Refusal::NotObject => {
                Some(Place::Whole)
            }
        }
    }
}

impl From<Refusal> for Refused<Refusal> {
    ghost use Rattle.faults.specs.declared.refused.Refused.TheVariants.{Fault};
    ghost use Rattle.std.specs.Prelude.{◌≡◌};

    ghost from_gives = { λ refusal refused. refused ≡ Fault refusal };

    fn from(refusal: Refusal) -> Refused<Refusal> {
        Refused::Fault(refusal)
    }
}
