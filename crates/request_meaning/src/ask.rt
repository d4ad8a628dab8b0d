// What a query asks for.
ghost use Rattle.std.specs.Prelude.{◌≡◌};
ghost use Rattle.request_meaning.specs.Meanings.{part_of};

use profile_model::{Name, PartAsk};
use selector::{Query, Selector};

/// A query over a tenant's profiles in a closed window of time.
#[derive(Drop)]
pub enum Ask {
    Render(RenderAsk),
    Labels(LabelAsk),
}

impl Ask {
    /// The tenant and the window that it asks for.
    pub fn part(&self) -> &PartAsk
        ensures { result.now ≡ part_of self.now }
    {
        match self {
            Ask::Render(ask) => &ask.part,
            Ask::Labels(ask) => &ask.part,
        }
    }
}

/// The stacks of the profiles that a query matches.
#[derive(Drop)]
pub struct RenderAsk {
    pub part: PartAsk,
    pub query: Query,
}

/// The labels of the profiles that match any of the selectors, of all where there are none.
#[derive(Drop)]
pub struct LabelAsk {
    pub part: PartAsk,
    pub query: LabelQuery,
    pub selectors: Vec<Selector>,
}

/// What is listed.
#[derive(Drop)]
pub enum LabelQuery {
    Names,
    /// The values of this label.
    Values(Name),
    /// The label sets, cut to these labels where there are any.
    Series(Vec<Name>),
}
