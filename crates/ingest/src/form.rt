// What is said of a profile besides its stacks.
ghost use Rattle.profile_model.specs.Kinds.{IsPart};
ghost use Rattle.profile_model.specs.LabelSets.{AreProfileLabels};

use profile_model::{LabelSet, Name};

// How the body spells profiles.
#[derive(Clone, Copy, Debug, PartialEq, Eq)]
pub(crate) enum Format {
    Folded,
    Lines,
    Pprof,
}

// What the parameters say.
#[derive(Drop)]
pub(crate) struct Form {
    pub labels: LabelSet,
    // The name of the profile's type.
    pub name: Name,
    pub units: Name,
    pub time_ms: u64,
    pub format: Format,
    ghost labelled: { AreProfileLabels labels },
    ghost parts: { IsPart name × IsPart units },
}
