// What a pprof's profiles have that the pprof itself doesn't say.
ghost use Rattle.profile_model.specs.Kinds.{IsPart};
ghost use Rattle.profile_model.specs.LabelSets.{AreProfileLabels};

use profile_model::{LabelSet, Name};

/// What the profiles of a pprof are given beside what it says.
#[derive(Debug, Drop)]
pub struct Base {
    pub labels: LabelSet,
    /// The first part of each profile's type.
    pub name: Name,
    /// The time of a pprof that says none, in milliseconds since 1970.
    pub fallback_ms: u64,
    ghost labelled: { AreProfileLabels labels },
    ghost part: { IsPart name },
}
