// What the labels of a series give each of its profiles.
ghost use Rattle.std.specs.Prelude.{◌≡◌, ◌≤◌, Err, IfOk, length, MatchResult};
ghost use Rattle.faults.specs.Answers.{IfFault};
ghost use Rattle.profile_model.specs.LabelSets.{AreProfileLabels};
ghost use Rattle.profile_model.specs.Limits.{most_labels};
ghost use Rattle.profile_model.specs.ReadLabels.{IsReadLabels};
ghost use Rattle.profile_model.specs.Series.{kind_name, own_labels};
ghost use Rattle.json_push.specs.Pushed.{IsBaseOf, with_service};

use faults::Refused;
use pprof_codec::Base;
use profile_model::{LabelFault, LabelSet, Name, SERVICE_LABEL, own_labels, type_name};
use std::alloc::{AllocError, Global};

/// The service of a series that names none.
const UNSPECIFIED: &str = "unspecified";

pub(crate) fn base_of(
    alloc: Global,
    pairs: &[(Name, Name)],
    moment_ms: u64,
) -> Result<Base, Refused<LabelFault>>
    ensures { MatchResult result (IsBaseOf moment_ms pairs.now) (IfFault (λ fault. IsReadLabels pairs.now (Err fault))) }
{
    let labels = LabelSet::from_pairs(alloc, pairs)?;
    Ok(base_with(alloc, labels, moment_ms)?)
}

fn base_with(alloc: Global, labels: LabelSet, moment_ms: u64) -> Result<Base, AllocError>
    requires few { length labels ≤ most_labels }
    requires profile { AreProfileLabels labels }
    ensures labels { IfOk result (λ base. base.labels ≡ with_service (own_labels labels)) }
    ensures name { IfOk result (λ base. base.name ≡ kind_name labels) }
    ensures time { IfOk result (λ base. base.fallback_ms ≡ moment_ms) }
{
    let name = type_name(alloc, &labels)?;
    let labels = with_service(alloc, own_labels(labels))?;
    Ok(Base {
        labels,
        name,
        fallback_ms: moment_ms,
    })
}

// The labels, with a service where they name none.
fn with_service(alloc: Global, mut labels: LabelSet) -> Result<LabelSet, AllocError>
    requires few { length labels ≤ most_labels }
    requires profile { AreProfileLabels labels }
    ensures value { IfOk result (λ kept. kept ≡ with_service labels) }
    ensures profile { IfOk result AreProfileLabels }
{
    if labels.get(SERVICE_LABEL.as_bytes()).is_some() {
        return Ok(labels);
    }
    let name = Name::from_text(alloc, SERVICE_LABEL)?;
    labels.set(name, Name::from_text(alloc, UNSPECIFIED)?)?;
    Ok(labels)
}
