// The labels by which a profile is listed.
ghost use Rattle.std.specs.Prelude.{◌≡◌, IfOk};
ghost use Rattle.label_queries.specs.Labels.{shown_labels};

use profile_model::{LabelSet, Name, Profile};
use selector::{NAME_LABEL, TYPE_LABEL};
use std::alloc::{AllocError, Global};

/// The profile's labels, with the two that tell its type in place of any of its own with their names.
pub fn shown_labels(alloc: Global, profile: &Profile) -> Result<LabelSet, AllocError>
    ensures { IfOk result (λ labels. labels ≡ shown_labels profile.now) }
{
    let type_text = profile.kind.to_string(alloc)?;
    let mut labels = profile.labels.clone()?;
    labels.set(
        Name::from_text(alloc, NAME_LABEL)?,
        profile.kind.name.clone()?,
    )?;
    labels.set(
        Name::from_text(alloc, TYPE_LABEL)?,
        Name::from_text(alloc, type_text.as_str())?,
    )?;
    Ok(labels)
}
