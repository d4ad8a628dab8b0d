// What the labels of a series say of its profiles' type.
ghost use Rattle.std.specs.Prelude.{◌≡◌, IfOk};
ghost use Rattle.profile_model.specs.Kinds.{IsPart};
ghost use Rattle.profile_model.specs.LabelSets.{AreProfileLabels};
ghost use Rattle.profile_model.specs.Series.{kind_name, own_labels};

use crate::{LabelSet, Name};
use std::alloc::{AllocError, Global};

/// The label that names a profile's type.
pub const NAME_LABEL: &str = "__name__";

/// The label that stands for a profile's type.
pub const TYPE_LABEL: &str = "__profile_type__";

/// The name of the type of profiles with these labels: their `NAME_LABEL`, cleaned, or `process_cpu`.
pub fn type_name(alloc: Global, labels: &LabelSet) -> Result<Name, AllocError>
    ensures value { IfOk result (λ name. name ≡ kind_name labels.now) }
    ensures part { IfOk result IsPart }
{
    match labels.get(NAME_LABEL.as_bytes()) {
        Some(name) => Name::cleaned(alloc, name.as_str()),
        None => Name::cleaned(alloc, "process_cpu"),
    }
}

/// The labels but for the two that stand for a profile's type. It takes no memory.
pub fn own_labels(labels: LabelSet) -> LabelSet
    ensures own { result ≡ own_labels labels }
    ensures profile { AreProfileLabels labels → AreProfileLabels result }
{
    labels
        .without(NAME_LABEL.as_bytes())
        .without(TYPE_LABEL.as_bytes())
}
