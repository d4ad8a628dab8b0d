// How many bytes an object's file has, or the greatest number where they are more: no memory holds either.
ghost use Rattle.std.specs.Prelude.{◌≡◌, length, min};
ghost use Rattle.std.specs.List.{flat_map};
ghost use Rattle.segment_file.specs.Bytes.{kind_bytes, label_bytes, labels_bytes, profile_bytes, profiles_bytes, push_bytes, sample_bytes, stack_bytes, text_bytes, values_bytes};

use profile_model::{LabelSet, Name, Profile, ProfileType, Push, Stack, StackSums};

pub(crate) fn pushes_length(pushes: &[Push]) -> usize
    ensures { result ≡ min (length (flat_map push_bytes pushes.now)) usize.MAX }
{
    let mut length: usize = 0;
    for push in pushes {
        length = length.saturating_add(push_length(push));
    }
    length
}

fn push_length(push: &Push) -> usize
    ensures { result ≡ min (length (push_bytes push.now)) usize.MAX }
{
    profiles_length(push.profiles.as_slice())
        .saturating_add(push.tenant.as_bytes().len())
        .saturating_add(4)
}

fn profiles_length(profiles: &[Profile]) -> usize
    ensures { result ≡ min (length (profiles_bytes profiles.now)) usize.MAX }
{
    let mut length: usize = 4;
    for profile in profiles {
        length = length.saturating_add(profile_length(profile));
    }
    length
}

fn profile_length(profile: &Profile) -> usize
    ensures { result ≡ min (length (profile_bytes profile.now)) usize.MAX }
{
    labels_length(&profile.labels)
        .saturating_add(kind_length(&profile.kind))
        .saturating_add(8)
        .saturating_add(values_length(&profile.values))
}

fn labels_length(labels: &LabelSet) -> usize
    ensures { result ≡ min (length (labels_bytes labels.now)) usize.MAX }
{
    let mut length: usize = 4;
    for label in labels.pairs() {
        length = length.saturating_add(label_length(label));
    }
    length
}

fn label_length(label: &(Name, Name)) -> usize
    ensures { result ≡ min (length (label_bytes label.now)) usize.MAX }
{
    text_length(&label.0).saturating_add(text_length(&label.1))
}

fn kind_length(kind: &ProfileType) -> usize
    ensures { result ≡ min (length (kind_bytes kind.now)) usize.MAX }
{
    text_length(&kind.name)
        .saturating_add(text_length(&kind.sample_type))
        .saturating_add(text_length(&kind.sample_unit))
        .saturating_add(text_length(&kind.period_type))
        .saturating_add(text_length(&kind.period_unit))
}

fn values_length(values: &StackSums) -> usize
    ensures { result ≡ min (length (values_bytes values.now)) usize.MAX }
{
    let mut length: usize = 4;
    for (stack, value) in values.iter() {
        length = length.saturating_add(sample_length(stack, *value));
    }
    length
}

fn sample_length(stack: &Stack, value: u64) -> usize
    ensures { result ≡ min (length (sample_bytes (stack.now, value))) usize.MAX }
{
    stack_length(stack).saturating_add(8)
}

fn stack_length(stack: &Stack) -> usize
    ensures { result ≡ min (length (stack_bytes stack.now)) usize.MAX }
{
    let mut length: usize = 4;
    for frame in stack.frames() {
        length = length.saturating_add(text_length(frame));
    }
    length
}

fn text_length(text: &Name) -> usize
    ensures { result ≡ min (length (text_bytes text.now)) usize.MAX }
{
    text.len().saturating_add(4)
}
