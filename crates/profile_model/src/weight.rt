// What pushes weigh: texts by their bytes, and a little for each that is kept.
ghost use Rattle.std.specs.Prelude.{◌≡◌, ◌+◌, ◌*◌, ◌-◌, ◌^◌, ◌≤◌, length, min, sum_by};
ghost use Rattle.profile_model.specs.Limits.{most_frame_bytes};
ghost use Rattle.profile_model.specs.ReadKinds.{parts_in};
ghost use Rattle.profile_model.specs.Stacks.{IsStack};
ghost use Rattle.profile_model.specs.Weights.{label_weight, profile_weight, profiles_weight, push_weight, stack_weight};

use crate::{Name, Profile, ProfileType, Push, Stack, StackSums};

/// The most that a push may weigh.
pub const MAX_WEIGHT: u64 = 268_435_456;

impl Stack {
    /// What the stack weighs.
    pub fn weight(&self) -> u64
        ensures weight { result ≡ stack_weight self.now }
        ensures bound { result ≤ 2 ^ 27 }
    {
        16 + weight_of_frames(self.frames())
    }
}

impl Profile {
    /// What the profile weighs, or 2^64 - 1 where that is more.
    pub fn weight(&self) -> u64
        ensures { result ≡ min (profile_weight self.now) (2 ^ 64 - 1) }
    {
        128_u64
            .saturating_add(weight_of_labels(self.labels.pairs()))
            .saturating_add(weight_of_kind(&self.kind))
            .saturating_add(weight_of_values(&self.values))
    }
}

impl Push {
    /// What the push weighs, or 2^64 - 1 where that is more.
    pub fn weight(&self) -> u64
        ensures { result ≡ min (push_weight self.now) (2 ^ 64 - 1) }
    {
        weight_of_profiles(self.profiles.as_slice()).saturating_add(256)
    }
}

fn weight_of_frames(frames: &[Name]) -> u64
    requires { IsStack frames.now }
    ensures weight { result ≡ sum_by (λ frame. 16 + length frame) frames.now }
    ensures bound { result ≤ (16 + most_frame_bytes) * length frames.now }
{
    let mut weight: u64 = 0;
    for frame in frames {
        weight += 16 + frame.len() as u64;
    }
    weight
}

fn weight_of_labels(labels: &[(Name, Name)]) -> u64
    ensures { result ≡ min (sum_by label_weight labels.now) (2 ^ 64 - 1) }
{
    let mut weight: u64 = 0;
    for (name, value) in labels {
        weight = weight
            .saturating_add(16)
            .saturating_add(name.len() as u64)
            .saturating_add(value.len() as u64);
    }
    weight
}

fn weight_of_kind(kind: &ProfileType) -> u64
    ensures { result ≡ min (sum_by length (parts_in kind.now)) (2 ^ 64 - 1) }
{
    (kind.name.len() as u64)
        .saturating_add(kind.sample_type.len() as u64)
        .saturating_add(kind.sample_unit.len() as u64)
        .saturating_add(kind.period_type.len() as u64)
        .saturating_add(kind.period_unit.len() as u64)
}

fn weight_of_values(values: &StackSums) -> u64
    ensures { result ≡ min (sum_by (λ sample. stack_weight sample.0) values.now) (2 ^ 64 - 1) }
{
    let mut weight: u64 = 0;
    for (stack, _value) in values.iter() {
        weight = weight.saturating_add(stack.weight());
    }
    weight
}

fn weight_of_profiles(profiles: &[Profile]) -> u64
    ensures { result ≡ min (profiles_weight profiles.now) (2 ^ 64 - 1) }
{
    let mut weight: u64 = 0;
    for profile in profiles {
        weight = weight.saturating_add(profile.weight());
    }
    weight
}
