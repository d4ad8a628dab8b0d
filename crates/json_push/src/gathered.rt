// The profiles of a push up to some sample.
ghost use Rattle.std.specs.Prelude.{◌≡◌, ◌-◌, ◌^◌, ◌++◌, [], min, MatchResult};
ghost use Rattle.faults.specs.Answers.{IfFault};
ghost use Rattle.profile_model.specs.Weights.{profiles_weight};
ghost use Rattle.json_push.specs.Pushed.{Fits};
ghost use Rattle.json_push.specs.Reading.{IsAddFault};

use crate::PushFault;
use faults::Refused;
use profile_model::{MAX_PROFILES, MAX_WEIGHT, Profile, Profiles};
use std::alloc::Global;
use std::marker::Model;

/// What a push without profiles weighs.
const BARE_WEIGHT: u64 = 256;

// The weight is kept with the profiles, since weighing them anew with each sample would take the square of their size.
#[derive(Drop)]
pub(crate) struct Gathered {
    profiles: Vec<Profile>,
    weight: u64,
}

impl Model for Gathered {
    ghost use Rattle.std.specs.Prelude.{List};
    ghost use Rattle.profile_model.specs.declared.profile.Profile.{Profile};
    ghost use Rattle.json_push.specs.Reading.{AreWeighed};

    ghost Value = { List Profile };

    ghost view = { λ g. g.profiles.items };

    ghost invariant = { λ g. AreWeighed g.profiles.items g.weight };
}

impl Gathered {
    pub(crate) fn new(alloc: Global) -> Gathered
        ensures { result ≡ [] }
    {
        Gathered {
            profiles: Vec::new(alloc),
            weight: BARE_WEIGHT,
        }
    }

    // Adds the profiles of this sample at the end, if a push may be of them all.
    pub(crate) fn add(
        &mut self,
        mut profiles: Vec<Profile>,
        series: u64,
        sample: u64,
    ) -> Result<(), Refused<PushFault>>
        ensures { MatchResult result
            (λ _. (self.new ≡ self.old ++ profiles.items) × Fits self.new)
            (IfFault (IsAddFault series sample self.old profiles.items)) }
    {
        if profiles.len() > MAX_PROFILES - self.profiles.len() {
            return Err(Refused::Fault(PushFault::TooMany { series, sample }));
        }
        let weight = self.weight.saturating_add(weight_of_profiles(&profiles));
        if weight > MAX_WEIGHT {
            return Err(Refused::Fault(PushFault::Weight { series, sample }));
        }
        self.profiles.append(&mut profiles)?;
        self.weight = weight;
        Ok(())
    }

    pub(crate) fn into_profiles(self) -> Profiles
        ensures { result ≡ self }
    {
        Profiles::from_vec(self.profiles)
    }
}

fn weight_of_profiles(profiles: &[Profile]) -> u64
    ensures { result ≡ min (profiles_weight profiles.now) (2 ^ 64 - 1) }
{
    let mut weight: u64 = 0;
    for profile in profiles {
        weight = weight.saturating_add(profile.weight());
    }
    weight
}
