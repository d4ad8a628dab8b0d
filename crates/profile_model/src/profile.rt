// Samples of one program over one stretch of time.
ghost use Rattle.std.specs.Prelude.{◌≡◌, ◌^◌, ◌<◌, ◌≤◌, [], ◌∷◌, length, IfOk};
ghost use Rattle.profile_model.specs.LabelSets.{AreProfileLabels};
ghost use Rattle.profile_model.specs.Limits.{most_profiles};

use crate::{LabelSet, ProfileType, StackSums};
use std::alloc::{AllocError, Global};
use std::fmt;
use std::marker::Model;

/// The most profiles that one push may have.
pub const MAX_PROFILES: usize = 4096;

/// What was sampled, of what, and when.
#[derive(Debug, Drop)]
pub struct Profile {
    pub labels: LabelSet,
    pub kind: ProfileType,
    /// Milliseconds since 1970.
    pub time_ms: u64,
    pub values: StackSums,
    ghost labelled: { AreProfileLabels labels },
}

// A line of the labels, the type and the time, and one of each stack and its value.
impl fmt::Display for Profile {
    fn fmt<W: fmt::Write>(&self, f: &mut fmt::Formatter<W>) -> fmt::Result {
        for (name, value) in self.labels.pairs() {
            write!(f, "{name}={value} ")?;
        }
        writeln!(f, "{} {}", self.kind, self.time_ms)?;
        for (stack, value) in self.values.iter() {
            writeln!(f, "{stack} {value}")?;
        }
        Ok(())
    }
}

/// The profiles of one push, in its order: at most `MAX_PROFILES`.
#[derive(Debug, Drop)]
pub struct Profiles {
    items: Vec<Profile>,
}

impl Model for Profiles {
    ghost use Rattle.std.specs.Prelude.{◌≤◌, List, length};
    ghost use Rattle.profile_model.specs.Limits.{most_profiles};
    ghost use Rattle.profile_model.specs.declared.profile.Profile.{Profile};

    ghost Value = { List Profile };

    ghost view = { λ p. p.items.items };

    ghost invariant = { λ p. length p.items.items ≤ most_profiles };
}

impl Profiles {
    /// This profile alone.
    pub fn one(alloc: Global, profile: Profile) -> Result<Profiles, AllocError>
        ensures { IfOk result (λ profiles. profiles ≡ profile ∷ []) }
    {
        let mut items = Vec::with_capacity(alloc, 1)?;
        items.push(profile)?;
        Ok(Profiles { items })
    }

    /// These profiles. It takes no memory.
    pub fn from_vec(items: Vec<Profile>) -> Profiles
        requires { length items.items ≤ most_profiles }
        ensures { result ≡ items.items }
    {
        Profiles { items }
    }

    /// The profiles themselves. It takes no memory.
    pub fn into_vec(self) -> Vec<Profile>
        ensures value { result.items ≡ self }
        ensures few { length self ≤ most_profiles }
    {
        self.items
    }

    pub fn as_slice(&self) -> &[Profile]
        ensures value { result.now ≡ self.now }
        ensures few { length self.now ≤ most_profiles }
    {
        &self.items
    }
}
