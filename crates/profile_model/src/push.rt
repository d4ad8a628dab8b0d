// What one accepted write request means.
ghost use Rattle.std.specs.Prelude.{◌≡◌, ◌^◌, ◌≤◌, length};
ghost use Rattle.profile_model.specs.Limits.{most_profiles};
ghost use Rattle.profile_model.specs.Pushes.{profiles_total};

use crate::{Profile, Profiles, Tenant};

/// A tenant's profiles of one write request.
#[derive(Debug, Drop)]
pub struct Push {
    pub tenant: Tenant,
    pub profiles: Profiles,
}

impl Push {
    /// The sum of all values of all profiles.
    pub fn total(&self) -> u128
        ensures total { result ≡ profiles_total self.now.profiles }
        ensures bound { result ≤ 2 ^ 75 }
    {
        total_of_profiles(self.profiles.as_slice())
    }
}

fn total_of_profiles(profiles: &[Profile]) -> u128
    requires { length profiles.now ≤ most_profiles }
    ensures total { result ≡ profiles_total profiles.now }
    ensures bound { result ≤ 2 ^ 75 }
{
    let mut total: u128 = 0;
    for profile in profiles {
        total += u128::from(profile.values.total());
    }
    total
}
