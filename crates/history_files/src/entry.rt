// The entry of an object.
ghost use Rattle.std.specs.Prelude.{◌≡◌, ◌≤◌, ◌^◌, ◌-◌, map, min, max};
ghost use Rattle.std.specs.List.{fold};
ghost use Rattle.history_files.specs.History.{times_of};
ghost use Rattle.history_files.specs.Standing.{Describes};

use metastore_index::Entry;
use profile_model::{Profile, Push};
use segment_file::Object;

// The least and the greatest time of a push's profiles, and of those before them.
fn times_with(times: (u64, u64), profiles: &[Profile]) -> (u64, u64)
    ensures least { result.0 ≡ fold min times.0 (map (λ profile. profile.time_ms) profiles.now) }
    ensures greatest { result.1 ≡ fold max times.1 (map (λ profile. profile.time_ms) profiles.now) }
{
    let (mut least, mut greatest) = times;
    for profile in profiles {
        least = least.min(profile.time_ms);
        greatest = greatest.max(profile.time_ms);
    }
    (least, greatest)
}

// The least and the greatest time of all profiles: 2^64 - 1 and 0 where there are none.
pub(crate) fn times(pushes: &[Push]) -> (u64, u64)
    ensures least { result.0 ≡ fold min (2 ^ 64 - 1) (times_of pushes.now) }
    ensures greatest { result.1 ≡ fold max 0 (times_of pushes.now) }
{
    let mut times = (u64::MAX, 0);
    for push in pushes {
        times = times_with(times, push.profiles.as_slice());
    }
    times
}

/// The entry of an object: its pushes and their times, with its file's id and length in bytes.
pub fn entry_of(object: &Object, id: u64, size: u64, level: u8) -> Entry
    requires { level ≤ 3 }
    ensures describes { Describes result object.now }
    ensures id { result.id ≡ id }
    ensures size { result.length ≡ size }
    ensures level { result.level ≡ level }
{
    let (tmin, tmax) = times(object.pushes());
    Entry {
        lo: object.lo(),
        hi: object.hi(),
        id,
        length: size,
        tmin,
        tmax,
        level,
    }
}
