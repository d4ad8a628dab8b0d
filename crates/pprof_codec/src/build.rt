// The profiles of a message that has no fault.
ghost use Rattle.std.specs.Prelude.{◌≡◌, ◌+◌, ◌<◌, ◌≤◌, length, map, sum_by, IfOk};
ghost use Rattle.profile_model.specs.CleanedTexts.{cleaned};
ghost use Rattle.profile_model.specs.Kinds.{IsPart};
ghost use Rattle.profile_model.specs.Limits.{most_profiles, most_weight};
ghost use Rattle.profile_model.specs.ReadKinds.{parts_in};
ghost use Rattle.profile_model.specs.Sums.{sums_of};
ghost use Rattle.profile_model.specs.Weights.{profile_weight};
ghost use Rattle.pprof_codec.specs.Members.{text_at};
ghost use Rattle.pprof_codec.specs.Profiles.{held_of, held_weight, parts_of, profile_of, profiles_of, samples_of, stacks_weight, time_of};
ghost use Rattle.pprof_codec.specs.Checks.{weight_faults};
ghost use Rattle.pprof_codec.specs.Tables.{Judges, TakesRoom};

use crate::judged::Judged;
use crate::parts::cleaned_text;
use crate::room::take_room;
use crate::sums::build_sums;
use crate::{Base, PprofFault};
use faults::Refused;
use pprof_message::ValueType;
use profile_model::{MAX_PROFILES, MAX_WEIGHT, Name, Profile, ProfileType, StackSums};
use std::alloc::{AllocError, Global};

// One profile for each sample type, in order.
pub(crate) fn build_profiles(
    alloc: Global,
    judged: &Judged,
    base: &Base,
) -> Result<Vec<Profile>, Refused<PprofFault>>
    ensures built { Judges result (weight_faults base.now judged.now.message)
        (λ profiles. map held_of profiles.items ≡ profiles_of base.now judged.now.message) }
    ensures few { IfOk result (λ profiles. length profiles.items ≤ most_profiles) }
    ensures light { IfOk result (λ profiles. sum_by profile_weight profiles.items ≤ most_weight) }
{
    let kinds = judged.message.sample_types();
    if kinds.len() > MAX_PROFILES {
        return Err(Refused::Fault(PprofFault::Weight));
    }
    let mut room = MAX_WEIGHT;
    let mut sums = build_sums(alloc, judged, &mut room)?.into_iter();
    let mut profiles = Vec::with_capacity(alloc, kinds.len())?;
    for (number, kind) in kinds.iter().enumerate() {
        let Some(values) = sums.next() else {
            unreachable!()
        };
        profiles.push(build_profile(alloc, judged, base, number, kind, values, &mut room)?)?;
    }
    Ok(profiles)
}

// The profile of the sample type with this number, whose sums these are. The rest of its weight is taken from the room.
fn build_profile(
    alloc: Global,
    judged: &Judged,
    base: &Base,
    number: usize,
    kind: &ValueType,
    values: StackSums,
    room: &mut u64,
) -> Result<Profile, Refused<PprofFault>>
    requires number { number < length judged.now.message.sample_types }
    requires room { room.old ≤ most_weight }
    requires values { values ≡ sums_of (samples_of judged.now.message number) }
    ensures { let profile = profile_of base.now judged.now.message number kind.now in
        TakesRoom result (room.old + stacks_weight values) room.new (held_weight profile) (λ built. held_of built ≡ profile) }
{
    let mut profile = Profile {
        labels: base.labels.clone()?,
        kind: kind_of(alloc, judged, base, kind)?,
        time_ms: time_of(judged.message.time_nanos(), base.fallback_ms),
        values: StackSums::new(alloc),
    };
    take_room(room, profile.weight())?;
    profile.values = values;
    Ok(profile)
}

fn kind_of(
    alloc: Global,
    judged: &Judged,
    base: &Base,
    kind: &ValueType,
) -> Result<ProfileType, AllocError>
    ensures { IfOk result (λ made. parts_in made ≡ parts_of base.now judged.now.message kind.now) }
{
    let period = judged.message.period_type();
    Ok(ProfileType {
        name: base.name.clone()?,
        sample_type: cleaned_text(alloc, &judged.names, &judged.parts, kind.kind)?,
        sample_unit: cleaned_text(alloc, &judged.names, &judged.parts, kind.unit)?,
        period_type: cleaned_text(alloc, &judged.names, &judged.parts, period.kind)?,
        period_unit: cleaned_text(alloc, &judged.names, &judged.parts, period.unit)?,
    })
}

// Nanoseconds as milliseconds, where there are any.
fn time_of(nanos: i64, fallback_ms: u64) -> u64
    ensures { result ≡ time_of fallback_ms nanos }
{
    if nanos > 0 {
        nanos as u64 / 1_000_000
    } else {
        fallback_ms
    }
}
