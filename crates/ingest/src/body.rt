// The profiles of a body.
ghost use Rattle.std.specs.Prelude.{◌≡◌, [], ◌∷◌, Err, IfOk, MatchResult, Ok};
ghost use Rattle.faults.specs.Answers.{IfFault};
ghost use Rattle.profile_model.specs.Sums.{Sample};
ghost use Rattle.profile_model.specs.declared.profile.Profile.{Profile};
ghost use Rattle.ingest.specs.Ingests.{AreProfiles, IsBaseOf, IsBodyFault, IsReadStacks, IsStackProfile};
ghost use Rattle.pprof_codec.specs.Read.{AreProfilesOf, IsFirstFault};

use crate::IngestFault;
use crate::form::{Form, Format};
use faults::Refused;
use folded_reader::{read_folded, read_lines};
use pprof_codec::{Base, read_pprof};
use profile_model::{Name, Profile, ProfileType, Profiles, StackSums};
use std::alloc::{AllocError, Global};

pub(crate) fn read_body(
    alloc: Global,
    form: Form,
    body: &[u8],
) -> Result<Profiles, Refused<IngestFault>>
    ensures { MatchResult result (AreProfiles form body.now) (IfFault (IsBodyFault form body.now)) }
{
    match form.format {
        Format::Folded => match read_folded(alloc, body) {
            Ok(values) => Ok(stack_profile(alloc, form, values)?),
            Err(refused) => Err(refused.map(IngestFault::Folded)),
        },
        Format::Lines => match read_lines(alloc, body) {
            Ok(values) => Ok(stack_profile(alloc, form, values)?),
            Err(refused) => Err(refused.map(IngestFault::Folded)),
        },
        Format::Pprof => match read_pprof(alloc, body, &base_of(form)) {
            Ok(profiles) => Ok(Profiles::from_vec(profiles)),
            Err(refused) => Err(refused.map(IngestFault::Pprof)),
        },
    }
}

// What a pprof's profiles are given besides what it says.
fn base_of(form: Form) -> Base
    ensures { IsBaseOf form result }
{
    Base {
        labels: form.labels,
        name: form.name,
        fallback_ms: form.time_ms,
    }
}

// The one profile that stacks make: samples of a processor's time.
fn stack_profile(alloc: Global, form: Form, values: StackSums) -> Result<Profiles, AllocError>
    ensures { IfOk result (λ profiles. (profile : Profile) × IsStackProfile form values profile × (profiles ≡ profile ∷ [])) }
{
    let profile = profile_of(alloc, form, values)?;
    Profiles::one(alloc, profile)
}

fn profile_of(alloc: Global, form: Form, values: StackSums) -> Result<Profile, AllocError>
    ensures { IfOk result (IsStackProfile form values) }
{
    Ok(Profile {
        kind: ProfileType {
            name: form.name,
            sample_type: Name::from_text(alloc, "samples")?,
            sample_unit: form.units,
            period_type: Name::from_text(alloc, "cpu")?,
            period_unit: Name::from_text(alloc, "nanoseconds")?,
        },
        labels: form.labels,
        time_ms: form.time_ms,
        values,
    })
}
