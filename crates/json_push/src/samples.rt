// The profiles of the samples of a series.
ghost use Rattle.std.specs.Prelude.{◌≡◌, List, ℕ, map, IfOk, MatchOption, MatchResult};
ghost use Rattle.faults.specs.Answers.{IfFault, IsMapped};
ghost use Rattle.profile_model.specs.declared.profile.Profile.{Profile};
ghost use Rattle.json_push.specs.Pushed.{IsBase64Of, IsSample, IsSampleFault, SamplesGive};
ghost use Rattle.json_push.specs.Reading.{IsFaultOfSamples, IsOneMore};
ghost use Rattle.json_push.specs.declared.fault.PushFault.TheVariants.{Pprof};

use crate::PushFault;
use crate::gathered::Gathered;
use base64::DecodeAllocError;
use base64::engine::general_purpose::STANDARD;
use faults::Refused;
use pprof_codec::{Base, PprofFault, read_pprof};
use profile_model::Profile;
use std::alloc::{AllocError, Global};

// Adds the profiles of each sample of the series with this number.
pub(crate) fn add_samples(
    alloc: Global,
    base: &Base,
    raws: &[&str],
    series: u64,
    push: &mut Gathered,
) -> Result<(), Refused<PushFault>>
    ensures { MatchResult result
        (λ _. SamplesGive base.now push.old (map (λ raw. raw.now) raws.now) push.new)
        (IfFault (IsFaultOfSamples series base.now push.old (map (λ raw. raw.now) raws.now))) }
{
    for (sample, raw) in raws.iter().enumerate() {
        add_sample(alloc, base, raw, series, sample as u64, push)?;
    }
    Ok(())
}

fn add_sample(
    alloc: Global,
    base: &Base,
    raw: &str,
    series: u64,
    sample: u64,
    push: &mut Gathered,
) -> Result<(), Refused<PushFault>>
    ensures { MatchResult result
        (λ _. IsOneMore base.now push.old raw.now push.new)
        (IfFault (IsSampleFault series sample base.now push.old raw.now)) }
{
    let profiles = read_sample(alloc, base, raw, series, sample)?;
    push.add(profiles, series, sample)
}

// The profiles of a raw profile. Its bytes are let go here.
fn read_sample(
    alloc: Global,
    base: &Base,
    raw: &str,
    series: u64,
    sample: u64,
) -> Result<Vec<Profile>, Refused<PushFault>>
    ensures { MatchResult result
        (λ profiles. IsSample base.now raw.now profiles.items)
        (λ refused. (before : List Profile) → IfFault (IsSampleFault series sample base.now before raw.now) refused) }
{
    let Some(bytes) = decoded(alloc, raw)? else {
        return Err(Refused::Fault(PushFault::NotBase64 { series, sample }));
    };
    match read_pprof(alloc, &bytes, base) {
        Ok(profiles) => Ok(profiles),
        Err(refused) => Err(of_pprof(refused, series, sample)),
    }
}

// What stops the reading of a pprof, told of the push that has the sample.
fn of_pprof(refused: Refused<PprofFault>, series: u64, sample: u64) -> Refused<PushFault>
    ensures { IsMapped (λ wrong fault. fault ≡ Pprof series sample wrong) refused result }
{
    refused.map(|fault| PushFault::Pprof {
        series,
        sample,
        fault,
    })
}

// The bytes that the text is the base64 of, if it is of any.
fn decoded(alloc: Global, text: &str) -> Result<Option<Vec<u8>>, AllocError>
    ensures { IfOk result (λ found. MatchOption found
        ((bytes : List ℕ) → ¬ (IsBase64Of text.now bytes)) (λ bytes. IsBase64Of text.now bytes.items)) }
{
    match STANDARD.decode(alloc, text.as_bytes()) {
        Ok(bytes) => Ok(Some(bytes)),
        Err(DecodeAllocError::DecodeError(_)) => Ok(None),
        Err(DecodeAllocError::OutOfMemory) => Err(AllocError),
    }
}
