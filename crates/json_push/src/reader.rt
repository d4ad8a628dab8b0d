// The push of a JSON body.
ghost use Rattle.std.specs.Prelude.{◌≡◌, [], map, MatchResult};
ghost use Rattle.faults.specs.Answers.{IfAnswered, IfFault, IsMapped};
ghost use Rattle.json_bodies.specs.PushRead.{series_of};
ghost use Rattle.json_push.specs.Laws.{IsAnswer};
ghost use Rattle.json_push.specs.Pushed.{IsFaultOfSeries, IsSeriesFault, SeriesGive};
ghost use Rattle.json_push.specs.Reading.{IsOneSeriesMore};
ghost use Rattle.json_push.specs.declared.fault.PushFault.TheVariants.{Label as of_label};

use crate::PushFault;
use crate::gathered::Gathered;
use crate::samples::add_samples;
use crate::series::base_of;
use faults::Refused;
use json_bodies::{JsonFault, JsonObject, PushBody, PushedSeries, ShapeFault};
use profile_model::{LabelFault, Profiles, Push, Tenant};
use std::alloc::Global;

/// The push of a body, of a request that was whole at this moment (milliseconds since 1970). Each raw profile is decoded
/// and read once, and its bytes are let go before the next.
pub fn read_push(
    alloc: Global,
    tenant: Tenant,
    body: &[u8],
    moment_ms: u64,
) -> Result<Push, Refused<PushFault>>
    ensures read { IfAnswered (IsAnswer tenant body.now moment_ms) result }
{
    let object = match JsonObject::read(alloc, body) {
        Ok(object) => object,
        Err(Refused::Fault(JsonFault::NotObject)) => {
            return Err(Refused::Fault(PushFault::NotObject));
        }
        Err(Refused::Memory) => return Err(Refused::Memory),
    };
    let said = match PushBody::of(alloc, &object) {
        Ok(said) => said,
        Err(Refused::Fault(ShapeFault::Wrong { series, sample })) => {
            return Err(Refused::Fault(PushFault::Shape { series, sample }));
        }
        Err(Refused::Memory) => return Err(Refused::Memory),
    };
    let profiles = profiles_of(alloc, &said.series, moment_ms)?;
    Ok(Push { tenant, profiles })
}

// The profiles of all series.
fn profiles_of(
    alloc: Global,
    all: &[PushedSeries],
    moment_ms: u64,
) -> Result<Profiles, Refused<PushFault>>
    ensures { MatchResult result
        (SeriesGive moment_ms [] (map series_of all.now)) (IfFault (IsFaultOfSeries moment_ms (map series_of all.now))) }
{
    let mut push = Gathered::new(alloc);
    for (number, series) in all.iter().enumerate() {
        add_series(alloc, series, moment_ms, number as u64, &mut push)?;
    }
    Ok(push.into_profiles())
}

// Adds the profiles of the series with this number.
fn add_series(
    alloc: Global,
    series: &PushedSeries,
    moment_ms: u64,
    number: u64,
    push: &mut Gathered,
) -> Result<(), Refused<PushFault>>
    ensures { MatchResult result
        (λ _. IsOneSeriesMore moment_ms push.old (series_of series.now) push.new)
        (IfFault (IsSeriesFault moment_ms number push.old (series_of series.now))) }
{
    match base_of(alloc, &series.labels, moment_ms) {
        Ok(base) => add_samples(alloc, &base, &series.raw_profiles, number, push),
        Err(refused) => Err(of_labels(refused, number)),
    }
}

// What stops the reading of labels, told of the push that has the series.
fn of_labels(refused: Refused<LabelFault>, series: u64) -> Refused<PushFault>
    ensures { IsMapped (λ wrong fault. fault ≡ of_label series wrong) refused result }
{
    refused.map(|fault| PushFault::Label { series, fault })
}
