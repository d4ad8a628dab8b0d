// What the parameters say.
ghost use Rattle.std.specs.Prelude.{◌≡◌, ◌∷◌, None, Some, codes, map, IfOk, MatchOption, MatchResult, option_map};
ghost use Rattle.faults.specs.Answers.{IfAnswered, IfFault};
ghost use Rattle.profile_model.specs.Kinds.{IsPart};
ghost use Rattle.profile_model.specs.LabelSets.{AreProfileLabels};
ghost use Rattle.query_parameters.specs.Parameters.{pairs_of};
ghost use Rattle.query_parameters.specs.Times.{time_of};
ghost use Rattle.ingest.specs.Forms.{IsForm, IsFormFault, IsSeries, format_named, format_of, units_of};
ghost use Rattle.ingest.specs.FormReading.{IsLabelsRead, IsSeriesFault};

use crate::IngestFault;
use crate::form::{Form, Format};
use faults::Refused;
use profile_model::{LabelSet, Name, SERVICE_LABEL, own_labels, type_name};
use query_parameters::{NameFault, Parameter, first_value, read_series_name, read_time};
use std::alloc::{AllocError, Global};

// The parameters, read in the order of their faults.
pub(crate) fn read_form(
    alloc: Global,
    parameters: &[Parameter],
    moment_ms: u64,
) -> Result<Form, Refused<IngestFault>>
    ensures { MatchResult result
        (IsForm (pairs_of parameters.now) moment_ms) (IfFault (IsFormFault (pairs_of parameters.now) moment_ms)) }
{
    let labels = read_labels(alloc, parameters)?;
    let Some(time_ms) = time_of(first_value(parameters, "from"), moment_ms) else {
        return Err(Refused::Fault(IngestFault::From));
    };
    let Some(format) = format_of(first_value(parameters, "format")) else {
        return Err(Refused::Fault(IngestFault::Format));
    };
    Ok(Form {
        name: type_name(alloc, &labels)?,
        labels: own_labels(labels),
        units: units_of(alloc, parameters)?,
        time_ms,
        format,
    })
}

// The service's name and the labels behind it.
fn read_labels(alloc: Global, parameters: &[Parameter]) -> Result<LabelSet, Refused<IngestFault>>
    ensures read { IfAnswered (IsLabelsRead (pairs_of parameters.now)) result }
    ensures profile { IfOk result AreProfileLabels }
{
    let pairs = read_pairs(alloc, parameters)?;
    match LabelSet::from_pairs(alloc, &pairs) {
        Ok(labels) => Ok(labels),
        Err(refused) => Err(refused.map(IngestFault::Label)),
    }
}

fn read_pairs(
    alloc: Global,
    parameters: &[Parameter],
) -> Result<Vec<(Name, Name)>, Refused<IngestFault>>
    ensures { MatchResult result (λ pairs. IsSeries (pairs_of parameters.now) pairs.items) (IfFault (IsSeriesFault (pairs_of parameters.now))) }
{
    let Some(text) = first_value(parameters, "name") else {
        return Err(Refused::Fault(IngestFault::Name(0)));
    };
    match read_series_name(alloc, text) {
        Ok(series) => Ok(pairs_of_series(alloc, series.service, &series.pairs)?),
        Err(Refused::Fault(NameFault::Broken(at))) => Err(Refused::Fault(IngestFault::Name(at))),
        Err(Refused::Memory) => Err(Refused::Memory),
    }
}

fn pairs_of_series(
    alloc: Global,
    service: &str,
    rest: &[(&str, &str)],
) -> Result<Vec<(Name, Name)>, AllocError>
    ensures { IfOk result (λ pairs. pairs.items ≡ (codes "service_name", service.now) ∷ map (λ pair. (pair.0.now, pair.1.now)) rest.now) }
{
    let mut pairs = Vec::with_capacity(alloc, 1)?;
    pairs.push((
        Name::from_text(alloc, SERVICE_LABEL)?,
        Name::from_text(alloc, service)?,
    ))?;
    for pair in rest {
        pairs.push((
            Name::from_text(alloc, pair.0)?,
            Name::from_text(alloc, pair.1)?,
        ))?;
    }
    Ok(pairs)
}

// The time that the text says, which is the request's moment without one.
fn time_of(text: Option<&str>, moment_ms: u64) -> Option<u64>
    ensures { MatchOption result
        (MatchOption text.entry ⊥ (λ one. time_of one.now moment_ms ≡ None))
        (λ ms. MatchOption text.entry (ms ≡ moment_ms) (λ one. time_of one.now moment_ms ≡ Some ms)) }
{
    match text {
        Some(text) => read_time(text, moment_ms),
        None => Some(moment_ms),
    }
}

fn format_of(format: Option<&str>) -> Option<Format>
    ensures { result ≡ format_of (option_map (λ text. text.now) format.entry) }
{
    match format {
        None => Some(Format::Folded),
        Some(text) => format_named(text),
    }
}

fn format_named(text: &str) -> Option<Format>
    ensures { result ≡ format_named text.now }
{
    if text == "folded" {
        Some(Format::Folded)
    } else if text == "lines" {
        Some(Format::Lines)
    } else if text == "pprof" {
        Some(Format::Pprof)
    } else {
        None
    }
}

fn units_of(alloc: Global, parameters: &[Parameter]) -> Result<Name, AllocError>
    ensures { IfOk result (λ units. (units ≡ units_of (pairs_of parameters.now)) × IsPart units) }
{
    match first_value(parameters, "units") {
        Some(units) => Name::cleaned(alloc, units),
        None => Name::cleaned(alloc, "count"),
    }
}
