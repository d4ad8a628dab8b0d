// What the parameters of a render ask for.
ghost use Rattle.std.specs.Prelude.{◌≡◌, MatchOption, MatchResult, option_map};
ghost use Rattle.faults.specs.Answers.{IfFault};
ghost use Rattle.query_parameters.specs.Parameters.{pairs_of};
ghost use Rattle.request_meaning.specs.Renders.{HasQuery, IsBound, IsNoBound, IsQueryFault, IsRenderAsk, IsRenderFault, asks_for_folded, is_said};

use crate::ask::RenderAsk;
use crate::refusal::Refusal;
use faults::Refused;
use profile_model::{PartAsk, Tenant};
use query_parameters::{Parameter, first_value, read_time};
use selector::Query;
use std::alloc::Global;

/// A render without `from` begins an hour ago.
const HOUR_MS: u64 = 3_600_000;

/// The query and its window, read in the order of their faults.
pub(crate) fn read_render(
    alloc: Global,
    tenant: Tenant,
    parameters: &[Parameter],
    moment_ms: u64,
) -> Result<RenderAsk, Refused<Refusal>>
    ensures { MatchResult result
        (λ ask. (ask.part.tenant ≡ tenant) × IsRenderAsk (pairs_of parameters.now) moment_ms ask)
        (IfFault (IsRenderFault (pairs_of parameters.now) moment_ms)) }
{
    let query = read_query(alloc, parameters)?;
    let earliest = moment_ms.saturating_sub(HOUR_MS);
    let Some(from_ms) = bound_of(first_value(parameters, "from"), earliest, moment_ms) else {
        return Err(Refused::Fault(Refusal::From));
    };
    let Some(until_ms) = bound_of(first_value(parameters, "until"), moment_ms, moment_ms) else {
        return Err(Refused::Fault(Refusal::Until));
    };
    if from_ms > until_ms {
        return Err(Refused::Fault(Refusal::Window));
    }
    let part = PartAsk {
        tenant,
        from_ms,
        until_ms,
    };
    Ok(RenderAsk { part, query })
}

fn read_query(alloc: Global, parameters: &[Parameter]) -> Result<Query, Refused<Refusal>>
    ensures { MatchResult result (HasQuery (pairs_of parameters.now)) (IfFault (IsQueryFault (pairs_of parameters.now))) }
{
    if !asks_for_folded(parameters) {
        return Err(Refused::Fault(Refusal::Unbuilt));
    }
    let Some(text) = first_value(parameters, "query") else {
        return Err(Refused::Fault(Refusal::NoQuery));
    };
    match Query::read(alloc, text) {
        Ok(query) => Ok(query),
        Err(refused) => Err(refused.map(Refusal::Selector)),
    }
}

// Folded text and no count of nodes: other forms of an answer aren't built.
fn asks_for_folded(parameters: &[Parameter]) -> bool
    ensures { result ≡ asks_for_folded (pairs_of parameters.now) }
{
    is_said(first_value(parameters, "format"), "folded")
        && first_value(parameters, "maxNodes").is_none()
}

fn is_said(said: Option<&str>, text: &str) -> bool
    ensures { result ≡ is_said (option_map (λ one. one.now) said.entry) text.now }
{
    match said {
        Some(said) => said == text,
        None => false,
    }
}

// One end of the window.
fn bound_of(said: Option<&str>, default_ms: u64, moment_ms: u64) -> Option<u64>
    ensures { MatchOption result
        (IsNoBound (option_map (λ one. one.now) said.entry) moment_ms)
        (IsBound (option_map (λ one. one.now) said.entry) default_ms moment_ms) }
{
    match said {
        Some(text) => read_time(text, moment_ms),
        None => Some(default_ms),
    }
}
