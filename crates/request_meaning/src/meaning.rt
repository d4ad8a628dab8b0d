// What a request asks for, or its first refusal.
ghost use Rattle.std.specs.Prelude.{◌≡◌, true, ◌≢◌, MatchResult, Some, option_map};
ghost use Rattle.faults.specs.Answers.{IfFault};
ghost use Rattle.request_meaning.specs.Facts.{facts_of};
ghost use Rattle.request_meaning.specs.Forms.{front_in, is_built, is_coded, is_encoded, least_front, route_at, route_of, tenant_of};
ghost use Rattle.request_meaning.specs.Meanings.{IsMeant, IsMisrouted, IsPushedFault, IsReadFault, IsRefusedOutright, IsUnserved, IsWriteFault, Reaches};
ghost use Rattle.request_meaning.specs.ReadParts.{Says};
ghost use Rattle.ingest.specs.Ingests.{SaysProfiles};
ghost use Rattle.json_push.specs.Pushed.{SaysPushed};
ghost use Rattle.query_parameters.specs.Parameters.{parameters_of};

use crate::ask::Ask;
use crate::config::Config;
use crate::form::PushForm;
use crate::label_form::read_label_ask;
use crate::method::LabelMethod;
use crate::refusal::Refusal;
use crate::render_form::read_render;
use faults::Refused;
use http_session::Request;
use ingest::read_ingest;
use json_push::read_push;
use profile_model::{Push, Tenant, wrong_tenant_byte};
use query_parameters::read_parameters;
use routes::{Found, Route};
use std::alloc::Global;
use wire_forms::{begins_as_gzip, digits_of};

/// What is to be done.
#[derive(Drop)]
pub enum Meaning {
    Write(PushForm, Push),
    Query(Ask),
}

/// What a request means, and how many pushes its tenant must have for it: 0 where it doesn't say.
#[derive(Drop)]
pub struct Meant {
    pub what: Meaning,
    pub least_front: u64,
}

/// What the request means. Refusals come in their order, the first that holds.
pub fn meaning_of(
    alloc: Global,
    request: &Request,
    config: &Config,
) -> Result<Meant, Refused<Refusal>>
    ensures { MatchResult result
        (IsMeant (facts_of config.now) request.now) (IsUnserved (facts_of config.now) request.now) }
{
    let (route, name, least_front) = judge(request, config)?;
    let Ok(tenant) = Tenant::read(alloc, name) else {
        return Err(Refused::Memory);
    };
    match read_for(alloc, request, route, tenant) {
        Ok(what) => Ok(Meant { what, least_front }),
        Err(refused) => Err(refused),
    }
}

// The route, the tenant's name and the front that is asked for, where nothing refuses the request before its parameters and
// its body.
fn judge<'r>(request: &'r Request, config: &Config) -> Result<(Route, &'r [u8], u64), Refusal>
    ensures { MatchResult result
        (λ judged. Reaches (facts_of config.now) request.now judged.0 judged.1.now × (judged.2 ≡ least_front request.now))
        (IsRefusedOutright (facts_of config.now) request.now) }
{
    let route = route_at(request, config)?;
    let Some(name) = tenant_name(request, config) else {
        return Err(Refusal::NoTenant);
    };
    if let Some(at) = wrong_tenant_byte(name) {
        return Err(Refusal::BadTenant(at));
    }
    if is_encoded(request) {
        return Err(Refusal::Encoded);
    }
    let Some(least_front) = front_in(request.front()) else {
        return Err(Refusal::Front);
    };
    Ok((route, name, least_front))
}

// What the method and the path name, where it is built.
fn route_at(request: &Request, config: &Config) -> Result<Route, Refusal>
    ensures { MatchResult result (λ route. route_at request.now ≡ Some route) (IsMisrouted request.now) }
{
    match config.routes.find(request.method(), request.path()) {
        Found::Route(route) => {
            if is_built(route) {
                Ok(route)
            } else {
                Err(Refusal::Unbuilt)
            }
        }
        Found::WrongMethod(allow) => Err(Refusal::WrongMethod(allow)),
        Found::NoRoute => Err(Refusal::NoRoute),
    }
}

fn is_built(route: Route) -> bool
    ensures { result ≡ is_built route }
{
    matches!(
        route,
        Route::Ingest
            | Route::Push
            | Route::Render
            | Route::LabelNames
            | Route::LabelValues
            | Route::Series
    )
}

// The parameters and the body, read as the route says.
fn read_for(
    alloc: Global,
    request: &Request,
    route: Route,
    tenant: Tenant,
) -> Result<Meaning, Refused<Refusal>>
    requires { is_built route ≡ true }
    ensures { MatchResult result (Says request.now route tenant) (IfFault (IsReadFault request.now route)) }
{
    match route {
        Route::Ingest => {
            let push = read_ingested(alloc, request, tenant)?;
            Ok(Meaning::Write(PushForm::Ingest, push))
        }
        Route::Push => {
            let push = read_pushed(alloc, request, tenant)?;
            Ok(Meaning::Write(PushForm::Json, push))
        }
        Route::Render => {
            let parameters = read_parameters(alloc, request.query())?;
            let ask = read_render(alloc, tenant, &parameters, request.moment())?;
            Ok(Meaning::Query(Ask::Render(ask)))
        }
        Route::LabelNames => read_labels(alloc, request, LabelMethod::Names, tenant),
        Route::LabelValues => read_labels(alloc, request, LabelMethod::Values, tenant),
        Route::Series => read_labels(alloc, request, LabelMethod::Series, tenant),
        _ => unreachable!(),
    }
}

fn read_labels(
    alloc: Global,
    request: &Request,
    method: LabelMethod,
    tenant: Tenant,
) -> Result<Meaning, Refused<Refusal>>
    ensures { MatchResult result
        (Says request.now (route_of method) tenant) (IfFault (IsReadFault request.now (route_of method))) }
{
    let ask = read_label_ask(alloc, tenant, method, request.body())?;
    Ok(Meaning::Query(Ask::Labels(ask)))
}

fn read_ingested(alloc: Global, request: &Request, tenant: Tenant) -> Result<Push, Refused<Refusal>>
    ensures { MatchResult result
        (λ push. (push.tenant ≡ tenant) × SaysProfiles (parameters_of request.now.query) request.now.body request.now.moment push.profiles)
        (IfFault (IsWriteFault request.now)) }
{
    let parameters = read_parameters(alloc, request.query())?;
    match read_ingest(alloc, tenant, &parameters, request.body(), request.moment()) {
        Ok(push) => Ok(push),
        Err(refused) => Err(refused.map(Refusal::Ingest)),
    }
}

fn read_pushed(alloc: Global, request: &Request, tenant: Tenant) -> Result<Push, Refused<Refusal>>
    ensures { MatchResult result
        (λ push. (push.tenant ≡ tenant) × SaysPushed request.now.body request.now.moment push.profiles)
        (IfFault (IsPushedFault request.now)) }
{
    match read_push(alloc, tenant, request.body(), request.moment()) {
        Ok(push) => Ok(push),
        Err(refused) => Err(refused.map(Refusal::Push)),
    }
}

// The bytes of the tenant's name.
fn tenant_name<'r>(request: &'r Request, config: &Config) -> Option<&'r [u8]>
    ensures { option_map (λ name. name.now) result ≡ tenant_of (facts_of config.now) request.now }
{
    if config.single_tenant {
        Some(b"anonymous")
    } else {
        request.tenant()
    }
}

// A body that isn't read as it is: coded, or beginning as gzip does.
fn is_encoded(request: &Request) -> bool
    ensures { result ≡ is_encoded request.now }
{
    is_coded(request.encoding()) || begins_as_gzip(request.body())
}

// The number that the header says, 0 where it isn't there.
fn front_in(header: Option<&[u8]>) -> Option<u64>
    ensures { result ≡ front_in (option_map (λ text. text.now) header.entry) }
{
    match header {
        Some(text) => digits_of(text, 19),
        None => Some(0),
    }
}

// A coding other than `identity`.
fn is_coded(coding: Option<&[u8]>) -> bool
    ensures { result ≡ is_coded (option_map (λ name. name.now) coding.entry) }
{
    match coding {
        Some(name) => !name.eq_ignore_ascii_case(b"identity"),
        None => false,
    }
}
