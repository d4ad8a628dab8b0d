// What the body of a query for labels asks for.
ghost use Rattle.std.specs.Prelude.{◌≡◌, ◌≢◌, ◌≤◌, IfOk, MatchResult, length, map};
ghost use Rattle.faults.specs.Answers.{IfFault, IsMapped};
ghost use Rattle.request_meaning.specs.LabelAsks.{AreSelectors, IsLabelAsk, IsLabelFault, method_of, most_selectors};
ghost use Rattle.request_meaning.specs.ReadParts.{IsAskOf, IsAskOfRefused, IsAskRefused, IsSelectorsRefused, SaysLabelAsk, refusal_of};

use crate::ask::{LabelAsk, LabelQuery};
use crate::method::LabelMethod;
use crate::refusal::Refusal;
use faults::Refused;
use json_bodies::{FieldFault, JsonFault, JsonObject, LabelNamesBody, LabelValuesBody, SeriesBody};
use profile_model::{Name, PartAsk, Tenant};
use selector::{Selector, SelectorFault};
use std::alloc::{AllocError, Global};

/// The most selectors that a request may have.
const MAX_SELECTORS: usize = 16;

/// The query of the body, read in the order of its faults.
pub(crate) fn read_label_ask(
    alloc: Global,
    tenant: Tenant,
    method: LabelMethod,
    body: &[u8],
) -> Result<LabelAsk, Refused<Refusal>>
    ensures { MatchResult result
        (λ ask. (ask.part.tenant ≡ tenant) × (method_of ask.query ≡ method) × IsLabelAsk method body.now ask)
        (IfFault (IsLabelFault method body.now)) }
{
    let object = match JsonObject::read_or_empty(alloc, body) {
        Ok(object) => object,
        Err(refused) => return Err(refused.map(object_refusal)),
    };
    match method {
        LabelMethod::Names => names_ask(alloc, tenant, &object),
        LabelMethod::Values => values_ask(alloc, tenant, &object),
        LabelMethod::Series => series_ask(alloc, tenant, &object),
    }
}

fn names_ask(
    alloc: Global,
    tenant: Tenant,
    object: &JsonObject,
) -> Result<LabelAsk, Refused<Refusal>>
    ensures { MatchResult result
        (SaysLabelAsk LabelMethod.Names object.now tenant) (IfFault (IsAskRefused LabelMethod.Names object.now)) }
{
    let body = LabelNamesBody::of(alloc, object).map_err(refusal_of)?;
    label_ask(
        alloc,
        tenant,
        LabelQuery::Names,
        &body.matchers,
        body.start_ms,
        body.end_ms,
    )
}

fn values_ask(
    alloc: Global,
    tenant: Tenant,
    object: &JsonObject,
) -> Result<LabelAsk, Refused<Refusal>>
    ensures { MatchResult result
        (SaysLabelAsk LabelMethod.Values object.now tenant) (IfFault (IsAskRefused LabelMethod.Values object.now)) }
{
    let body = LabelValuesBody::of(alloc, object).map_err(refusal_of)?;
    let query = LabelQuery::Values(Name::from_text(alloc, body.name)?);
    label_ask(
        alloc,
        tenant,
        query,
        &body.matchers,
        body.start_ms,
        body.end_ms,
    )
}

fn series_ask(
    alloc: Global,
    tenant: Tenant,
    object: &JsonObject,
) -> Result<LabelAsk, Refused<Refusal>>
    ensures { MatchResult result
        (SaysLabelAsk LabelMethod.Series object.now tenant) (IfFault (IsAskRefused LabelMethod.Series object.now)) }
{
    let body = SeriesBody::of(alloc, object).map_err(refusal_of)?;
    let query = LabelQuery::Series(names_of(alloc, &body.label_names)?);
    label_ask(
        alloc,
        tenant,
        query,
        &body.matchers,
        body.start_ms,
        body.end_ms,
    )
}

// The rest of a query, once its fields are of their kinds.
fn label_ask(
    alloc: Global,
    tenant: Tenant,
    query: LabelQuery,
    matchers: &[&str],
    from_ms: u64,
    until_ms: u64,
) -> Result<LabelAsk, Refused<Refusal>>
    ensures { MatchResult result
        (IsAskOf tenant query (map (λ text. text.now) matchers.now) from_ms until_ms)
        (IfFault (IsAskOfRefused (map (λ text. text.now) matchers.now) from_ms until_ms)) }
{
    let selectors = read_selectors(alloc, matchers)?;
    if from_ms > until_ms {
        return Err(Refused::Fault(Refusal::Window));
    }
    let part = PartAsk {
        tenant,
        from_ms,
        until_ms,
    };
    Ok(LabelAsk {
        part,
        query,
        selectors,
    })
}

fn read_selectors(alloc: Global, texts: &[&str]) -> Result<Vec<Selector>, Refused<Refusal>>
    ensures { MatchResult result
        (λ selectors. (length texts.now ≤ most_selectors) × AreSelectors (map (λ text. text.now) texts.now) selectors.items)
        (IfFault (IsSelectorsRefused (map (λ text. text.now) texts.now))) }
{
    if texts.len() > MAX_SELECTORS {
        return Err(Refused::Fault(Refusal::Selector(SelectorFault::TooMany)));
    }
    let mut selectors = Vec::new(alloc);
    for text in texts {
        match Selector::read(alloc, text) {
            Ok(selector) => selectors.push(selector)?,
            Err(refused) => return Err(refused.map(Refusal::Selector)),
        }
    }
    Ok(selectors)
}

fn names_of(alloc: Global, texts: &[&str]) -> Result<Vec<Name>, AllocError>
    ensures { IfOk result (λ names. names.items ≡ map (λ text. text.now) texts.now) }
{
    let mut names = Vec::with_capacity(alloc, texts.len())?;
    for text in texts {
        names.push(Name::from_text(alloc, text)?)?;
    }
    Ok(names)
}

fn refusal_of(refused: Refused<FieldFault>) -> Refused<Refusal>
    ensures { IsMapped (λ fault refusal. refusal ≡ refusal_of fault) refused result }
{
    refused.map(kind_refusal)
}

fn kind_refusal(fault: FieldFault) -> Refusal
    ensures { result ≡ refusal_of fault }
{
    match fault {
        FieldFault::WrongKind(number) => Refusal::WrongKind(number),
    }
}

fn object_refusal(fault: JsonFault) -> Refusal
    ensures { result ≡ Refusal.NotObject }
{
    match fault {
        JsonFault::NotObject => Refusal::NotObject,
    }
}
