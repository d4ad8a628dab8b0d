// The series of a push, read one after another.
ghost use Rattle.std.specs.Prelude.{◌≡◌, ◌<◌, ◌++◌, ◌∷◌, ℕ, [], List, IfOk, length, MatchResult, None};
ghost use Rattle.serde_json.specs.Data.{Data, Members, no_members, object, put};
ghost use Rattle.json_bodies.specs.Fields.{as_list};
ghost use Rattle.json_bodies.specs.KeptSeries.{AreParts, AreSeries, IsKept, IsKeptPush};
ghost use Rattle.json_bodies.specs.Walks.{IfNoJson, Reads, ReadsItems, ReadsMembers, itemed, membered, valued};

use crate::lists::{read_labels, read_samples};
use crate::push::ShapeFault;
use crate::texts::Texts;
use crate::walk::{Stop, first, is_key, opens_array, opens_object, skip, skip_rest};
use json::Reader;
use profile_model::Name;
use std::alloc::{AllocError, Global};

// A series as it is kept.
#[derive(Debug, Drop)]
pub(crate) struct Series {
    pub(crate) labels: Vec<(Name, Name)>,
    pub(crate) raw_profiles: Texts,
}

// What the members of a series say so far.
#[derive(Drop)]
struct Parts {
    labels: Option<Vec<(Name, Name)>>,
    // Or the first sample that says nothing, or 0 where there are none.
    samples: Result<Texts, u64>,
}

// The series of a list, or the first place of another shape. Both its numbers are 0 where the value is no list.
pub(crate) fn read_all_series(
    alloc: Global,
    reader: &mut Reader<'_>,
    depth: usize,
) -> Result<Result<Vec<Series>, ShapeFault>, Stop>
    requires { 3 < depth }
    ensures { MatchResult result
        (λ all. Reads (λ d. IsKeptPush (as_list d) all) depth reader.old reader.new)
        (IfNoJson (valued depth reader.old ≡ None)) }
{
    let token = first(reader)?;
    if opens_array(&token) {
        let all = each_series(alloc, reader, depth - 1)?;
        Ok(all)
    } else {
        skip_rest(token, reader, depth)?;
        Ok(Err(ShapeFault::Wrong {
            series: 0,
            sample: 0,
        }))
    }
}

fn each_series(
    alloc: Global,
    reader: &mut Reader<'_>,
    depth: usize,
) -> Result<Result<Vec<Series>, ShapeFault>, Stop>
    requires { 2 < depth }
    ensures { MatchResult result
        (λ all. ReadsItems (λ ds. AreSeries ds all) depth reader.old reader.new)
        (IfNoJson (itemed depth (length reader.old) reader.old ≡ None)) }
{
    let mut all = Ok(Vec::new(alloc));
    'items: while !reader.take_end_array() {
        let series = read_series(alloc, reader, depth)?;
        all = with_series(all, series)?;
    }
    Ok(all)
}

// The same with one series more.
fn with_series(
    all: Result<Vec<Series>, ShapeFault>,
    series: Result<Series, u64>,
) -> Result<Result<Vec<Series>, ShapeFault>, AllocError>
    ensures { IfOk result (λ more. (ds : List Data) (d : Data) → AreSeries ds all → IsKept d series
        → AreSeries (ds ++ d ∷ []) more) }
{
    match all {
        Ok(mut all) => match series {
            Ok(series) => {
                all.push(series)?;
                Ok(Ok(all))
            }
            Err(sample) => Ok(Err(ShapeFault::Wrong {
                series: all.len() as u64,
                sample,
            })),
        },
        Err(fault) => Ok(Err(fault)),
    }
}

// A series, or its first sample that says nothing, or 0 for its labels and for the series itself.
fn read_series(
    alloc: Global,
    reader: &mut Reader<'_>,
    depth: usize,
) -> Result<Result<Series, u64>, Stop>
    requires { 2 < depth }
    ensures { MatchResult result
        (λ series. Reads (λ d. IsKept d series) depth reader.old reader.new)
        (IfNoJson (valued depth reader.old ≡ None)) }
{
    let token = first(reader)?;
    if opens_object(&token) {
        let parts = read_parts(alloc, reader, depth - 1)?;
        Ok(series_of(parts))
    } else {
        skip_rest(token, reader, depth)?;
        Ok(Err(0))
    }
}

fn series_of(parts: Parts) -> Result<Series, u64>
    ensures { (found : Members) → AreParts found parts → IsKept (object found) result }
{
    let Parts { labels, samples } = parts;
    match labels {
        Some(labels) => match samples {
            Ok(raw_profiles) => Ok(Series {
                labels,
                raw_profiles,
            }),
            Err(sample) => Err(sample),
        },
        None => Err(0),
    }
}

fn read_parts(alloc: Global, reader: &mut Reader<'_>, depth: usize) -> Result<Parts, Stop>
    requires { 1 < depth }
    ensures { MatchResult result
        (λ parts. ReadsMembers (λ ms. AreParts ms parts) depth reader.old reader.new)
        (IfNoJson (membered depth no_members (length reader.old) reader.old ≡ None)) }
{
    let mut parts = Parts {
        labels: None,
        samples: Err(0),
    };
    'members: while let Some(key) = reader.next_key()? {
        parts = with_member(alloc, parts, key, reader, depth)?;
    }
    Ok(parts)
}

// The same with the value of a key, which follows.
fn with_member(
    alloc: Global,
    parts: Parts,
    key: &str,
    reader: &mut Reader<'_>,
    depth: usize,
) -> Result<Parts, Stop>
    requires { 1 < depth }
    ensures { MatchResult result
        (λ more. Reads (λ d. (found : Members) → AreParts found parts → AreParts (put key.now d found) more)
        depth reader.old reader.new)
        (IfNoJson (valued depth reader.old ≡ None)) }
{
    if is_key(key, "labels") {
        let labels = read_labels(alloc, reader, depth)?;
        Ok(Parts {
            labels,
            samples: parts.samples,
        })
    } else if is_key(key, "samples") {
        let samples = read_samples(alloc, reader, depth)?;
        Ok(Parts {
            labels: parts.labels,
            samples,
        })
    } else {
        skip(reader, depth)?;
        Ok(parts)
    }
}
