// What a query comes to over parts.
ghost use Rattle.std.specs.Prelude.{◌≡◌, ◌+◌, ◌<◌, ◌≤◌, ⊤, IfOk, IsTrue, MatchOption};
ghost use Rattle.std.specs.List.{All};
ghost use Rattle.profile_model.specs.Limits.{total_bound};
ghost use Rattle.profile_model.specs.Pushes.{profiles_total};
ghost use Rattle.profile_model.specs.Sums.{total_of};
ghost use Rattle.query_merge.specs.Grid.{most_time};
ghost use Rattle.query_merge.specs.Rows.{profiles_of};

use crate::stopped;
use profile_model::{LabelSet, MAX_TOTAL, Name, ProfileType, SERVICE_LABEL, StackSums};
use query_merge::{LabelLists, MAX_TIME_MS, Merge, Points, Series};
use segment_file::{Part, Row};
use selector::Query;
use std::alloc::Global;
use std::io;

/// Whose values are added up, of all services.
const KIND: &str = "process_cpu:samples:count:cpu:nanoseconds";

/// The first of the points in time, and the seconds from one to the next.
const START_MS: u64 = 1_700_000_000_000;

const STEP: u64 = 15;

pub(crate) fn kind(alloc: Global) -> io::Result<ProfileType> {
    match ProfileType::read(alloc, KIND) {
        Ok(kind) => Ok(kind),
        Err(refused) => Err(stopped(alloc, refused)),
    }
}

fn query(alloc: Global) -> io::Result<Query> {
    match Query::read(alloc, KIND) {
        Ok(query) => Ok(query),
        Err(refused) => Err(stopped(alloc, refused)),
    }
}

// What is left of the room when the rows' values are taken from it; none where they are more.
fn room_after(room: u64, rows: &[Row]) -> Option<u64>
    ensures { MatchOption result ⊤ (λ rest. rest + profiles_total (profiles_of rows.now) ≡ room) }
{
    let mut rest = room;
    for row in rows {
        rest = rest.checked_sub(row.profile.values.total())?;
    }
    Some(rest)
}

fn too_much() -> io::Error {
    io::Error::other("the values come to more than a tenant may keep")
}

// ---- sums of stacks

pub(crate) fn merged(alloc: Global, parts: &[Part]) -> io::Result<StackSums> {
    let mut merge = Merge::new(alloc, query(alloc)?);
    let mut room = MAX_TOTAL;
    for part in parts {
        room = add_sums(&mut merge, room, part)?;
    }
    Ok(merge.stacks()?)
}

// The room is what values may still come to.
fn add_sums(merge: &mut Merge, room: u64, part: &Part) -> io::Result<u64>
    requires { total_of merge.old.sums + room < total_bound }
    ensures { IfOk result (λ rest. total_of merge.new.sums + rest < total_bound) }
{
    let Some(rest) = room_after(room, &part.rows) else {
        return Err(too_much());
    };
    merge.add(part)?;
    Ok(rest)
}

// ---- values over time

pub(crate) fn series(alloc: Global, parts: &[Part]) -> io::Result<Vec<Series>> {
    let mut points = Points::new(alloc, query(alloc)?, START_MS, STEP, service(alloc)?);
    let mut room = MAX_TOTAL;
    for part in parts {
        room = add_points(&mut points, room, part)?;
    }
    Ok(points.series()?)
}

// By which labels values are grouped.
fn service(alloc: Global) -> io::Result<Vec<Name>> {
    let mut names = Vec::new(alloc);
    names.push(Name::from_text(alloc, SERVICE_LABEL)?)?;
    Ok(names)
}

fn add_points(points: &mut Points, room: u64, part: &Part) -> io::Result<u64>
    requires { points.old.held.total + room < total_bound }
    ensures { IfOk result (λ rest. points.new.held.total + rest < total_bound) }
{
    let Some(rest) = room_after(room, &part.rows) else {
        return Err(too_much());
    };
    if !are_early(&part.rows) {
        return Err(io::Error::other("a profile's time is after the year 9999"));
    }
    points.add(part)?;
    Ok(rest)
}

fn are_early(rows: &[Row]) -> bool
    ensures { IsTrue result → All (λ row. row.profile.time_ms ≤ most_time) rows.now }
{
    rows.iter().all(|row| row.profile.time_ms <= MAX_TIME_MS)
}

// ---- label sets

/// Of all rows.
pub(crate) fn label_sets(alloc: Global, parts: &[Part]) -> io::Result<Vec<LabelSet>> {
    let mut lists = LabelLists::new(alloc, Vec::new(alloc));
    for part in parts {
        lists.add(part)?;
    }
    Ok(lists.sets()?)
}
