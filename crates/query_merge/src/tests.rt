// Rows in two parts, added in both orders, and what they come to.
ghost use Rattle.std.specs.Prelude.{◌≡◌, ◌+◌, ◌≤◌, ◌^◌, IfOk, IsTrue, Ok, OnOk};
ghost use Rattle.std.specs.List.{All};
ghost use Rattle.profile_model.specs.LabelSets.{AreProfileLabels};
ghost use Rattle.profile_model.specs.Pushes.{profiles_total};
ghost use Rattle.profile_model.specs.Sums.{total_of};
ghost use Rattle.selector.specs.Read.{IsReadQuery};
ghost use Rattle.query_merge.specs.Grid.{most_time};
ghost use Rattle.query_merge.specs.Rows.{profiles_of};

use super::*;
use profile_model::{LabelSet, Name, Profile, ProfileType, Stack, StackSums};
use segment_file::{Part, Row};
use selector::{Query, Selector};
use std::alloc::Global;
use std::sync::ArcSlice;
use std::test::Fail;

const CPU: &str = "process_cpu:samples:count:cpu:nanoseconds";

const HEAP: &str = "memory:space:bytes:space:bytes";

// The first of the times, and what all values of a test's part stay within.
const START: u64 = 1_700_000_000_000;

const MAX_VALUES: u64 = 1_000_000;

// A row: the service, the type, the milliseconds after the first time, and a stack, its frames between `;`, with its value;
// none where it is 0.
type Sample = (&'static str, &'static str, u64, &'static str, u64);

const EARLY: [Sample; 3] = [
    ("shop", CPU, 0, "a", 1),
    ("bank", CPU, 10_000, "b", 2),
    ("shop", HEAP, 5_000, "a", 64),
];

const LATE: [Sample; 3] = [
    ("shop", CPU, 15_000, "b", 4),
    ("shop", CPU, 20_000, "a", 8),
    ("till", CPU, 31_000, "a", 0),
];

const ONCE: [Sample; 3] = [
    ("app", CPU, 0, "main", 2),
    ("app", CPU, 0, "main;a", 3),
    ("app", CPU, 0, "main;b", 5),
];

fn names(alloc: Global, text: &str) -> Result<Vec<Name>, Fail> {
    let mut names = Vec::new(alloc);
    for name in text.split(';') {
        names.push(Name::from_text(alloc, name)?)?;
    }
    Ok(names)
}

fn stack(alloc: Global, frames: &str) -> Result<Stack, Fail> {
    let names = names(alloc, frames)?;
    Ok(Stack::from_frames(ArcSlice::from_vec(names)?)?)
}

fn sums(alloc: Global, frames: &str, value: u64) -> Result<StackSums, Fail> {
    let mut sums = StackSums::new(alloc);
    sums.add(stack(alloc, frames)?, value)?;
    Ok(sums)
}

fn labels(alloc: Global, service: &str) -> Result<LabelSet, Fail>
    ensures { IfOk result AreProfileLabels }
{
    let mut pairs = Vec::new(alloc);
    for (name, value) in [("service_name", service), ("__name__", "own")] {
        pairs.push((
            Name::from_text(alloc, name)?,
            Name::from_text(alloc, value)?,
        ))?;
    }
    Ok(LabelSet::from_pairs(alloc, &pairs)?)
}

fn profile(alloc: Global, sample: &Sample) -> Result<Profile, Fail> {
    let pairs = labels(alloc, sample.0)?;
    let mut profile = Profile {
        labels: pairs,
        kind: ProfileType::read(alloc, sample.1)?,
        time_ms: START.saturating_add(sample.2),
        values: StackSums::new(alloc),
    };
    profile.values = sums(alloc, sample.3, sample.4)?;
    Ok(profile)
}

fn part(alloc: Global, samples: &[Sample]) -> Result<Part, Fail> {
    let mut rows = Vec::new(alloc);
    for sample in samples {
        rows.push(Row {
            push: 0,
            place: 0,
            profile: profile(alloc, sample)?,
        })?;
    }
    Ok(Part {
        from: 0,
        until: 1,
        rows,
    })
}

fn are_light(rows: &[Row]) -> bool
    ensures { IsTrue result → profiles_total (profiles_of rows.now) ≤ 2 ^ 20 }
{
    let mut total: u64 = 0;
    for row in rows {
        let more = row.profile.values.total();
        if more > MAX_VALUES - total {
            return false;
        }
        total += more;
    }
    true
}

fn are_early(rows: &[Row]) -> bool
    ensures { IsTrue result → All (λ row. row.profile.time_ms ≤ most_time) rows.now }
{
    rows.iter().all(|row| row.profile.time_ms <= MAX_TIME_MS)
}

// ---- spans of time

fn span_of(alloc: Global, parts: &[&[Sample]]) -> Result<Option<(u64, u64)>, Fail> {
    let mut stats = Stats::new();
    for samples in parts {
        stats.add(&part(alloc, samples)?);
    }
    Ok(stats.span())
}

#[test]
fn a_span_is_from_the_oldest_to_the_newest(rt: HostRuntime) -> Result<(), Fail> {
    let alloc = rt.alloc();
    let whole = Some((START, 1_700_000_031_000));
    assert_eq!(rt; span_of(alloc, &[&EARLY, &LATE])?, whole);
    assert_eq!(rt; span_of(alloc, &[&LATE, &EARLY])?, whole);
    assert_eq!(rt; span_of(alloc, &[&ONCE, &[]])?, Some((START, START)));
    assert_eq!(rt; span_of(alloc, &[&[], &[]])?, None);
    Ok(())
}

// ---- types

fn types_of(alloc: Global, parts: &[&[Sample]]) -> Result<Vec<ProfileType>, Fail> {
    let mut types = Types::new(alloc);
    for samples in parts {
        types.add(&part(alloc, samples)?)?;
    }
    Ok(types.list()?)
}

fn is_type(alloc: Global, kind: &ProfileType, text: &str) -> Result<bool, Fail> {
    let expected = ProfileType::read(alloc, text)?;
    Ok(*kind == expected)
}

fn lists_types(alloc: Global, parts: &[&[Sample]], expected: &[&str]) -> Result<bool, Fail> {
    let types = types_of(alloc, parts)?;
    let mut same = types.len() == expected.len();
    for (kind, text) in types.iter().zip(expected) {
        same = same && is_type(alloc, kind, text)?;
    }
    Ok(same)
}

#[test]
fn types_are_listed_once_ascending(rt: HostRuntime) -> Result<(), Fail> {
    let alloc = rt.alloc();
    assert!(rt; lists_types(alloc, &[&EARLY, &LATE], &[HEAP, CPU])?);
    assert!(rt; lists_types(alloc, &[&LATE, &EARLY, &LATE], &[HEAP, CPU])?);
    assert!(rt; lists_types(alloc, &[&LATE, &[], &LATE], &[CPU])?);
    assert!(rt; lists_types(alloc, &[&ONCE], &[CPU])?);
    assert!(rt; lists_types(alloc, &[&[], &[]], &[])?);
    Ok(())
}

// ---- sums of stacks

fn add_part(merge: &mut Merge, part: &Part) -> Result<(), Fail>
    requires { total_of merge.old.sums ≤ 2 ^ 30 }
    ensures total { OnOk result (total_of merge.new.sums ≤ total_of merge.old.sums + 2 ^ 20) }
    ensures query { merge.new.query ≡ merge.old.query }
{
    if are_light(&part.rows) {
        merge.add(part)?;
    }
    Ok(())
}

fn add_to_merge(alloc: Global, merge: &mut Merge, samples: &[Sample]) -> Result<(), Fail>
    requires { total_of merge.old.sums ≤ 2 ^ 30 }
    ensures total { OnOk result (total_of merge.new.sums ≤ total_of merge.old.sums + 2 ^ 20) }
    ensures query { merge.new.query ≡ merge.old.query }
{
    add_part(merge, &part(alloc, samples)?)
}

fn merge_of(alloc: Global, query: &str) -> Result<Merge, Fail>
    ensures query { IfOk result (λ merge. IsReadQuery query.now (Ok merge.query)) }
    ensures total { IfOk result (λ merge. total_of merge.sums ≤ 0) }
{
    Ok(Merge::new(alloc, Query::read(alloc, query)?))
}

fn added(
    alloc: Global,
    query: &str,
    first: &[Sample],
    second: &[Sample],
) -> Result<StackSums, Fail> {
    let mut merge = merge_of(alloc, query)?;
    add_to_merge(alloc, &mut merge, first)?;
    add_to_merge(alloc, &mut merge, second)?;
    Ok(merge.stacks()?)
}

fn is_stack(stack: &Stack, expected: &str) -> bool {
    let mut frames = stack.frames().iter();
    let mut same = true;
    for expected in expected.split(';') {
        same = match frames.next() {
            Some(frame) => same && frame.as_str() == expected,
            None => false,
        };
    }
    same && frames.next().is_none()
}

// A stack, its frames between `;`, and its value.
type Sum = (&'static str, u64);

fn are_sums(sums: &StackSums, expected: &[Sum]) -> bool {
    let mut same = sums.len() == expected.len();
    for ((stack, value), (frames, number)) in sums.iter().zip(expected) {
        same = same && is_stack(stack, frames) && *value == *number;
    }
    same
}

fn adds_up(
    alloc: Global,
    query: &str,
    first: &[Sample],
    second: &[Sample],
    expected: &[Sum],
) -> Result<bool, Fail> {
    let sums = added(alloc, query, first, second)?;
    Ok(are_sums(&sums, expected))
}

#[test]
fn stacks_of_the_querys_type_that_match_are_summed(rt: HostRuntime) -> Result<(), Fail> {
    let alloc = rt.alloc();
    let all = [("a", 9), ("b", 6)];
    assert!(rt; adds_up(alloc, CPU, &EARLY, &LATE, &all)?);
    assert!(rt; adds_up(alloc, CPU, &LATE, &EARLY, &all)?);
    assert!(rt; adds_up(alloc, HEAP, &EARLY, &LATE, &[("a", 64)])?);
    let once = [("main", 2), ("main;a", 3), ("main;b", 5)];
    assert!(rt; adds_up(alloc, CPU, &ONCE, &[], &once)?);
    let shop = "process_cpu:samples:count:cpu:nanoseconds{service_name=\"shop\"}";
    assert!(rt; adds_up(alloc, shop, &EARLY, &LATE, &[("a", 9), ("b", 4)])?);
    assert!(rt; adds_up(alloc, "a:b:c:d:e", &EARLY, &LATE, &[])?);
    Ok(())
}

// ---- stacks that share their frames

// A type and a value.
type Value = (&'static str, u64);

// Rows that have this one stack, so its frames stand in memory once.
fn part_of_stack(alloc: Global, stack: &Stack, values: &[Value]) -> Result<Part, Fail> {
    let mut part = part(alloc, &[])?;
    for (kind, value) in values {
        let mut profile = profile(alloc, &("shop", *kind, 0, "none", 0))?;
        profile.values.add(stack.clone()?, *value)?;
        part.rows.push(Row {
            push: 0,
            place: 0,
            profile,
        })?;
    }
    Ok(part)
}

fn shared_adds_up(
    alloc: Global,
    first: &[Value],
    second: &[Value],
    expected: u64,
) -> Result<bool, Fail> {
    let stack = stack(alloc, "a")?;
    let mut merge = merge_of(alloc, CPU)?;
    add_part(&mut merge, &part_of_stack(alloc, &stack, first)?)?;
    add_part(&mut merge, &part_of_stack(alloc, &stack, second)?)?;
    Ok(are_sums(&merge.stacks()?, &[("a", expected)]))
}

#[test]
fn each_value_of_a_shared_stack_counts_once(rt: HostRuntime) -> Result<(), Fail> {
    let alloc = rt.alloc();
    let many = [(CPU, 1), (HEAP, 64), (CPU, 2), (CPU, 4)];
    assert!(rt; shared_adds_up(alloc, &many, &[], 7)?);
    assert!(rt; shared_adds_up(alloc, &many, &many, 14)?);
    assert!(rt; shared_adds_up(alloc, &many[..2], &many[1..3], 3)?);
    Ok(())
}

// ---- label sets

fn selectors(alloc: Global, texts: &[&str]) -> Result<Vec<Selector>, Fail> {
    let mut selectors = Vec::new(alloc);
    for text in texts {
        selectors.push(Selector::read(alloc, text)?)?;
    }
    Ok(selectors)
}

fn lists_of(alloc: Global, texts: &[&str], parts: &[&[Sample]]) -> Result<LabelLists, Fail> {
    let mut lists = LabelLists::new(alloc, selectors(alloc, texts)?);
    for samples in parts {
        lists.add(&part(alloc, samples)?)?;
    }
    Ok(lists)
}

fn are_pairs(pairs: &[(Name, Name)], expected: &[(&str, &str)]) -> bool {
    let mut same = pairs.len() == expected.len();
    for ((name, value), (label, text)) in pairs.iter().zip(expected) {
        same = same && name.as_str() == *label && value.as_str() == *text;
    }
    same
}

// The name of a type, its text, and the service.
type Set = (&'static str, &'static str, &'static str);

fn is_set(pairs: &[(Name, Name)], expected: &Set) -> bool {
    are_pairs(
        pairs,
        &[
            ("__name__", expected.0),
            ("__profile_type__", expected.1),
            ("service_name", expected.2),
        ],
    )
}

fn lists_sets(alloc: Global, texts: &[&str], expected: &[Set]) -> Result<bool, Fail> {
    let sets = lists_of(alloc, texts, &[&EARLY, &LATE])?.sets()?;
    let mut same = sets.len() == expected.len();
    for (set, expected) in sets.iter().zip(expected) {
        same = same && is_set(set.pairs(), expected);
    }
    Ok(same)
}

#[test]
fn label_sets_tell_the_type_and_are_listed_once(rt: HostRuntime) -> Result<(), Fail> {
    let alloc = rt.alloc();
    let all = [
        ("memory", HEAP, "shop"),
        ("process_cpu", CPU, "bank"),
        ("process_cpu", CPU, "shop"),
        ("process_cpu", CPU, "till"),
    ];
    assert!(rt; lists_sets(alloc, &[], &all)?);
    let either = ["{service_name=\"bank\"}", "{__name__=\"memory\"}"];
    assert!(rt; lists_sets(alloc, &either, &all[..2])?);
    assert!(rt; lists_sets(alloc, &["{service_name=\"none\"}"], &[])?);
    Ok(())
}

fn are_names(names: &[Name], expected: &[&str]) -> bool {
    let mut same = names.len() == expected.len();
    for (name, text) in names.iter().zip(expected) {
        same = same && name.as_str() == *text;
    }
    same
}

fn lists_names(alloc: Global, samples: &[Sample], expected: &[&str]) -> Result<bool, Fail> {
    let names = lists_of(alloc, &[], &[samples])?.names()?;
    Ok(are_names(&names, expected))
}

fn lists_services(alloc: Global, samples: &[Sample], expected: &[&str]) -> Result<bool, Fail> {
    let values = lists_of(alloc, &[], &[samples])?.values("service_name")?;
    Ok(are_names(&values, expected))
}

fn lists_series(alloc: Global, samples: &[Sample], expected: &[&str]) -> Result<bool, Fail> {
    let series = lists_of(alloc, &[], &[samples])?.series(&["service_name"])?;
    let mut same = series.len() == expected.len();
    for (pairs, service) in series.iter().zip(expected) {
        same = same && are_pairs(pairs, &[("service_name", *service)]);
    }
    Ok(same)
}

#[test]
fn names_values_and_series_of_label_sets_are_listed(rt: HostRuntime) -> Result<(), Fail> {
    let alloc = rt.alloc();
    let names = ["__name__", "__profile_type__", "service_name"];
    assert!(rt; lists_names(alloc, &ONCE, &names)?);
    assert!(rt; lists_services(alloc, &ONCE, &["app"])?);
    assert!(rt; lists_services(alloc, &EARLY, &["bank", "shop"])?);
    assert!(rt; lists_series(alloc, &LATE, &["shop", "till"])?);
    Ok(())
}

// ---- values over time

fn add_to_points(alloc: Global, points: &mut Points, samples: &[Sample]) -> Result<(), Fail>
    requires { points.old.held.total ≤ 2 ^ 30 }
    ensures { OnOk result (points.new.held.total ≤ points.old.held.total + 2 ^ 20) }
{
    let part = part(alloc, samples)?;
    if are_light(&part.rows) && are_early(&part.rows) {
        points.add(&part)?;
    }
    Ok(())
}

fn series_of(
    alloc: Global,
    name: &str,
    first: &[Sample],
    second: &[Sample],
) -> Result<Vec<Series>, Fail> {
    let names = names(alloc, name)?;
    let mut points = Points::new(alloc, Query::read(alloc, CPU)?, START, 15, names);
    add_to_points(alloc, &mut points, first)?;
    add_to_points(alloc, &mut points, second)?;
    Ok(points.series()?)
}

// A group's labels, and its points.
type Group = (
    &'static [(&'static str, &'static str)],
    &'static [(u64, u64)],
);

fn is_group(one: &Series, expected: &Group) -> bool {
    are_pairs(one.labels.pairs(), expected.0) && one.points.as_slice() == expected.1
}

fn plots(
    alloc: Global,
    name: &str,
    first: &[Sample],
    second: &[Sample],
    expected: &[Group],
) -> Result<bool, Fail> {
    let series = series_of(alloc, name, first, second)?;
    let mut same = series.len() == expected.len();
    for (one, expected) in series.iter().zip(expected) {
        same = same && is_group(one, expected);
    }
    Ok(same)
}

const ROW: [Group; 1] = [(
    &[],
    &[
        (1_700_000_000_000, 1),
        (1_700_000_015_000, 6),
        (1_700_000_030_000, 8),
    ],
)];

const WHOLE: [Group; 1] = [(
    &[],
    &[
        (1_700_000_000_000, 1),
        (1_700_000_015_000, 6),
        (1_700_000_030_000, 8),
        (1_700_000_045_000, 0),
    ],
)];

const GROUPED: [Group; 3] = [
    (&[("service_name", "bank")], &[(1_700_000_015_000, 2)]),
    (
        &[("service_name", "shop")],
        &[
            (1_700_000_000_000, 1),
            (1_700_000_015_000, 4),
            (1_700_000_030_000, 8),
        ],
    ),
    (&[("service_name", "till")], &[(1_700_000_045_000, 0)]),
];

#[test]
fn profiles_count_at_the_first_point_that_is_not_before_them(rt: HostRuntime) -> Result<(), Fail> {
    let alloc = rt.alloc();
    assert!(rt; plots(alloc, "none", &EARLY, &LATE[..2], &ROW)?);
    assert!(rt; plots(alloc, "none", &EARLY, &LATE, &WHOLE)?);
    assert!(rt; plots(alloc, "__name__", &LATE, &EARLY, &WHOLE)?);
    assert!(rt; plots(alloc, "service_name", &EARLY, &LATE, &GROUPED)?);
    Ok(())
}

#[test]
fn points_are_at_most_366_days_apart_up_to_the_end_of_the_year_9999(rt: HostRuntime) {
    assert_eq!(rt; MAX_STEP, 366 * 24 * 60 * 60);
    assert_eq!(rt; MAX_TIME_MS, 253_402_300_799_999);
}

// ---- two merges

fn joins(
    alloc: Global,
    query: &str,
    first: &[Sample],
    second: &[Sample],
    expected: &[Sum],
) -> Result<bool, Fail> {
    let mut merge = merge_of(alloc, query)?;
    add_to_merge(alloc, &mut merge, first)?;
    let mut other = merge_of(alloc, query)?;
    add_to_merge(alloc, &mut other, second)?;
    merge.join(other)?;
    Ok(are_sums(&merge.stacks()?, expected))
}

#[test]
fn two_merges_of_a_query_are_joined(rt: HostRuntime) -> Result<(), Fail> {
    let alloc = rt.alloc();
    let early = [("a", 1), ("b", 2)];
    assert!(rt; joins(alloc, CPU, &EARLY, &LATE, &[("a", 9), ("b", 6)])?);
    assert!(rt; joins(alloc, CPU, &EARLY, &[], &early)?);
    assert!(rt; joins(alloc, CPU, &[], &EARLY, &early)?);
    Ok(())
}

#[test]
fn laws_take_no_step(_rt: HostRuntime) {
    rows_in_any_order();
    parts_are_rows();
    parts_stay_bounded();
    answers_are_told_once();
    points_are_first();
    one_query_of_a_text();
}
