// What no clause says: that each call succeeds with ample memory, what is gathered then from stores of several objects, and what
// a query answers over a disk that fails.
ghost use Rattle.std.specs.Prelude.{◌≡◌, ◌≤◌, false, IfOk, IsTrue, length};
ghost use Rattle.std.specs.List.{All};
ghost use Rattle.metastore_index.specs.Entries.{end_of};
ghost use Rattle.profile_model.specs.LabelSets.{AreProfileLabels};
ghost use Rattle.segment_file.specs.Laws.{IsLight};

use super::*;
use disk_trait::MemoryDisk;
use history_pass::{BlankSpine, Pass};
use profile_model::{
    LabelSet, MAX_WEIGHT, Name, PartAsk, Profile, ProfileType, Profiles as ProfileList, Push,
    Stack, StackSums, Tenant,
};
use query_merge::{LabelLists, Merge, Points, Series, Stats, Types};
use selector::{Query, Selector};
use shared_store::{Gate, Names, Profiles, Solo};
use std::alloc::Global;
use std::cell::Cell;
use std::marker::Brand;
use std::sync::ArcSlice;
use std::test::Fail;
use store_core::Store;
use tenant_books::{Limits, PushAsk};

const RECORDS: u64 = 8;

const CPU: &str = "process_cpu:samples:count:cpu:nanoseconds";

const HEAP: &str = "memory:space:bytes:space:bytes";

// A push with one profile: the tenant, the service, the type, the time, and a stack with its value, its frames between `;`.
type Sample = (
    &'static str,
    &'static str,
    &'static str,
    u64,
    &'static str,
    u64,
);

// The pushes of each object.
type Objects = &'static [&'static [Sample]];

const OBJECTS: Objects = &[
    &[
        ("t1", "shop", CPU, 100_000, "a", 1),
        ("t2", "shop", CPU, 101_000, "a", 1_000),
        ("t1", "bank", CPU, 110_000, "b", 2),
    ],
    &[("t2", "till", HEAP, 103_000, "c", 2_000)],
    &[
        ("t1", "shop", HEAP, 105_000, "a", 64),
        ("t1", "bank", CPU, 120_000, "b;a", 4),
        ("t1", "post", CPU, 121_000, "a", 8),
    ],
];

// What a query asks for: a tenant, and a window of time.
type Asked = (&'static str, u64, u64);

const LATE: u64 = 200_000;

// ---- stores

fn sums(alloc: Global, frames: &str, value: u64) -> Result<StackSums, Fail> {
    let mut names = Vec::new(alloc);
    for name in frames.split(';') {
        names.push(Name::from_text(alloc, name)?)?;
    }
    let mut sums = StackSums::new(alloc);
    sums.add(Stack::from_frames(ArcSlice::from_vec(names)?)?, value)?;
    Ok(sums)
}

fn labels(alloc: Global, service: &str) -> Result<LabelSet, Fail>
    ensures { IfOk result AreProfileLabels }
{
    let mut pairs = Vec::new(alloc);
    pairs.push((
        Name::from_text(alloc, "service_name")?,
        Name::from_text(alloc, service)?,
    ))?;
    Ok(LabelSet::from_pairs(alloc, &pairs)?)
}

fn profile(alloc: Global, sample: &Sample) -> Result<Profile, Fail> {
    let pairs = labels(alloc, sample.1)?;
    let mut profile = Profile {
        labels: pairs,
        kind: ProfileType::read(alloc, sample.2)?,
        time_ms: sample.3,
        values: StackSums::new(alloc),
    };
    profile.values = sums(alloc, sample.4, sample.5)?;
    Ok(profile)
}

fn tenant(alloc: Global, name: &str) -> Result<Tenant, Fail> {
    Ok(Tenant::read(alloc, name.as_bytes())?)
}

fn push_ask(alloc: Global, sample: &Sample) -> Result<PushAsk, Fail> {
    let profiles = ProfileList::one(alloc, profile(alloc, sample)?)?;
    let push = Push {
        tenant: tenant(alloc, sample.0)?,
        profiles,
    };
    Ok(PushAsk { push, asked: 0 })
}

fn are_light(asks: &[PushAsk]) -> bool
    ensures { IsTrue result → All (λ ask. IsLight ask.push) asks.now }
{
    asks.iter().all(|ask| ask.push.weight() <= MAX_WEIGHT)
}

fn settle(alloc: Global, store: &mut Store<MemoryDisk>, samples: &[Sample]) -> Result<(), Fail> {
    let mut asks = Vec::new(alloc);
    for sample in samples {
        asks.push(push_ask(alloc, sample)?)?;
    }
    if asks.len() <= 64 && are_light(&asks) {
        store.settle(alloc, asks)?;
    }
    Ok(())
}

// A store with these objects, over a disk that fails at these calls.
fn filled(alloc: Global, failing: Vec<u64>, objects: Objects) -> Result<Store<MemoryDisk>, Fail> {
    let disk = MemoryDisk::with(alloc, Vec::new(alloc), failing);
    let mut store = match Store::open(alloc, disk, Limits::usual(alloc), RECORDS) {
        Ok(store) => store,
        Err(refused) => return Err(Fail::from(refused.cause)),
    };
    for samples in objects {
        settle(alloc, &mut store, samples)?;
    }
    Ok(store)
}

// ---- reading

// It keeps the numbers of the parts that it was told of as digits.
#[derive(Drop)]
struct Digits {
    told: Cell<u64>,
}

impl Gate for Digits {
    fn between_parts(&self, connection: u64, part: u64) {
        if connection == 7 {
            let told = self.told.get().saturating_mul(10);
            self.told.set(told.saturating_add(part));
        }
    }

    fn settled(&self, _pushes: u64) {}

    fn compacted(&self, _lo: u64, _hi: u64) {}
}

// What a reading answered, the parts that its gate was told of, and how many calls its disk has had then.
#[derive(Drop)]
struct Outcome {
    answer: Result<(), ReadingFault>,
    parts: u64,
    calls: u64,
}

fn read_along<J: Names, P: Profiles<J>, S: Gather>(
    alloc: Global,
    profiles: &mut P,
    pass: &mut Pass<J>,
    ask: PartAsk,
    gathered: &mut S,
    gate: &Digits,
) -> Result<(), ReadingFault>
    requires none { S.total gathered.old ≡ 0 }
{
    match profiles.begin(pass, ask, 0) {
        Ok(mut cursor) => read_all(alloc, profiles, pass, &mut cursor, gathered, gate, 7),
        Err(_) => Ok(()),
    }
}

fn read_as<J: Names, S: Gather>(
    alloc: Global,
    store: Store<MemoryDisk>,
    blank: BlankSpine,
    ask: PartAsk,
    gathered: &mut S,
) -> Outcome
    requires name { blank ≡ J.spine }
    requires tells { ¬ J.run.tells }
    requires records { store.records ≡ J.run.records }
    requires limits { store.limits ≡ J.run.limits }
    requires long { length J.run.start.history ≡ end_of store.index.entries }
    requires none { S.total gathered.old ≡ 0 }
{
    let mut solo: Solo<MemoryDisk, J> = Solo::new(store, blank);
    let mut pass = solo.pass();
    let gate = Digits { told: Cell::new(0) };
    let answer = read_along(alloc, &mut solo, &mut pass, ask, gathered, &gate);
    Outcome {
        answer,
        parts: gate.told.get(),
        calls: solo.into_store().close().calls(),
    }
}

fn part_ask(alloc: Global, asked: &Asked) -> Result<PartAsk, Fail> {
    Ok(PartAsk {
        tenant: tenant(alloc, asked.0)?,
        from_ms: asked.1,
        until_ms: asked.2,
    })
}

fn read<S: Gather>(
    alloc: Global,
    store: Store<MemoryDisk>,
    asked: &Asked,
    gathered: &mut S,
) -> Result<Outcome, Fail>
    requires none { S.total gathered.old ≡ 0 }
{
    let ask = part_ask(alloc, asked)?;
    let blank = BlankSpine::new(alloc)?;
    Ok(read_as::<Brand, S>(alloc, store, blank, ask, gathered))
}

fn gather<S: Gather>(
    alloc: Global,
    objects: Objects,
    asked: &Asked,
    gathered: &mut S,
) -> Result<(), Fail>
    requires none { S.total gathered.old ≡ 0 }
{
    let store = filled(alloc, Vec::new(alloc), objects)?;
    Ok(read(alloc, store, asked, gathered)?.answer?)
}

// ---- sums of stacks

fn told_stack(alloc: Global, stack: &Stack) -> Result<String, Fail> {
    let mut text = String::new(alloc);
    for frame in stack.frames() {
        text.push_str(format!(in alloc; "{};", frame.as_str())?.as_str())?;
    }
    Ok(text)
}

fn told_sums(alloc: Global, sums: &StackSums) -> Result<String, Fail> {
    let mut text = String::new(alloc);
    for (stack, value) in sums.iter() {
        let frames = told_stack(alloc, stack)?;
        text.push_str(format!(in alloc; "{frames} {value}, ")?.as_str())?;
    }
    Ok(text)
}

fn stacks(alloc: Global, objects: Objects, query: &str, asked: &Asked) -> Result<String, Fail> {
    let mut merge = Merge::new(alloc, Query::read(alloc, query)?);
    gather(alloc, objects, asked, &mut merge)?;
    told_sums(alloc, &merge.stacks()?)
}

#[test]
fn stacks_are_summed_over_all_parts(rt: HostRuntime) -> Result<(), Fail> {
    let alloc = rt.alloc();
    for (query, asked, want) in [
        (CPU, ("t1", 0, LATE), "a; 9, b; 2, b;a; 4, "),
        (CPU, ("t1", 100_000, 120_000), "a; 1, b; 2, b;a; 4, "),
        (CPU, ("t1", 100_001, 119_999), "b; 2, "),
        (CPU, ("t1", 122_000, LATE), ""),
        (CPU, ("t2", 0, LATE), "a; 1000, "),
        (CPU, ("t3", 0, LATE), ""),
        (HEAP, ("t1", 0, u64::MAX), "a; 64, "),
    ] {
        assert_eq!(rt; stacks(alloc, OBJECTS, query, &asked)?.as_str(), want);
        assert_eq!(rt; stacks(alloc, &[], query, &asked)?.as_str(), "");
    }
    Ok(())
}

// ---- values over time

fn told_series(alloc: Global, series: &[Series]) -> Result<String, Fail> {
    let mut text = String::new(alloc);
    for one in series {
        for (_, value) in one.labels.pairs() {
            text.push_str(format!(in alloc; "{}:", value.as_str())?.as_str())?;
        }
        for (point, value) in &one.points {
            text.push_str(format!(in alloc; " {point} {value},")?.as_str())?;
        }
    }
    Ok(text)
}

fn series(alloc: Global, objects: Objects, by: &str, asked: &Asked) -> Result<String, Fail> {
    let mut names = Vec::new(alloc);
    names.push(Name::from_text(alloc, by)?)?;
    let mut points = Points::new(alloc, Query::read(alloc, CPU)?, 100_000, 15, names);
    gather(alloc, objects, asked, &mut points)?;
    told_series(alloc, &points.series()?)
}

#[test]
fn values_are_summed_at_points_over_all_parts(rt: HostRuntime) -> Result<(), Fail> {
    let alloc = rt.alloc();
    for (by, asked, want) in [
        ("none", ("t1", 0, LATE), " 100000 1, 115000 2, 130000 12,"),
        ("none", ("t1", 101_000, 120_000), " 115000 2, 130000 4,"),
        (
            "service_name",
            ("t1", 0, LATE),
            "bank: 115000 2, 130000 4,post: 130000 8,shop: 100000 1,",
        ),
        ("service_name", ("t2", 0, LATE), "shop: 115000 1000,"),
        ("none", ("t3", 0, LATE), ""),
    ] {
        assert_eq!(rt; series(alloc, OBJECTS, by, &asked)?.as_str(), want);
        assert_eq!(rt; series(alloc, &[], by, &asked)?.as_str(), "");
    }
    Ok(())
}

// A push at a time for which there are no points.
const BEYOND: Objects = &[&[("t1", "shop", CPU, 253_402_300_800_000, "a", 1)]];

fn beyond(alloc: Global, asked: &Asked) -> Result<Outcome, Fail> {
    let names = Vec::new(alloc);
    let mut points = Points::new(alloc, Query::read(alloc, CPU)?, 0, 15, names);
    let store = filled(alloc, Vec::new(alloc), BEYOND)?;
    read(alloc, store, asked, &mut points)
}

#[test]
fn a_time_for_which_there_are_no_points_is_refused(rt: HostRuntime) -> Result<(), Fail> {
    let alloc = rt.alloc();
    let over = beyond(alloc, &("t1", 0, 253_402_300_800_000))?;
    assert_eq!(rt; over.answer, Err(ReadingFault::Damaged));
    let within = beyond(alloc, &("t1", 0, 253_402_300_799_999))?;
    assert_eq!(rt; within.answer, Ok(()));
    Ok(())
}

// ---- label sets

fn told_names(alloc: Global, names: &[Name]) -> Result<String, Fail> {
    let mut text = String::new(alloc);
    for name in names {
        text.push_str(format!(in alloc; "{}, ", name.as_str())?.as_str())?;
    }
    Ok(text)
}

fn services(alloc: Global, objects: Objects, text: &str, asked: &Asked) -> Result<String, Fail> {
    let mut selectors = Vec::new(alloc);
    selectors.push(Selector::read(alloc, text)?)?;
    let mut lists = LabelLists::new(alloc, selectors);
    gather(alloc, objects, asked, &mut lists)?;
    told_names(alloc, &lists.values("service_name")?)
}

#[test]
fn label_sets_of_all_parts_are_listed(rt: HostRuntime) -> Result<(), Fail> {
    let alloc = rt.alloc();
    let heap = "{__name__=\"memory\"}";
    for (text, asked, want) in [
        ("{}", ("t1", 0, LATE), "bank, post, shop, "),
        ("{}", ("t1", 101_000, 120_000), "bank, shop, "),
        (heap, ("t1", 0, LATE), "shop, "),
        (heap, ("t2", 0, LATE), "till, "),
        ("{}", ("t3", 0, LATE), ""),
    ] {
        assert_eq!(rt; services(alloc, OBJECTS, text, &asked)?.as_str(), want);
        assert_eq!(rt; services(alloc, &[], text, &asked)?.as_str(), "");
    }
    Ok(())
}

// ---- types

fn types(alloc: Global, objects: Objects, asked: &Asked) -> Result<String, Fail> {
    let mut types = Types::new(alloc);
    gather(alloc, objects, asked, &mut types)?;
    let mut text = String::new(alloc);
    for kind in types.list()? {
        text.push_str(format!(in alloc; "{kind}, ")?.as_str())?;
    }
    Ok(text)
}

#[test]
fn types_of_all_parts_are_listed(rt: HostRuntime) -> Result<(), Fail> {
    let alloc = rt.alloc();
    let heap = "memory:space:bytes:space:bytes, ";
    let both = "memory:space:bytes:space:bytes, process_cpu:samples:count:cpu:nanoseconds, ";
    for (asked, want) in [
        (("t1", 0, LATE), both),
        (("t1", 101_000, 109_000), heap),
        (("t2", 0, LATE), both),
        (("t2", 102_000, LATE), heap),
        (("t3", 0, LATE), ""),
    ] {
        assert_eq!(rt; types(alloc, OBJECTS, &asked)?.as_str(), want);
        assert_eq!(rt; types(alloc, &[], &asked)?.as_str(), "");
    }
    Ok(())
}

// ---- spans of time

fn span(alloc: Global, objects: Objects, asked: &Asked) -> Result<Option<(u64, u64)>, Fail> {
    let mut stats = Stats::new();
    gather(alloc, objects, asked, &mut stats)?;
    Ok(stats.span())
}

#[test]
fn a_span_is_that_of_all_parts(rt: HostRuntime) -> Result<(), Fail> {
    let alloc = rt.alloc();
    for (asked, want) in [
        (("t1", 0, LATE), Some((100_000, 121_000))),
        (("t1", 101_000, 120_000), Some((105_000, 120_000))),
        (("t2", 0, LATE), Some((101_000, 103_000))),
        (("t3", 0, LATE), None),
    ] {
        assert_eq!(rt; span(alloc, OBJECTS, &asked)?, want);
        assert_eq!(rt; span(alloc, &[], &asked)?, None);
    }
    Ok(())
}

// ---- the gate, and faults of the disk

const ALL: Asked = ("t1", 0, LATE);

// A reading of all objects over a disk that fails at these calls.
fn read_over(alloc: Global, failing: Vec<u64>) -> Result<Outcome, Fail> {
    let store = filled(alloc, failing, OBJECTS)?;
    let mut stats = Stats::new();
    read(alloc, store, &ALL, &mut stats)
}

#[test]
fn the_gate_is_called_behind_each_part(rt: HostRuntime) -> Result<(), Fail> {
    let alloc = rt.alloc();
    assert_eq!(rt; read_over(alloc, Vec::new(alloc))?.parts, 123);
    Ok(())
}

#[test]
fn a_disk_that_fails_while_a_query_reads_is_told(rt: HostRuntime) -> Result<(), Fail> {
    let alloc = rt.alloc();
    let before = filled(alloc, Vec::new(alloc), OBJECTS)?.close().calls();
    let after = read_over(alloc, Vec::new(alloc))?.calls;
    assert!(rt; before < after);
    for call in before..after {
        let mut failing = Vec::new(alloc);
        failing.push(call)?;
        assert_eq!(rt;
            read_over(alloc, failing)?.answer,
            Err(ReadingFault::Disk(1)),
            "call {call}"
        );
    }
    Ok(())
}
