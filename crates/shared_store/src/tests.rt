// What no clause says: that each call succeeds with ample memory, where parts end, and what a disk leaves that fails while a
// query reads.
ghost use Rattle.std.specs.Prelude.{◌≡◌, ◌≤◌, IfOk, IsTrue, length};
ghost use Rattle.std.specs.List.{All};
ghost use Rattle.metastore_index.specs.Entries.{end_of};
ghost use Rattle.profile_model.specs.LabelSets.{AreProfileLabels};
ghost use Rattle.segment_file.specs.Laws.{IsLight};
ghost use Rattle.shared_store.specs.Cursors.{IsOn};

use super::*;
use disk_trait::{Disk, MemoryDisk};
use history_pass::{BlankSpine, Pass};
use profile_model::{
    LabelSet, MAX_WEIGHT, Name, PartAsk, Profile, ProfileType, Profiles as ProfileList, Push,
    Stack, StackSums, Tenant,
};
use segment_file::Part;
use std::alloc::Global;
use std::marker::Brand;
use std::sync::ArcSlice;
use std::test::Fail;
use store_core::Store;
use tenant_books::{Limits, PushAsk, Verdict};

pub(crate) const RECORDS: u8 = 8;

// What all values of t1 may come to.
const LIMIT: u64 = 20;

// A query asks for what is from here on and no later than there.
const FROM: u64 = 100;

const UNTIL: u64 = 104;

fn labels(alloc: Global) -> Result<LabelSet, Fail>
    ensures { IfOk result AreProfileLabels }
{
    let pairs = Vec::new(alloc);
    Ok(LabelSet::from_pairs(alloc, &pairs)?)
}

fn tenant(alloc: Global, name: &str) -> Result<Tenant, Fail> {
    Ok(Tenant::read(alloc, name.as_bytes())?)
}

fn sums(alloc: Global, value: u64) -> Result<StackSums, Fail> {
    let mut names = Vec::new(alloc);
    names.push(Name::from_text(alloc, "main")?)?;
    let stack = Stack::from_frames(ArcSlice::from_vec(names)?)?;
    let mut sums = StackSums::new(alloc);
    sums.add(stack, value)?;
    Ok(sums)
}

// A push of a tenant with one profile of this time and value.
fn ask(alloc: Global, name: &str, time_ms: u64, value: u64, asked: u64) -> Result<PushAsk, Fail> {
    let profile = Profile {
        labels: labels(alloc)?,
        kind: ProfileType::read(alloc, "cpu:samples:count::")?,
        time_ms,
        values: sums(alloc, value)?,
    };
    let profiles = ProfileList::one(alloc, profile)?;
    let push = Push {
        tenant: tenant(alloc, name)?,
        profiles,
    };
    Ok(PushAsk { push, asked })
}

fn are_light(asks: &[PushAsk]) -> bool
    ensures { IsTrue result → All (λ ask. IsLight ask.push) asks.now }
{
    asks.iter().all(|ask| ask.push.weight() <= MAX_WEIGHT)
}

// Settles pushes as one object.
fn settle(alloc: Global, store: &mut Store<MemoryDisk>, rows: &[(&str, u64)]) -> Result<(), Fail> {
    let mut asks = Vec::new(alloc);
    for (name, time_ms) in rows {
        asks.push(ask(alloc, name, *time_ms, 1, 0)?)?;
    }
    if asks.len() <= 64 && are_light(&asks) {
        store.settle(alloc, asks)?;
    }
    Ok(())
}

fn limits(alloc: Global) -> Result<Limits, Fail> {
    let mut limits = Limits::usual(alloc);
    limits.set(b"t1", LIMIT)?;
    Ok(limits)
}

// A store with an object for each of these.
fn filled(
    alloc: Global,
    failing: Vec<u64>,
    records: u8,
    objects: &[&[(&str, u64)]],
) -> Result<Store<MemoryDisk>, Fail> {
    let disk = MemoryDisk::with(alloc, Vec::new(alloc), failing);
    let mut store = match Store::open(alloc, disk, limits(alloc)?, u64::from(records)) {
        Ok(store) => store,
        Err(refused) => return Err(Fail::from(refused.cause)),
    };
    for rows in objects {
        settle(alloc, &mut store, rows)?;
    }
    Ok(store)
}

// What a connection asks for: that one push or several are kept, each of a tenant, of a value, and where the tenant has so many
// pushes; or what a tenant has, where it has so many.
#[derive(Clone, Copy)]
pub(crate) enum Line<'a> {
    Push(&'a str, u64, u64),
    Flush(&'a [(&'a str, u64, u64)]),
    Query(&'a str, u64),
}

#[derive(Drop)]
enum Act {
    Push(PushAsk),
    Flush(Vec<PushAsk>),
    Query(PartAsk, u64),
}

// Pushes of these tenants, with these values, that ask for so many pushes.
fn asks(alloc: Global, rows: &[(&str, u64, u64)]) -> Result<Vec<PushAsk>, Fail> {
    let mut asks = Vec::new(alloc);
    for (name, value, asked) in rows {
        asks.push(ask(alloc, name, FROM, *value, *asked)?)?;
    }
    Ok(asks)
}

fn acts(alloc: Global, lines: &[Line]) -> Result<Vec<Act>, Fail> {
    let mut acts = Vec::new(alloc);
    for line in lines {
        let act = match line {
            Line::Push(name, value, asked) => Act::Push(ask(alloc, name, FROM, *value, *asked)?),
            Line::Flush(rows) => Act::Flush(asks(alloc, rows)?),
            Line::Query(name, asked) => {
                let query = PartAsk {
                    tenant: tenant(alloc, name)?,
                    from_ms: FROM,
                    until_ms: UNTIL,
                };
                Act::Query(query, *asked)
            }
        };
        acts.push(act)?;
    }
    Ok(acts)
}

// The pushes of a part's rows.
fn told_of(alloc: Global, part: &Part) -> Result<String, Fail> {
    let mut text = format!(in alloc; " {}-{}:", part.from, part.until)?;
    for row in &part.rows {
        text.push_str(format!(in alloc; " {}", row.push)?.as_str())?;
    }
    Ok(text)
}

fn read_on<J: Names, P: Profiles<J>>(
    alloc: Global,
    profiles: &mut P,
    pass: &mut Pass<J>,
    cursor: &mut Cursor,
    text: &mut String,
) -> Result<(), Fail>
    requires { IsOn pass.old.list cursor.old }
{
    for _ in 0..8 {
        match profiles.next_part(alloc, pass, cursor) {
            Ok(Some(part)) => text.push_str(told_of(alloc, &part)?.as_str())?,
            Ok(None) => return Ok(()),
            Err(_) => text.push_str(" fault")?,
        }
    }
    Ok(())
}

// The front of a query, and then its parts.
fn read_all<J: Names, P: Profiles<J>>(
    alloc: Global,
    profiles: &mut P,
    pass: &mut Pass<J>,
    query: PartAsk,
    asked: u64,
) -> Result<String, Fail> {
    match profiles.begin(pass, query, asked) {
        Err(ahead) => Ok(format!(in alloc; "{} of {}", ahead.asked, ahead.front)?),
        Ok(mut cursor) => {
            let mut text = format!(in alloc; "{}:", cursor.front)?;
            read_on(alloc, profiles, pass, &mut cursor, &mut text)?;
            Ok(text)
        }
    }
}

fn word(alloc: Global, settled: &Result<Verdict, Refusal>) -> Result<String, Fail> {
    Ok(match settled {
        Ok(Verdict::Kept(receipt)) => {
            format!(in alloc; "{}/{}", receipt.place(), receipt.front())?
        }
        Ok(Verdict::FrontAhead { asked, front }) => format!(in alloc; "{asked} of {front}")?,
        Ok(
            Verdict::OverLimit {
                kept,
                push,
                limit,
                front,
            },
        ) => format!(in alloc; "over {kept}+{push}/{limit}/{front}")?,
        Err(Refusal::Memory) => format!(in alloc; "memory")?,
        Err(Refusal::Full(records)) => format!(in alloc; "full {records}")?,
        Err(Refusal::Disk(count)) => format!(in alloc; "disk {count}")?,
    })
}

fn is_light(ask: &PushAsk) -> bool
    ensures { IsTrue result → IsLight ask.now.push }
{
    ask.push.weight() <= MAX_WEIGHT
}

fn flush<J: Names>(
    alloc: Global,
    solo: &mut Solo<MemoryDisk, J>,
    pass: &mut Pass<J>,
    asks: Vec<PushAsk>,
) -> Result<String, Fail> {
    let mut text = String::new(alloc);
    if asks.len() <= 64 && are_light(&asks) {
        for one in &solo.settle(alloc, pass, asks)? {
            text.push_str(word(alloc, one)?.as_str())?;
            text.push_str(" ")?;
        }
    }
    Ok(text)
}

fn answer<J: Names>(
    alloc: Global,
    solo: &mut Solo<MemoryDisk, J>,
    pass: &mut Pass<J>,
    act: Act,
) -> Result<String, Fail> {
    match act {
        Act::Push(ask) => {
            if !is_light(&ask) {
                return Ok(String::new(alloc));
            }
            word(alloc, &solo.settle_one(alloc, pass, ask))
        }
        Act::Flush(asks) => flush(alloc, solo, pass, asks),
        Act::Query(query, asked) => read_all(alloc, solo, pass, query, asked),
    }
}

// What a connection is told, and how many calls its disk has had then.
#[derive(Drop)]
pub(crate) struct Told {
    pub(crate) text: String,
    pub(crate) calls: u64,
}

fn told_as<J: Names>(
    alloc: Global,
    store: Store<MemoryDisk>,
    blank: BlankSpine,
    acts: Vec<Act>,
) -> Result<Told, Fail>
    requires name { blank ≡ J.spine }
    requires tells { ¬ J.run.tells }
    requires records { store.records ≡ J.run.records }
    requires limits { store.limits ≡ J.run.limits }
    requires long { length J.run.start.history ≡ end_of store.index.entries }
{
    let mut solo: Solo<MemoryDisk, J> = Solo::new(store, blank);
    let mut pass = solo.pass();
    let mut text = String::new(alloc);
    for act in acts {
        text.push_str(answer(alloc, &mut solo, &mut pass, act)?.as_str())?;
        text.push_str(";")?;
    }
    Ok(Told {
        text,
        calls: solo.into_store().close().calls(),
    })
}

fn told_by(alloc: Global, store: Store<MemoryDisk>, lines: &[Line]) -> Result<Told, Fail> {
    let acts = acts(alloc, lines)?;
    let blank = BlankSpine::new(alloc)?;
    told_as::<Brand>(alloc, store, blank, acts)
}

const OBJECTS: [&[(&str, u64)]; 3] = [
    &[("t1", 100), ("t2", 101), ("t1", 102)],
    &[("t2", 103)],
    &[("t1", 104), ("t1", 105)],
];

// A store that nothing fails, and that has these objects at first, tells a connection this.
pub(crate) fn tells(
    alloc: Global,
    records: u8,
    objects: &[&[(&str, u64)]],
    lines: &[Line],
    want: &str,
) -> Result<bool, Fail> {
    let store = filled(alloc, Vec::new(alloc), records, objects)?;
    Ok(told_by(alloc, store, lines)?.text.as_str() == want)
}

#[test]
fn each_part_ends_where_its_object_does(rt: HostRuntime) -> Result<(), Fail> {
    let alloc = rt.alloc();
    for (name, asked, want) in [
        ("t1", 0, "4: 0-3: 0 2 3-4: 4-6: 4;"),
        ("t1", 4, "4: 0-3: 0 2 3-4: 4-6: 4;"),
        ("t2", 2, "2: 0-3: 1 3-4: 3 4-6:;"),
        ("t3", 0, "0: 0-3: 3-4: 4-6:;"),
    ] {
        assert!(rt;
            tells(alloc, RECORDS, &OBJECTS, &[Line::Query(name, asked)], want)?,
            "{name} {asked}"
        );
    }
    assert!(rt; tells(alloc, RECORDS, &[], &[Line::Query("t1", 0)], "0:;")?);
    Ok(())
}

#[test]
fn a_query_for_more_pushes_than_its_tenant_has_is_told_how_many_there_are(
    rt: HostRuntime,
) -> Result<(), Fail> {
    let alloc = rt.alloc();
    for (name, asked, want) in [
        ("t1", 5, "5 of 4;"),
        ("t2", 3, "3 of 2;"),
        ("t3", 1, "1 of 0;"),
    ] {
        assert!(rt;
            tells(alloc, RECORDS, &OBJECTS, &[Line::Query(name, asked)], want)?,
            "{name} {asked}"
        );
    }
    Ok(())
}

// A store over these objects, whose disk fails at these calls.
pub(crate) fn told_failing(
    alloc: Global,
    calls: &[u64],
    objects: &[&[(&str, u64)]],
    lines: &[Line],
) -> Result<Told, Fail> {
    let failing = Vec::from_slice(alloc, calls)?;
    told_by(alloc, filled(alloc, failing, RECORDS, objects)?, lines)
}

#[test]
fn a_query_reads_on_after_a_fault_as_if_there_was_none(rt: HostRuntime) -> Result<(), Fail> {
    let alloc = rt.alloc();
    let lines = [Line::Query("t1", 0)];
    let before = told_failing(alloc, &[], &OBJECTS, &[])?.calls;
    let after = told_failing(alloc, &[], &OBJECTS, &lines)?.calls;
    assert!(rt; before < after);
    for call in before..after {
        let told = told_failing(alloc, &[call], &OBJECTS, &lines)?;
        let text = told.text.replacen(alloc, " fault", "", 1)?;
        assert!(rt;
            text.as_str() == "4: 0-3: 0 2 3-4: 4-6: 4;" && text.len() < told.text.len(),
            "call {call}: {text}"
        );
    }
    Ok(())
}
