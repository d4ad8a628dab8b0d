// What no clause says: that each call succeeds with ample memory, and how many calls of the disk it makes. Stores over disks
// in memory, of which each crash and each fault is tried, and over a folder.
ghost use Rattle.std.specs.Prelude.{◌≤◌, IfOk, IsTrue, length};
ghost use Rattle.std.specs.List.{All};
ghost use Rattle.profile_model.specs.LabelSets.{AreProfileLabels};
ghost use Rattle.segment_file.specs.Laws.{IsLight};

use super::*;
use disk_trait::{DirDisk, Disk, FileId, MemoryDisk};
use profile_model::{
    LabelSet, MAX_WEIGHT, Name, PartAsk, Profile, ProfileType, Profiles, Push, Stack, StackSums,
    Tenant,
};
use segment_file::Part;
use std::alloc::Global;
use std::fs;
use std::sync::ArcSlice;
use std::test::Fail;
use tenant_books::{Limits, PushAsk, Verdict};

const RECORDS: u64 = 8;

// What all values of t1 may come to.
const LIMIT: u64 = 20;

fn sums(alloc: Global, value: u64) -> Result<StackSums, Fail> {
    let mut names = Vec::new(alloc);
    names.push(Name::from_text(alloc, "main")?)?;
    let stack = Stack::from_frames(ArcSlice::from_vec(names)?)?;
    let mut sums = StackSums::new(alloc);
    sums.add(stack, value)?;
    Ok(sums)
}

fn labels(alloc: Global) -> Result<LabelSet, Fail>
    ensures { IfOk result AreProfileLabels }
{
    let pairs = Vec::new(alloc);
    Ok(LabelSet::from_pairs(alloc, &pairs)?)
}

fn profile(alloc: Global, time_ms: u64, value: u64) -> Result<Profile, Fail> {
    let mut profile = Profile {
        labels: labels(alloc)?,
        kind: ProfileType::read(alloc, "cpu:samples:count::")?,
        time_ms,
        values: StackSums::new(alloc),
    };
    profile.values = sums(alloc, value)?;
    Ok(profile)
}

fn tenant(alloc: Global, name: &str) -> Result<Tenant, Fail> {
    Ok(Tenant::read(alloc, name.as_bytes())?)
}

fn ask(alloc: Global, name: &str, value: u64, asked: u64) -> Result<PushAsk, Fail> {
    let profile = profile(alloc, 100 + value % 50, value)?;
    let profiles = Profiles::one(alloc, profile)?;
    let push = Push {
        tenant: tenant(alloc, name)?,
        profiles,
    };
    Ok(PushAsk { push, asked })
}

// Pushes of these tenants, with these values, that ask for so many pushes.
fn asks(alloc: Global, rows: &[(&str, u64, u64)]) -> Result<Vec<PushAsk>, Fail> {
    let mut asks = Vec::new(alloc);
    for (name, value, asked) in rows {
        asks.push(ask(alloc, name, *value, *asked)?)?;
    }
    Ok(asks)
}

const THREE: [(&str, u64, u64); 3] = [("t1", 7, 0), ("t2", 4, 0), ("t1", 3, 0)];

pub(crate) const ONE: [(&str, u64, u64); 1] = [("t2", 1, 0)];

fn limits(alloc: Global) -> Result<Limits, Fail> {
    let mut limits = Limits::usual(alloc);
    limits.set(b"t1", LIMIT)?;
    Ok(limits)
}

pub(crate) fn opened<D: Disk + Drop>(
    alloc: Global,
    disk: D,
) -> Result<Result<Store<D>, OpenCause>, Fail> {
    match Store::open(alloc, disk, limits(alloc)?, RECORDS) {
        Ok(store) => Ok(Ok(store)),
        Err(refused) => Ok(Err(refused.cause)),
    }
}

fn are_light(asks: &[PushAsk]) -> bool
    ensures { IsTrue result → All (λ ask. IsLight ask.push) asks.now }
{
    asks.iter().all(|ask| ask.push.weight() <= MAX_WEIGHT)
}

// What became of each push, in one word.
pub(crate) fn settled<D: Disk>(
    alloc: Global,
    store: &mut Store<D>,
    rows: &[(&str, u64, u64)],
) -> Result<String, Fail> {
    let asks = asks(alloc, rows)?;
    if asks.len() > 64 || !are_light(&asks) {
        return Ok(String::new(alloc));
    }
    match store.settle(alloc, asks) {
        Ok(settled) => told(alloc, &settled.verdicts),
        Err(SettleFault::Memory) => Ok(format!(in alloc; "memory")?),
        Err(SettleFault::Disk(count)) => Ok(format!(in alloc; "disk {count}")?),
        Err(SettleFault::Full { records, asks }) => {
            Ok(format!(in alloc; "full {records} of {}", asks.len())?)
        }
    }
}

fn told(alloc: Global, verdicts: &[Verdict]) -> Result<String, Fail> {
    let mut text = String::new(alloc);
    for verdict in verdicts {
        let word = match verdict {
            Verdict::Kept(receipt) => {
                format!(in alloc; "{}/{} ", receipt.place(), receipt.front())?
            }
            Verdict::FrontAhead { asked, front } => format!(in alloc; "ahead {asked}/{front} ")?,
            Verdict::OverLimit {
                kept,
                push,
                limit,
                front,
            } => format!(in alloc; "over {kept}+{push}/{limit}/{front} ")?,
        };
        text.push_str(word.as_str())?;
    }
    Ok(text)
}

// How many pushes a store has, and how many of them are of t1 and of t2.
fn counts<D: Disk>(alloc: Global, store: &Store<D>) -> Result<String, Fail> {
    let one = store.front(&tenant(alloc, "t1")?);
    let two = store.front(&tenant(alloc, "t2")?);
    Ok(format!(in alloc; "{} {one} {two}", store.len())?)
}

// What a disk opens to.
pub(crate) fn opens_to<D: Disk + Drop>(alloc: Global, disk: D) -> Result<String, Fail> {
    match opened(alloc, disk)? {
        Ok(store) => counts(alloc, &store),
        Err(OpenCause::Memory) => Ok(format!(in alloc; "memory")?),
        Err(OpenCause::Disk(count)) => Ok(format!(in alloc; "disk {count}")?),
        Err(OpenCause::Damaged(file)) => Ok(format!(in alloc; "{file}")?),
    }
}

// What is done with a store.
#[derive(Drop)]
pub(crate) enum Act<'a> {
    Settle(&'a [(&'a str, u64, u64)]),
    Decide,
    Mend,
    Reap,
    Sure,
    Count,
    Entries,
    Part(u64, u64),
    Object(u64),
}

// What an act gives.
fn done<D: Disk>(alloc: Global, store: &mut Store<D>, act: &Act) -> Result<String, Fail> {
    match act {
        Act::Settle(rows) => settled(alloc, store, rows),
        Act::Decide => decided(alloc, store),
        Act::Mend => mended(alloc, store.mend(alloc)),
        Act::Reap => mended(alloc, store.reap(alloc)),
        Act::Sure => Ok(format!(in alloc; "{}", store.sure)?),
        Act::Count => counts(alloc, store),
        Act::Entries => entries_of(alloc, store),
        Act::Part(at, until) => part_of(alloc, store, *at, *until),
        Act::Object(at) => object_at(alloc, store, *at),
    }
}

// How many pushes turn out to be kept.
fn decided<D: Disk>(alloc: Global, store: &mut Store<D>) -> Result<String, Fail> {
    Ok(match store.decide(alloc) {
        Ok(came) => format!(in alloc; "came {}", came.len())?,
        Err(MendFault::Memory) => format!(in alloc; "memory")?,
        Err(MendFault::Disk(count)) => format!(in alloc; "disk {count}")?,
    })
}

fn mended(alloc: Global, answer: Result<(), MendFault>) -> Result<String, Fail> {
    Ok(match answer {
        Ok(()) => format!(in alloc; "mended")?,
        Err(MendFault::Memory) => format!(in alloc; "memory")?,
        Err(MendFault::Disk(count)) => format!(in alloc; "disk {count}")?,
    })
}

// The pushes and the times of the rows that t1 has in a part.
fn part_of<D: Disk>(
    alloc: Global,
    store: &mut Store<D>,
    at: u64,
    until: u64,
) -> Result<String, Fail> {
    let ask = PartAsk {
        tenant: tenant(alloc, "t1")?,
        from_ms: 102,
        until_ms: 107,
    };
    if at >= until || until > store.len() {
        return Ok(String::new(alloc));
    }
    let part = store.read_part(alloc, at, until, &ask)?;
    told_of(alloc, &part)
}

fn told_of(alloc: Global, part: &Part) -> Result<String, Fail> {
    let mut text = format!(in alloc; "{}-{}:", part.from, part.until)?;
    for row in &part.rows {
        let time_ms = row.profile.time_ms;
        text.push_str(format!(in alloc; " {}@{time_ms}", row.push)?.as_str())?;
    }
    Ok(text)
}

// The live entries: their pushes, their objects and their levels.
fn entries_of<D: Disk>(alloc: Global, store: &Store<D>) -> Result<String, Fail> {
    let mut text = String::new(alloc);
    for entry in store.index().entries() {
        let (lo, hi) = (entry.lo, entry.hi);
        let word = format!(in alloc; "{lo}-{hi}:{}/{} ", entry.id, entry.level)?;
        text.push_str(word.as_str())?;
    }
    Ok(text)
}

// The entry that covers a push, and how many pushes its object has.
fn object_at<D: Disk>(alloc: Global, store: &mut Store<D>, at: u64) -> Result<String, Fail> {
    if at >= store.len() {
        return Ok(String::new(alloc));
    }
    let (entry, object) = store.read_object(alloc, at)?;
    let count = object.pushes().len();
    Ok(format!(in alloc; "{}-{} {} {count}", entry.lo, entry.hi, entry.id)?)
}

// What acts give, one after another.
fn all_done<D: Disk>(alloc: Global, store: &mut Store<D>, acts: &[Act]) -> Result<String, Fail> {
    let mut text = String::new(alloc);
    for act in acts {
        text.push_str(done(alloc, store, act)?.as_str())?;
        text.push_str("|")?;
    }
    Ok(text)
}

pub(crate) fn gives(
    alloc: Global,
    disk: MemoryDisk,
    acts: &[Act],
    want: &str,
) -> Result<bool, Fail> {
    let Ok(mut store) = opened(alloc, disk)? else {
        return Ok(false);
    };
    let text = all_done(alloc, &mut store, acts)?;
    Ok(text.as_str() == want)
}

// The same over an empty disk.
fn says(alloc: Global, acts: &[Act], want: &str) -> Result<bool, Fail> {
    gives(alloc, MemoryDisk::new(alloc), acts, want)
}

// A disk after acts.
pub(crate) fn after(alloc: Global, disk: MemoryDisk, acts: &[Act]) -> Result<MemoryDisk, Fail> {
    let Ok(mut store) = opened(alloc, disk)? else {
        return Ok(MemoryDisk::new(alloc));
    };
    all_done(alloc, &mut store, acts)?;
    Ok(store.close())
}

pub(crate) const SETTLE: Act<'static> = Act::Settle(&THREE);

// How many calls a disk has met once it is opened after these acts.
fn calls_before(alloc: Global, before: &[Act]) -> Result<u64, Fail> {
    let disk = after(alloc, MemoryDisk::new(alloc), before)?;
    Ok(after(alloc, disk, &[])?.calls())
}

// A disk that these acts leave, whose calls of these numbers after its next opening fail.
pub(crate) fn failing(alloc: Global, before: &[Act], calls: &[u64]) -> Result<MemoryDisk, Fail> {
    let begin = calls_before(alloc, before)?;
    let mut numbers = Vec::new(alloc);
    for call in calls {
        numbers.push(begin.saturating_add(*call))?;
    }
    let disk = MemoryDisk::with(alloc, Vec::new(alloc), numbers);
    after(alloc, disk, before)
}

// How many pushes the images of a moment hold.
fn digits(alloc: Global, disk: &MemoryDisk, moment: u64) -> Result<String, Fail> {
    let mut digits = String::new(alloc);
    for pick in 0..4 {
        let image = disk.image(alloc, moment, pick)?;
        digits.push_str(digit(alloc, image)?)?;
    }
    Ok(digits)
}

fn digit(alloc: Global, image: MemoryDisk) -> Result<&'static str, Fail> {
    Ok(match opens_to(alloc, image)?.as_str() {
        "0 0 0" => "0",
        "1 0 1" => "1",
        "3 2 1" => "3",
        "4 2 2" => "4",
        "7 7 0" => "7",
        "8 8 0" => "8",
        _ => "?",
    })
}

// The images of each moment from this one on, and those after the last call.
fn digits_from(alloc: Global, disk: &MemoryDisk, begin: u64) -> Result<String, Fail> {
    let mut text = String::new(alloc);
    for moment in begin..=disk.calls() {
        text.push_str(digits(alloc, disk, moment)?.as_str())?;
        text.push_str(" ")?;
    }
    Ok(text)
}

// What the images of each moment of acts hold, from this call after the opening on, over a disk that earlier acts left and
// whose calls of these numbers fail.
pub(crate) fn moments_say(
    alloc: Global,
    before: &[Act],
    calls: &[u64],
    acts: &[Act],
    from: u64,
    want: &str,
) -> Result<bool, Fail> {
    let begin = calls_before(alloc, before)?.saturating_add(from);
    let disk = after(alloc, failing(alloc, before, calls)?, acts)?;
    let text = digits_from(alloc, &disk, begin)?;
    Ok(text.as_str() == want)
}

// The calls are: the object's write and sync, the record's, and the gate's.
#[test]
fn a_crash_in_a_settle_leaves_all_its_pushes_or_none(rt: HostRuntime) -> Result<(), Fail> {
    let cases: [(&[u64], &str); 7] = [
        (&[], "0000 0000 0000 0000 0000 0330 3333 "),
        (&[0], "0000 0000 "),
        (&[1], "0000 0000 0000 "),
        (&[2], "0000 0000 0000 0000 "),
        (&[3], "0000 0000 0000 0000 0000 "),
        (&[4], "0000 0000 0000 0000 0000 0330 "),
        (&[5], "0000 0000 0000 0000 0000 0330 0330 "),
    ];
    for (calls, want) in cases {
        assert!(rt;
            moments_say(rt.alloc(), &[], calls, &[SETTLE], 0, want)?,
            "{want}"
        );
    }
    Ok(())
}

const COME_AGAIN: [Act<'static>; 5] = [SETTLE, Act::Count, Act::Mend, Act::Count, SETTLE];

// What acts give over a disk whose calls of these numbers fail.
pub(crate) fn fault_gives(
    alloc: Global,
    calls: &[u64],
    acts: &[Act],
    want: &str,
) -> Result<bool, Fail> {
    gives(alloc, failing(alloc, &[], calls)?, acts, want)
}

// What the disk opens to after them.
pub(crate) fn fault_leaves(
    alloc: Global,
    calls: &[u64],
    acts: &[Act],
    want: &str,
) -> Result<bool, Fail> {
    let disk = after(alloc, failing(alloc, &[], calls)?, acts)?;
    Ok(opens_to(alloc, disk)?.as_str() == want)
}

// What the store has then and after a mend, and what the same pushes are answered when they come again.
#[test]
fn pushes_of_a_failed_settle_come_again_or_turn_out_to_be_kept(
    rt: HostRuntime,
) -> Result<(), Fail> {
    let alloc = rt.alloc();
    for call in 0..6 {
        let (want, left) = if call < 5 {
            ("disk 1|0 0 0|mended|0 0 0|0/1 1/1 2/2 |", "3 2 1")
        } else {
            ("disk 1|0 0 0|mended|3 2 1|3/3 4/2 5/4 |", "6 4 2")
        };
        assert!(rt;
            fault_gives(alloc, &[call], &COME_AGAIN, want)?,
            "call {call}"
        );
        assert!(rt;
            fault_leaves(alloc, &[call], &COME_AGAIN, left)?,
            "call {call}"
        );
    }
    Ok(())
}

#[test]
fn a_decision_gives_the_pushes_that_turn_out_to_be_kept(rt: HostRuntime) -> Result<(), Fail> {
    let alloc = rt.alloc();
    let acts = [SETTLE, Act::Decide, Act::Count, Act::Decide];
    assert!(rt;
        gives(
            alloc,
            failing(alloc, &[], &[4])?,
            &acts,
            "disk 1|came 0|0 0 0|came 0|"
        )?
    );
    assert!(rt;
        gives(
            alloc,
            failing(alloc, &[], &[5])?,
            &acts,
            "disk 1|came 3|3 2 1|came 0|"
        )?
    );
    Ok(())
}

// How many calls of the disk a settle makes.
fn calls_of_settle(alloc: Global, rows: &[(&str, u64, u64)]) -> Result<u64, Fail> {
    let disk = after(alloc, failing(alloc, &[], &[])?, &[Act::Settle(rows)])?;
    Ok(disk.calls().saturating_sub(calls_before(alloc, &[])?))
}

#[test]
fn a_settle_makes_six_calls_of_the_disk_and_none_where_it_keeps_nothing(
    rt: HostRuntime,
) -> Result<(), Fail> {
    let alloc = rt.alloc();
    assert_eq!(rt; calls_of_settle(alloc, &THREE)?, 6);
    assert_eq!(rt; calls_of_settle(alloc, &[("t1", 1, 1), ("t1", 21, 0)])?, 0);
    Ok(())
}

const MIXED: [(&str, u64, u64); 5] = [
    ("t1", 15, 0),
    ("t1", 6, 0),
    ("t2", 40, 1),
    ("t1", 5, 1),
    ("t2", 40, 0),
];

const LATER: [(&str, u64, u64); 3] = [("t2", 1, 2), ("t1", 1, 0), ("t2", 1, 1)];

#[test]
fn pushes_are_judged_in_order_each_after_those_kept_before_it(rt: HostRuntime) -> Result<(), Fail> {
    assert!(rt;
        says(
            rt.alloc(),
            &[Act::Settle(&MIXED), Act::Settle(&LATER), Act::Count],
            "0/1 over 15+6/20/1 ahead 1/0 1/2 2/1 |ahead 2/1 over 20+1/20/2 3/2 |4 2 2|"
        )?
    );
    Ok(())
}

const TWO: Act<'static> = Act::Settle(&[("t1", 2, 0)]);

const SEVEN: [Act<'static>; 7] = [TWO, TWO, TWO, TWO, TWO, TWO, TWO];

const EIGHTH: Act<'static> = Act::Settle(&[("t1", 5, 0)]);

// What acts give over a disk with seven pushes, whose calls of these numbers fail.
pub(crate) fn eighth_gives(
    alloc: Global,
    calls: &[u64],
    acts: &[Act],
    want: &str,
) -> Result<bool, Fail> {
    gives(alloc, failing(alloc, &SEVEN, calls)?, acts, want)
}

#[test]
fn the_eighth_push_is_number_7_and_has_front_8(rt: HostRuntime) -> Result<(), Fail> {
    let alloc = rt.alloc();
    assert!(rt;
        eighth_gives(
            alloc,
            &[],
            &[EIGHTH, Act::Count, Act::Entries],
            "7/8 |8 8 0|0-1:1/0 1-2:2/0 2-3:3/0 3-4:4/0 4-5:5/0 5-6:6/0 6-7:7/0 7-8:8/0 |"
        )?
    );
    assert!(rt;
        eighth_gives(
            alloc,
            &[],
            &[
                EIGHTH,
                Act::Part(0, 8),
                Act::Part(6, 8),
                Act::Part(7, 8),
                Act::Object(7)
            ],
            "7/8 |0-1: 0@102|6-7: 6@102|7-8: 7@105|7-8 8 1|"
        )?
    );
    assert!(rt;
        moments_say(
            alloc,
            &SEVEN,
            &[],
            &[EIGHTH],
            0,
            "7777 7777 7777 7777 7777 7887 8888 "
        )?
    );
    Ok(())
}

#[test]
fn a_full_index_keeps_no_more_and_says_so_only_to_what_would_be_kept(
    rt: HostRuntime,
) -> Result<(), Fail> {
    assert!(rt;
        eighth_gives(
            rt.alloc(),
            &[],
            &[
                EIGHTH,
                Act::Settle(&[("t1", 1, 0)]),
                Act::Settle(&[("t1", 1, 9), ("t1", 2, 0)]),
                Act::Count
            ],
            "7/8 |full 8 of 1|ahead 9/8 over 19+2/20/8 |8 8 0|"
        )?
    );
    Ok(())
}

#[test]
fn a_part_goes_as_far_as_one_object(rt: HostRuntime) -> Result<(), Fail> {
    assert!(rt;
        says(
            rt.alloc(),
            &[
                SETTLE,
                Act::Settle(&[("t1", 2, 0), ("t1", 1, 0)]),
                Act::Part(0, 5),
                Act::Part(1, 5),
                Act::Part(0, 2),
                Act::Part(3, 5),
                Act::Part(4, 5),
                Act::Object(2),
                Act::Object(3)
            ],
            "0/1 1/1 2/2 |3/3 4/4 |0-3: 0@107 2@103|1-3: 2@103|0-2: 0@107|3-5: 3@102|4-5:|0-3 1 3|3-5 2 2|"
        )?
    );
    Ok(())
}

// Settles over a folder, and forgets the store.
fn settle_in_folder(rt: &HostRuntime, rows: &[(&str, u64, u64)]) -> Result<String, Fail> {
    let alloc = rt.alloc();
    match opened(alloc, DirDisk::new(rt.clone()?))? {
        Ok(mut store) => settled(alloc, &mut store, rows),
        Err(_) => Ok(String::new(alloc)),
    }
}

pub(crate) fn folder_says(
    rt: &HostRuntime,
    rows: &[(&str, u64, u64)],
    want: &str,
) -> Result<bool, Fail> {
    let text = settle_in_folder(rt, rows)?;
    Ok(text.as_str() == want)
}

pub(crate) fn folder_opens_to(rt: &HostRuntime, want: &str) -> Result<bool, Fail> {
    let text = opens_to(rt.alloc(), DirDisk::new(rt.clone()?))?;
    Ok(text.as_str() == want)
}

#[test]
fn a_folder_opened_again_has_what_was_kept(rt: HostRuntime) -> Result<(), Fail> {
    let _ = fs::remove_dir_all(&rt, "pyro-data");
    assert!(rt; folder_says(&rt, &THREE, "0/1 1/1 2/2 ")?);
    assert!(rt; folder_says(&rt, &ONE, "3/2 ")?);
    assert!(rt; folder_opens_to(&rt, "4 2 2")?);
    fs::remove_dir_all(&rt, "pyro-data")?;
    Ok(())
}
