//! Settles a push over the folder `pyro-data`, so many times and so often together: for measuring.
#![tactic(auto)]

ghost use Rattle.std.specs.Prelude.{◌≤◌, IfOk, IsTrue, length};
ghost use Rattle.std.specs.List.{All};
ghost use Rattle.segment_file.specs.Laws.{IsLight};

use disk_trait::DirDisk;
use faults::Refused;
use folded_reader::read_folded;
use profile_model::{
    LabelSet, MAX_WEIGHT, Name, Profile, ProfileType, Profiles, Push, StackSums, Tenant,
};
use std::alloc::{AllocError, Global};
use std::io::{self, Read};
use std::{env, fmt};
use store_core::{SettleFault, Store};
use tenant_books::{Limits, PushAsk};

/// How many records the index file may have.
const RECORDS: u64 = 1 << 20;

const USAGE: &str =
    "usage: settle_times TIMES TOGETHER [made], with the folded text of a push on standard input";

// What is done: so many times, the push so often together.
#[derive(Clone, Copy)]
struct Work {
    times: u32,
    together: u32,
    /// Whether the pushes are settled, or only made.
    settles: bool,
}

fn main(rt: HostRuntime) -> io::Result<()> {
    match work_of(&words_of(&rt)?) {
        Some(work) => do_all(&rt, work),
        None => println!(rt; "{USAGE}"),
    }
}

fn work_of(words: &[String]) -> Option<Work> {
    let (times, together, settles) = match words {
        [times, together] => (times, together, true),
        [times, together, word] if word.as_str() == "made" => (times, together, false),
        _ => return None,
    };
    Some(Work {
        times: times.parse::<u32>().ok()?,
        together: together.parse::<u32>().ok()?,
        settles,
    })
}

// The words after the program's name.
fn words_of(rt: &HostRuntime) -> io::Result<Vec<String>> {
    let mut words = Vec::new(rt.alloc());
    for word in env::args(rt)?.skip(1) {
        words.push(word)?;
    }
    Ok(words)
}

fn do_all(rt: &HostRuntime, work: Work) -> io::Result<()> {
    let text = input(rt)?;
    let kept = do_times(rt, &text, work)?;
    println!(rt; "{kept} pushes")
}

fn input(rt: &HostRuntime) -> io::Result<Vec<u8>> {
    let mut bytes = Vec::new(rt.alloc());
    rt.reader().read_to_end(&mut bytes)?;
    Ok(bytes)
}

// How many pushes the store has at the end.
fn do_times(rt: &HostRuntime, text: &[u8], work: Work) -> io::Result<u64> {
    let alloc = rt.alloc();
    let disk = DirDisk::new(rt.clone()?);
    let Ok(mut store) = Store::open(alloc, disk, Limits::usual(alloc), RECORDS) else {
        return Err(io::Error::other("the folder wasn't opened"));
    };
    for _ in 0..work.times {
        let asks = asks(alloc, text, work.together)?;
        // A settle's callers know this of their pushes: it counts to their making.
        if asks.len() > 64 || !are_light(&asks) {
            return Err(io::Error::other(
                "a settle takes up to 64 pushes within their limit of weight",
            ));
        }
        if work.settles {
            settle_once(alloc, &mut store, asks)?;
        }
    }
    Ok(store.len())
}

fn settle_once(alloc: Global, store: &mut Store<DirDisk>, asks: Vec<PushAsk>) -> io::Result<()>
    requires few { length asks.items ≤ 64 }
    requires light { All (λ ask. IsLight ask.push) asks.items }
{
    match store.settle(alloc, asks) {
        Ok(_) => Ok(()),
        Err(SettleFault::Memory) => Err(io::Error::from(AllocError)),
        Err(SettleFault::Disk(_)) => Err(io::Error::other("the disk failed")),
        Err(SettleFault::Full { .. }) => Err(io::Error::other("the index is full")),
    }
}

fn are_light(asks: &[PushAsk]) -> bool
    ensures { IsTrue result → All (λ ask. IsLight ask.push) asks.now }
{
    asks.iter().all(|ask| ask.push.weight() <= MAX_WEIGHT)
}

// The push so often, each with what it holds for itself, as pushes that came one by one.
fn asks(alloc: Global, text: &[u8], count: u32) -> io::Result<Vec<PushAsk>> {
    let mut asks = Vec::new(alloc);
    for _ in 0..count {
        let push = push_of(alloc, text)?;
        asks.push(PushAsk { push, asked: 0 })?;
    }
    Ok(asks)
}

fn push_of(alloc: Global, text: &[u8]) -> io::Result<Push> {
    let profile = Profile {
        labels: LabelSet::of_service(alloc, Name::from_text(alloc, "bench")?)?,
        kind: kind(alloc)?,
        time_ms: 1,
        values: sums_of(alloc, text)?,
    };
    Ok(Push {
        tenant: tenant(alloc)?,
        profiles: Profiles::one(alloc, profile)?,
    })
}

fn kind(alloc: Global) -> io::Result<ProfileType> {
    match ProfileType::read(alloc, "process_cpu:cpu:nanoseconds:cpu:nanoseconds") {
        Ok(kind) => Ok(kind),
        Err(refused) => Err(stopped(alloc, refused)),
    }
}

fn tenant(alloc: Global) -> io::Result<Tenant> {
    match Tenant::read(alloc, b"bench") {
        Ok(tenant) => Ok(tenant),
        Err(refused) => Err(stopped(alloc, refused)),
    }
}

fn sums_of(alloc: Global, text: &[u8]) -> io::Result<StackSums> {
    match read_folded(alloc, text) {
        Ok(sums) => Ok(sums),
        Err(refused) => Err(stopped(alloc, refused)),
    }
}

// The error that says why a call was refused.
fn stopped<F: fmt::Display + Drop>(alloc: Global, refused: Refused<F>) -> io::Error {
    match refused.to_string(alloc) {
        Ok(text) => io::Error::other(&text),
        Err(error) => io::Error::from(error),
    }
}
