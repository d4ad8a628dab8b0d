//! Encodes an object of pushes so many times, or decodes one: for measuring both.
#![tactic(auto)]

ghost use Rattle.std.specs.Prelude.{◌≡◌, ◌≤◌, length, IfOk};
ghost use Rattle.std.specs.List.{All};
ghost use Rattle.profile_model.specs.Limits.{most_weight};
ghost use Rattle.profile_model.specs.Weights.{push_weight};

use faults::Refused;
use pprof_codec::{Base, PprofFault, read_pprof};
use profile_model::{LabelSet, MAX_WEIGHT, Name, Profile, Profiles, Push, Tenant};
use segment_file::{Object, ObjectFault, decode};
use std::alloc::Global;
use std::io::{self, Read};
use std::{env, fmt};

/// How many pushes the object has, each of the same pprof.
const PUSHES: usize = 64;

const USAGE: &str =
    "usage: object_times write|read TIMES, with a pprof or an object on standard input";

fn main(rt: HostRuntime) -> io::Result<()> {
    match command_of(&words_of(&rt)?) {
        Some(Command::Write(times)) => write(&rt, times),
        Some(Command::Read(times)) => read(&rt, times),
        None => println!(rt; "{USAGE}"),
    }
}

#[derive(Clone, Copy)]
enum Command {
    Write(u32),
    Read(u32),
}

fn command_of(words: &[String]) -> Option<Command> {
    let [task, times] = words else {
        return None;
    };
    let times = times.parse::<u32>().ok()?;
    match task.as_str() {
        "write" => Some(Command::Write(times)),
        "read" => Some(Command::Read(times)),
        _ => None,
    }
}

// The words after the program's name.
fn words_of(rt: &HostRuntime) -> io::Result<Vec<String>> {
    let mut words = Vec::new(rt.alloc());
    for word in env::args(rt)?.skip(1) {
        words.push(word)?;
    }
    Ok(words)
}

// Reads a pprof, and writes the object.
fn write(rt: &HostRuntime, times: u32) -> io::Result<()> {
    let alloc = rt.alloc();
    let object = object_of(alloc, &input(rt)?)?;
    for _ in 1..times {
        let _ = object.encode(alloc)?;
    }
    rt.write_all(&object.encode(alloc)?)
}

// Reads an object, and tells how many pushes it has.
fn read(rt: &HostRuntime, times: u32) -> io::Result<()> {
    let alloc = rt.alloc();
    let bytes = input(rt)?;
    for _ in 1..times {
        let _ = decoded(alloc, &bytes)?;
    }
    let object = decoded(alloc, &bytes)?;
    println!(rt; "{} pushes", object.pushes().len())
}

fn input(rt: &HostRuntime) -> io::Result<Vec<u8>> {
    let mut bytes = Vec::new(rt.alloc());
    rt.reader().read_to_end(&mut bytes)?;
    Ok(bytes)
}

fn decoded(alloc: Global, bytes: &[u8]) -> io::Result<Object> {
    match decode(alloc, bytes) {
        Ok(object) => Ok(object),
        Err(refused) => Err(stopped(alloc, refused)),
    }
}

fn object_of(alloc: Global, pprof: &[u8]) -> io::Result<Object> {
    let pushes = pushes_of(alloc, pprof)?;
    Ok(Object::of_light(0, pushes))
}

// Each push has what it holds for itself, as pushes that came one by one.
fn pushes_of(alloc: Global, pprof: &[u8]) -> io::Result<Vec<Push>>
    ensures many { IfOk result (λ pushes. length pushes.items ≡ 64) }
    ensures light { IfOk result (λ pushes. All (λ push. push_weight push ≤ most_weight) pushes.items) }
{
    let mut pushes = Vec::with_capacity(alloc, PUSHES)?;
    for _ in 0..PUSHES {
        pushes.push(push_of(alloc, pprof)?)?;
    }
    Ok(pushes)
}

fn push_of(alloc: Global, pprof: &[u8]) -> io::Result<Push>
    ensures { IfOk result (λ push. push_weight push ≤ most_weight) }
{
    let push = Push {
        tenant: tenant(alloc)?,
        profiles: profiles_of(alloc, pprof)?,
    };
    if push.weight() <= MAX_WEIGHT {
        Ok(push)
    } else {
        Err(io::Error::other("the pprof is too heavy for a push"))
    }
}

fn tenant(alloc: Global) -> io::Result<Tenant> {
    match Tenant::read(alloc, b"bench") {
        Ok(tenant) => Ok(tenant),
        Err(refused) => Err(stopped(alloc, refused)),
    }
}

fn profiles_of(alloc: Global, pprof: &[u8]) -> io::Result<Profiles> {
    let base = Base {
        labels: LabelSet::of_service(alloc, Name::from_text(alloc, "bench")?)?,
        name: Name::from_text(alloc, "process_cpu")?,
        fallback_ms: 0,
    };
    match read_pprof(alloc, pprof, &base) {
        Ok(profiles) => Ok(Profiles::from_vec(profiles)),
        Err(refused) => Err(stopped(alloc, refused)),
    }
}

// The error that says why a call was refused.
fn stopped<F: fmt::Display + Drop>(alloc: Global, refused: Refused<F>) -> io::Error {
    match refused.to_string(alloc) {
        Ok(text) => io::Error::other(&text),
        Err(error) => io::Error::from(error),
    }
}
