//! Reads the pprof on standard input so many times, and tells what it found: for measuring the reader.
#![tactic(auto)]

use faults::Refused;
use pprof_codec::{Base, PprofFault, read_pprof};
use profile_model::{LabelSet, Name, Profile};
use std::alloc::Global;
use std::io::{self, Read};

/// How often the bytes are read.
const TIMES: u32 = 400;

fn main(rt: HostRuntime) -> io::Result<()> {
    let alloc = rt.alloc();
    let mut bytes = Vec::new(alloc);
    rt.reader().read_to_end(&mut bytes)?;
    for _ in 1..TIMES {
        let _ = read_once(alloc, &bytes);
    }
    match read_once(alloc, &bytes) {
        Ok(profiles) => tell(&rt, &profiles),
        Err(refused) => println!(rt; "{refused}"),
    }
}

fn read_once(alloc: Global, bytes: &[u8]) -> Result<Vec<Profile>, Refused<PprofFault>> {
    let base = Base {
        labels: LabelSet::of_service(alloc, Name::from_text(alloc, "bench")?)?,
        name: Name::from_text(alloc, "process_cpu")?,
        fallback_ms: 0,
    };
    read_pprof(alloc, bytes, &base)
}

fn tell(rt: &impl Print, profiles: &[Profile]) -> io::Result<()> {
    for profile in profiles {
        println!(rt;
            "{}: {} stacks, {} in all",
            profile.kind,
            profile.values.len(),
            profile.values.total()
        )?;
    }
    Ok(())
}
