// Files of pprofs as parts of a history.
ghost use Rattle.std.specs.Prelude.{IfOk};
ghost use Rattle.profile_model.specs.LabelSets.{AreProfileLabels};

use crate::stopped;
use pprof_codec::{Base, read_pprof};
use profile_model::{LabelSet, MAX_VALUE_BYTES, Name, Profile};
use segment_file::{Part, Row};
use std::alloc::Global;
use std::path::Path;
use std::{fs, io};

/// How many pushes a part has at most.
const PUSHES: usize = 64;

/// Each file is a push, in this order, and so many of them are a part.
pub(crate) fn parts_of(rt: &HostRuntime, paths: &[String]) -> io::Result<Vec<Part>> {
    let mut parts = Vec::new(rt.alloc());
    let mut from = 0;
    for some in paths.chunks(PUSHES) {
        let part = part_of(rt, from, some)?;
        from = part.until;
        parts.push(part)?;
    }
    Ok(parts)
}

fn part_of(rt: &HostRuntime, from: u64, paths: &[String]) -> io::Result<Part> {
    let mut rows = Vec::new(rt.alloc());
    let mut push = from;
    for path in paths {
        put_rows(&mut rows, push, profiles_in(rt, path.as_str())?)?;
        push = push.saturating_add(1);
    }
    Ok(Part {
        from,
        until: push,
        rows,
    })
}

fn put_rows(rows: &mut Vec<Row>, push: u64, profiles: Vec<Profile>) -> io::Result<()> {
    let mut place: u64 = 0;
    for profile in profiles {
        rows.push(Row {
            push,
            place,
            profile,
        })?;
        place = place.saturating_add(1);
    }
    Ok(())
}

// The bytes are let go as soon as they are read.
fn profiles_in(rt: &HostRuntime, path: &str) -> io::Result<Vec<Profile>> {
    let alloc = rt.alloc();
    let bytes = fs::read(rt, path)?;
    let base = Base {
        labels: labels_of(alloc, path)?,
        name: Name::from_text(alloc, "process_cpu")?,
        fallback_ms: 0,
    };
    match read_pprof(alloc, &bytes, &base) {
        Ok(profiles) => Ok(profiles),
        Err(refused) => Err(stopped(alloc, refused)),
    }
}

// The service is what the file's name has before its last dot.
fn labels_of(alloc: Global, path: &str) -> io::Result<LabelSet>
    ensures { IfOk result AreProfileLabels }
{
    let service = Path::new(path).file_stem().unwrap_or(path);
    if service.is_empty() || service.len() > MAX_VALUE_BYTES {
        return Err(io::Error::other("a file's name is no name of a service"));
    }
    Ok(LabelSet::of_service(alloc, Name::from_text(alloc, service)?)?)
}
