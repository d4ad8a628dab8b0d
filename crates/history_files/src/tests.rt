// Files that calls wrote, and what is read of them.
ghost use Rattle.std.specs.Prelude.{◌<◌, IsTrue};
ghost use Rattle.std.specs.List.{All};
ghost use Rattle.segment_file.specs.Laws.{IsLight};

use super::*;
use disk_trait::{Disk, FileId, MemoryDisk};
use metastore_index::Entry;
use profile_model::{MAX_WEIGHT, Profiles, Push, Tenant};
use segment_file::Object;
use std::alloc::Global;
use std::test::Fail;

const RECORDS: u64 = 4;

fn pushes(alloc: Global, count: usize) -> Result<Vec<Push>, Fail> {
    let mut pushes = Vec::new(alloc);
    for _ in 0..count {
        let tenant = Tenant::read(alloc, b"t1")?;
        let profiles = Profiles::from_vec(Vec::new(alloc));
        pushes.push(Push { tenant, profiles })?;
    }
    Ok(pushes)
}

fn are_light(pushes: &[Push]) -> bool
    ensures { IsTrue result → All IsLight pushes.now }
{
    pushes.iter().all(|push| push.weight() <= MAX_WEIGHT)
}

// The object of these pushes, where they are some and within their limit of weight.
fn object(lo: u8, pushes: Vec<Push>) -> Option<Object> {
    if pushes.is_empty() || !are_light(&pushes) {
        return None;
    }
    Some(Object::of_light(u64::from(lo), pushes))
}

// An object of so many pushes, as its file and its entry.
fn spelled(alloc: Global, lo: u8, id: u64, count: usize) -> Result<Option<(Entry, Vec<u8>)>, Fail> {
    let Some(object) = object(lo, pushes(alloc, count)?) else {
        return Ok(None);
    };
    let bytes = object.encode(alloc)?;
    let entry = entry_of(&object, id, bytes.len() as u64, 0);
    Ok(Some((entry, bytes)))
}

// Commits so many pushes, where the index file has room and no file is in the way.
fn add<D: Disk>(alloc: Global, disk: &mut D, count: usize) -> Result<bool, Fail> {
    let (mut journal, index) = open_index(disk, alloc, RECORDS)?;
    let lo = u8::try_from(index.end())?;
    let Some((entry, bytes)) = spelled(alloc, lo, index.next_id(), count)? else {
        return Ok(false);
    };
    if journal.bodies() >= RECORDS {
        return Ok(false);
    }
    if disk.length(FileId::Object(entry.id))?.is_some() {
        return Ok(false);
    }
    Ok(commit(disk, &mut journal, &entry, &bytes).is_ok())
}

// The pushes of each entry, and a `?` where its object isn't there.
fn text_of<D: Disk>(alloc: Global, disk: &mut D) -> Result<String, Fail> {
    let (_journal, index) = open_index(disk, alloc, RECORDS)?;
    let mut text = String::new(alloc);
    for entry in index.entries() {
        match read_object(disk, alloc, entry)? {
            Some(object) => {
                let (lo, hi) = (object.lo(), object.hi());
                text.push_str(format!(in alloc; "{lo}-{hi} ")?.as_str())?;
            }
            None => text.push_str("? ")?,
        }
    }
    Ok(text)
}

fn says<D: Disk>(alloc: Global, disk: &mut D, want: &str) -> Result<bool, Fail> {
    let text = text_of(alloc, disk)?;
    Ok(text.as_str() == want)
}

// Two commits, of one push and of two.
fn two(alloc: Global) -> Result<MemoryDisk, Fail> {
    let mut disk = MemoryDisk::new(alloc);
    add(alloc, &mut disk, 1)?;
    add(alloc, &mut disk, 2)?;
    Ok(disk)
}

fn two_say(alloc: Global, want: &str) -> Result<bool, Fail> {
    let mut disk = two(alloc)?;
    says(alloc, &mut disk, want)
}

fn image_says(alloc: Global, disk: &MemoryDisk, moment: u64, pick: u8) -> Result<bool, Fail> {
    let mut image = disk.image(alloc, moment, pick)?;
    let text = text_of(alloc, &mut image)?;
    Ok(text.as_str() == "" || text.as_str() == "0-1 " || text.as_str() == "0-1 1-3 ")
}

// Whether each image of each moment of two commits has none, the first or both of them.
fn images_say(alloc: Global, pick: u8) -> Result<bool, Fail> {
    let disk = two(alloc)?;
    for moment in 0..disk.calls() {
        if !image_says(alloc, &disk, moment, pick)? {
            return Ok(false);
        }
    }
    Ok(true)
}

#[test]
fn commits_are_read_again_and_a_crash_leaves_a_front_of_them(rt: HostRuntime) -> Result<(), Fail> {
    let alloc = rt.alloc();
    assert!(rt; two_say(alloc, "0-1 1-3 ")?);
    for pick in 0..4 {
        assert!(rt; images_say(alloc, pick)?, "pick {pick}");
    }
    Ok(())
}

// How many files are left, where the objects 1 and 7 are there, and the root.
fn left_by(alloc: Global, live: &[Entry]) -> Result<usize, Fail> {
    let mut disk = MemoryDisk::new(alloc);
    disk.write_at(FileId::Object(1), 0, &[1])?;
    disk.write_at(FileId::Object(7), 0, &[1])?;
    disk.write_at(FileId::Root, 0, &[1])?;
    sync_all(&mut disk, alloc)?;
    remove_spares(&mut disk, alloc, live)?;
    Ok(disk.files(alloc)?.len())
}

fn entry(lo: u64, hi: u64, id: u64, length: u64, times: (u64, u64)) -> Entry
    requires { lo < hi }
{
    Entry {
        lo,
        hi,
        id,
        length,
        tmin: times.0,
        tmax: times.1,
        level: 0,
    }
}

// Of no profile.
const NEVER: (u64, u64) = (u64::MAX, 0);

#[test]
fn objects_of_no_entry_are_removed(rt: HostRuntime) -> Result<(), Fail> {
    assert_eq!(rt; left_by(rt.alloc(), &[])?, 1);
    assert_eq!(rt; left_by(rt.alloc(), &[entry(0, 1, 1, 30, NEVER)])?, 2);
    Ok(())
}

// Whether the entry's object is there, on a disk with one object of one push without profiles.
fn is_found(alloc: Global, entry: &Entry) -> Result<bool, Fail> {
    let mut disk = MemoryDisk::new(alloc);
    add(alloc, &mut disk, 1)?;
    Ok(read_object(&mut disk, alloc, entry)?.is_some())
}

#[test]
fn an_object_is_its_entrys_alone(rt: HostRuntime) -> Result<(), Fail> {
    for (entry, found) in [
        (entry(0, 1, 1, 30, NEVER), true),
        (entry(0, 1, 2, 30, NEVER), false),
        (entry(0, 2, 1, 30, NEVER), false),
        (entry(0, 1, 1, 31, NEVER), false),
        (entry(0, 1, 1, 30, (5, 0)), false),
        (entry(0, 1, 1, 30, (u64::MAX, 5)), false),
    ] {
        assert_eq!(rt; is_found(rt.alloc(), &entry)?, found);
    }
    Ok(())
}

// Whether an index file of this one record opens.
fn opens(alloc: Global, entry: &Entry) -> Result<bool, Fail> {
    let mut disk = MemoryDisk::new(alloc);
    let body = entry.body();
    disk.write_at(FileId::Index(0), 0, &[1])?;
    disk.write_at(FileId::Index(0), 1, &body)?;
    Ok(open_index(&mut disk, alloc, RECORDS).is_ok())
}

#[test]
fn an_index_file_has_records_below_their_bounds(rt: HostRuntime) -> Result<(), Fail> {
    for (entry, want) in [
        (entry(0, 1, 1, 30, NEVER), true),
        (entry(0, (1 << 63) - 1, 1, 30, NEVER), true),
        (entry(0, 1 << 63, 1, 30, NEVER), false),
        (entry(0, 1, 1, (1 << 32) - 1, NEVER), true),
        (entry(0, 1, 1, 1 << 32, NEVER), false),
        (entry(1, 2, 1, 30, NEVER), false),
    ] {
        assert_eq!(rt; opens(rt.alloc(), &entry)?, want);
    }
    Ok(())
}
