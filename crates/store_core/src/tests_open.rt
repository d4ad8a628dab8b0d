// Folders that something damaged, and objects that no record lists.

use super::*;
use crate::tests::{Act, after, opened, opens_to};
use disk_trait::{Disk, FileId, MemoryDisk};
use metastore_index::{Entry, MAX_LEVEL};
use std::alloc::Global;
use std::test::Fail;

// The most that all values of t2 may come to.
const MOST: u64 = (1 << 63) - 1;

// A disk with an object for each of these pushes of t2, by their values.
fn disk_of(alloc: Global, values: &[u64]) -> Result<MemoryDisk, Fail> {
    let mut disk = MemoryDisk::new(alloc);
    for value in values {
        disk = with_one_more(alloc, disk, *value)?;
    }
    Ok(disk)
}

fn with_one_more(alloc: Global, disk: MemoryDisk, value: u64) -> Result<MemoryDisk, Fail> {
    after(alloc, disk, &[Act::Settle(&[("t2", value, 0)])])
}

// A disk with one object for these pushes.
fn disk_with(alloc: Global, rows: &[(&str, u64, u64)]) -> Result<MemoryDisk, Fail> {
    after(alloc, MemoryDisk::new(alloc), &[Act::Settle(rows)])
}

// What a file holds.
fn bytes_of(alloc: Global, disk: &mut MemoryDisk, file: FileId) -> Result<Vec<u8>, Fail> {
    let length = disk.length(file)?.unwrap_or(0);
    let mut bytes = Vec::from_elem(alloc, 0, length as usize)?;
    disk.read_at(file, 0, &mut bytes)?;
    Ok(bytes)
}

// The file holds these bytes and no others.
fn replace(disk: &mut MemoryDisk, file: FileId, bytes: &[u8]) -> Result<(), Fail> {
    disk.remove(file)?;
    disk.write_at(file, 0, bytes)?;
    Ok(())
}

const FIRST: FileId = FileId::Object(1);

const SECOND: FileId = FileId::Object(2);

const THIRD: FileId = FileId::Object(3);

const INDEX: FileId = FileId::Index(0);

// Whether the first object, with these bytes, is to blame.
fn first_is_blamed_with(alloc: Global, bytes: &[u8]) -> Result<bool, Fail> {
    let mut disk = disk_of(alloc, &[7, 7])?;
    replace(&mut disk, FIRST, bytes)?;
    Ok(opens_to(alloc, disk)?.as_str() == "obj-0000000000000001")
}

fn shortened(alloc: Global) -> Result<Vec<u8>, Fail> {
    let mut bytes = bytes_of(alloc, &mut disk_of(alloc, &[7])?, FIRST)?;
    let _ = bytes.pop();
    Ok(bytes)
}

// An object of as many bytes and of another push.
fn others(alloc: Global) -> Result<Vec<u8>, Fail> {
    bytes_of(alloc, &mut disk_of(alloc, &[7, 7])?, SECOND)
}

// An object of as many bytes, whose profile has another time.
fn later(alloc: Global) -> Result<Vec<u8>, Fail> {
    bytes_of(alloc, &mut disk_of(alloc, &[8])?, FIRST)
}

fn removed_is_blamed(alloc: Global) -> Result<bool, Fail> {
    let mut disk = disk_of(alloc, &[7, 7])?;
    disk.remove(SECOND)?;
    Ok(opens_to(alloc, disk)?.as_str() == "obj-0000000000000002")
}

#[test]
fn an_object_that_is_not_its_entrys_is_to_blame(rt: HostRuntime) -> Result<(), Fail> {
    let alloc = rt.alloc();
    assert!(rt; removed_is_blamed(alloc)?);
    assert!(rt; first_is_blamed_with(alloc, &shortened(alloc)?)?);
    assert!(rt; first_is_blamed_with(alloc, &others(alloc)?)?);
    assert!(rt; first_is_blamed_with(alloc, &later(alloc)?)?);
    Ok(())
}

// A disk whose one entry, of an object of two pushes, ends at this push. The last byte of its end is the 17th of the file.
fn with_end(alloc: Global, hi: u8) -> Result<String, Fail> {
    let mut disk = disk_with(alloc, &[("t2", 7, 0), ("t2", 4, 0)])?;
    let mut bytes = bytes_of(alloc, &mut disk, INDEX)?;
    if let Some(byte) = bytes.get_mut(16) {
        *byte = hi;
    }
    replace(&mut disk, INDEX, &bytes)?;
    opens_to(alloc, disk)
}

fn end_says(alloc: Global, hi: u8, want: &str) -> Result<bool, Fail> {
    let text = with_end(alloc, hi)?;
    Ok(text.as_str() == want)
}

#[test]
fn an_object_of_another_count_of_pushes_is_to_blame(rt: HostRuntime) -> Result<(), Fail> {
    let alloc = rt.alloc();
    assert!(rt; end_says(alloc, 1, "obj-0000000000000001")?);
    assert!(rt; end_says(alloc, 2, "2 0 2")?);
    assert!(rt; end_says(alloc, 3, "obj-0000000000000001")?);
    Ok(())
}

fn shorten(alloc: Global, disk: &mut MemoryDisk, file: FileId) -> Result<(), Fail> {
    let mut bytes = bytes_of(alloc, disk, file)?;
    let _ = bytes.pop();
    replace(disk, file, &bytes)
}

// Three objects, of which one is shortened and another one removed.
fn with_two_faults(alloc: Global, shorter: FileId, removed: FileId) -> Result<String, Fail> {
    let mut disk = disk_of(alloc, &[7, 7, 7])?;
    shorten(alloc, &mut disk, shorter)?;
    disk.remove(removed)?;
    opens_to(alloc, disk)
}

fn two_faults_say(
    alloc: Global,
    shorter: FileId,
    removed: FileId,
    want: &str,
) -> Result<bool, Fail> {
    let text = with_two_faults(alloc, shorter, removed)?;
    Ok(text.as_str() == want)
}

#[test]
fn of_two_faults_the_earliest_is_to_blame(rt: HostRuntime) -> Result<(), Fail> {
    for (shorter, removed, want) in [
        (FIRST, SECOND, "obj-0000000000000001"),
        (SECOND, FIRST, "obj-0000000000000001"),
        (SECOND, THIRD, "obj-0000000000000002"),
        (THIRD, SECOND, "obj-0000000000000002"),
    ] {
        assert!(rt;
            two_faults_say(rt.alloc(), shorter, removed, want)?,
            "{shorter} and {removed}"
        );
    }
    Ok(())
}

// Two objects, the first of which has this value in the place of 7.
fn with_first_value(alloc: Global, value: u64) -> Result<String, Fail> {
    let mut disk = disk_of(alloc, &[7, MOST - 7])?;
    let bytes = bytes_of(alloc, &mut disk_of(alloc, &[value])?, FIRST)?;
    replace(&mut disk, FIRST, &bytes)?;
    opens_to(alloc, disk)
}

fn total_says(alloc: Global, value: u64, want: &str) -> Result<bool, Fail> {
    let text = with_first_value(alloc, value)?;
    Ok(text.as_str() == want)
}

#[test]
fn the_object_that_takes_a_total_above_its_bound_is_to_blame(rt: HostRuntime) -> Result<(), Fail> {
    let alloc = rt.alloc();
    assert!(rt; total_says(alloc, 7, "2 0 2")?);
    assert!(rt; total_says(alloc, 57, "obj-0000000000000002")?);
    Ok(())
}

// An index file of two records, with this one as its third.
fn with_third(two: Vec<u8>, entry: &Entry) -> Result<Vec<u8>, Fail> {
    let mut bytes = two;
    bytes.truncate(128);
    bytes.push(1)?;
    bytes.extend_from_slice(&entry.body())?;
    Ok(bytes)
}

fn with_record(alloc: Global, entry: &Entry) -> Result<String, Fail> {
    let mut disk = disk_of(alloc, &[7, 7])?;
    let bytes = with_third(bytes_of(alloc, &mut disk, INDEX)?, entry)?;
    replace(&mut disk, INDEX, &bytes)?;
    opens_to(alloc, disk)
}

// What a disk of two pushes opens to whose third record has these numbers.
fn record_says(
    alloc: Global,
    lo: u64,
    hi: u64,
    id: u64,
    level: u8,
    want: &str,
) -> Result<bool, Fail> {
    if lo >= hi || level > MAX_LEVEL {
        return Ok(false);
    }
    let entry = Entry {
        lo,
        hi,
        id,
        length: 30,
        tmin: 0,
        tmax: 0,
        level,
    };
    let text = with_record(alloc, &entry)?;
    Ok(text.as_str() == want)
}

#[test]
fn an_index_whose_records_leave_none_is_to_blame(rt: HostRuntime) -> Result<(), Fail> {
    let index = "index-0000000000000000";
    for (lo, hi, id, level) in [
        (3, 4, 3, 0),
        (2, 3, 2, 0),
        (1, 2, 3, 1),
        (2, 3, 3, 1),
        (0, 3, 3, 1),
        (0, 2, 3, 2),
        (0, 2, 2, 1),
    ] {
        assert!(rt;
            record_says(rt.alloc(), lo, hi, id, level, index)?,
            "{lo} to {hi} of level {level}"
        );
    }
    Ok(())
}

// They are taken, and their object isn't there.
#[test]
fn records_of_a_push_more_and_of_runs_are_taken(rt: HostRuntime) -> Result<(), Fail> {
    let object = "obj-0000000000000003";
    for (lo, hi, level) in [(2, 3, 0), (0, 1, 1), (0, 2, 1)] {
        assert!(rt;
            record_says(rt.alloc(), lo, hi, 3, level, object)?,
            "{lo} to {hi} of level {level}"
        );
    }
    Ok(())
}

// An index file of two records and of a third one, of level 1 and of object 3, that is else the first one of another file.
fn with_run(two: Vec<u8>, other: &[u8]) -> Result<Vec<u8>, Fail> {
    let mut bytes = two;
    bytes.truncate(128);
    for (at, byte) in other.iter().enumerate().take(64) {
        bytes.push(match at {
            24 => 3,
            49 => 1,
            _ => *byte,
        })?;
    }
    Ok(bytes)
}

// A file of a disk with the pushes of both in one object.
fn of_both(alloc: Global, file: FileId) -> Result<Vec<u8>, Fail> {
    let mut disk = disk_with(alloc, &[("t2", 7, 0), ("t2", 4, 0)])?;
    bytes_of(alloc, &mut disk, file)
}

fn put_run(alloc: Global, disk: &mut MemoryDisk) -> Result<(), Fail> {
    let two = bytes_of(alloc, disk, INDEX)?;
    let bytes = with_run(two, &of_both(alloc, INDEX)?)?;
    replace(disk, INDEX, &bytes)
}

// A disk of two objects, and of a third one that holds the pushes of both.
fn merged(alloc: Global) -> Result<String, Fail> {
    let mut disk = disk_of(alloc, &[7, 4])?;
    put_run(alloc, &mut disk)?;
    replace(&mut disk, THIRD, &of_both(alloc, FIRST)?)?;
    opens_to(alloc, disk)
}

fn merged_says(alloc: Global, want: &str) -> Result<bool, Fail> {
    let text = merged(alloc)?;
    Ok(text.as_str() == want)
}

#[test]
fn a_record_of_a_run_stands_in_for_its_entries(rt: HostRuntime) -> Result<(), Fail> {
    assert!(rt; merged_says(rt.alloc(), "2 0 2")?);
    Ok(())
}

// Whether an object that no record lists is there after an opening.
fn spare_stays(alloc: Global) -> Result<bool, Fail> {
    let mut disk = disk_of(alloc, &[7, 7])?;
    disk.write_at(FileId::Object(7), 0, &[1])?;
    let Ok(store) = opened(alloc, disk)? else {
        return Ok(true);
    };
    let mut disk = store.close();
    Ok(disk.length(FileId::Object(7))?.is_some() || disk.length(SECOND)?.is_none())
}

#[test]
fn an_opening_removes_objects_that_no_record_lists(rt: HostRuntime) -> Result<(), Fail> {
    assert!(rt; !spare_stays(rt.alloc())?);
    Ok(())
}
