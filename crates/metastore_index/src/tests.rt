ghost use Rattle.std.specs.Prelude.{◌<◌, ◌≤◌};

use super::*;
use faults::Refused;
use std::alloc::Global;
use std::test::Fail;

fn entry(lo: u64, hi: u64, id: u64, level: u8) -> Entry
    requires some { lo < hi }
    requires known { level ≤ 3 }
{
    Entry {
        lo,
        hi,
        id,
        length: 0x32,
        tmin: u64::MAX,
        tmax: 0,
        level,
    }
}

// Eight pushes, an entry for each.
fn eight(alloc: Global) -> Result<Index, Fail> {
    let mut index = Index::new(alloc);
    for number in 0..8 {
        index.apply(entry(number, number + 1, number + 1, 0))?;
    }
    Ok(index)
}

#[test]
fn a_record_has_the_highest_byte_first(rt: HostRuntime) {
    let mut body = [0; 63];
    body[15] = 1;
    body[23] = 1;
    body[31] = 0x32;
    for byte in body[32..40].iter_mut() {
        *byte = 0xFF;
    }
    assert!(rt; entry(0, 1, 1, 0).body() == body);
    assert_eq!(rt; Entry::read(&body), Some(entry(0, 1, 1, 0)));
}

// The slot of docs/FORMATS.md for its object of 30 bytes: a first byte, and the body.
const SLOT: &str = "01\
    000000000000000000000000000000010000000000000001000000000000001e\
    ffffffffffffffff0000000000000000000000000000000000000000000000";

fn body_of_slot() -> Result<[u8; 63], Fail> {
    let mut body = [0; 63];
    for (i, byte) in body.iter_mut().enumerate() {
        let digits = SLOT.get(2 * i + 2..2 * i + 4).unwrap_or("");
        *byte = u8::from_str_radix(digits, 16)?;
    }
    Ok(body)
}

#[test]
fn the_record_of_one_empty_push_is_the_documents(rt: HostRuntime) -> Result<(), Fail> {
    let record = Entry {
        lo: 0,
        hi: 1,
        id: 1,
        length: 30,
        tmin: u64::MAX,
        tmax: 0,
        level: 0,
    };
    assert!(rt; record.body() == body_of_slot()?);
    Ok(())
}

#[test]
fn a_record_of_no_entry_is_refused(rt: HostRuntime) {
    // The end isn't above the start, the level is 4, the last byte isn't 0.
    for (place, byte) in [(7, 1), (48, 4), (62, 1)] {
        let mut body = entry(0, 1, 1, 0).body();
        body[place] = byte;
        assert_eq!(rt; Entry::read(&body), None, "at {place}");
    }
}

#[test]
fn an_entry_stands_in_for_the_run_that_it_covers(rt: HostRuntime) -> Result<(), Fail> {
    let mut index = eight(rt.alloc())?;
    assert_eq!(rt; index.run(0, 8), Some(0));
    let merged = entry(0, 8, 9, 1);
    index.apply(merged)?;
    assert_eq!(rt; index.entries().len(), 1);
    assert_eq!(rt; index.cover(7), Some(merged));
    assert_eq!(rt; index.cover(8), None);
    assert_eq!(rt; index.run(0, 8), Some(1));
    assert_eq!(rt; index.end(), 8);
    assert_eq!(rt; index.next_id(), 10);
    Ok(())
}

#[test]
fn a_run_begins_with_the_oldest_of_its_level(rt: HostRuntime) -> Result<(), Fail> {
    let mut index = eight(rt.alloc())?;
    assert_eq!(rt;
        index.apply(entry(4, 8, 9, 1)),
        Err(Refused::Fault(ApplyFault::NotARun))
    );
    assert_eq!(rt; index.entries().len(), 8);
    index.apply(entry(0, 4, 9, 1))?;
    index.apply(entry(4, 8, 10, 1))?;
    assert_eq!(rt; index.entries().len(), 2);
    assert_eq!(rt; index.run(0, 8), Some(1));
    assert_eq!(rt; index.run(4, 8), None);
    Ok(())
}

// Whether the level's entries hold just these pushes.
fn has_level(index: &Index, level: u8, lo: u64, hi: u64) -> bool {
    match index.of_level(level) {
        [first, .., last] => first.lo == lo && last.hi == hi,
        [only] => only.lo == lo && only.hi == hi,
        [] => false,
    }
}

// Eight pushes, the first four of them in one entry of level 1.
fn tells_levels(alloc: Global) -> Result<bool, Fail> {
    let mut index = eight(alloc)?;
    index.apply(entry(0, 4, 9, 1))?;
    let others = index.of_level(2).is_empty() && index.of_level(9).is_empty();
    Ok(others && has_level(&index, 1, 0, 4) && has_level(&index, 0, 4, 8))
}

#[test]
fn the_entries_of_a_level_are_told(rt: HostRuntime) -> Result<(), Fail> {
    assert!(rt; tells_levels(rt.alloc())?);
    Ok(())
}

#[test]
fn an_id_is_above_all_that_were_taken(rt: HostRuntime) -> Result<(), Fail> {
    let mut index = eight(rt.alloc())?;
    for id in [1, 8, 1 << 63] {
        assert_eq!(rt;
            index.apply(entry(8, 9, id, 0)),
            Err(Refused::Fault(ApplyFault::NotARun)),
            "at {id}"
        );
    }
    index.apply(entry(8, 9, (1 << 63) - 1, 0))?;
    assert_eq!(rt; index.next_id(), 1 << 63);
    Ok(())
}

#[test]
fn after_room_an_entry_takes_no_memory(rt: HostRuntime) -> Result<(), Fail> {
    let mut index = eight(rt.alloc())?;
    index.room()?;
    assert_eq!(rt; index.apply(entry(8, 9, 9, 0)), Ok(()));
    Ok(())
}

// Whether eight entries refuse this one and stay as they are.
fn is_refused(alloc: Global, entry: Entry) -> Result<bool, Fail> {
    let mut index = eight(alloc)?;
    let refused = index.apply(entry) == Err(Refused::Fault(ApplyFault::NotARun));
    Ok(refused && index.entries().len() == 8 && index.next_id() == 9)
}

#[test]
fn an_entry_without_a_place_is_refused(rt: HostRuntime) -> Result<(), Fail> {
    let alloc = rt.alloc();
    // A gap, a level too high, an id used again, an id of 2^63, a run that begins behind the oldest.
    for (lo, hi, id, level) in [
        (9, 10, 9, 0),
        (0, 8, 9, 2),
        (8, 9, 8, 0),
        (8, 9, 1 << 63, 0),
        (4, 8, 9, 1),
    ] {
        assert!(rt;
            is_refused(alloc, entry(lo, hi, id, level))?,
            "from {lo}, {id}"
        );
    }
    Ok(())
}

// What a list says in place of an index: from where to where, and the level.
type Run = (u64, u64, u8);

// Puts a run in the place of those within it, or behind all.
fn put(runs: &mut Vec<Run>, lo: u64, hi: u64, level: u8) -> Result<(), Fail> {
    runs.retain(|run| run.1 <= lo || hi <= run.0);
    let at = runs.iter().filter(|run| run.1 <= lo).count();
    Ok(runs.insert(at, (lo, hi, level))?)
}

// From where to where the first four runs of the level go, where there are eight.
fn first_four(runs: &[Run], level: u8) -> Option<(u64, u64)> {
    let mut count: usize = 0;
    let mut lo = 0;
    let mut hi = 0;
    for run in runs {
        if run.2 == level {
            if count == 0 {
                lo = run.0;
            }
            if count == 3 {
                hi = run.1;
            }
            count = count.saturating_add(1);
        }
    }
    if count < 8 { None } else { Some((lo, hi)) }
}

fn run_of(entry: &Entry) -> Run {
    (entry.lo, entry.hi, entry.level)
}

fn are_alike(entries: &[Entry], runs: &[Run]) -> bool {
    entries.iter().map(run_of).eq(runs.iter().copied())
}

// Whether an index and a list are alike once both took the entry.
fn both_take(index: &mut Index, runs: &mut Vec<Run>, run: Run) -> Result<bool, Fail> {
    let (lo, hi, level) = run;
    if lo >= hi || level > MAX_LEVEL {
        return Ok(false);
    }
    index.apply(entry(lo, hi, index.next_id(), level))?;
    put(runs, lo, hi, level)?;
    Ok(are_alike(index.entries(), runs))
}

// Whether they are alike after all replacements that are due, level by level.
fn both_merge(index: &mut Index, runs: &mut Vec<Run>) -> Result<bool, Fail> {
    for level in 0..MAX_LEVEL {
        if let Some((lo, hi)) = first_four(runs, level) {
            let found = index.run(lo, hi) == Some(level);
            if !both_take(index, runs, (lo, hi, level + 1))? || !found {
                return Ok(false);
            }
        }
    }
    Ok(true)
}

fn covers_alike(index: &Index, runs: &[Run], at: u64) -> bool {
    let cover = index.cover(at).map(|entry| run_of(&entry));
    let run = runs.iter().find(|run| run.0 <= at && at < run.1).copied();
    cover == run
}

fn are_alike_throughout(alloc: Global, pushes: u64) -> Result<bool, Fail> {
    let mut index = Index::new(alloc);
    let mut runs = Vec::new(alloc);
    for number in 0..pushes {
        if !both_take(&mut index, &mut runs, (number, number + 1, 0))? {
            return Ok(false);
        }
        if !both_merge(&mut index, &mut runs)? {
            return Ok(false);
        }
    }
    let highest = runs.first().is_some_and(|run| run.2 == MAX_LEVEL);
    Ok(highest && (0..=pushes).all(|at| covers_alike(&index, &runs, at)))
}

#[test]
fn an_index_of_a_thousand_pushes_is_as_a_list_has_it(rt: HostRuntime) -> Result<(), Fail> {
    assert!(rt; are_alike_throughout(rt.alloc(), 1000)?);
    Ok(())
}
