ghost use Rattle.std.specs.Prelude.{◌<◌, ◌≤◌};

use super::*;
use metastore_index::{Entry, Index, MAX_LEVEL};
use std::alloc::Global;
use std::test::Fail;

// So many entries of one push each, of a length and a level.
type Row = (u64, u64, u8);

fn entry(lo: u64, hi: u64, id: u64, length: u64, level: u8) -> Entry
    requires some { lo < hi }
    requires known { level ≤ 3 }
{
    Entry {
        lo,
        hi,
        id,
        length,
        tmin: u64::MAX,
        tmax: 0,
        level,
    }
}

// Puts an entry over the next pushes at the end, and then raises it level by level.
fn put(index: &mut Index, pushes: u64, length: u64, level: u8) -> Result<(), Fail> {
    let lo = index.end();
    let hi = lo.saturating_add(pushes);
    if lo < hi {
        for level in 0..=level.min(MAX_LEVEL) {
            index.apply(entry(lo, hi, index.next_id(), length, level))?;
        }
    }
    Ok(())
}

fn index_of(alloc: Global, rows: &[Row]) -> Result<Index, Fail> {
    let mut index = Index::new(alloc);
    for (count, length, level) in rows {
        for _ in 0..*count {
            put(&mut index, 1, *length, *level)?;
        }
    }
    Ok(index)
}

fn is_due(alloc: Global, rows: &[Row], lo: u64, hi: u64, level: u8) -> Result<bool, Fail> {
    let index = index_of(alloc, rows)?;
    Ok(due(&index).is_some_and(|job| job.lo == lo && job.hi == hi && job.level == level))
}

fn none_is_due(alloc: Global, rows: &[Row]) -> Result<bool, Fail> {
    let index = index_of(alloc, rows)?;
    Ok(due(&index).is_none())
}

const ALMOST: u64 = ENOUGH_BYTES - 1;

#[test]
fn the_fewest_oldest_entries_of_the_lowest_level_are_due(rt: HostRuntime) -> Result<(), Fail> {
    let cases: [(&[Row], u64, u64, u8); 12] = [
        (&[(8, 1, 0)], 0, 8, 0),
        (&[(100, 1, 0)], 0, 8, 0),
        (&[(1, ENOUGH_BYTES, 0)], 0, 1, 0),
        (&[(1, ALMOST, 0), (1, 1, 0)], 0, 2, 0),
        (&[(6, 1, 0), (1, ENOUGH_BYTES, 0), (5, 1, 0)], 0, 7, 0),
        (&[(1, 1, 0), (2, u64::MAX, 0)], 0, 2, 0),
        (&[(1, 0, 0), (1, u64::MAX, 0), (1, 1, 0)], 0, 2, 0),
        (&[(8, 1, 2)], 0, 8, 2),
        (&[(9, 1, 3), (9, 1, 2), (1, 1, 1)], 9, 17, 2),
        (&[(8, 1, 1), (8, 1, 0)], 8, 16, 0),
        (&[(8, 1, 1), (7, 1, 0)], 0, 8, 1),
        (
            &[
                (1, ENOUGH_BYTES, 2),
                (1, 1, 1),
                (1, ENOUGH_BYTES, 1),
                (1, 1, 0),
            ],
            1,
            3,
            1,
        ),
    ];
    for (rows, lo, hi, level) in cases {
        assert!(rt;
            is_due(rt.alloc(), rows, lo, hi, level)?,
            "to {hi} of level {level}"
        );
    }
    Ok(())
}

#[test]
fn no_job_is_due_of_few_short_entries(rt: HostRuntime) -> Result<(), Fail> {
    let cases: [&[Row]; 5] = [
        &[],
        &[(7, 1, 0)],
        &[(1, ALMOST, 2), (1, ALMOST, 1), (1, ALMOST, 0)],
        &[(7, 1, 2), (7, 1, 1), (7, 1, 0)],
        &[(20, ENOUGH_BYTES, 3)],
    ];
    for rows in cases {
        assert!(rt; none_is_due(rt.alloc(), rows)?, "of {} rows", rows.len());
    }
    Ok(())
}

// Merges the job that is due, and tells its pushes and its level.
fn merge_due(index: &mut Index) -> Result<Option<(u64, u64, u8)>, Fail> {
    let Some(job) = due(index) else {
        return Ok(None);
    };
    index.apply(entry(job.lo, job.hi, index.next_id(), 1, job.level + 1))?;
    Ok(Some((job.lo, job.hi, job.level)))
}

fn merges_in_turn(alloc: Global) -> Result<bool, Fail> {
    let mut index = index_of(alloc, &[(64, 1, 0)])?;
    for k in 0..8 {
        if merge_due(&mut index)? != Some((8 * k, 8 * k + 8, 0)) {
            return Ok(false);
        }
    }
    Ok(merge_due(&mut index)? == Some((0, 64, 1)) && merge_due(&mut index)?.is_none())
}

// How many entries live once so many of 64 pushes each are merged as far as a job is due.
fn live_of(alloc: Global, entries: u64) -> Result<usize, Fail> {
    let mut index = Index::new(alloc);
    for _ in 0..entries {
        put(&mut index, 64, 1, 0)?;
    }
    for _ in 0..entries {
        if merge_due(&mut index)?.is_none() {
            break;
        }
    }
    Ok(index.entries().len())
}

#[test]
fn jobs_are_due_until_few_entries_are_left(rt: HostRuntime) -> Result<(), Fail> {
    assert!(rt; merges_in_turn(rt.alloc())?);
    for (entries, live) in [(1, 1), (16, 2), (32, 4), (72, 2), (512, 1)] {
        assert_eq!(rt; live_of(rt.alloc(), entries)?, live, "of {entries}");
    }
    Ok(())
}
