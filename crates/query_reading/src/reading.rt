// Reading all of a history, part by part.
ghost use Rattle.std.specs.Prelude.{◌≡◌, ◌≢◌, ◌+◌, ◌<◌, ◌≤◌, ◌++◌, ◌↔◌, ℕ, List, Err, None, true, IfOk, IfSome, IsTrue, OnOk};
ghost use Rattle.std.specs.List.{All};
ghost use Rattle.disk_trait.specs.Disk.{Rose};
ghost use Rattle.history_pass.specs.Marks.{Below};
ghost use Rattle.profile_model.specs.Limits.{total_bound};
ghost use Rattle.profile_model.specs.Pushes.{profiles_total};
ghost use Rattle.profile_model.specs.declared.profile.Profile.{Profile};
ghost use Rattle.push_history.specs.History.{HasBoundedTotals};
ghost use Rattle.query_merge.specs.Rows.{profiles_of};
ghost use Rattle.shared_store.specs.Cursors.{IsOwn};
ghost use Rattle.query_reading.specs.Reading.{IsFresh, profiles_in};

use crate::gather::Gather;
use history_pass::Pass;
use profile_model::MAX_TOTAL;
use segment_file::{Part, Row};
use shared_store::{Cursor, Gate, Names, Profiles};
use std::alloc::Global;
use store_core::ReadFault;

/// Why a history wasn't read to its end.
#[derive(Clone, Copy, Debug, PartialEq, Eq)]
pub enum ReadingFault {
    Memory,
    /// The disk failed, and has counted so many faults.
    Disk(u64),
    /// What was read can't be of the history. This doesn't come where the disk tells what it holds.
    Damaged,
}

impl From<ReadFault> for ReadingFault {
    ghost use Rattle.shared_store.specs.Cursors.{IsOwn};
    ghost use Rattle.query_reading.specs.Reading.{fault_of};

    ghost from_gives = { λ fault reading. reading ≡ fault_of fault };

    fn from(fault: ReadFault) -> ReadingFault {
        match fault {
            ReadFault::Memory => ReadingFault::Memory,
            ReadFault::Disk(count) => ReadingFault::Disk(count),
            ReadFault::Damaged(_) => ReadingFault::Damaged,
        }
    }
}

// What values come to with those of the rows, and none where that passes what a tenant's may come to.
fn total_with(before: u64, rows: &[Row]) -> Option<u64>
    requires { before < total_bound }
    ensures some { IfSome result (λ total. (total ≡ before + profiles_total (profiles_of rows.now)) × (total < total_bound)) }
    ensures none { result ≡ None → total_bound ≤ before + profiles_total (profiles_of rows.now) }
{
    let mut total = before;
    for row in rows {
        total += row.profile.values.total();
        if total > MAX_TOTAL {
            return None;
        }
    }
    Some(total)
}

fn are_within(rows: &[Row], latest: u64) -> bool
    ensures { IsTrue result ↔ All (λ row. row.profile.time_ms ≤ latest) rows.now }
{
    rows.iter().all(|row| row.profile.time_ms <= latest)
}

// Gathers a part, behind parts whose values come to so much, and gives what they come to with it.
fn take_part<S: Gather>(gathered: &mut S, before: u64, part: &Part) -> Result<u64, ReadingFault>
    requires room { before < total_bound }
    requires held { S.total gathered.old ≤ before }
    ensures more { (asked : S) → (profiles : List Profile) → S.holds asked gathered.old profiles → OnOk result (S.holds asked gathered.new (profiles ++ profiles_of part.now.rows)) }
    ensures total { IfOk result (λ total. (total ≡ before + profiles_total (profiles_of part.now.rows)) × (total < total_bound)) }
    ensures held { IfOk result (λ total. S.total gathered.new ≤ total) }
    ensures same { OnOk result (S.latest gathered.new ≡ S.latest gathered.old) }
    ensures damaged { result ≡ Err ReadingFault.Damaged → All (λ row. row.profile.time_ms ≤ S.latest gathered.old) part.now.rows
        → total_bound ≤ before + profiles_total (profiles_of part.now.rows) }
    ensures others { (count : ℕ) → result ≢ Err (ReadingFault.Disk count) }
{
    let Some(total) = total_with(before, &part.rows) else {
        return Err(ReadingFault::Damaged);
    };
    if !are_within(&part.rows, gathered.latest()) {
        return Err(ReadingFault::Damaged);
    }
    match gathered.gather(part) {
        Ok(()) => Ok(total),
        Err(_) => Err(ReadingFault::Memory),
    }
}

/// Gathers all that a cursor's query finds in the list that its pass had when it began, part by part. Where it stops, what was
/// read until then may be gathered. The gate is called behind each part.
pub fn read_all<J: Names, P: Profiles<J>, S: Gather, G: Gate>(
    alloc: Global,
    profiles: &mut P,
    pass: &mut Pass<J>,
    cursor: &mut Cursor,
    gathered: &mut S,
    gate: &G,
    connection: u64,
) -> Result<(), ReadingFault>
    requires fresh { IsFresh pass.old.list cursor.old }
    requires none { S.total gathered.old ≡ 0 }
    ensures rows { (asked : S) → (profiles : List Profile) → J.run.tells → S.holds asked gathered.old profiles → OnOk result (S.holds asked gathered.new (profiles ++ profiles_in pass.old.list cursor.old.ask)) }
    ensures damaged { J.run.tells → HasBoundedTotals pass.old.list → cursor.old.ask.until_ms ≤ S.latest gathered.old → result ≢ Err ReadingFault.Damaged }
    ensures failed { (count : ℕ) → result ≡ Err (ReadingFault.Disk count) → Rose pass.old.faults count × (count ≤ pass.new.faults) }
    ensures below { Below pass.old pass.new }
    ensures alone { P.alone profiles.new ≡ P.alone profiles.old }
    ensures own { IsOwn (P.alone profiles.old) pass.old.list → IsOwn (P.alone profiles.old) pass.new.list }
    ensures read { OnOk result (cursor.new ≡ record cursor.old { at = cursor.old.until }) }
{
    let mut total = 0;
    let mut number = 0u64;
    while let Some(part) = profiles.next_part(alloc, pass, cursor)? {
        total = take_part(gathered, total, &part)?;
        number = number.saturating_add(1);
        gate.between_parts(connection, number);
    }
    Ok(())
}
