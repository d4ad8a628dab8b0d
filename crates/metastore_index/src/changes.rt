// What an entry makes of the others.
ghost use Rattle.std.specs.Prelude.{◌≡◌, [], ◌∷◌, ◌++◌, ◌+◌, ◌-◌, ◌≤◌, IsErrOf, OnErr, OnOk, length};
ghost use Rattle.metastore_index.specs.Entries.{AreEntries, Becomes, Follows, HasPlace, HasRun};

use crate::entry::Entry;
use crate::fault::ApplyFault;
use crate::runs::{end_of, find_run};
use faults::Refused;

// Takes an entry that follows the last one, or stands in for a run of the level below its own.
pub(crate) fn take_in(entries: &mut Vec<Entry>, entry: Entry) -> Result<(), Refused<ApplyFault>>
    requires { AreEntries entries.old.items }
    ensures ok { OnOk result (HasPlace entries.old.items entry × Becomes entries.old.items entry entries.new.items) }
    ensures refused { IsErrOf result (Refused.Fault ApplyFault.NotARun) → ¬ (HasPlace entries.old.items entry) }
    ensures memory { IsErrOf result Refused.Memory → (entries.old.cap ≤ length entries.old.items) × Follows entries.old.items entry }
    ensures unchanged { OnErr result (entries.new.items ≡ entries.old.items) }
    ensures no_less { OnErr result (entries.old.cap ≤ entries.new.cap) }
    ensures spare { OnOk result (entries.old.cap - length entries.old.items ≤ entries.new.cap - length entries.new.items + 1) }
{
    if entry.level == 0 {
        append(entries, entry)
    } else {
        Ok(stand_in(entries, entry)?)
    }
}

// Puts an entry of level 0 behind the others.
fn append(entries: &mut Vec<Entry>, entry: Entry) -> Result<(), Refused<ApplyFault>>
    requires { entry.level ≡ 0 }
    ensures ok { OnOk result (Follows entries.old.items entry × Becomes entries.old.items entry entries.new.items) }
    ensures refused { IsErrOf result (Refused.Fault ApplyFault.NotARun) → ¬ (Follows entries.old.items entry) }
    ensures memory { IsErrOf result Refused.Memory → (entries.old.cap ≤ length entries.old.items) × Follows entries.old.items entry }
    ensures unchanged { OnErr result (entries.new.items ≡ entries.old.items) }
    ensures no_less { OnErr result (entries.old.cap ≤ entries.new.cap) }
    ensures spare { OnOk result (entries.old.cap - length entries.old.items ≤ entries.new.cap - length entries.new.items + 1) }
{
    if entry.lo != end_of(entries) {
        return Err(Refused::Fault(ApplyFault::NotARun));
    }
    entries.push(entry)?;
    Ok(())
}

// Puts an entry in the place of a run of the level below its own.
fn stand_in(entries: &mut Vec<Entry>, entry: Entry) -> Result<(), ApplyFault>
    requires level { 1 ≤ entry.level }
    requires entries { AreEntries entries.old.items }
    ensures ok { OnOk result (HasRun entries.old.items (entry.level - 1) entry.lo entry.hi
        × Becomes entries.old.items entry entries.new.items) }
    ensures refused { IsErrOf result ApplyFault.NotARun → ¬ (HasRun entries.old.items (entry.level - 1) entry.lo entry.hi) }
    ensures unchanged { OnErr result (entries.new.items ≡ entries.old.items) }
    ensures no_less { OnErr result (entries.old.cap ≤ entries.new.cap) }
    ensures spare { OnOk result (entries.old.cap - length entries.old.items ≤ entries.new.cap - length entries.new.items) }
{
    let Some((start, end)) = find_run(entries, entry.level - 1, entry.lo, entry.hi) else {
        return Err(ApplyFault::NotARun);
    };
    entries[start] = entry;
    entries.drain(start + 1..end);
    Ok(())
}
