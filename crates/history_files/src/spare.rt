// Objects that are no entry's.
ghost use Rattle.std.specs.Prelude.{◌≡◌, ◌<◌, ◌≤◌, ℕ, true, None, OnOk, OnErr, IsErrOf, MatchBool};
ghost use Rattle.std.specs.List.{All};
ghost use Rattle.disk_trait.specs.Disk.{Tells, Rose, GoesOn, Leads, Looks, Touches, MaybeGone, Removed};
ghost use Rattle.disk_trait.specs.declared.disk.FileId.TheVariants.{Object};
ghost use Rattle.history_files.specs.Standing.{Spares, NoneFrom, Fewer, KeepsLive, LosesSpares, is_spare, is_spare_file};

use crate::fault::FilesFault;
use disk_trait::{Disk, DiskError, Failed, FileId};
use metastore_index::Entry;
use std::alloc::Global;

// Whether no entry has the id.
fn has_none(entries: &[Entry], id: u64) -> bool
    ensures { result ≡ is_spare id entries.now }
{
    for entry in entries {
        if entry.id == id {
            return false;
        }
    }
    true
}

// Removes the file, if it is an object that is no entry's.
fn remove_spare<D: Disk>(disk: &mut D, file: FileId, entries: &[Entry]) -> Result<(), Failed>
    ensures step { MatchBool (is_spare_file file entries.now) (Leads (Touches file MaybeGone) (D.view disk.old) (D.view disk.new)) (disk.new ≡ disk.old) }
    ensures told { Tells (D.view disk.old) → OnOk result (MatchBool (is_spare_file file entries.now) (Removed file (D.view disk.old).files (D.view disk.new).files) (disk.new ≡ disk.old)) }
    ensures goes_on { GoesOn (D.view disk.old) (D.view disk.new) }
    ensures failed { OnErr result (Rose (D.view disk.old).faults (D.view disk.new).faults) }
    ensures quiet { OnOk result ((D.view disk.new).faults ≡ (D.view disk.old).faults) }
{
    let FileId::Object(id) = file else {
        return Ok(());
    };
    if !has_none(entries, id) {
        return Ok(());
    }
    disk.remove(file)
}

/// Removes each object that is no entry's. Want of memory comes before the first removal.
pub fn remove_spares<D: Disk>(
    disk: &mut D,
    alloc: Global,
    entries: &[Entry],
) -> Result<(), FilesFault>
    ensures spares { Tells (D.view disk.old) → Spares entries.now (D.view disk.old) (D.view disk.new) }
    // Each object that is no entry's is gone.
    ensures gone { Tells (D.view disk.old) → OnOk result ((id : ℕ) → is_spare id entries.now ≡ true → (D.view disk.new).files (Object id) ≡ None) }
    ensures fewer { Tells (D.view disk.old) → OnOk result (Fewer (D.view disk.old).files (D.view disk.new).files) }

    // The entries' objects, and each file that is no object, stay at each moment, also where a call fails.
    ensures others { Leads (KeepsLive entries.now) (D.view disk.old) (D.view disk.new) }
    ensures others_read { Tells (D.view disk.old) → OnOk result (KeepsLive entries.now (D.view disk.old).files (D.view disk.new).files) }
    // Nothing else goes, and no file comes.
    ensures loses { Leads (LosesSpares entries.now) (D.view disk.old) (D.view disk.new) }
    ensures none { (next : ℕ) → Tells (D.view disk.old) → All (λ entry. entry.id < next) entries.now → OnOk result (NoneFrom next (D.view disk.new).files) }
    ensures failed { IsErrOf result FilesFault.Disk → Rose (D.view disk.old).faults (D.view disk.new).faults }
    ensures memory { IsErrOf result FilesFault.Memory → (D.view disk.new).faults ≡ (D.view disk.old).faults }
    ensures memory_looks { IsErrOf result FilesFault.Memory → Looks (D.view disk.old) (D.view disk.new) }
    ensures quiet { OnOk result ((D.view disk.new).faults ≡ (D.view disk.old).faults) }
    ensures goes_on { GoesOn (D.view disk.old) (D.view disk.new) }
{
    let names = match disk.files(alloc) {
        Ok(names) => names,
        Err(DiskError::Memory) => return Err(FilesFault::Memory),
        Err(DiskError::Failed) => return Err(FilesFault::Disk),
    };
    for name in &names {
        remove_spare(disk, *name, entries)?;
    }
    Ok(())
}
