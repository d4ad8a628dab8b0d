// What an opening reads before it looks at the objects.
ghost use Rattle.std.specs.Prelude.{◌≡◌, ◌≢◌, ◌⊎◌, ◌<◌, ◌≤◌, ◌^◌, List, length, OnOk, IfOk, IfSome, IsErrOf, IsNone, IsSome, MatchOption, true};
ghost use Rattle.disk_trait.specs.Disk.{Tells, Rose, GoesOn, Leads, Looks, Stays, Touches, IsDurable, IsQuiet, bytes_of};
ghost use Rattle.disk_trait.specs.declared.disk.FileId.{FileId};
ghost use Rattle.disk_trait.specs.declared.disk.FileId.TheVariants as names;
ghost use Rattle.gate_journal.specs.Slots.{bodies_of};
ghost use Rattle.gate_journal.specs.Journal.{IsOpen, SameBodies, list_of};
ghost use Rattle.metastore_index.specs.declared.entry.Entry as entries;
ghost use Rattle.metastore_index.specs.Entries.{IndexView, end_of};
ghost use Rattle.metastore_index.specs.Taken.{IsBodyOf};
ghost use Rattle.profile_model.specs.declared.push.Push.{Push};
ghost use Rattle.history_files.specs.History.{HasIndex, IsBlamed, IsBounded, Lists, StandFor};
ghost use Rattle.history_files.specs.Standing.{IsPrepared, IsSynced, SameOrStand, StandAlike};

use crate::fault::{FilesFault, OpenFault};
use disk_trait::{Disk, DiskError, FileId};
use faults::Refused;
use gate_journal::{Journal, JournalFault};
use metastore_index::{Entry, Index};
use std::alloc::Global;

/// Where the pushes of an index file's entries end at most.
const END_BOUND: u64 = 1 << 63;

/// How long the objects of an index file's entries are at most, in bytes, and one more.
const LENGTH_BOUND: u64 = 1 << 32;

/// Syncs each file that is there.
pub fn sync_all<D: Disk>(disk: &mut D, alloc: Global) -> Result<(), FilesFault>
    ensures told { Tells (D.view disk.old) → OnOk result ((D.view disk.new).files ≡ (D.view disk.old).files) }
    ensures durable { Tells (D.view disk.old) → OnOk result ((file : FileId) → IsSome ((D.view disk.old).files file) → IsDurable file (D.view disk.new)) }
    ensures leads { Leads Stays (D.view disk.old) (D.view disk.new) }
    ensures failed { IsErrOf result FilesFault.Disk → Rose (D.view disk.old).faults (D.view disk.new).faults }
    ensures memory { IsErrOf result FilesFault.Memory → (D.view disk.new).faults ≡ (D.view disk.old).faults }
    ensures quiet { OnOk result ((D.view disk.new).faults ≡ (D.view disk.old).faults) }
    ensures goes_on { GoesOn (D.view disk.old) (D.view disk.new) }
{
    let names = match disk.files(alloc) {
        Ok(names) => names,
        Err(DiskError::Memory) => return Err(FilesFault::Memory),
        Err(DiskError::Failed) => return Err(FilesFault::Disk),
    };
    for name in &names {
        disk.sync(*name)?;
    }
    Ok(())
}

// The entry of a record, where it stays below its bounds.
fn read_entry(body: &[u8; 63]) -> Option<Entry>
    ensures body { IfSome result (λ entry. IsBodyOf body.now entry) }
    ensures bounded { IfSome result (λ entry. IsBounded entry) }
    ensures none { IsNone result → (entry : entries.Entry) → IsBodyOf body.now entry → ¬ (IsBounded entry) }
{
    let entry = Entry::read(body)?;
    if entry.hi >= END_BOUND || entry.length >= LENGTH_BOUND {
        return None;
    }
    Some(entry)
}

/// The index that the journal's records leave, and none where they leave none.
pub fn read_index<D: Disk>(
    disk: &mut D,
    alloc: Global,
    journal: &Journal,
) -> Result<Option<Index>, FilesFault>
    requires { Tells (D.view disk.old) → IsOpen (D.view disk.old) journal.now }
    ensures told { Tells (D.view disk.old) → IfOk result (λ found. MatchOption found
        ((index : IndexView) → ¬ (Lists (list_of (D.view disk.old) journal.now) index))
        (λ index. Lists (list_of (D.view disk.old) journal.now) index)) }
    ensures short { IfOk result (λ found. IfSome found (λ index. end_of index.entries < 2 ^ 63)) }
    ensures failed { IsErrOf result FilesFault.Disk → Rose (D.view disk.old).faults (D.view disk.new).faults }
    ensures memory { IsErrOf result FilesFault.Memory → (D.view disk.new).faults ≡ (D.view disk.old).faults }
    ensures quiet { OnOk result ((D.view disk.new).faults ≡ (D.view disk.old).faults) }
    ensures looks { Looks (D.view disk.old) (D.view disk.new) }
    ensures goes_on { GoesOn (D.view disk.old) (D.view disk.new) }
{
    let mut index = Index::new(alloc);
    for i in 0..journal.bodies() {
        let body = journal.body(disk, i)?;
        let Some(entry) = read_entry(&body) else {
            return Ok(None);
        };
        match index.apply(entry) {
            Ok(()) => {}
            Err(Refused::Fault(_)) => return Ok(None),
            Err(Refused::Memory) => return Err(FilesFault::Memory),
        }
    }
    Ok(Some(index))
}

/// Syncs each file that is there, and opens the index file, which may have so many records. What its objects hold isn't
/// looked at.
pub fn open_index<D: Disk>(
    disk: &mut D,
    alloc: Global,
    records: u64,
) -> Result<(Journal, Index), OpenFault>
    requires { records ≤ 2 ^ 57 }
    ensures journal { IfOk result (λ pair. (pair.0.file ≡ names.Index 0) × (pair.0.limit ≡ records) × (pair.0.sure ≡ true)) }
    ensures prepared { Tells (D.view disk.old) → IfOk result (λ pair. IsPrepared records (D.view disk.old) (D.view disk.new) pair.0 pair.1) }
    ensures index_read { Tells (D.view disk.old) → IfOk result (λ pair. HasIndex records (D.view disk.new).files pair.1
        × (pair.0.count ≡ length (bodies_of (bytes_of ((D.view disk.new).files (names.Index 0)))))) }
    ensures short { IfOk result (λ pair. end_of pair.1.entries < 2 ^ 63) }
    ensures damaged { Tells (D.view disk.old) → IsErrOf result OpenFault.Damaged → IsBlamed records (D.view disk.old).files (names.Index 0) }

    // At each moment each image stands for what the files stood for, where nothing waited for a sync.
    ensures any_moment { Tells (D.view disk.old) → IsQuiet (D.view disk.old)
        → Leads (λ before image. StandAlike records (D.view disk.old).files image) (D.view disk.old) (D.view disk.new) }

    // Where calls still waited for one, each file is synced first, and from there on each image stands for the history.
    ensures synced { (history : List Push) → Tells (D.view disk.old) → StandFor records (D.view disk.old).files history
        → IsSome ((D.view disk.old).files (names.Index 0)) ⊎ IsDurable (names.Index 0) (D.view disk.old)
        → IfOk result (λ pair. (mid : D) × IsSynced (D.view disk.old) (D.view mid) × Leads (λ before image. StandFor records image history) (D.view mid) (D.view disk.new)) }

    // Whatever the answer, at each moment each image is one of before, or stands for the history.
    ensures stands_on { (history : List Push) → Tells (D.view disk.old) → StandFor records (D.view disk.old).files history
        → IsSome ((D.view disk.old).files (names.Index 0)) ⊎ IsDurable (names.Index 0) (D.view disk.old)
        → Leads (SameOrStand records history) (D.view disk.old) (D.view disk.new) }

    // From there on the index file stands for the bodies that it stood for, whatever the files stand for.
    ensures same_bodies { Tells (D.view disk.old) → IsSome ((D.view disk.old).files (names.Index 0)) ⊎ IsDurable (names.Index 0) (D.view disk.old)
        → IfOk result (λ pair. (mid : D) × IsSynced (D.view disk.old) (D.view mid) × Leads (Touches (names.Index 0) SameBodies) (D.view mid) (D.view disk.new)) }
    ensures same_bodies_damaged { Tells (D.view disk.old) → IsSome ((D.view disk.old).files (names.Index 0)) ⊎ IsDurable (names.Index 0) (D.view disk.old)
        → IsErrOf result OpenFault.Damaged → (mid : D) × IsSynced (D.view disk.old) (D.view mid) × Leads (Touches (names.Index 0) SameBodies) (D.view mid) (D.view disk.new) }

    // Where the index file is on the disk, that is so at each moment, whatever the answer.
    ensures bodies_stay { Tells (D.view disk.old) → IsDurable (names.Index 0) (D.view disk.old) → Leads (Touches (names.Index 0) SameBodies) (D.view disk.old) (D.view disk.new) }

    // It touches no file but the index file.
    ensures touches { Leads (λ before image. (file : FileId) → file ≢ names.Index 0 → image file ≡ before file) (D.view disk.old) (D.view disk.new) }
    ensures failed { IsErrOf result OpenFault.Disk → Rose (D.view disk.old).faults (D.view disk.new).faults }
    ensures memory { IsErrOf result OpenFault.Memory → (D.view disk.new).faults ≡ (D.view disk.old).faults }
    ensures damaged_quiet { IsErrOf result OpenFault.Damaged → (D.view disk.new).faults ≡ (D.view disk.old).faults }
    ensures quiet { OnOk result ((D.view disk.new).faults ≡ (D.view disk.old).faults) }
    ensures goes_on { GoesOn (D.view disk.old) (D.view disk.new) }
{
    match sync_all(disk, alloc) {
        Ok(()) => {}
        Err(FilesFault::Memory) => return Err(OpenFault::Memory),
        Err(FilesFault::Disk) => return Err(OpenFault::Disk),
    }
    let journal = match Journal::open(disk, FileId::Index(0), records) {
        Ok(journal) => journal,
        Err(JournalFault::Damaged) => return Err(OpenFault::Damaged),
        Err(JournalFault::Disk) => return Err(OpenFault::Disk),
    };
    match read_index(disk, alloc, &journal) {
        Ok(Some(index)) => Ok((journal, index)),
        Ok(None) => Err(OpenFault::Damaged),
        Err(FilesFault::Memory) => Err(OpenFault::Memory),
        Err(FilesFault::Disk) => Err(OpenFault::Disk),
    }
}
