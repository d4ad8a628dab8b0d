// The one way in which a store writes: an object, and then its entry.
ghost use Rattle.std.specs.Prelude.{◌≡◌, ◌≢◌, ◌+◌, ◌<◌, ◌++◌, List, true, false, OnOk, OnErr, IsErrOf, None};
ghost use Rattle.disk_trait.specs.Disk.{Tells, Rose, GoesOn, Leads};
ghost use Rattle.disk_trait.specs.declared.disk.FileId.{FileId};
ghost use Rattle.disk_trait.specs.declared.disk.FileId.TheVariants.{Object};
ghost use Rattle.gate_journal.specs.Journal.{IsSettled};
ghost use Rattle.metastore_index.specs.Entries.{IndexView};
ghost use Rattle.metastore_index.specs.Taken.{IsBodyOf};
ghost use Rattle.profile_model.specs.declared.push.Push.{Push};
ghost use Rattle.history_files.specs.Keeps.{StandForEither};
ghost use Rattle.history_files.specs.Standing.{Commits, IsAtRest, IsInFlight};

use disk_trait::{Disk, Failed, FileId, write_through};
use gate_journal::{AppendFault, Journal};
use metastore_index::Entry;

/// Where the disk failed.
#[derive(Clone, Copy, Debug, PartialEq, Eq)]
pub enum CommitFault {
    /// At the object: nothing of it can come to count.
    Object,
    /// At its entry: it counts or not, by what the index file holds.
    Append,
}

impl From<Failed> for CommitFault {
    ghost use Rattle.std.specs.Prelude.{◌≡◌};
    ghost use Rattle.history_files.specs.declared.writing.CommitFault.TheVariants.{Object};

    ghost from_gives = { λ _ fault. fault ≡ Object };

    fn from(_: Failed) -> Self {
        CommitFault::Object
    }
}

// The entry's record, in which each of its numbers stands whole.
fn record_of(entry: Entry) -> [u8; 63]
    ensures { IsBodyOf result entry }
{
    entry.body()
}

/// Writes an object into a new file, and appends its entry. It takes no memory.
pub fn commit<D: Disk>(
    disk: &mut D,
    journal: &mut Journal,
    entry: &Entry,
    bytes: &[u8],
) -> Result<(), CommitFault>
    requires sure { journal.old.sure ≡ true }
    requires room { journal.old.count < journal.old.limit }
    requires settled { Tells (D.view disk.old) → IsSettled (D.view disk.old) journal.old }
    requires fresh { Tells (D.view disk.old) → (D.view disk.old).files (Object entry.now.id) ≡ None }

    ensures ok { (index later : IndexView) (history added : List Push) → Tells (D.view disk.old)
        → Commits (D.view disk.old) journal.old index later entry.now bytes.now history added
        → OnOk result (IsAtRest (D.view disk.new) journal.new later (history ++ added)) }
    ensures others { Tells (D.view disk.old) → OnOk result ((file : FileId) → file ≢ Object entry.now.id → file ≢ journal.old.file
        → (D.view disk.new).files file ≡ (D.view disk.old).files file) }
    ensures sure { OnOk result (journal.new.sure ≡ true) }

    ensures object { (index later : IndexView) (history added : List Push) → Tells (D.view disk.old)
        → Commits (D.view disk.old) journal.old index later entry.now bytes.now history added
        → IsErrOf result CommitFault.Object → IsAtRest (D.view disk.new) journal.new index history }
    ensures object_sure { IsErrOf result CommitFault.Object → journal.new ≡ journal.old }
    ensures append { (index later : IndexView) (history added : List Push) → Tells (D.view disk.old)
        → Commits (D.view disk.old) journal.old index later entry.now bytes.now history added
        → IsErrOf result CommitFault.Append → IsInFlight (D.view disk.new) journal.new index entry.now history added }
    ensures append_unsure { IsErrOf result CommitFault.Append → journal.new.sure ≡ false }

    ensures count { OnOk result (journal.new.count ≡ journal.old.count + 1) }
    ensures same_count { OnErr result (journal.new.count ≡ journal.old.count) }
    ensures file { journal.new.file ≡ journal.old.file }
    ensures limit { journal.new.limit ≡ journal.old.limit }

    // No other file changes at any moment, also on a disk that doesn't tell.
    ensures others_at_each_moment { Leads (λ before image. (file : FileId) → file ≢ Object entry.now.id → file ≢ journal.old.file → image file ≡ before file) (D.view disk.old) (D.view disk.new) }
    // Where the object fails, nothing but its own file does.
    ensures others_at_object { IsErrOf result CommitFault.Object
        → Leads (λ before image. (file : FileId) → file ≢ Object entry.now.id → image file ≡ before file) (D.view disk.old) (D.view disk.new) }

    // At each moment each image stands for the history, or for that with what the entry adds.
    ensures any_moment { (index later : IndexView) (history added : List Push) → Tells (D.view disk.old)
        → Commits (D.view disk.old) journal.old index later entry.now bytes.now history added
        → Leads (λ before image. StandForEither journal.old.limit history (history ++ added) image) (D.view disk.old) (D.view disk.new) }
    ensures failed { OnErr result (Rose (D.view disk.old).faults (D.view disk.new).faults) }
    ensures quiet { OnOk result ((D.view disk.new).faults ≡ (D.view disk.old).faults) }
    ensures goes_on { GoesOn (D.view disk.old) (D.view disk.new) }
{
    let body = record_of(*entry);
    write_through(disk, FileId::Object(entry.id), 0, bytes)?;
    match journal.append(disk, &body) {
        Ok(()) => Ok(()),
        // Not below the limit.
        Err(AppendFault::Full) => Err(CommitFault::Append),
        Err(AppendFault::Disk) => Err(CommitFault::Append),
    }
}
