// What a store does with its parts.
ghost use Rattle.std.specs.Prelude.{◌≡◌, ◌+◌, ◌<◌, ◌≤◌, ◌⊎◌, ◌++◌, List, true, false, IfOk, IsFalse, IsTrue, OnOk, OnErr, IsErrOf, None, Some, length};
ghost use Rattle.disk_trait.specs.Disk.{Tells, Rose, GoesOn, Leads, Stays};
ghost use Rattle.disk_trait.specs.declared.disk.FileId.TheVariants as names;
ghost use Rattle.metastore_index.specs.Entries.{Becomes, IsTaken, end_of};
ghost use Rattle.profile_model.specs.declared.push.Push.{Push};
ghost use Rattle.std.specs.List.{list_any};
ghost use Rattle.tenant_books.specs.declared.verdict.Verdict.{Verdict};
ghost use Rattle.tenant_books.specs.Books.{AreBooksOf, Knows};
ghost use Rattle.tenant_books.specs.Keeping.{is_kept_alone, is_some_kept};
ghost use Rattle.tenant_books.specs.Limits.{limit_of};
ghost use Rattle.tenant_books.specs.Verdicts.{AreVerdicts};
ghost use Rattle.history_files.specs.History.{StandFor};
ghost use Rattle.history_files.specs.Keeps.{StandForEither};
ghost use Rattle.history_files.specs.Standing.{IsInFlight};
ghost use Rattle.store_core.specs.Store.{HasNoRoom, IsBehind, IsKept, given};
ghost use Rattle.store_core.specs.Changes.{CanPut, LeavesAllBut, LeavesOthers};

use disk_trait::Disk;
use gate_journal::Journal;
use history_files::{CommitFault, FilesFault, commit};
use metastore_index::{Entry, Index};
use profile_model::Push;
use std::alloc::AllocError;
use tenant_books::{Books, Limits, PushAsk, would_keep};

/// How many pushes are settled together at most.
const MOST_PUSHES: u64 = 64;

/// Where an index's numbers of pushes and its ids end.
const NUMBERS_END: u64 = 1 << 63;

// Room for what pushes bring to the index and the books, so that nothing that takes them takes memory.
pub(crate) fn make_room(
    index: &mut Index,
    books: &mut Books,
    pushes: &[Push],
) -> Result<(), AllocError>
    ensures index { index.new ≡ record index.old { spare = index.new.spare } }
    ensures spare { OnOk result (0 < index.new.spare) }
    ensures books { (history : List Push) → AreBooksOf books.old history → AreBooksOf books.new history }
    ensures knows { OnOk result (Knows books.new pushes.now) }
{
    index.room()?;
    books.room(pushes)
}

// Finds out whether the entry in the air came through, and takes it in where it did. It writes nothing.
pub(crate) fn decide_on<D: Disk>(
    disk: &mut D,
    journal: &mut Journal,
    index: &mut Index,
    books: &mut Books,
    entry: &Entry,
    pushes: &[Push],
) -> Result<bool, FilesFault>
    requires sure { journal.old.sure ≡ false }
    requires behind { IsBehind index.old.entries (record { entry = entry.now; pushes = pushes.now }) }
    requires flies { Tells (D.view disk.old) → (history : List Push) × IsInFlight (D.view disk.old) journal.old index.old entry.now history pushes.now }
    ensures decided { (history : List Push) → Tells (D.view disk.old) → IsKept (D.view disk.old) journal.old index.old (Some (record { entry = entry.now; pushes = pushes.now })) books.old false history
        → IfOk result (λ came. IsKept (D.view disk.new) journal.new index.new None books.new false (history ++ given came pushes.now)) }
    ensures stood { (history : List Push) → Tells (D.view disk.old) → IsKept (D.view disk.old) journal.old index.old (Some (record { entry = entry.now; pushes = pushes.now })) books.old false history
        → IfOk result (λ came. StandFor journal.old.limit (D.view disk.old).files (history ++ given came pushes.now)) }
    ensures doubted { (history : List Push) → Tells (D.view disk.old) → IsKept (D.view disk.old) journal.old index.old (Some (record { entry = entry.now; pushes = pushes.now })) books.old false history
        → OnErr result (IsKept (D.view disk.new) journal.new index.new (Some (record { entry = entry.now; pushes = pushes.now })) books.new false history) }
    ensures took { Tells (D.view disk.old) → OnOk result (
        ((index.new.entries ≡ index.old.entries) × (index.new.greatest ≡ index.old.greatest) × (journal.new.count ≡ journal.old.count))
        ⊎ (Becomes index.old.entries entry.now index.new.entries × (index.new.greatest ≡ entry.now.id) × (journal.new.count ≡ journal.old.count + 1))) }
    ensures same { OnErr result ((index.new.entries ≡ index.old.entries) × (index.new.greatest ≡ index.old.greatest)) }
    ensures end { IfOk result (λ came. end_of index.new.entries ≡ end_of index.old.entries + length (given came pushes.now)) }
    ensures sure { OnOk result (journal.new.sure ≡ true) }
    ensures unsure { OnErr result (journal.new ≡ journal.old) }
    ensures file { journal.new.file ≡ journal.old.file }
    ensures limit { journal.new.limit ≡ journal.old.limit }
    ensures stays { Leads Stays (D.view disk.old) (D.view disk.new) }
    ensures failed { IsErrOf result FilesFault.Disk → Rose (D.view disk.old).faults (D.view disk.new).faults }
    ensures memory { IsErrOf result FilesFault.Memory → (D.view disk.new).faults ≡ (D.view disk.old).faults }
    ensures quiet { OnOk result ((D.view disk.new).faults ≡ (D.view disk.old).faults) }
    ensures goes_on { GoesOn (D.view disk.old) (D.view disk.new) }
{
    make_room(index, books, pushes)?;
    match journal.mend(disk) {
        Ok(Some(_)) => {}
        Ok(None) => return Ok(false),
        Err(_) => return Err(FilesFault::Disk),
    }
    match index.apply(*entry) {
        Ok(()) => {}
        // This doesn't come where the disk tells what it holds.
        Err(_) => return Ok(false),
    }
    books.take(pushes);
    Ok(true)
}

// Writes an object and its entry, and takes in the entry and the pushes that it adds. It takes no memory.
pub(crate) fn put_on<D: Disk>(
    disk: &mut D,
    journal: &mut Journal,
    index: &mut Index,
    books: &mut Books,
    entry: &Entry,
    bytes: &[u8],
    pushes: &[Push],
) -> Result<(), CommitFault>
    requires sure { journal.old.sure ≡ true }
    requires room { journal.old.count < journal.old.limit }
    requires taken { IsTaken index.old entry.now }
    requires spare { 0 < index.old.spare }
    requires knows { Knows books.old pushes.now }
    requires kept { Tells (D.view disk.old) → (history : List Push) × IsKept (D.view disk.old) journal.old index.old None books.old true history }
    ensures ok { (history : List Push) → Tells (D.view disk.old) → IsKept (D.view disk.old) journal.old index.old None books.old true history
        → CanPut index.old entry.now bytes.now history pushes.now
        → OnOk result (IsKept (D.view disk.new) journal.new index.new None books.new true (history ++ pushes.now)) }
    ensures sure { OnOk result (journal.new.sure ≡ true) }
    ensures object { (history : List Push) → Tells (D.view disk.old) → IsKept (D.view disk.old) journal.old index.old None books.old true history
        → CanPut index.old entry.now bytes.now history pushes.now
        → IsErrOf result CommitFault.Object → IsKept (D.view disk.new) journal.new index.new None books.new false history }
    ensures object_sure { IsErrOf result CommitFault.Object → journal.new ≡ journal.old }
    ensures append { (history : List Push) → Tells (D.view disk.old) → IsKept (D.view disk.old) journal.old index.old None books.old true history
        → CanPut index.old entry.now bytes.now history pushes.now
        → IsErrOf result CommitFault.Append → IsKept (D.view disk.new) journal.new index.new (Some (record { entry = entry.now; pushes = pushes.now })) books.new false history }
    ensures append_unsure { IsErrOf result CommitFault.Append → journal.new.sure ≡ false }
    ensures one_more { OnOk result (Becomes index.old.entries entry.now index.new.entries × (index.new.greatest ≡ entry.now.id) × (journal.new.count ≡ journal.old.count + 1)) }
    ensures same { OnErr result ((index.new ≡ index.old) × (journal.new.count ≡ journal.old.count)) }
    ensures file { journal.new.file ≡ journal.old.file }
    ensures limit { journal.new.limit ≡ journal.old.limit }
    ensures any_moment { (history : List Push) → Tells (D.view disk.old) → IsKept (D.view disk.old) journal.old index.old None books.old true history
        → CanPut index.old entry.now bytes.now history pushes.now
        → Leads (λ before image. StandForEither journal.old.limit history (history ++ pushes.now) image) (D.view disk.old) (D.view disk.new) }
    ensures others { journal.old.file ≡ names.Index 0 → Leads LeavesOthers (D.view disk.old) (D.view disk.new) }
    ensures others_at_each_moment { journal.old.file ≡ names.Index 0 → Leads (LeavesAllBut entry.now.id) (D.view disk.old) (D.view disk.new) }
    ensures others_read { Tells (D.view disk.old) → journal.old.file ≡ names.Index 0
        → OnOk result (LeavesAllBut entry.now.id (D.view disk.old).files (D.view disk.new).files) }
    ensures failed { OnErr result (Rose (D.view disk.old).faults (D.view disk.new).faults) }
    ensures quiet { OnOk result ((D.view disk.new).faults ≡ (D.view disk.old).faults) }
    ensures goes_on { GoesOn (D.view disk.old) (D.view disk.new) }
{
    match commit(disk, journal, entry, bytes) {
        Ok(()) => {}
        Err(fault) => return Err(fault),
    }
    let _ = index.apply(*entry);
    books.take(pushes);
    Ok(())
}

// Whether the index takes no further record.
fn has_no_room(journal: &Journal, records: u64, index: &Index) -> bool
    ensures yes { IsTrue result → HasNoRoom records journal.now.count index.now }
    ensures no { IsFalse result → ¬ (HasNoRoom records journal.now.count index.now) }
{
    if journal.bodies() >= records {
        return true;
    }
    if index.next_id() >= NUMBERS_END {
        return true;
    }
    index.end() >= NUMBERS_END - MOST_PUSHES
}

// Whether the index takes no further record, and at least one of the pushes would be kept. It takes no memory.
pub(crate) fn is_full_for(
    journal: &Journal,
    records: u64,
    index: &Index,
    books: &Books,
    limits: &Limits,
    asks: &[PushAsk],
) -> bool
    ensures full { IsTrue result → HasNoRoom records journal.now.count index.now }
    ensures some { IsTrue result → (history : List Push) → (verdicts : List Verdict) → (last : List Push) → AreBooksOf books.now history
        → AreVerdicts (limit_of limits.now) history asks.now verdicts last → is_some_kept verdicts ≡ true }
    ensures no { IsFalse result → (¬ (HasNoRoom records journal.now.count index.now)) ⊎ (list_any (is_kept_alone books.now limits.now) asks.now ≡ false) }
{
    has_no_room(journal, records, index) && would_keep(books, limits, asks)
}
