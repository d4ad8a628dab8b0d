// How a store begins: by what its disk holds.
ghost use Rattle.std.specs.Prelude.{◌≡◌, ◌≢◌, ◌⊎◌, ◌+◌, ◌^◌, ◌<◌, ◌≤◌, ◌++◌, [], List, ℕ, Contains, IfErr, IfOk, IsErrOf, IsSome, None, OnErr, OnOk, false, length, true};
ghost use Rattle.disk_trait.specs.Disk.{Files, GoesOn, IsDurable, IsQuiet, Leads, Looks, Rose, Tells, bytes_of};
ghost use Rattle.disk_trait.specs.declared.disk.FileId.{FileId};
ghost use Rattle.disk_trait.specs.declared.disk.FileId.TheVariants as names;
ghost use Rattle.gate_journal.specs.Journal.{SameBodies};
ghost use Rattle.gate_journal.specs.Slots.{bodies_of};
ghost use Rattle.metastore_index.specs.Entries.{AreEntries, IndexView, end_of};
ghost use Rattle.profile_model.specs.declared.push.Push.{Push};
ghost use Rattle.push_history.specs.History.{HasBoundedTotals};
ghost use Rattle.tenant_books.specs.Books.{AreBooksOf};
ghost use Rattle.history_files.specs.History.{HasIndex, IsBlamed, IsObjectOf, StandFor};
ghost use Rattle.history_files.specs.Keeps.{Keeps, Start, start_at};
ghost use Rattle.store_core.specs.Changes.{HasNoSpares, LeavesOthers, OnlyClears};
ghost use Rattle.history_files.specs.Standing.{is_spare, IsSynced, SameOrStand, StandAlike};
ghost use Rattle.store_core.specs.Opening.{AreCounted, HasDurableIndex, IsRead, StopsAt};
ghost use Rattle.store_core.specs.Store.{HasHistory, IsKeeping};

use crate::fault::{OpenCause, OpenRefused};
use crate::store::Store;
use disk_trait::{Disk, FileId};
use faults::Refused;
use gate_journal::Journal;
use history_files::{FilesFault, OpenFault, open_index, read_object, remove_spares};
use metastore_index::{Entry, Index};
use std::alloc::Global;
use tenant_books::{Books, Limits};

// Counts the pushes of an entry's object in the books.
fn count_object<D: Disk>(
    disk: &mut D,
    alloc: Global,
    entry: &Entry,
    books: &mut Books,
) -> Result<(), OpenCause>
    ensures counted { (history : List Push) → Tells (D.view disk.old) → AreBooksOf books.old history → HasBoundedTotals history
        → length history ≡ entry.now.lo → entry.now.hi < 2 ^ 63
        → OnOk result ((pushes : List Push) × IsObjectOf entry.now pushes ((D.view disk.old).files (names.Object entry.now.id))
        × HasBoundedTotals (history ++ pushes) × AreBooksOf books.new (history ++ pushes)) }
    ensures stopped { (file : FileId) → IsErrOf result (OpenCause.Damaged file) → (file ≡ names.Object entry.now.id)
        × ((history : List Push) → Tells (D.view disk.old) → AreBooksOf books.old history → HasBoundedTotals history
        → length history ≡ entry.now.lo → entry.now.hi < 2 ^ 63
        → (pushes : List Push) → IsObjectOf entry.now pushes ((D.view disk.old).files (names.Object entry.now.id)) → ¬ (HasBoundedTotals (history ++ pushes))) }
    ensures failed { (count : ℕ) → IsErrOf result (OpenCause.Disk count) → (count ≡ (D.view disk.new).faults) × Rose (D.view disk.old).faults count }
    ensures memory { IsErrOf result OpenCause.Memory → (D.view disk.new).faults ≡ (D.view disk.old).faults }
    ensures damaged_quiet { (file : FileId) → IsErrOf result (OpenCause.Damaged file) → (D.view disk.new).faults ≡ (D.view disk.old).faults }
    ensures quiet { OnOk result ((D.view disk.new).faults ≡ (D.view disk.old).faults) }
    ensures looks { Looks (D.view disk.old) (D.view disk.new) }
    ensures goes_on { GoesOn (D.view disk.old) (D.view disk.new) }
{
    let damaged = OpenCause::Damaged(FileId::Object(entry.id));
    let object = match read_object(disk, alloc, entry) {
        Ok(Some(object)) => object,
        Ok(None) => return Err(damaged),
        Err(FilesFault::Memory) => return Err(OpenCause::Memory),
        Err(FilesFault::Disk) => return Err(OpenCause::Disk(disk.faults())),
    };
    match books.count(object.pushes()) {
        Ok(()) => Ok(()),
        Err(Refused::Fault(_)) => Err(damaged),
        Err(Refused::Memory) => Err(OpenCause::Memory),
    }
}

// The books of what the entries' objects hold. One object at a time is in memory.
fn count_objects<D: Disk>(
    disk: &mut D,
    alloc: Global,
    entries: &[Entry],
) -> Result<Books, OpenCause>
    ensures counted { Tells (D.view disk.old) → AreEntries entries.now → end_of entries.now < 2 ^ 63
        → IfOk result (λ books. (history : List Push) × AreCounted (D.view disk.old).files entries.now books history) }
    ensures stopped { (file : FileId) → Tells (D.view disk.old) → AreEntries entries.now → end_of entries.now < 2 ^ 63
        → IsErrOf result (OpenCause.Damaged file) → StopsAt (D.view disk.old).files entries.now file }
    ensures failed { (count : ℕ) → IsErrOf result (OpenCause.Disk count) → (count ≡ (D.view disk.new).faults) × Rose (D.view disk.old).faults count }
    ensures memory { IsErrOf result OpenCause.Memory → (D.view disk.new).faults ≡ (D.view disk.old).faults }
    ensures damaged_quiet { (file : FileId) → IsErrOf result (OpenCause.Damaged file) → (D.view disk.new).faults ≡ (D.view disk.old).faults }
    ensures quiet { OnOk result ((D.view disk.new).faults ≡ (D.view disk.old).faults) }
    ensures looks { Looks (D.view disk.old) (D.view disk.new) }
    ensures goes_on { GoesOn (D.view disk.old) (D.view disk.new) }
{
    let mut books = Books::new(alloc);
    for entry in entries {
        match count_object(disk, alloc, entry, &mut books) {
            Ok(()) => {}
            Err(cause) => return Err(cause),
        }
    }
    Ok(books)
}

// Reads what a store begins with, and removes each object that is no live entry's.
fn read_all<D: Disk>(
    disk: &mut D,
    alloc: Global,
    records: u64,
) -> Result<(Journal, Index, Books), OpenCause>
    requires { records ≤ 2 ^ 57 }
    ensures journal { IfOk result (λ read. (read.0.file ≡ names.Index 0) × (read.0.limit ≡ records) × (read.0.sure ≡ true)) }
    ensures short { IfOk result (λ read. end_of read.1.entries < 2 ^ 63) }
    ensures told { Tells (D.view disk.old) → IfOk result (λ read. (history : List Push) × IsRead records (D.view disk.old) (D.view disk.new) read.0 read.1 read.2 history) }
    ensures damaged { (file : FileId) → Tells (D.view disk.old) → IsErrOf result (OpenCause.Damaged file) → IsBlamed records (D.view disk.old).files file }
    ensures any_moment { Tells (D.view disk.old) → IsQuiet (D.view disk.old)
        → Leads (λ before image. StandAlike records (D.view disk.old).files image) (D.view disk.old) (D.view disk.new) }
    ensures synced { (history : List Push) → Tells (D.view disk.old) → StandFor records (D.view disk.old).files history
        → IsSome ((D.view disk.old).files (names.Index 0)) ⊎ IsDurable (names.Index 0) (D.view disk.old)
        → IfOk result (λ read. (synced : D) × IsSynced (D.view disk.old) (D.view synced) × Leads (λ before image. StandFor records image history) (D.view synced) (D.view disk.new)) }
    ensures index_durable { (history : List Push) → Tells (D.view disk.old) → StandFor records (D.view disk.old).files history
        → IfOk result (λ read. (durable : D) × HasDurableIndex records (D.view disk.old) (D.view durable) history × GoesOn (D.view durable) (D.view disk.new)
        × Leads (λ before image. StandFor records image history) (D.view durable) (D.view disk.new)) }
    ensures stands_on { (history : List Push) → Tells (D.view disk.old) → StandFor records (D.view disk.old).files history
        → IsSome ((D.view disk.old).files (names.Index 0)) ⊎ IsDurable (names.Index 0) (D.view disk.old)
        → Leads (SameOrStand records history) (D.view disk.old) (D.view disk.new) }
    ensures same_bodies { Tells (D.view disk.old) → IsSome ((D.view disk.old).files (names.Index 0)) ⊎ IsDurable (names.Index 0) (D.view disk.old)
        → IfOk result (λ read. (synced : D) × IsSynced (D.view disk.old) (D.view synced)
        × Leads (λ before image. SameBodies (before (names.Index 0)) (image (names.Index 0))) (D.view synced) (D.view disk.new)) }
    ensures same_bodies_damaged { (file : FileId) → Tells (D.view disk.old) → IsSome ((D.view disk.old).files (names.Index 0)) ⊎ IsDurable (names.Index 0) (D.view disk.old)
        → IsErrOf result (OpenCause.Damaged file) → (synced : D) × IsSynced (D.view disk.old) (D.view synced)
        × Leads (λ before image. SameBodies (before (names.Index 0)) (image (names.Index 0))) (D.view synced) (D.view disk.new) }
    ensures bodies_stay { Tells (D.view disk.old) → IsDurable (names.Index 0) (D.view disk.old)
        → Leads (λ before image. SameBodies (before (names.Index 0)) (image (names.Index 0))) (D.view disk.old) (D.view disk.new) }
    ensures others { Leads LeavesOthers (D.view disk.old) (D.view disk.new) }
    ensures nothing_leaves { Tells (D.view disk.old) → ((history : List Push) → ¬ (StandFor records (D.view disk.old).files history))
        → Leads (λ before image. (other : FileId) → other ≢ names.Index 0 → image other ≡ before other) (D.view disk.old) (D.view disk.new) }
    ensures damaged_leaves { (file : FileId) → IsErrOf result (OpenCause.Damaged file)
        → Leads (λ before image. (other : FileId) → other ≢ names.Index 0 → image other ≡ before other) (D.view disk.old) (D.view disk.new) }
    ensures memory_leaves { IsErrOf result OpenCause.Memory
        → Leads (λ before image. (other : FileId) → other ≢ names.Index 0 → image other ≡ before other) (D.view disk.old) (D.view disk.new) }
    ensures disk_leaves { (index : IndexView) → (count : ℕ) → Tells (D.view disk.old) → HasIndex records (D.view disk.old).files index → IsErrOf result (OpenCause.Disk count)
        → Leads (OnlyClears index.entries) (D.view disk.old) (D.view disk.new) }
    ensures only_clears { IfOk result (λ read. Leads (OnlyClears read.1.entries) (D.view disk.old) (D.view disk.new)) }
    ensures gone { Tells (D.view disk.old) → IfOk result (λ read. (id : ℕ) → is_spare id read.1.entries ≡ true → (D.view disk.new).files (names.Object id) ≡ None) }
    ensures failed { (count : ℕ) → IsErrOf result (OpenCause.Disk count) → (count ≡ (D.view disk.new).faults) × Rose (D.view disk.old).faults count }
    ensures memory { IsErrOf result OpenCause.Memory → (D.view disk.new).faults ≡ (D.view disk.old).faults }
    ensures damaged_quiet { (file : FileId) → IsErrOf result (OpenCause.Damaged file) → (D.view disk.new).faults ≡ (D.view disk.old).faults }
    ensures quiet { OnOk result ((D.view disk.new).faults ≡ (D.view disk.old).faults) }
    ensures goes_on { GoesOn (D.view disk.old) (D.view disk.new) }
{
    let (journal, index) = match open_index(disk, alloc, records) {
        Ok(pair) => pair,
        Err(OpenFault::Memory) => return Err(OpenCause::Memory),
        Err(OpenFault::Disk) => return Err(OpenCause::Disk(disk.faults())),
        Err(OpenFault::Damaged) => return Err(OpenCause::Damaged(FileId::Index(0))),
    };
    let books = match count_objects(disk, alloc, index.entries()) {
        Ok(books) => books,
        Err(cause) => return Err(cause),
    };
    match remove_spares(disk, alloc, index.entries()) {
        Ok(()) => Ok((journal, index, books)),
        Err(FilesFault::Memory) => Err(OpenCause::Memory),
        Err(FilesFault::Disk) => Err(OpenCause::Disk(disk.faults())),
    }
}

impl<D: Disk> Store<D> {
    /// Opens what a disk holds, with at most so many records in its index: syncs each file that is there, reads the index,
    /// decodes each live object once, and removes the objects that aren't live. One object at a time is in memory.
    pub fn open(
        alloc: Global,
        disk: D,
        limits: Limits,
        records: u64,
    ) -> Result<Store<D>, OpenRefused<D>>
        requires { records ≤ 2 ^ 57 }
        ensures opened { IfOk result (λ store. (store.sure ≡ true) × (store.flight ≡ None) × (store.records ≡ records) × (store.limits ≡ limits)) }
        ensures has { Tells (D.view disk) → IfOk result (λ store. (history : List Push) × StandFor records (D.view disk).files history × HasHistory (D.view store.disk) store history) }
        ensures index_read { Tells (D.view disk) → IfOk result (λ store. HasIndex records (D.view store.disk).files store.index
            × (store.count ≡ length (bodies_of (bytes_of ((D.view store.disk).files (names.Index 0)))))) }
        ensures images { (history : List Push) → Tells (D.view disk) → StandFor records (D.view disk).files history
            → IfOk result (λ store. (image : Files) → (D.view store.disk).images_now image → StandFor records image history) }
        ensures damaged { (file : FileId) → Tells (D.view disk) → IfErr result (λ refused. refused.cause ≡ OpenCause.Damaged file → IsBlamed records (D.view disk).files file) }
        ensures gone { Tells (D.view disk) → IfOk result (λ store. HasNoSpares (D.view store.disk) store) }

        // No file is touched but a store's own, and where the files stand for no history none but the index file, whatever the
        // answer.
        ensures others { IfOk result (λ store. Leads LeavesOthers (D.view disk) (D.view store.disk)) }
        ensures others_refused { IfErr result (λ refused. Leads LeavesOthers (D.view disk) (D.view refused.disk)) }
        ensures nothing_leaves { Tells (D.view disk) → ((history : List Push) → ¬ (StandFor records (D.view disk).files history))
            → IfErr result (λ refused. Leads (λ before image. (other : FileId) → other ≢ names.Index 0 → image other ≡ before other) (D.view disk) (D.view refused.disk)) }
        ensures damaged_leaves { (file : FileId) → IfErr result (λ refused. refused.cause ≡ OpenCause.Damaged file
            → Leads (λ before image. (other : FileId) → other ≢ names.Index 0 → image other ≡ before other) (D.view disk) (D.view refused.disk)) }

        // Nor where memory is wanting. Else objects that aren't live may go too, and no file comes.
        ensures only_clears { IfOk result (λ store. Leads (OnlyClears store.index.entries) (D.view disk) (D.view store.disk)) }
        ensures memory_leaves { IfErr result (λ refused. refused.cause ≡ OpenCause.Memory
            → Leads (λ before image. (other : FileId) → other ≢ names.Index 0 → image other ≡ before other) (D.view disk) (D.view refused.disk)) }
        ensures disk_leaves { (index : IndexView) → (count : ℕ) → Tells (D.view disk) → HasIndex records (D.view disk).files index → IfErr result (λ refused. refused.cause ≡ OpenCause.Disk count
            → Leads (OnlyClears index.entries) (D.view disk) (D.view refused.disk)) }
        ensures failed { (count : ℕ) → IfErr result (λ refused. refused.cause ≡ OpenCause.Disk count
            → (count ≡ (D.view refused.disk).faults) × Rose (D.view disk).faults count) }
        ensures memory { IfErr result (λ refused. refused.cause ≡ OpenCause.Memory → (D.view refused.disk).faults ≡ (D.view disk).faults) }
        ensures damaged_quiet { (file : FileId) → IfErr result (λ refused. refused.cause ≡ OpenCause.Damaged file → (D.view refused.disk).faults ≡ (D.view disk).faults) }
        ensures quiet { IfOk result (λ store. (D.view store.disk).faults ≡ (D.view disk).faults) }

        // At each moment each image stands for what the files stood for, where nothing waited for a sync.
        ensures any_moment { Tells (D.view disk) → IsQuiet (D.view disk)
            → IfOk result (λ store. Leads (λ before image. StandAlike records (D.view disk).files image) (D.view disk) (D.view store.disk)) }
        ensures any_moment_refused { Tells (D.view disk) → IsQuiet (D.view disk)
            → IfErr result (λ refused. Leads (λ before image. StandAlike records (D.view disk).files image) (D.view disk) (D.view refused.disk)) }

        // Where calls still waited for one, each file is synced first, and from there on each image stands for the history.
        ensures synced { (history : List Push) → Tells (D.view disk) → StandFor records (D.view disk).files history
            → IsSome ((D.view disk).files (names.Index 0)) ⊎ IsDurable (names.Index 0) (D.view disk)
            → IfOk result (λ store. (synced : D) × IsSynced (D.view disk) (D.view synced) × Leads (λ before image. StandFor records image history) (D.view synced) (D.view store.disk)) }

        // Also where the index file isn't there and calls on it still waited for a sync: it is brought onto the disk before any
        // other file is touched, and from there on each image stands for the history.
        ensures index_durable { (history : List Push) → Tells (D.view disk) → StandFor records (D.view disk).files history
            → IfOk result (λ store. (durable : D) × HasDurableIndex records (D.view disk) (D.view durable) history
            × Leads (λ before image. StandFor records image history) (D.view durable) (D.view store.disk)) }

        // From there on the index file stands for the bodies that it stood for.
        ensures same_bodies { Tells (D.view disk) → IsSome ((D.view disk).files (names.Index 0)) ⊎ IsDurable (names.Index 0) (D.view disk)
            → IfOk result (λ store. (synced : D) × IsSynced (D.view disk) (D.view synced)
            × Leads (λ before image. SameBodies (before (names.Index 0)) (image (names.Index 0))) (D.view synced) (D.view store.disk)) }
        ensures same_bodies_damaged { (file : FileId) → Tells (D.view disk) → IsSome ((D.view disk).files (names.Index 0)) ⊎ IsDurable (names.Index 0) (D.view disk)
            → IfErr result (λ refused. refused.cause ≡ OpenCause.Damaged file → (synced : D) × IsSynced (D.view disk) (D.view synced)
            × Leads (λ before image. SameBodies (before (names.Index 0)) (image (names.Index 0))) (D.view synced) (D.view refused.disk)) }

        // Where the index file is on the disk, it stands for them at each moment of an opening that is refused for any cause.
        ensures same_bodies_refused { Tells (D.view disk) → IsDurable (names.Index 0) (D.view disk)
            → IfErr result (λ refused. Leads (λ before image. SameBodies (before (names.Index 0)) (image (names.Index 0))) (D.view disk) (D.view refused.disk)) }

        // What was kept since an earlier start is kept, also by an opening that is refused, and where calls waited for a sync.
        ensures keeps { (start : Start) → (flights : List (List Push × List Push)) → (history : List Push) → Tells (D.view disk)
            → IsSome ((D.view disk).files (names.Index 0)) ⊎ IsDurable (names.Index 0) (D.view disk) → StandFor records (D.view disk).files history
            → Keeps records start (λ past flight. Contains flights (past, flight)) (D.view disk) history → IfOk result (λ store. Keeps records start (λ past flight. Contains flights (past, flight)) (D.view store.disk) history) }
        ensures keeps_refused { (start : Start) → (flights : List (List Push × List Push)) → (history : List Push) → Tells (D.view disk)
            → IsSome ((D.view disk).files (names.Index 0)) ⊎ IsDurable (names.Index 0) (D.view disk) → StandFor records (D.view disk).files history
            → Keeps records start (λ past flight. Contains flights (past, flight)) (D.view disk) history → IfErr result (λ refused. Keeps records start (λ past flight. Contains flights (past, flight)) (D.view refused.disk) history) }
        ensures since { (history : List Push) → (flights : List (List Push × List Push)) → Tells (D.view disk) → IsQuiet (D.view disk) → StandFor records (D.view disk).files history
            → IfOk result (λ store. IsKeeping (start_at (D.view disk) history) flights (D.view store.disk) store history) }
        ensures since_index_durable { (history : List Push) → (flights : List (List Push × List Push)) → Tells (D.view disk) → StandFor records (D.view disk).files history
            → IfOk result (λ store. (durable : D) × HasDurableIndex records (D.view disk) (D.view durable) history
            × IsKeeping (start_at (D.view durable) history) flights (D.view store.disk) store history) }
        ensures since_opened { (history : List Push) → (flights : List (List Push × List Push)) → Tells (D.view disk) → StandFor records (D.view disk).files history
            → IfOk result (λ store. IsKeeping (start_at (D.view store.disk) history) flights (D.view store.disk) store history) }
        ensures goes_on { IfOk result (λ store. GoesOn (D.view disk) (D.view store.disk)) }
        ensures goes_on_refused { IfErr result (λ refused. GoesOn (D.view disk) (D.view refused.disk)) }
    {
        let mut disk = disk;
        match read_all(&mut disk, alloc, records) {
            Ok((journal, index, books)) => Ok(Store {
                disk,
                journal,
                index,
                books,
                limits,
                flight: None,
                sure: true,
                records,
            }),
            Err(cause) => Err(OpenRefused { disk, cause }),
        }
    }
}
