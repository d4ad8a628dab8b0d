// The one way in which pushes come to a store's history.
ghost use Rattle.std.specs.Prelude.{◌≡◌, ◌≢◌, ◌⊎◌, ◌+◌, ◌<◌, ◌≤◌, [], ◌++◌, List, ℕ, true, false, OnOk, OnErr, IfOk, IsErrOf, None, Some, length};
ghost use Rattle.std.specs.Global.{Vec};
ghost use Rattle.tenant_books.specs.declared.asks.PushAsk.{PushAsk};
ghost use Rattle.std.specs.List.{All};
ghost use Rattle.disk_trait.specs.Disk.{GoesOn, Leads, Rose, Tells};
ghost use Rattle.metastore_index.specs.declared.entry.Entry as entries;
ghost use Rattle.metastore_index.specs.Entries.{IsTaken, end_of};
ghost use Rattle.profile_model.specs.declared.push.Push.{Push};
ghost use Rattle.push_history.specs.History.{HasBoundedTotals};
ghost use Rattle.segment_file.specs.Laws.{IsLight};
ghost use Rattle.history_files.specs.Keeps.{most_pushes};
ghost use Rattle.tenant_books.specs.Verdicts.{kept_of};
ghost use Rattle.store_core.specs.Store.{HasHistory, HasNumbers, IsBehind, IsFull};
ghost use Rattle.store_core.specs.Changes.{CanPut, EndsWithFlight, FliesNext, HasOneMore, HasSameIndex, IsAdded, IsNextEntry, IsNotAdded, LeavesAllBut, LeavesOthers};
ghost use Rattle.store_core.specs.Settling.{FirstMended, IsFullFor, IsDoubted, IsSettled, MendFailed};

use crate::fault::{MendFault, SettleFault};
use crate::flight::Flight;
use crate::parts::{is_full_for, make_room, put_on};
use crate::store::Store;
use disk_trait::Disk;
use history_files::{CommitFault, FilesFault, entry_of};
use metastore_index::Entry;
use profile_model::Push;
use segment_file::Object;
use std::alloc::Global;
use tenant_books::{Judged, PushAsk, Verdict, judge};

/// How long the object of an entry is at most, in bytes, and one more.
const LENGTH_BOUND: u64 = 1 << 32;

/// What became of pushes that asked to be kept.
#[derive(Debug, Drop)]
pub struct Settled {
    /// One for each, in their order.
    pub verdicts: Vec<Verdict>,
    /// Those that were kept, in their order.
    pub kept: Vec<Push>,
}

impl<D: Disk> Store<D> {
    // Writes an object and its entry, which adds pushes to the history, and gives them back. Want of memory comes before the
    // first call that writes.
    fn put(
        &mut self,
        entry: &Entry,
        bytes: &[u8],
        pushes: Vec<Push>,
    ) -> Result<Vec<Push>, FilesFault>
        requires sure { self.old.sure ≡ true }
        requires room { self.old.count < self.old.records }
        requires taken { IsTaken self.old.index entry.now }
        requires behind { IsBehind self.old.index.entries (record { entry = entry.now; pushes = pushes.items }) }
        requires few { length pushes.items ≤ most_pushes }
        requires can { (history : List Push) → Tells (D.view self.old.disk) → HasHistory (D.view self.old.disk) self.old history
            → CanPut self.old.index entry.now bytes.now history pushes.items }
        ensures added { (history : List Push) → Tells (D.view self.old.disk) → HasHistory (D.view self.old.disk) self.old history
            → OnOk result (IsAdded (D.view self.old.disk) (D.view self.new.disk) self.old self.new history pushes.items) }
        ensures not_added { (history : List Push) → Tells (D.view self.old.disk) → HasHistory (D.view self.old.disk) self.old history
            → IsErrOf result FilesFault.Disk → IsNotAdded (D.view self.old.disk) (D.view self.new.disk) self.old self.new history pushes.items }
        ensures given { IfOk result (λ given. given.items ≡ pushes.items) }
        ensures sure { OnOk result ((self.new.sure ≡ true) × (self.new.flight ≡ None)) }
        ensures one_more { OnOk result (HasOneMore self.old self.new entry.now) }
        ensures same { OnErr result (HasSameIndex self.old self.new) }
        ensures unchanged { IsErrOf result FilesFault.Memory → self.new ≡ record self.old { index = record self.old.index { spare = self.new.index.spare } } }
        ensures unsure { IsErrOf result FilesFault.Disk → self.new.sure ≡ false }
        ensures flight { IsErrOf result FilesFault.Disk
            → (self.new.flight ≡ None) ⊎ (self.new.flight ≡ Some (record { entry = entry.now; pushes = pushes.items })) }
        ensures records { self.new.records ≡ self.old.records }
        ensures limits { self.new.limits ≡ self.old.limits }
        ensures failed { IsErrOf result FilesFault.Disk → Rose (D.view self.old.disk).faults (D.view self.new.disk).faults }
        ensures quiet { OnOk result ((D.view self.new.disk).faults ≡ (D.view self.old.disk).faults) }
        ensures others { Leads LeavesOthers (D.view self.old.disk) (D.view self.new.disk) }
        ensures others_at_each_moment { Leads (LeavesAllBut entry.now.id) (D.view self.old.disk) (D.view self.new.disk) }
        ensures others_read { Tells (D.view self.old.disk) → OnOk result (LeavesAllBut entry.now.id (D.view self.old.disk).files (D.view self.new.disk).files) }
        ensures goes_on { GoesOn (D.view self.old.disk) (D.view self.new.disk) }
    {
        make_room(&mut self.index, &mut self.books, &pushes)?;
        match put_on(
            &mut self.disk,
            &mut self.journal,
            &mut self.index,
            &mut self.books,
            entry,
            bytes,
            &pushes,
        ) {
            Ok(()) => Ok(pushes),
            Err(CommitFault::Object) => {
                self.sure = false;
                Err(FilesFault::Disk)
            }
            Err(CommitFault::Append) => {
                self.sure = false;
                self.flight = Some(Flight {
                    entry: *entry,
                    pushes,
                });
                Err(FilesFault::Disk)
            }
        }
    }

    // Keeps pushes as one object, on a sure store that has room for them, and gives them back.
    fn settle_kept(&mut self, alloc: Global, pushes: Vec<Push>) -> Result<Vec<Push>, FilesFault>
        requires sure { self.old.sure ≡ true }
        requires numbers { HasNumbers self.old }
        requires room { self.old.count < self.old.records }
        requires some { pushes.items ≢ [] }
        requires few { length pushes.items ≤ most_pushes }
        requires light { All IsLight pushes.items }
        requires totals { (history : List Push) → Tells (D.view self.old.disk) → HasHistory (D.view self.old.disk) self.old history
            → HasBoundedTotals (history ++ pushes.items) }
        ensures added { (history : List Push) → Tells (D.view self.old.disk) → HasHistory (D.view self.old.disk) self.old history
            → OnOk result (IsAdded (D.view self.old.disk) (D.view self.new.disk) self.old self.new history pushes.items) }
        ensures not_added { (history : List Push) → Tells (D.view self.old.disk) → HasHistory (D.view self.old.disk) self.old history
            → IsErrOf result FilesFault.Disk → IsNotAdded (D.view self.old.disk) (D.view self.new.disk) self.old self.new history pushes.items }
        ensures given { IfOk result (λ given. given.items ≡ pushes.items) }
        ensures sure { OnOk result ((self.new.sure ≡ true) × (self.new.flight ≡ None)) }
        ensures one_more { OnOk result ((entry : entries.Entry) × IsNextEntry self.old pushes.items entry × HasOneMore self.old self.new entry) }
        ensures same { OnErr result (HasSameIndex self.old self.new) }
        ensures unsure { IsErrOf result FilesFault.Disk → self.new.sure ≡ false }
        ensures flight { IsErrOf result FilesFault.Disk → FliesNext self.old self.new pushes.items }
        ensures records { self.new.records ≡ self.old.records }
        ensures limits { self.new.limits ≡ self.old.limits }
        ensures failed { IsErrOf result FilesFault.Disk → Rose (D.view self.old.disk).faults (D.view self.new.disk).faults }
        ensures unchanged { IsErrOf result FilesFault.Memory → self.new ≡ record self.old { index = record self.old.index { spare = self.new.index.spare } } }
        ensures quiet { OnOk result ((D.view self.new.disk).faults ≡ (D.view self.old.disk).faults) }
        ensures others { Leads LeavesOthers (D.view self.old.disk) (D.view self.new.disk) }
        ensures others_at_each_moment { Leads (LeavesAllBut (self.old.index.greatest + 1)) (D.view self.old.disk) (D.view self.new.disk) }
        ensures others_read { Tells (D.view self.old.disk)
            → OnOk result (LeavesAllBut (self.old.index.greatest + 1) (D.view self.old.disk).files (D.view self.new.disk).files) }
        ensures goes_on { GoesOn (D.view self.old.disk) (D.view self.new.disk) }
    {
        let object = Object::of_light(self.index.end(), pushes);
        let bytes = object.encode(alloc)?;
        let size = bytes.len() as u64;
        // No index takes an object of so many bytes: that much memory isn't asked for.
        if size >= LENGTH_BOUND {
            return Err(FilesFault::Memory);
        }
        let entry = entry_of(&object, self.index.next_id(), size, 0);
        let (_, pushes) = object.into_pushes();
        self.put(&entry, &bytes, pushes)
    }

    // Settles pushes on a sure store.
    fn settle_sure(&mut self, alloc: Global, asks: Vec<PushAsk>) -> Result<Settled, SettleFault>
        requires sure { self.old.sure ≡ true }
        requires few { length asks.items ≤ most_pushes }
        requires light { All (λ ask. IsLight ask.push) asks.items }
        ensures settled { (history : List Push) → Tells (D.view self.old.disk) → HasHistory (D.view self.old.disk) self.old history
            → IfOk result (λ settled. IsSettled D.view self.old self.new history asks.items settled.verdicts.items) }
        ensures many { IfOk result (λ settled. length settled.verdicts.items ≡ length asks.items) }
        ensures kept { IfOk result (λ settled. settled.kept.items ≡ kept_of asks.items settled.verdicts.items) }
        ensures room { IfOk result (λ settled. settled.kept.items ≢ [] → ¬ (IsFull self.old)) }
        ensures end { IfOk result (λ settled. end_of self.new.index.entries ≡ end_of self.old.index.entries + length settled.kept.items) }
        ensures same { OnErr result (HasSameIndex self.old self.new) }
        ensures sure { OnOk result ((self.new.sure ≡ true) × (self.new.flight ≡ None)) }
        ensures full { (records : ℕ) → (back : Vec PushAsk) → IsErrOf result (SettleFault.Full records back)
            → (self.new ≡ self.old) × (records ≡ self.old.records) × (back ≡ asks) × IsFull self.old
            × ((history : List Push) → Tells (D.view self.old.disk) → HasHistory (D.view self.old.disk) self.old history → IsFullFor self.old history asks.items) }
        ensures memory { IsErrOf result SettleFault.Memory → self.new ≡ record self.old { index = record self.old.index { spare = self.new.index.spare } } }
        ensures doubted { (count : ℕ) → IsErrOf result (SettleFault.Disk count) → (history : List Push) → Tells (D.view self.old.disk) → HasHistory (D.view self.old.disk) self.old history
            → IsDoubted D.view self.old self.new history asks.items }
        ensures unsure { (count : ℕ) → IsErrOf result (SettleFault.Disk count) → self.new.sure ≡ false }
        ensures records { self.new.records ≡ self.old.records }
        ensures limits { self.new.limits ≡ self.old.limits }
        ensures failed { (count : ℕ) → IsErrOf result (SettleFault.Disk count) → (count ≡ (D.view self.new.disk).faults) × Rose (D.view self.old.disk).faults count }
        ensures quiet { OnOk result ((D.view self.new.disk).faults ≡ (D.view self.old.disk).faults) }
        ensures others { Leads LeavesOthers (D.view self.old.disk) (D.view self.new.disk) }
        ensures goes_on { GoesOn (D.view self.old.disk) (D.view self.new.disk) }
    {
        if is_full_for(
            &self.journal,
            self.records,
            &self.index,
            &self.books,
            &self.limits,
            &asks,
        ) {
            return Err(SettleFault::Full {
                records: self.records,
                asks,
            });
        }
        let Judged { verdicts, kept } = match judge(
            alloc,
            &self.books,
            &self.limits,
            self.index.end(),
            asks,
        ) {
            Ok(judged) => judged,
            Err(_) => return Err(SettleFault::Memory),
        };
        if kept.is_empty() {
            return Ok(Settled { verdicts, kept });
        }
        match self.settle_kept(alloc, kept) {
            Ok(kept) => Ok(Settled { verdicts, kept }),
            Err(FilesFault::Memory) => Err(SettleFault::Memory),
            Err(FilesFault::Disk) => Err(SettleFault::Disk(self.faults())),
        }
    }

    /// Settles up to 64 pushes that ask to be kept. They are judged in order, each after those kept before it. Those that
    /// are kept are on the disk when it answers, as one object and one record, and are given back. A store that isn't sure is
    /// mended first.
    ///
    /// It takes all its memory before the first call of the disk that writes. After `Memory` and `Full` all is as before,
    /// but for a mend; the pushes of `Memory` are gone.
    pub fn settle(&mut self, alloc: Global, asks: Vec<PushAsk>) -> Result<Settled, SettleFault>
        requires few { length asks.items ≤ most_pushes }
        requires light { All (λ ask. IsLight ask.push) asks.items }
        ensures settled { (history : List Push) → Tells (D.view self.old.disk) → HasHistory (D.view self.old.disk) self.old history
            → IfOk result (λ settled. FirstMended D.view self.old history (λ between next. IsSettled D.view between self.new next asks.items settled.verdicts.items)) }
        ensures many { IfOk result (λ settled. length settled.verdicts.items ≡ length asks.items) }
        ensures kept { IfOk result (λ settled. settled.kept.items ≡ kept_of asks.items settled.verdicts.items) }
        ensures room { self.old.sure ≡ true → IfOk result (λ settled. settled.kept.items ≢ [] → ¬ (IsFull self.old)) }
        ensures end { IfOk result (λ settled. (before : ℕ) × EndsWithFlight self.old before × (end_of self.new.index.entries ≡ before + length settled.kept.items)) }
        ensures end_refused { OnErr result (EndsWithFlight self.old (end_of self.new.index.entries)) }
        ensures sure { OnOk result ((self.new.sure ≡ true) × (self.new.flight ≡ None)) }
        ensures full { (records : ℕ) → (back : Vec PushAsk) → IsErrOf result (SettleFault.Full records back)
            → (records ≡ self.old.records) × (back ≡ asks) × (self.new.sure ≡ true) × IsFull self.new × (self.old.sure ≡ true → self.new ≡ self.old)
            × ((history : List Push) → Tells (D.view self.old.disk) → HasHistory (D.view self.old.disk) self.old history
            → FirstMended D.view self.old history (λ between next. (self.new ≡ between) × IsFullFor between next asks.items)) }
        ensures memory { IsErrOf result SettleFault.Memory → (history : List Push) → Tells (D.view self.old.disk) → HasHistory (D.view self.old.disk) self.old history
            → MendFailed D.view self.old self.new history
            ⊎ FirstMended D.view self.old history (λ between next. self.new ≡ record between { index = record between.index { spare = self.new.index.spare } }) }
        ensures memory_at_once { IsErrOf result SettleFault.Memory → self.old.sure ≡ true
            → self.new ≡ record self.old { index = record self.old.index { spare = self.new.index.spare } } }
        ensures memory_quiet { IsErrOf result SettleFault.Memory → (D.view self.new.disk).faults ≡ (D.view self.old.disk).faults }
        ensures full_quiet { (records : ℕ) → (back : Vec PushAsk) → IsErrOf result (SettleFault.Full records back)
            → (D.view self.new.disk).faults ≡ (D.view self.old.disk).faults }
        ensures doubted { (count : ℕ) → IsErrOf result (SettleFault.Disk count) → (history : List Push) → Tells (D.view self.old.disk) → HasHistory (D.view self.old.disk) self.old history
            → MendFailed D.view self.old self.new history
            ⊎ FirstMended D.view self.old history (λ between next. IsDoubted D.view between self.new next asks.items) }
        ensures unsure { (count : ℕ) → IsErrOf result (SettleFault.Disk count) → self.new.sure ≡ false }
        ensures records { self.new.records ≡ self.old.records }
        ensures limits { self.new.limits ≡ self.old.limits }
        ensures failed { (count : ℕ) → IsErrOf result (SettleFault.Disk count) → (count ≡ (D.view self.new.disk).faults) × Rose (D.view self.old.disk).faults count }
        ensures quiet { OnOk result ((D.view self.new.disk).faults ≡ (D.view self.old.disk).faults) }
        ensures others { Leads LeavesOthers (D.view self.old.disk) (D.view self.new.disk) }
        ensures goes_on { GoesOn (D.view self.old.disk) (D.view self.new.disk) }
    {
        match self.mend(alloc) {
            Ok(()) => self.settle_sure(alloc, asks),
            Err(MendFault::Memory) => Err(SettleFault::Memory),
            Err(MendFault::Disk(count)) => Err(SettleFault::Disk(count)),
        }
    }
}
