// What a store's objects hold.
ghost use Rattle.std.specs.Prelude.{◌≡◌, ◌-◌, ◌<◌, ◌≤◌, List, ℕ, IfOk, IsErrOf, OnOk, drop, min, take};
ghost use Rattle.disk_trait.specs.Disk.{GoesOn, Looks, Rose, Tells};
ghost use Rattle.metastore_index.specs.declared.entry.Entry as entries;
ghost use Rattle.metastore_index.specs.Entries.{Covers, end_of};
ghost use Rattle.profile_model.specs.declared.push.Push.{Push};
ghost use Rattle.segment_file.specs.Objects.{ObjectView};
ghost use Rattle.segment_file.specs.Parts.{part_of};
ghost use Rattle.history_files.specs.Standing.{Describes};
ghost use Rattle.store_core.specs.Store.{HasHistory};
ghost use Rattle.store_core.specs.Changes.{KeepsOn};
ghost use Rattle.store_core.specs.Reading.{IsHeldAt};

use crate::fault::ReadFault;
use crate::store::Store;
use disk_trait::Disk;
use history_files::{FilesFault, read_object};
use metastore_index::{Entry, Index};
use profile_model::PartAsk;
use segment_file::{Object, Part};
use std::alloc::Global;

// The object of the entry, and none where its file isn't just that.
fn object_of<D: Disk>(disk: &mut D, alloc: Global, entry: &Entry) -> Result<Object, ReadFault>
    ensures described { IfOk result (λ object. Describes entry.now object) }
    ensures held { (entries : List entries.Entry) → (history : List Push) → Tells (D.view disk.old) → IsHeldAt (D.view disk.old).files entries entry.now history
        → IfOk result (λ object. object.pushes ≡ take (entry.now.hi - entry.now.lo) (drop entry.now.lo history)) }
    ensures damaged { (id : ℕ) → IsErrOf result (ReadFault.Damaged id) → (id ≡ entry.now.id)
        × ((entries : List entries.Entry) → (history : List Push) → Tells (D.view disk.old) → ¬ (IsHeldAt (D.view disk.old).files entries entry.now history)) }
    ensures failed { (count : ℕ) → IsErrOf result (ReadFault.Disk count) → (count ≡ (D.view disk.new).faults) × Rose (D.view disk.old).faults count }
    ensures memory { IsErrOf result ReadFault.Memory → (D.view disk.new).faults ≡ (D.view disk.old).faults }
    ensures damaged_quiet { (id : ℕ) → IsErrOf result (ReadFault.Damaged id) → (D.view disk.new).faults ≡ (D.view disk.old).faults }
    ensures quiet { OnOk result ((D.view disk.new).faults ≡ (D.view disk.old).faults) }
    ensures looks { Looks (D.view disk.old) (D.view disk.new) }
    ensures goes_on { GoesOn (D.view disk.old) (D.view disk.new) }
{
    match read_object(disk, alloc, entry) {
        Ok(Some(object)) => Ok(object),
        Ok(None) => Err(ReadFault::Damaged(entry.id)),
        Err(FilesFault::Memory) => Err(ReadFault::Memory),
        Err(FilesFault::Disk) => Err(ReadFault::Disk(disk.faults())),
    }
}

impl<D: Disk> Store<D> {
    /// The live entry that covers the push with this number, and its object. The store stays as it is, but for its disk's
    /// count of faults.
    pub fn read_object(&mut self, alloc: Global, at: u64) -> Result<(Entry, Object), ReadFault>
        requires { at < end_of self.old.index.entries }
        ensures covers { IfOk result (λ pair. Covers self.old.index.entries at pair.0) }
        ensures described { IfOk result (λ pair. Describes pair.0 pair.1) }
        ensures pushes { (history : List Push) → Tells (D.view self.old.disk) → HasHistory (D.view self.old.disk) self.old history
            → IfOk result (λ pair. pair.1.pushes ≡ take (pair.0.hi - pair.0.lo) (drop pair.0.lo history)) }
        ensures damaged { (id : ℕ) → IsErrOf result (ReadFault.Damaged id)
            → ((entry : entries.Entry) × Covers self.old.index.entries at entry × (id ≡ entry.id)) × ¬ (Tells (D.view self.old.disk)) }
        ensures same { self.new ≡ record self.old { disk = self.new.disk } }
        ensures keeps { (history : List Push) → Tells (D.view self.old.disk) → HasHistory (D.view self.old.disk) self.old history
            → KeepsOn (D.view self.old.disk) (D.view self.new.disk) self.old self.new history history }
        ensures failed { (count : ℕ) → IsErrOf result (ReadFault.Disk count) → (count ≡ (D.view self.new.disk).faults) × Rose (D.view self.old.disk).faults count }
        ensures memory { IsErrOf result ReadFault.Memory → (D.view self.new.disk).faults ≡ (D.view self.old.disk).faults }
        ensures damaged_quiet { (id : ℕ) → IsErrOf result (ReadFault.Damaged id) → (D.view self.new.disk).faults ≡ (D.view self.old.disk).faults }
        ensures quiet { OnOk result ((D.view self.new.disk).faults ≡ (D.view self.old.disk).faults) }
        ensures looks { Looks (D.view self.old.disk) (D.view self.new.disk) }
        ensures goes_on { GoesOn (D.view self.old.disk) (D.view self.new.disk) }
    {
        let Some(entry) = self.index.cover(at) else {
            unreachable!()
        };
        match object_of(&mut self.disk, alloc, &entry) {
            Ok(object) => Ok((entry, object)),
            Err(fault) => Err(fault),
        }
    }

    /// What an ask finds in pushes number `at` to `until` - 1, as far as one object goes: the part ends where the covering
    /// entry does, if that is before `until`. The store stays as it is, but for its disk's count of faults.
    pub fn read_part(
        &mut self,
        alloc: Global,
        at: u64,
        until: u64,
        ask: &PartAsk,
    ) -> Result<Part, ReadFault>
        requires before { at < until }
        requires within { until ≤ end_of self.old.index.entries }
        ensures part { (history : List Push) → Tells (D.view self.old.disk) → HasHistory (D.view self.old.disk) self.old history
            → IfOk result (λ part. part ≡ part_of 0 history at part.until ask.now) }
        ensures until { IfOk result (λ part. (entry : entries.Entry) × Covers self.old.index.entries at entry × (part.until ≡ min until entry.hi)) }
        ensures from { IfOk result (λ part. part.from ≡ at) }
        ensures found { IfOk result (λ part. (entry : entries.Entry) × Covers self.old.index.entries at entry × (object : ObjectView) × Describes entry object
            × (part ≡ part_of object.lo object.pushes at until ask.now)) }
        ensures damaged { (id : ℕ) → IsErrOf result (ReadFault.Damaged id)
            → ((entry : entries.Entry) × Covers self.old.index.entries at entry × (id ≡ entry.id)) × ¬ (Tells (D.view self.old.disk)) }
        ensures same { self.new ≡ record self.old { disk = self.new.disk } }
        ensures keeps { (history : List Push) → Tells (D.view self.old.disk) → HasHistory (D.view self.old.disk) self.old history
            → KeepsOn (D.view self.old.disk) (D.view self.new.disk) self.old self.new history history }
        ensures failed { (count : ℕ) → IsErrOf result (ReadFault.Disk count) → (count ≡ (D.view self.new.disk).faults) × Rose (D.view self.old.disk).faults count }
        ensures memory { IsErrOf result ReadFault.Memory → (D.view self.new.disk).faults ≡ (D.view self.old.disk).faults }
        ensures damaged_quiet { (id : ℕ) → IsErrOf result (ReadFault.Damaged id) → (D.view self.new.disk).faults ≡ (D.view self.old.disk).faults }
        ensures quiet { OnOk result ((D.view self.new.disk).faults ≡ (D.view self.old.disk).faults) }
        ensures looks { Looks (D.view self.old.disk) (D.view self.new.disk) }
        ensures goes_on { GoesOn (D.view self.old.disk) (D.view self.new.disk) }
    {
        match self.read_object(alloc, at) {
            Ok((_, object)) => match object.into_part(alloc, at, until, ask) {
                Ok(part) => Ok(part),
                Err(_) => Err(ReadFault::Memory),
            },
            Err(fault) => Err(fault),
        }
    }
}
