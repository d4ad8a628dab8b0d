// What becomes of a store after a fault of its disk.
ghost use Rattle.std.specs.Prelude.{◌≡◌, ◌⊎◌, ◌+◌, ◌++◌, [], List, ℕ, true, false, IfOk, OnOk, OnErr, IsErrOf, IsOk, None, length};
ghost use Rattle.disk_trait.specs.Disk.{GoesOn, Leads, Rose, Stays, Tells};
ghost use Rattle.metastore_index.specs.Entries.{end_of};
ghost use Rattle.profile_model.specs.declared.push.Push.{Push};
ghost use Rattle.history_files.specs.History.{StandFor};
ghost use Rattle.store_core.specs.Store.{HasHistory, in_flight};
ghost use Rattle.store_core.specs.Changes.{EndsWithFlight, HasNoSpares, HasSameIndex, IsMended, LeavesOthers, TakesFlight};

use crate::fault::MendFault;
use crate::parts::decide_on;
use crate::store::Store;
use disk_trait::Disk;
use history_files::{FilesFault, remove_spares};
use profile_model::Push;
use std::alloc::Global;

// What a mend says of a fault.
fn told<D: Disk>(disk: &D, fault: FilesFault) -> MendFault
    ensures failed { (count : ℕ) → result ≡ MendFault.Disk count → (fault ≡ FilesFault.Disk) × (count ≡ (D.view disk.now).faults) }
    ensures memory { result ≡ MendFault.Memory → fault ≡ FilesFault.Memory }
{
    match fault {
        FilesFault::Memory => MendFault::Memory,
        FilesFault::Disk => MendFault::Disk(disk.faults()),
    }
}

impl<D: Disk> Store<D> {
    /// Finds out what came of the pushes in the air, and gives those that came to the history by it. It writes nothing. Where
    /// nothing is in the air it does nothing, and takes no memory.
    pub fn decide(&mut self, alloc: Global) -> Result<Vec<Push>, MendFault>
        ensures mended { (history : List Push) → Tells (D.view self.old.disk) → HasHistory (D.view self.old.disk) self.old history
            → (next : List Push) × IsMended (D.view self.old.disk) (D.view self.new.disk) self.old self.new history next
            × IfOk result (λ came. next ≡ history ++ came.items)
            × OnOk result (StandFor self.old.records (D.view self.old.disk).files next) }
        ensures came { IfOk result (λ came. (came.items ≡ []) ⊎ (came.items ≡ in_flight self.old.flight)) }
        ensures flight { OnOk result (self.new.flight ≡ None) }
        ensures same { OnErr result (HasSameIndex self.old self.new × (self.new.flight ≡ self.old.flight)) }
        ensures end { IfOk result (λ came. end_of self.new.index.entries ≡ end_of self.old.index.entries + length came.items) }
        ensures nothing { self.old.flight ≡ None → (self.new ≡ self.old) × IfOk result (λ came. came.items ≡ []) × IsOk result }
        ensures sure { self.new.sure ≡ self.old.sure }
        ensures unsure { OnErr result (self.new.sure ≡ false) }
        ensures records { self.new.records ≡ self.old.records }
        ensures limits { self.new.limits ≡ self.old.limits }
        ensures failed { (count : ℕ) → IsErrOf result (MendFault.Disk count) → (count ≡ (D.view self.new.disk).faults) × Rose (D.view self.old.disk).faults count }
        ensures memory { IsErrOf result MendFault.Memory → (D.view self.new.disk).faults ≡ (D.view self.old.disk).faults }
        ensures quiet { OnOk result ((D.view self.new.disk).faults ≡ (D.view self.old.disk).faults) }
        ensures stays { Leads Stays (D.view self.old.disk) (D.view self.new.disk) }
        ensures others { Leads LeavesOthers (D.view self.old.disk) (D.view self.new.disk) }
        ensures index { Tells (D.view self.old.disk) → TakesFlight self.old self.new }
        ensures goes_on { GoesOn (D.view self.old.disk) (D.view self.new.disk) }
    {
        let Some(flight) = self.flight.take() else {
            return Ok(Vec::new(alloc));
        };
        match decide_on(
            &mut self.disk,
            &mut self.journal,
            &mut self.index,
            &mut self.books,
            &flight.entry,
            &flight.pushes,
        ) {
            Ok(true) => Ok(flight.pushes),
            Ok(false) => Ok(Vec::new(alloc)),
            Err(fault) => {
                self.flight = Some(flight);
                Err(told(&self.disk, fault))
            }
        }
    }

    // Removes each object that is no live entry's.
    fn clear(&mut self, alloc: Global) -> Result<(), MendFault>
        requires { self.old.flight ≡ None }
        ensures mended { (history : List Push) → Tells (D.view self.old.disk) → HasHistory (D.view self.old.disk) self.old history
            → IsMended (D.view self.old.disk) (D.view self.new.disk) self.old self.new history history }
        ensures sure { OnOk result (self.new.sure ≡ true) }
        ensures unsure { OnErr result (self.new.sure ≡ false) }
        ensures flight { self.new.flight ≡ None }
        ensures records { self.new.records ≡ self.old.records }
        ensures limits { self.new.limits ≡ self.old.limits }
        ensures failed { (count : ℕ) → IsErrOf result (MendFault.Disk count) → (count ≡ (D.view self.new.disk).faults) × Rose (D.view self.old.disk).faults count }
        ensures memory { IsErrOf result MendFault.Memory → (D.view self.new.disk).faults ≡ (D.view self.old.disk).faults }
        ensures quiet { OnOk result ((D.view self.new.disk).faults ≡ (D.view self.old.disk).faults) }
        ensures others { Leads LeavesOthers (D.view self.old.disk) (D.view self.new.disk) }
        ensures gone { Tells (D.view self.old.disk) → OnOk result (HasNoSpares (D.view self.new.disk) self.new) }
        ensures index { HasSameIndex self.old self.new }
        ensures goes_on { GoesOn (D.view self.old.disk) (D.view self.new.disk) }
    {
        self.sure = false;
        match remove_spares(&mut self.disk, alloc, self.index.entries()) {
            Ok(()) => {
                self.sure = true;
                Ok(())
            }
            Err(fault) => Err(told(&self.disk, fault)),
        }
    }

    /// After a fault, finds out what came of it. On a sure store it does nothing, and takes no memory.
    pub fn mend(&mut self, alloc: Global) -> Result<(), MendFault>
        ensures mended { (history : List Push) → Tells (D.view self.old.disk) → HasHistory (D.view self.old.disk) self.old history
            → (next : List Push) × IsMended (D.view self.old.disk) (D.view self.new.disk) self.old self.new history next
            × OnOk result (StandFor self.old.records (D.view self.old.disk).files next) }
        ensures sure { OnOk result (self.new.sure ≡ true) }
        ensures unsure { OnErr result (self.new.sure ≡ false) }
        ensures flight { OnOk result (self.new.flight ≡ None) }
        ensures lands { self.old.flight ≡ None → (self.new.flight ≡ None) × HasSameIndex self.old self.new }
        ensures end { EndsWithFlight self.old (end_of self.new.index.entries) }
        ensures records { self.new.records ≡ self.old.records }
        ensures limits { self.new.limits ≡ self.old.limits }
        ensures nothing { self.old.sure ≡ true → (self.new ≡ self.old) × IsOk result }
        ensures was_unsure { OnErr result (self.old.sure ≡ false) }
        ensures failed { (count : ℕ) → IsErrOf result (MendFault.Disk count) → (count ≡ (D.view self.new.disk).faults) × Rose (D.view self.old.disk).faults count }
        ensures memory { IsErrOf result MendFault.Memory → (D.view self.new.disk).faults ≡ (D.view self.old.disk).faults }
        ensures quiet { OnOk result ((D.view self.new.disk).faults ≡ (D.view self.old.disk).faults) }
        ensures others { Leads LeavesOthers (D.view self.old.disk) (D.view self.new.disk) }
        ensures gone { self.old.sure ≡ false → Tells (D.view self.old.disk) → OnOk result (HasNoSpares (D.view self.new.disk) self.new) }
        ensures index { Tells (D.view self.old.disk) → TakesFlight self.old self.new }
        ensures goes_on { GoesOn (D.view self.old.disk) (D.view self.new.disk) }
    {
        if self.sure {
            return Ok(());
        }
        self.reap(alloc)
    }

    /// Removes each object that is no live entry's. It mends first.
    pub fn reap(&mut self, alloc: Global) -> Result<(), MendFault>
        ensures mended { (history : List Push) → Tells (D.view self.old.disk) → HasHistory (D.view self.old.disk) self.old history
            → (next : List Push) × IsMended (D.view self.old.disk) (D.view self.new.disk) self.old self.new history next
            × OnOk result (StandFor self.old.records (D.view self.old.disk).files next) }
        ensures sure { OnOk result (self.new.sure ≡ true) }
        ensures unsure { OnErr result (self.new.sure ≡ false) }
        ensures flight { OnOk result (self.new.flight ≡ None) }
        ensures lands { self.old.flight ≡ None → (self.new.flight ≡ None) × HasSameIndex self.old self.new }
        ensures end { EndsWithFlight self.old (end_of self.new.index.entries) }
        ensures records { self.new.records ≡ self.old.records }
        ensures limits { self.new.limits ≡ self.old.limits }
        ensures failed { (count : ℕ) → IsErrOf result (MendFault.Disk count) → (count ≡ (D.view self.new.disk).faults) × Rose (D.view self.old.disk).faults count }
        ensures memory { IsErrOf result MendFault.Memory → (D.view self.new.disk).faults ≡ (D.view self.old.disk).faults }
        ensures quiet { OnOk result ((D.view self.new.disk).faults ≡ (D.view self.old.disk).faults) }
        ensures others { Leads LeavesOthers (D.view self.old.disk) (D.view self.new.disk) }
        ensures gone { Tells (D.view self.old.disk) → OnOk result (HasNoSpares (D.view self.new.disk) self.new) }
        ensures index { Tells (D.view self.old.disk) → TakesFlight self.old self.new }
        ensures goes_on { GoesOn (D.view self.old.disk) (D.view self.new.disk) }
    {
        match self.decide(alloc) {
            Ok(_) => {}
            Err(fault) => return Err(fault),
        }
        self.clear(alloc)
    }
}
