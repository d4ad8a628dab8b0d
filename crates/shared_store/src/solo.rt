// The store of one connection.
ghost use Rattle.std.specs.Prelude.{◌≡◌, ◌≤◌, [], ℕ, length, true, IfOk, IsErrOf, OnErr, IfErr, None, OnOk};
ghost use Rattle.std.specs.List.{All};
ghost use Rattle.disk_trait.specs.Disk.{Rose, Tells};
ghost use Rattle.metastore_index.specs.Entries.{end_of};
ghost use Rattle.history_pass.specs.Marks.{Below, mark};
ghost use Rattle.segment_file.specs.Laws.{IsLight};
ghost use Rattle.history_files.specs.Keeps.{most_pushes};
ghost use Rattle.store_core.specs.Store.{IsKeeping, Mends};
ghost use Rattle.shared_store.specs.Holds.{IsHold};
ghost use Rattle.shared_store.specs.Settled.{IsFullFor, IsLeft, IsSettled, full_after};
ghost use Rattle.shared_store.specs.Flushes.{HasFailed, IsFlush, full_after_all};

use crate::cursor::{Cursor, FrontAhead, Profiles};
use crate::hold::Hold;
use crate::names::Names;
use crate::refusal::Refusal;
use disk_trait::Disk;
use history_pass::{BlankSpine, Pass};
use profile_model::PartAsk;
use segment_file::Part;
use std::alloc::{AllocError, Global};
use std::marker::Model;
use store_core::{ReadFault, Store};
use tenant_books::{PushAsk, Verdict};

/// A store that no other connection uses, with the spine that is its history.
#[derive(Drop)]
pub struct Solo<D: Disk, J: Names> {
    hold: Hold<D, J>,
}

impl<D: Disk, J: Names> Model for Solo<D, J> {
    ghost use Rattle.shared_store.specs.Holds.{HoldView};

    ghost Value = { HoldView D };

    ghost view = { λ s. s.hold };
}

impl<D: Disk, J: Names> Solo<D, J> {
    /// A store with its spine, which the run names: its history is the run's, as a store that was opened just now has it. It
    /// takes no memory.
    pub fn new(store: Store<D>, blank: BlankSpine) -> Solo<D, J>
        requires name { blank ≡ J.spine }
        requires tells { J.run.tells → Tells (D.view store.disk) }
        requires records { store.records ≡ J.run.records }
        requires limits { store.limits ≡ J.run.limits }
        requires long { length J.run.start.history ≡ end_of store.index.entries }
        requires keeps { J.run.tells → IsKeeping J.run.start [] (D.view store.disk) store J.run.start.history }
        ensures store { result.store ≡ store }
        ensures mark { result.mark ≡ mark J.run.start.history (D.view store.disk).faults 0 }
    {
        Solo {
            hold: Hold::new(store, blank),
        }
    }

    /// A pass that has all of the history.
    pub fn pass(&mut self) -> Pass<J>
        ensures pass { result ≡ self.old.mark }
        ensures unchanged { self.new ≡ self.old }
    {
        self.hold.pass()
    }

    /// Settles one push: it has its verdict behind what was in the air, if that came to the history, and stands behind that
    /// if it was kept. The pass meets the history before the store is called and after it.
    pub fn settle_one(
        &mut self,
        alloc: Global,
        pass: &mut Pass<J>,
        ask: PushAsk,
    ) -> Result<Verdict, Refusal>
        requires light { IsLight ask.push }
        ensures below { Below pass.old self.old.mark }
        ensures met { pass.new ≡ self.new.mark }
        ensures grows { Below self.old.mark self.new.mark }
        ensures settled { IfOk result (λ verdict. IsSettled J.run self.old.store.flight self.old.mark.list ask verdict self.new.mark.list) }
        ensures mends { OnErr result (Mends self.old.mark.list self.old.store.flight self.new.mark.list) }
        ensures full { (records : ℕ) → IsErrOf result (Refusal.Full records) → IsFullFor J.run self.new.mark.list ask records }
        ensures found_full { self.new.mark.full ≡ full_after result self.old.mark.full }
        ensures lands { OnOk result (self.new.store.flight ≡ None) }
        ensures left { J.run.tells → IfErr result (λ refusal. IsLeft self.old.store.flight self.old.mark.list ask.push refusal self.new.store.flight self.new.mark.list) }
        ensures failed { (count : ℕ) → IsErrOf result (Refusal.Disk count) → (count ≡ (D.view self.new.store.disk).faults) × Rose pass.old.faults count × (count ≤ pass.new.faults) }
    {
        self.hold.settle_one(alloc, pass, ask)
    }

    /// Settles up to 64 pushes as one object, or, where the index is full for some of them, each by itself. The pass meets the
    /// history before the store is called and after it. It takes the memory for what it tells before anything else.
    pub fn settle(
        &mut self,
        alloc: Global,
        pass: &mut Pass<J>,
        asks: Vec<PushAsk>,
    ) -> Result<Vec<Result<Verdict, Refusal>>, AllocError>
        requires few { length asks.items ≤ most_pushes }
        requires light { All (λ ask. IsLight ask.push) asks.items }
        ensures below { Below pass.old self.old.mark }
        ensures met { pass.new ≡ self.new.mark }
        ensures grows { Below self.old.mark self.new.mark }
        ensures unchanged { OnErr result (self.new ≡ self.old) }
        ensures told { IfOk result (λ told. IsFlush J.run self.old.store.flight self.old.mark.list asks.items told.items self.new.mark.list) }
        ensures found_full { IfOk result (λ told. self.new.mark.full ≡ full_after_all told.items self.old.mark.full) }
        ensures failed { IfOk result (λ told. All (HasFailed pass.old.faults pass.new.faults) told.items) }
    {
        self.hold.settle(alloc, pass, asks)
    }

    /// The store. Where the disk is known to tell, its files hold the history, which was kept since the run's start.
    pub fn into_store(self) -> Store<D>
        ensures store { result ≡ self.store }
        ensures holds { IsHold J.run (D.view result.disk) result self.mark }
    {
        self.hold.into_store()
    }
}

impl<D: Disk, J: Names> Profiles<J> for Solo<D, J> {
    ghost use Rattle.std.specs.Prelude.{Some};
    ghost use Rattle.shared_store.specs.Cursors.{Alone};

    ghost alone = { λ s. Some (record { history = s.mark.list; flight = s.store.flight }) };

    fn begin(
        &mut self,
        pass: &mut Pass<J>,
        ask: PartAsk,
        asked: u64,
    ) -> Result<Cursor, FrontAhead> {
        self.hold.begin(pass, ask, asked)
    }

    fn next_part(
        &mut self,
        alloc: Global,
        pass: &mut Pass<J>,
        cursor: &mut Cursor,
    ) -> Result<Option<Part>, ReadFault> {
        self.hold.next_part(alloc, pass, cursor)
    }
}
