// A store with its spine.
ghost use Rattle.std.specs.Prelude.{◌≡◌, ◌≤◌, [], ℕ, false, length, true, IfErr, IfOk, IsErrOf, MatchOption, OnErr, OnOk, None};
ghost use Rattle.std.specs.List.{All};
ghost use Rattle.disk_trait.specs.Disk.{GoesOn, Rose, Tells};
ghost use Rattle.metastore_index.specs.Entries.{end_of};
ghost use Rattle.history_pass.specs.Marks.{Below, mark};
ghost use Rattle.push_history.specs.History.{HasBoundedTotals};
ghost use Rattle.history_files.specs.Keeps.{most_pushes};
ghost use Rattle.store_core.specs.Store.{IsKeeping, Mends};
ghost use Rattle.shared_store.specs.Cursors.{HasEnded, IsAhead, IsBegun, IsNextPart, IsOn};
ghost use Rattle.segment_file.specs.Laws.{IsLight};
ghost use Rattle.shared_store.specs.Holds.{IsHold};
ghost use Rattle.shared_store.specs.Settled.{IsFullFor, IsLeft, IsSettled, full_after};
ghost use Rattle.shared_store.specs.Flushes.{HasFailed, IsFlush, full_after_all};

use crate::cursor::{Cursor, FrontAhead};
use crate::names::Names;
use crate::refusal::Refusal;
use crate::{flush, settle};
use disk_trait::Disk;
use history_pass::{BlankSpine, Pass, Spine, Standing};
use profile_model::PartAsk;
use segment_file::Part;
use std::alloc::{AllocError, Global};
use std::marker::{Model, PhantomData};
use store_core::{ReadFault, Store};
use tenant_books::{PushAsk, Verdict};

/// A store with the spine that is its history: what one connection holds, or one lock.
#[derive(Drop)]
pub(crate) struct Hold<D: Disk, J: Names> {
    store: Store<D>,
    spine: Spine<J>,
}

impl<D: Disk, J: Names> Model for Hold<D, J> {
    ghost use Rattle.shared_store.specs.Holds.{HoldView, IsHold};

    ghost Value = { HoldView D };

    ghost view = { λ h. record { store = h.store; mark = h.spine } };

    ghost invariant = { λ h. IsHold J.run (D.view h.store.disk) h.store h.spine };
}

// The history that the run began with.
#[derive(Drop)]
struct Opening<J: Names> {
    count: u64,
    of: PhantomData<J>,
}

impl<J: Names> Model for Opening<J> {
    ghost use Rattle.std.specs.Prelude.{◌≡◌, ℕ, length};

    ghost Value = { ℕ };

    ghost view = { λ o. o.count };

    ghost invariant = { λ o. o.count ≡ length J.run.start.history };
}

impl<J: Names> Standing for Opening<J> {
    ghost list = { λ _. J.run.start.history };

    fn count(&self) -> u64 {
        self.count
    }
}

impl<D: Disk, J: Names> Hold<D, J> {
    /// A store with its spine, which the run names. It takes no memory.
    pub(crate) fn new(store: Store<D>, blank: BlankSpine) -> Hold<D, J>
        requires name { blank ≡ J.spine }
        requires tells { J.run.tells → Tells (D.view store.disk) }
        requires records { store.records ≡ J.run.records }
        requires limits { store.limits ≡ J.run.limits }
        requires long { length J.run.start.history ≡ end_of store.index.entries }
        requires keeps { J.run.tells → IsKeeping J.run.start [] (D.view store.disk) store J.run.start.history }
        ensures store { result.store ≡ store }
        ensures mark { result.mark ≡ mark J.run.start.history (D.view store.disk).faults 0 }
    {
        let opening = Opening::<J> {
            count: store.len(),
            of: PhantomData,
        };
        let mut spine = blank.open(&opening);
        spine.tell(store.faults(), 0);
        Hold { store, spine }
    }

    /// A pass that has all of the history.
    pub(crate) fn pass(&mut self) -> Pass<J>
        ensures pass { result ≡ self.old.mark }
        ensures unchanged { self.new ≡ self.old }
    {
        self.spine.new_pass()
    }

    /// The pass has then all of the history.
    pub(crate) fn meet(&mut self, pass: &mut Pass<J>)
        ensures below { Below pass.old self.old.mark }
        ensures met { pass.new ≡ self.old.mark }
        ensures unchanged { self.new ≡ self.old }
    {
        self.spine.meet(pass);
    }

    /// Begins to read the whole history, which the pass then has. It takes no memory.
    pub(crate) fn begin(
        &mut self,
        pass: &mut Pass<J>,
        ask: PartAsk,
        asked: u64,
    ) -> Result<Cursor, FrontAhead>
        ensures below { Below pass.old self.old.mark }
        ensures met { pass.new ≡ self.old.mark }
        ensures begun { IfOk result (IsBegun J.run.tells self.old.mark.list ask asked) }
        ensures ahead { IfErr result (IsAhead J.run.tells self.old.mark.list ask asked) }
        ensures bounded { J.run.tells → HasBoundedTotals self.old.mark.list }
        ensures unchanged { self.new ≡ self.old }
    {
        self.meet(pass);
        // What files stand for has bounded totals.
        self.store.stands();
        let front = self.store.front(&ask.tenant);
        if front < asked {
            return Err(FrontAhead { asked, front });
        }
        Ok(Cursor {
            at: 0,
            until: pass.seen(),
            front,
            ask,
        })
    }

    /// What the query finds in the next pushes, as far as one object goes, and none where it has read all. Else the pass meets
    /// the history before it reads and after it. After a fault the cursor is as before.
    pub(crate) fn next_part(
        &mut self,
        alloc: Global,
        pass: &mut Pass<J>,
        cursor: &mut Cursor,
    ) -> Result<Option<Part>, ReadFault>
        requires { IsOn pass.old.list cursor.old }
        ensures met { IfOk result (λ found. MatchOption found ((pass.new ≡ pass.old) × (self.new ≡ self.old)) (λ part. Below pass.old self.old.mark × (pass.new ≡ self.new.mark))) }
        ensures met_err { OnErr result (Below pass.old self.old.mark × (pass.new ≡ self.new.mark)) }
        ensures part { IfOk result (λ found. MatchOption found (HasEnded cursor.old cursor.new) (IsNextPart J.run.tells pass.old.list cursor.old cursor.new)) }
        ensures unchanged { OnErr result (cursor.new ≡ cursor.old) }
        ensures failed { (count : ℕ) → IsErrOf result (ReadFault.Disk count) → Rose pass.old.faults count × (count ≤ pass.new.faults) }
        ensures damaged { (id : ℕ) → IsErrOf result (ReadFault.Damaged id) → ¬ J.run.tells }
        ensures list { self.new.mark.list ≡ self.old.mark.list }
        ensures flight { self.new.store.flight ≡ self.old.store.flight }
        ensures grows { Below self.old.mark self.new.mark }
    {
        if cursor.at == cursor.until {
            return Ok(None);
        }
        let Hold { store, spine } = self;
        spine.meet(pass);
        let read = store.read_part(alloc, cursor.at, cursor.until, &cursor.ask);
        spine.tell(store.faults(), spine.full());
        spine.meet(pass);
        match read {
            Ok(part) => {
                cursor.at = part.until;
                Ok(Some(part))
            }
            Err(fault) => Err(fault),
        }
    }

    /// Settles one push. What was in the air comes to the history first, or not. The pass meets the history before the store is
    /// called and after it.
    pub(crate) fn settle_one(
        &mut self,
        alloc: Global,
        pass: &mut Pass<J>,
        ask: PushAsk,
    ) -> Result<Verdict, Refusal>
        requires light { IsLight ask.push }
        ensures below { Below pass.old self.old.mark }
        ensures met { pass.new ≡ self.new.mark }
        ensures grows { Below self.old.mark self.new.mark }
        ensures settled { IfOk result (λ verdict. IsSettled J.run self.old.store.flight self.old.mark.list ask verdict self.new.mark.list) }
        ensures mends { OnErr result (Mends self.old.mark.list self.old.store.flight self.new.mark.list) }
        ensures full { (records : ℕ) → IsErrOf result (Refusal.Full records) → IsFullFor J.run self.new.mark.list ask records }
        ensures found_full { self.new.mark.full ≡ full_after result self.old.mark.full }
        ensures lands { OnOk result (self.new.store.flight ≡ None) }
        ensures left { J.run.tells → IfErr result (λ refusal. IsLeft self.old.store.flight self.old.mark.list ask.push refusal self.new.store.flight self.new.mark.list) }
        ensures failed { (count : ℕ) → IsErrOf result (Refusal.Disk count) → (count ≡ (D.view self.new.store.disk).faults) × Rose pass.old.faults count × (count ≤ pass.new.faults) }
    {
        let Hold { store, spine } = self;
        spine.meet(pass);
        let settled = settle::settle_one(store, spine, alloc, ask);
        let full = settle::full_after(&settled, spine.full());
        spine.tell(store.faults(), full);
        spine.meet(pass);
        settled
    }

    /// Settles up to 64 pushes as one object, or, where the index is full for some of them, each by itself. The pass meets the
    /// history before the store is called and after it. It takes the memory for what it tells before anything else.
    pub(crate) fn settle(
        &mut self,
        alloc: Global,
        pass: &mut Pass<J>,
        asks: Vec<PushAsk>,
    ) -> Result<Vec<Result<Verdict, Refusal>>, AllocError>
        requires few { length asks.items ≤ most_pushes }
        requires light { All (λ ask. IsLight ask.push) asks.items }
        ensures below { Below pass.old self.old.mark }
        ensures met { pass.new ≡ self.new.mark }
        ensures grows { Below self.old.mark self.new.mark }
        ensures unchanged { OnErr result (self.new ≡ self.old) }
        ensures told { IfOk result (λ told. IsFlush J.run self.old.store.flight self.old.mark.list asks.items told.items self.new.mark.list) }
        ensures found_full { IfOk result (λ told. self.new.mark.full ≡ full_after_all told.items self.old.mark.full) }
        ensures failed { IfOk result (λ told. All (HasFailed pass.old.faults pass.new.faults) told.items) }
    {
        let Hold { store, spine } = self;
        spine.meet(pass);
        let told = flush::settle(store, spine, alloc, asks)?;
        let found_full = flush::full_after_all(&told, spine.full());
        spine.tell(store.faults(), found_full);
        spine.meet(pass);
        Ok(told)
    }

    /// The store.
    pub(crate) fn into_store(self) -> Store<D>
        ensures store { result ≡ self.store }
        ensures holds { IsHold J.run (D.view result.disk) result self.mark }
    {
        self.store
    }
}
