// A store of pushes over a disk.
ghost use Rattle.std.specs.Prelude.{◌≡◌, ◌+◌, ◌^◌, ◌<◌, ◌≤◌, ◌++◌, List, IfSome, None, length, true};
ghost use Rattle.disk_trait.specs.Disk.{Files, Tells, bytes_of};
ghost use Rattle.disk_trait.specs.declared.disk.FileId.TheVariants as names;
ghost use Rattle.gate_journal.specs.Slots.{bodies_of};
ghost use Rattle.metastore_index.specs.Entries.{end_of};
ghost use Rattle.profile_model.specs.declared.push.Push.{Push};
ghost use Rattle.push_history.specs.History.{front_of};
ghost use Rattle.history_files.specs.History.{HasIndex};
ghost use Rattle.history_files.specs.Keeps.{StandForEither, most_pushes};
ghost use Rattle.history_files.specs.Standing.{NoneFrom};
ghost use Rattle.store_core.specs.Store.{HasHistory, IsBehind, in_flight};

use crate::flight::Flight;
use disk_trait::Disk;
use gate_journal::Journal;
use metastore_index::Index;
use profile_model::Tenant;
use std::marker::Model;
use tenant_books::{Books, Limits};

/// A store over a disk. Its history is what its live objects hold. After a fault of the disk it isn't sure of what the disk
/// has, until it is mended.
#[derive(Drop)]
pub struct Store<D: Disk> {
    pub(crate) disk: D,
    pub(crate) journal: Journal,
    pub(crate) index: Index,
    pub(crate) books: Books,
    pub(crate) limits: Limits,
    pub(crate) flight: Option<Flight>,
    pub(crate) sure: bool,
    pub(crate) records: u64,
}

impl<D: Disk> Model for Store<D> {
    ghost use Rattle.std.specs.Option.{option_map};
    ghost use Rattle.store_core.specs.Store.{Invariant, StoreView};

    ghost Value = { StoreView D };

    ghost view = { λ s. record { disk = s.disk; index = s.index; flight = option_map (λ f. record { entry = f.entry; pushes = f.pushes.items }) s.flight; sure = s.sure; records = s.records; count = s.journal.count; limits = s.limits } };

    ghost invariant = { λ s. Invariant (D.view s.disk) s.journal s.index (option_map (λ f. record { entry = f.entry; pushes = f.pushes.items }) s.flight) s.books s.sure s.records };
}

impl<D: Disk> Store<D> {
    /// The disk.
    pub fn close(self) -> D
        ensures { result ≡ self.disk }
    {
        self.disk
    }

    /// Its live objects' entries. It takes no memory.
    pub fn index(&self) -> &Index
        ensures { result.now ≡ self.now.index }
    {
        &self.index
    }

    /// How often its disk has failed.
    pub fn faults(&self) -> u64
        ensures { result ≡ (D.view self.now.disk).faults }
    {
        self.disk.faults()
    }

    /// How many pushes its history has. It takes no memory.
    pub fn len(&self) -> u64
        ensures end { result ≡ end_of self.now.index.entries }
        ensures small { result < 2 ^ 63 }
        ensures told { (history : List Push) → Tells (D.view self.now.disk) → HasHistory (D.view self.now.disk) self.now history → result ≡ length history }
    {
        self.index.end()
    }

    /// How many pushes of its history are the tenant's. It takes no memory.
    pub fn front(&self, tenant: &Tenant) -> u64
        ensures { (history : List Push) → Tells (D.view self.now.disk) → HasHistory (D.view self.now.disk) self.now history → result ≡ front_of history tenant.now }
    {
        self.books.standing(tenant).front
    }

    /// It has a history, and each image stands for that, or for that with the flight behind it. With nothing in the air its
    /// index is what the index file lists. A store that is sure has nothing in the air, and no object with an id that is still to
    /// come. A flight is few pushes, under an entry behind all others. It does nothing.
    pub fn stands(&self)
        ensures has { Tells (D.view self.now.disk) → (history : List Push) × HasHistory (D.view self.now.disk) self.now history }
        ensures images { (history : List Push) → Tells (D.view self.now.disk) → HasHistory (D.view self.now.disk) self.now history
            → (image : Files) → (D.view self.now.disk).images_now image → StandForEither self.now.records history (history ++ in_flight self.now.flight) image }
        ensures index { Tells (D.view self.now.disk) → self.now.flight ≡ None → HasIndex self.now.records (D.view self.now.disk).files self.now.index
            × (self.now.count ≡ length (bodies_of (bytes_of ((D.view self.now.disk).files (names.Index 0))))) }
        ensures none { Tells (D.view self.now.disk) → self.now.sure ≡ true → NoneFrom (self.now.index.greatest + 1) (D.view self.now.disk).files }
        ensures settled { self.now.sure ≡ true → self.now.flight ≡ None }
        ensures few { length (in_flight self.now.flight) ≤ most_pushes }
        ensures behind { IfSome self.now.flight (IsBehind self.now.index.entries) }
        ensures short { end_of self.now.index.entries < 2 ^ 63 }
    {
        let _ = &self.disk;
    }
}
