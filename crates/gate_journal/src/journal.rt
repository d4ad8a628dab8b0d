// A list of bodies in one file: slots of a gate byte and a body of 63 bytes. A slot counts if its gate is open (01)
// and it is whole.
ghost use Rattle.std.specs.Prelude.{◌≡◌, ◌↔◌, ◌+◌, ◌<◌, ◌≤◌, ◌^◌, ◌++◌, [], ◌∷◌, ℕ, List, true, false, OnOk, OnErr, IfOk, IfSome, IsErrOf, Some, length, slice_get};
ghost use Rattle.disk_trait.specs.Disk.{Tells, Rose, GoesOn, Leads, Looks, Stays, Touches, IsDurable, bytes_of};
ghost use Rattle.std.specs.Option.{option_to_list};
ghost use Rattle.gate_journal.specs.Slots.{bodies_of};
ghost use Rattle.gate_journal.specs.Journal.{IsSettled, IsUnsettled, IsOpen, SameBodies, OthersStay, InAnyWay, list_of, Appends};

use crate::slots::{count_open, ensure_gate, read_slot, sync_if_there, write_body};
use disk_trait::{Disk, Failed, FileId, write_through};
use std::marker::Model;

#[derive(Clone, Copy, Debug, PartialEq, Eq)]
pub enum AppendFault {
    /// It holds as many bodies as it may.
    Full,
    /// The disk failed, and counted a fault.
    Disk,
}

impl From<Failed> for AppendFault {
    ghost use Rattle.std.specs.Prelude.{◌≡◌};
    ghost use Rattle.gate_journal.specs.declared.journal.AppendFault.TheVariants.{Disk};

    ghost from_gives = { λ _ e. e ≡ Disk };

    fn from(_: Failed) -> Self {
        AppendFault::Disk
    }
}

#[derive(Clone, Copy, Debug, PartialEq, Eq)]
pub enum JournalFault {
    /// The file holds more bodies than the journal may.
    Damaged,
    /// The disk failed, and counted a fault.
    Disk,
}

impl From<Failed> for JournalFault {
    ghost use Rattle.std.specs.Prelude.{◌≡◌};
    ghost use Rattle.gate_journal.specs.declared.journal.JournalFault.TheVariants.{Disk};

    ghost from_gives = { λ _ e. e ≡ Disk };

    fn from(_: Failed) -> Self {
        JournalFault::Disk
    }
}

/// The bodies stay in the file, so that no call takes memory.
///
/// Nobody else writes the file while a journal is open on it.
#[derive(Drop)]
pub struct Journal {
    file: FileId,
    limit: u64,
    count: u64,
    sure: bool,
}

impl Model for Journal {
    ghost use Rattle.std.specs.Prelude.{◌≡◌, ◌<◌, ◌≤◌, ◌^◌, false};
    ghost use Rattle.gate_journal.specs.Journal.{JournalView};

    ghost Value = { JournalView };

    ghost view = { λ j. record { file = j.file; limit = j.limit; count = j.count; sure = j.sure } };

    ghost invariant = { λ j. (j.count ≤ j.limit) × (j.limit ≤ 2 ^ 57) × (j.sure ≡ false → j.count < j.limit) };
}

impl Journal {
    /// Opens a file, new or left by a crash, with at most so many bodies. It writes one byte at most: the gate behind
    /// the open slots, where a crash cut it off or left one that a later body could stand under.
    pub fn open<D: Disk>(disk: &mut D, file: FileId, limit: u64) -> Result<Journal, JournalFault>
        requires { limit ≤ 2 ^ 57 }

        ensures ok { IfOk result (λ journal. (journal.file ≡ file) × (journal.limit ≡ limit) × (journal.sure ≡ true)) }
        ensures settled { Tells (D.view disk.old) → IfOk result (λ journal. IsSettled (D.view disk.new) journal
            × (list_of (D.view disk.new) journal ≡ bodies_of (bytes_of ((D.view disk.old).files file)))) }
        // Exactly where more slots are open than it may hold, unless a fault comes first.
        ensures damaged { Tells (D.view disk.old) → IsErrOf result JournalFault.Damaged → limit < length (bodies_of (bytes_of ((D.view disk.old).files file))) }
        ensures within { Tells (D.view disk.old) → OnOk result (length (bodies_of (bytes_of ((D.view disk.old).files file))) ≤ limit) }

        ensures failed { IsErrOf result JournalFault.Disk → Rose (D.view disk.old).faults (D.view disk.new).faults }
        ensures quiet { OnOk result ((D.view disk.new).faults ≡ (D.view disk.old).faults) }
        ensures damaged_quiet { IsErrOf result JournalFault.Damaged → (D.view disk.new).faults ≡ (D.view disk.old).faults }

        // At any moment each image has the bodies that the file had, if nothing of it waited for a sync.
        ensures any_moment { Tells (D.view disk.old) → IsDurable file (D.view disk.old)
            → Leads (Touches file SameBodies) (D.view disk.old) (D.view disk.new) }

        // It touches no other file.
        ensures others { Tells (D.view disk.old) → OnOk result (OthersStay file (D.view disk.old).files (D.view disk.new).files) }
        ensures touches { Leads (Touches file InAnyWay) (D.view disk.old) (D.view disk.new) }
        ensures goes_on { GoesOn (D.view disk.old) (D.view disk.new) }
    {
        sync_if_there(disk, file)?;
        let Some(count) = count_open(disk, file, limit)? else {
            return Err(JournalFault::Damaged);
        };
        ensure_gate(disk, file, count)?;
        Ok(Journal {
            file,
            limit,
            count,
            sure: true,
        })
    }

    /// The count of bodies.
    pub fn bodies(&self) -> u64
        ensures { result ≡ self.now.count }
    {
        self.count
    }

    /// The body of that number, from 0 on.
    pub fn body<D: Disk>(&self, disk: &mut D, i: u64) -> Result<[u8; 63], Failed>
        requires below { i < self.now.count }
        requires opened { Tells (D.view disk.old) → IsOpen (D.view disk.old) self.now }

        ensures told { Tells (D.view disk.old) → IfOk result (λ body. slice_get (list_of (D.view disk.old) self.now) i ≡ Some body) }
        ensures failed { OnErr result (Rose (D.view disk.old).faults (D.view disk.new).faults) }
        ensures quiet { OnOk result ((D.view disk.new).faults ≡ (D.view disk.old).faults) }
        ensures opened { Tells (D.view disk.old) → IsOpen (D.view disk.new) self.now }
        ensures looks { Looks (D.view disk.old) (D.view disk.new) }
        ensures goes_on { GoesOn (D.view disk.old) (D.view disk.new) }
    {
        let mut body = [0; 63];
        disk.read_at(self.file, 64 * i + 1, &mut body)?;
        Ok(body)
    }

    /// Appends a body, in four calls of the disk. Once it has returned Ok, each crash leaves a file that has it.
    pub fn append<D: Disk>(&mut self, disk: &mut D, body: &[u8; 63]) -> Result<(), AppendFault>
        requires sure { self.old.sure ≡ true }
        requires settled { Tells (D.view disk.old) → IsSettled (D.view disk.old) self.old }

        ensures ok { OnOk result (self.new ≡ record self.old { count = self.old.count + 1 }) }
        ensures settled { Tells (D.view disk.old) → OnOk result (IsSettled (D.view disk.new) self.new
            × (list_of (D.view disk.new) self.new ≡ list_of (D.view disk.old) self.old ++ body.now ∷ [])) }

        ensures others { Tells (D.view disk.old) → OnOk result (OthersStay self.old.file (D.view disk.old).files (D.view disk.new).files) }

        // Exactly where it holds as many bodies as it may, and then nothing happens.
        ensures full { IsErrOf result AppendFault.Full ↔ (self.old.count ≡ self.old.limit) }
        ensures full_self { IsErrOf result AppendFault.Full → self.new ≡ self.old }
        ensures full_disk { IsErrOf result AppendFault.Full → disk.new ≡ disk.old }

        ensures failed { IsErrOf result AppendFault.Disk → Rose (D.view disk.old).faults (D.view disk.new).faults }
        ensures quiet { OnOk result ((D.view disk.new).faults ≡ (D.view disk.old).faults) }
        ensures unsure { IsErrOf result AppendFault.Disk → self.new ≡ record self.old { sure = false } }

        // Then a crash may leave it with the body or without, and its list is as before.
        ensures unsettled { Tells (D.view disk.old) → IsErrOf result AppendFault.Disk → IsUnsettled (D.view disk.new) self.new body.now
            × (list_of (D.view disk.new) self.new ≡ list_of (D.view disk.old) self.old) }

        ensures opened { Tells (D.view disk.old) → IsOpen (D.view disk.new) self.new }

        // At any moment each image has the list, or the list with this body.
        ensures any_moment { Tells (D.view disk.old) → Leads (Appends self.old.file (list_of (D.view disk.old) self.old) body.now) (D.view disk.old) (D.view disk.new) }
        // It touches no other file, also on a disk that doesn't tell.
        ensures touches { Leads (Touches self.old.file InAnyWay) (D.view disk.old) (D.view disk.new) }
        ensures goes_on { GoesOn (D.view disk.old) (D.view disk.new) }
    {
        if self.count == self.limit {
            return Err(AppendFault::Full);
        }
        self.sure = false;
        // The gate opens the slot by a write of its own, once the body is on the disk: a crash that tears a write may
        // leave any bytes in its range.
        write_body(disk, self.file, self.count, body)?;
        write_through(disk, self.file, 64 * self.count, &[1])?;
        self.count += 1;
        self.sure = true;
        Ok(())
    }

    /// After a failed append, finds out whether its body is in the file. It writes nothing.
    pub fn mend<D: Disk>(&mut self, disk: &mut D) -> Result<Option<[u8; 63]>, Failed>
        requires { Tells (D.view disk.old) → IsOpen (D.view disk.old) self.old }

        // What the slot of the failed append reads.
        ensures found { Tells (D.view disk.old) → IfOk result (λ found.
            bodies_of (bytes_of ((D.view disk.old).files self.old.file)) ≡ list_of (D.view disk.old) self.old ++ option_to_list found) }
        ensures ok { IfOk result (λ found. self.new ≡ record self.old { count = self.old.count + length (option_to_list found); sure = true }) }
        ensures settled { Tells (D.view disk.old) → IfOk result (λ found. IsSettled (D.view disk.new) self.new
            × (list_of (D.view disk.new) self.new ≡ list_of (D.view disk.old) self.old ++ option_to_list found)) }
        ensures same_body { (body : List ℕ) → Tells (D.view disk.old) → self.old.sure ≡ false → IsUnsettled (D.view disk.old) self.old body
            → IfOk result (λ found. IfSome found (λ it. it ≡ body)) }
        ensures others { Tells (D.view disk.old) → OnOk result (OthersStay self.old.file (D.view disk.old).files (D.view disk.new).files) }

        ensures err { OnErr result (self.new ≡ self.old) }
        ensures unsettled { (body : List ℕ) → Tells (D.view disk.old) → self.old.sure ≡ false → IsUnsettled (D.view disk.old) self.old body
            → OnErr result (IsUnsettled (D.view disk.new) self.new body × (list_of (D.view disk.new) self.new ≡ list_of (D.view disk.old) self.old)) }
        ensures failed { OnErr result (Rose (D.view disk.old).faults (D.view disk.new).faults) }
        ensures quiet { OnOk result ((D.view disk.new).faults ≡ (D.view disk.old).faults) }

        ensures opened { Tells (D.view disk.old) → IsOpen (D.view disk.new) self.new }

        // At any moment each image is one that a crash before the call might have left.
        ensures any_moment { Leads Stays (D.view disk.old) (D.view disk.new) }
        ensures goes_on { GoesOn (D.view disk.old) (D.view disk.new) }
    {
        if self.sure {
            return Ok(None);
        }
        disk.sync(self.file)?;
        let found = read_slot(disk, self.file, self.count)?;
        self.sure = true;
        match found {
            Some(body) => {
                self.count += 1;
                Ok(Some(body))
            }
            None => Ok(None),
        }
    }
}
