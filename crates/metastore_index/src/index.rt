// The live entries.
ghost use Rattle.std.specs.Prelude.{◌≡◌, ℕ, ◌+◌, ◌^◌, ◌<◌, ◌≤◌, List, [], ◌∷◌, ◌++◌, IfOk, IfSome, IsNone, IsErrOf, OnOk, OnErr};
ghost use Rattle.std.specs.List.{All};
ghost use Rattle.metastore_index.specs.Entries.{AreEntries, Becomes, Covers, HasRun, IsTaken, end_of, of_level};
ghost use Rattle.metastore_index.specs.Taken.{ComesTo};

use crate::changes::take_in;
use crate::entry::Entry;
use crate::fault::ApplyFault;
use crate::runs::{cover, end_of, level_of_run, of_level};
use faults::Refused;
use std::alloc::{AllocError, Global};
use std::marker::Model;

/// The greatest id there is.
const MAX_ID: u64 = (1 << 63) - 1;

/// The entries that live, from the oldest pushes on, and the greatest id that was ever taken.
#[derive(Debug, Drop)]
pub struct Index {
    entries: Vec<Entry>,
    greatest: u64,
}

impl Model for Index {
    ghost use Rattle.std.specs.Prelude.{◌≤◌, ◌<◌, ◌-◌, ◌^◌, length};
    ghost use Rattle.std.specs.List.{All};
    ghost use Rattle.metastore_index.specs.Entries.{AreEntries, IndexView};

    ghost Value = { IndexView };

    ghost view = { λ i. record { entries = i.entries.items; greatest = i.greatest; spare = i.entries.cap - length i.entries.items } };

    ghost invariant = { λ i. AreEntries i.entries.items × All (λ entry. entry.id ≤ i.greatest) i.entries.items × (i.greatest < 2 ^ 63) };
}

impl Index {
    /// No entries. It takes no memory.
    pub fn new(alloc: Global) -> Index
        ensures entries { result.entries ≡ [] }
        ensures greatest { result.greatest ≡ 0 }
        ensures comes { ComesTo [] result }
    {
        Index {
            entries: Vec::new(alloc),
            greatest: 0,
        }
    }

    /// Makes room for one more entry, so that the next `apply` takes no memory.
    pub fn room(&mut self) -> Result<(), AllocError>
        ensures entries { self.new.entries ≡ self.old.entries }
        ensures greatest { self.new.greatest ≡ self.old.greatest }
        ensures room { OnOk result (0 < self.new.spare) }
        ensures no_less { self.old.spare ≤ self.new.spare }
        ensures err { OnErr result ((self.new.spare ≡ self.old.spare) × (self.old.spare ≡ 0)) }
    {
        self.entries.reserve(1)
    }

    /// Takes an entry of level 0 that follows the last one, or one that stands in for a run of the level below its own.
    /// `Memory` comes only without room, at an entry of level 0 that would be taken.
    pub fn apply(&mut self, entry: Entry) -> Result<(), Refused<ApplyFault>>
        ensures ok { OnOk result (IsTaken self.old entry × Becomes self.old.entries entry self.new.entries × (self.new.greatest ≡ entry.id)) }
        ensures refused { IsErrOf result (Refused.Fault ApplyFault.NotARun) → ¬ (IsTaken self.old entry) }
        ensures memory { IsErrOf result Refused.Memory → (self.old.spare ≡ 0) × (entry.level ≡ 0) × IsTaken self.old entry }
        ensures spare { OnOk result (self.old.spare ≤ self.new.spare + 1) }
        ensures no_less { OnErr result (self.old.spare ≤ self.new.spare) }
        ensures unchanged { OnErr result ((self.new.entries ≡ self.old.entries) × (self.new.greatest ≡ self.old.greatest)) }
        ensures comes { (taken : List Entry) → ComesTo taken self.old → OnOk result (ComesTo (taken ++ entry ∷ []) self.new) }
    {
        if entry.id <= self.greatest || entry.id > MAX_ID {
            return Err(Refused::Fault(ApplyFault::NotARun));
        }
        take_in(&mut self.entries, entry)?;
        self.greatest = entry.id;
        Ok(())
    }

    /// The entry that holds the push, and none where the push isn't below the end. It takes no memory.
    pub fn cover(&self, at: u64) -> Option<Entry>
        ensures entry { IfSome result (λ entry. Covers self.now.entries at entry) }
        ensures none { IsNone result → end_of self.now.entries ≤ at }
    {
        cover(&self.entries, at)
    }

    /// The level of the run of one level that covers just these pushes, and none where there is none. It takes no memory.
    pub fn run(&self, lo: u64, hi: u64) -> Option<u8>
        ensures level { IfSome result (λ level. HasRun self.now.entries level lo hi) }
        ensures none { IsNone result → (level : ℕ) → ¬ (HasRun self.now.entries level lo hi) }
    {
        level_of_run(&self.entries, lo, hi)
    }

    /// From the oldest pushes on. It takes no memory.
    pub fn entries(&self) -> &[Entry]
        ensures entries { result.now ≡ self.now.entries }
        ensures sound { AreEntries self.now.entries }
        ensures ids { All (λ entry. entry.id ≤ self.now.greatest) self.now.entries }
    {
        &self.entries
    }

    /// The entries of one level, from the oldest pushes on. It takes no memory, and finds them without going through the
    /// others.
    pub fn of_level(&self, level: u8) -> &[Entry]
        ensures entries { result.now ≡ of_level level self.now.entries }
        ensures sound { AreEntries self.now.entries }
    {
        of_level(&self.entries, level)
    }

    /// The push after the last. It takes no memory.
    pub fn end(&self) -> u64
        ensures { result ≡ end_of self.now.entries }
    {
        end_of(&self.entries)
    }

    /// One above the greatest id that was ever taken. It takes no memory.
    pub fn next_id(&self) -> u64
        ensures next { result ≡ self.now.greatest + 1 }
        ensures bounded { result ≤ 2 ^ 63 }
    {
        self.greatest + 1
    }
}
