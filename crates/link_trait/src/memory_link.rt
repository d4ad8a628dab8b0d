//! A link over memory, which tells all that it does.
ghost use Rattle.std.specs.Prelude.{◌≡◌, ◌+◌, ◌-◌, ◌^◌, ◌≤◌, ◌<◌, ◌↔◌, [], min, length, true, Contains, IfOk, IsErr, OnOk, OnErr, false};
ghost use Rattle.link_trait.specs.Link.{Goes, ReadStep, WriteStep, HasCause, faults_of, Stays};

use crate::link::{Failed, LAST_MOMENT, Link};
use std::alloc::Global;
use std::marker::Model;

/// A connection whose input stands in memory and whose output is kept.
#[derive(Drop)]
pub struct MemoryLink {
    open: bool,
    input: Vec<u8>,
    at: usize,
    cuts: Vec<usize>,
    output: Vec<u8>,
    moment: u64,
    failing: Vec<u64>,
    calls: u64,
    failed: u64,
    refused: u64,
}

impl Model for MemoryLink {
    ghost use Rattle.std.specs.Prelude.{◌≤◌, take, drop, length};
    ghost use Rattle.link_trait.specs.Link.{MemoryView};

    ghost Value = { MemoryView };

    ghost view = { λ a. record {
      told = record {
        taken = take a.at a.input.items;
        given = a.output.items;
        to_come = drop a.at a.input.items;
        moment = a.moment;
      };
      cuts = a.cuts.items;
      failing = a.failing.items;
      calls = a.calls;
      failed = a.failed;
      refused = a.refused;
      «open» = a.open;
    } };

    ghost invariant = { λ a. (a.at ≤ length a.input.items) × (a.moment ≤ 253402300799999) };
}

impl MemoryLink {
    /// A link that gives the input in pieces that end at the cuts, and fails the reads and writes
    /// of these numbers, counted together from 0. A cut that would make an empty piece counts for
    /// nothing, and a write for which memory is wanting fails too.
    pub fn new(
        alloc: Global,
        input: Vec<u8>,
        cuts: Vec<usize>,
        now: u64,
        failing: Vec<u64>,
    ) -> MemoryLink
        requires { now ≤ LAST_MOMENT }
        ensures taken { result.told.taken ≡ [] }
        ensures to_come { result.told.to_come ≡ input.items }
        ensures given { result.told.given ≡ [] }
        ensures moment { result.told.moment ≡ now }
        ensures script { (result.cuts ≡ cuts.items) × (result.failing ≡ failing.items) }
        ensures counts { (result.calls ≡ 0) × (result.failed ≡ 0) × (result.refused ≡ 0) }
        ensures open { result.open ≡ true }
    {
        MemoryLink {
            open: true,
            input,
            at: 0,
            cuts,
            output: Vec::new(alloc),
            moment: now,
            failing,
            calls: 0,
            failed: 0,
            refused: 0,
        }
    }

    /// The bytes given so far.
    pub fn given(&self) -> &[u8]
        ensures { result.now ≡ self.now.told.given }
    {
        &self.output
    }

    /// How many writes failed for want of memory.
    pub fn refused(&self) -> u64
        ensures { result ≡ self.now.refused }
    {
        self.refused
    }

    // Counts a read or a write, and fails it where its number is one of those that fail.
    fn begin(&mut self) -> Result<(), Failed>
        ensures told { self.new.told ≡ self.old.told }
        ensures script { (self.new.cuts ≡ self.old.cuts)
            × (self.new.failing ≡ self.old.failing) }
        ensures open { self.new.open ≡ self.old.open }
        ensures calls { self.new.calls ≡ min (self.old.calls + 1) (2 ^ 64 - 1) }
        ensures fails { IsErr result ↔ Contains self.old.failing self.old.calls }
        ensures refused { self.new.refused ≡ self.old.refused }
        ensures ok { OnOk result (self.new.failed ≡ self.old.failed) }
        ensures err { OnErr result
            (self.new.failed ≡ min (self.old.failed + 1) (2 ^ 64 - 1)) }
    {
        let call = self.calls;
        self.calls = call.saturating_add(1);
        if self.failing.contains(&call) {
            self.failed = self.failed.saturating_add(1);
            return Err(Failed);
        }
        Ok(())
    }
}

// Where the piece that begins at a place ends: at the first cut past it, or at the input's end.
fn piece_end(at: usize, length: usize, cuts: &[usize]) -> usize
    requires { at ≤ length }
    ensures within { result ≤ length }
    ensures never_before { at ≤ result }
    ensures past { at < length → at < result }
{
    let mut end = length;
    for cut in cuts {
        if at < *cut && *cut < end {
            end = *cut;
        }
    }
    end
}

impl Link for MemoryLink {
    ghost use Rattle.std.specs.Prelude.{Some};
    ghost use Rattle.link_trait.specs.Link.{faults_of};

    ghost told = { λ link. Some link.told };

    ghost faults = { faults_of };

    ghost is_open = { λ link. link.open };

    fn read(&mut self, into: &mut [u8]) -> Result<usize, Failed>
        requires open { self.old.open ≡ true }
        ensures open { self.new.open ≡ true }
        ensures bound { IfOk result (λ count. count ≤ length into.old) }
        ensures told { Goes (ReadStep result (length into.old) into.new)
            (Some self.old.told) (Some self.new.told) }
        ensures cause { HasCause (faults_of self.old) (faults_of self.new) result }
        ensures script { (self.new.cuts ≡ self.old.cuts)
            × (self.new.failing ≡ self.old.failing) }
        ensures calls { self.new.calls ≡ min (self.old.calls + 1) (2 ^ 64 - 1) }
        ensures fails { IsErr result ↔ Contains self.old.failing self.old.calls }
        ensures ok { OnOk result ((self.new.failed ≡ self.old.failed)
            × (self.new.refused ≡ self.old.refused)) }
        ensures err { OnErr result ((self.new.failed ≡ min (self.old.failed + 1) (2 ^ 64 - 1))
            × (self.new.refused ≡ self.old.refused)) }
    {
        self.begin()?;
        let end = piece_end(self.at, self.input.len(), &self.cuts);
        let count = into.len().min(end - self.at);
        into[..count].copy_from_slice(&self.input[self.at..self.at + count]);
        self.at += count;
        Ok(count)
    }

    /// It fails where its number does, or else where memory was refused.
    fn write(&mut self, from: &[u8]) -> Result<usize, Failed>
        requires open { self.old.open ≡ true }
        ensures open { self.new.open ≡ true }
        ensures bound { IfOk result (λ count. count ≤ length from.now) }
        ensures moves { IfOk result (λ count. 0 < length from.now → 0 < count) }
        ensures told { Goes (WriteStep result from.now) (Some self.old.told) (Some self.new.told) }
        ensures cause { HasCause (faults_of self.old) (faults_of self.new) result }
        ensures script { (self.new.cuts ≡ self.old.cuts)
            × (self.new.failing ≡ self.old.failing) }
        ensures calls { self.new.calls ≡ min (self.old.calls + 1) (2 ^ 64 - 1) }
        ensures fails { Contains self.old.failing self.old.calls → IsErr result }
        ensures ok { OnOk result ((self.new.failed ≡ self.old.failed)
            × (self.new.refused ≡ self.old.refused)) }
        ensures named { Contains self.old.failing self.old.calls
            → (self.new.failed ≡ min (self.old.failed + 1) (2 ^ 64 - 1))
            × (self.new.refused ≡ self.old.refused) }
        ensures refused { OnErr result (¬ Contains self.old.failing self.old.calls
            → (self.new.refused ≡ min (self.old.refused + 1) (2 ^ 64 - 1))
            × (self.new.failed ≡ self.old.failed)) }
    {
        self.begin()?;
        match self.output.extend_from_slice(from) {
            Ok(()) => Ok(from.len()),
            Err(_) => {
                self.refused = self.refused.saturating_add(1);
                Err(Failed)
            }
        }
    }

    fn moment(&mut self) -> u64
        ensures open { self.new.open ≡ self.old.open }
        ensures last { result ≤ LAST_MOMENT }
        ensures told { Goes (λ old new. (new ≡ old) × (result ≡ old.moment))
            (Some self.old.told) (Some self.new.told) }
        ensures faults { faults_of self.new ≡ faults_of self.old }
        ensures same { self.new ≡ self.old }
    {
        self.moment
    }

    fn end(&mut self)
        ensures open { self.new.open ≡ false }
        ensures told { Goes Stays (Some self.old.told) (Some self.new.told) }
        ensures faults { faults_of self.new ≡ faults_of self.old }
        ensures closed { self.new ≡ record self.old { «open» = false } }
    {
        self.open = false;
    }

    fn faults(&self) -> u64 {
        self.failed.saturating_add(self.refused)
    }
}
