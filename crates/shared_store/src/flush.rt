// What a flush does to a store and its spine: several pushes that are settled at once.
ghost use Rattle.std.specs.Prelude.{◌≡◌, ◌≤◌, ℕ, [], Err, IfOk, IsErrOf, Ok, OnErr, length, map, replicate, true, vec_capacity};
ghost use Rattle.std.specs.List.{All, list_any};
ghost use Rattle.disk_trait.specs.Disk.{GoesOn};
ghost use Rattle.segment_file.specs.Laws.{IsLight};
ghost use Rattle.history_files.specs.Keeps.{most_pushes};
ghost use Rattle.shared_store.specs.Holds.{AreTied, IsAtEnd};
ghost use Rattle.shared_store.specs.Flushes.{AreAnswers, HasFailed, IsFlush, full_after_all, is_full};

use crate::names::Names;
use crate::refusal::Refusal;
use crate::settle::{settle_asks, settle_one};
use disk_trait::Disk;
use history_pass::Spine;
use std::alloc::{AllocError, Global};
use store_core::{SettleFault, Store};
use tenant_books::{PushAsk, Verdict};

fn is_full(one: &Result<Verdict, Refusal>) -> bool
    ensures { result ≡ is_full one.now }
{
    matches!(one, Err(Refusal::Full(_)))
}

fn is_any_full(told: &[Result<Verdict, Refusal>]) -> bool
    ensures { result ≡ list_any is_full told.now }
{
    told.iter().any(|one| is_full(one))
}

// The spine's number of an index that was found full, after a flush.
pub(crate) fn full_after_all(told: &[Result<Verdict, Refusal>], full: u64) -> u64
    ensures { result ≡ full_after_all told.now full }
{
    if is_any_full(told) { 1 } else { full }
}

// Each has its verdict.
fn tell_verdicts(told: &mut Vec<Result<Verdict, Refusal>>, verdicts: Vec<Verdict>)
    requires empty { told.old.items ≡ [] }
    requires room { length verdicts.items ≤ vec_capacity told.old }
    ensures { told.new.items ≡ map (λ verdict. Ok verdict) verdicts.items }
{
    for verdict in verdicts {
        told.push_reserved(Ok(verdict));
    }
}

// None of so many has one.
fn tell_refusal(told: &mut Vec<Result<Verdict, Refusal>>, count: usize, refusal: Refusal)
    requires empty { told.old.items ≡ [] }
    requires room { count ≤ vec_capacity told.old }
    ensures { told.new.items ≡ replicate count (Err refusal) }
{
    for _ in 0..count {
        told.push_reserved(Err(refusal));
    }
}

// Settles each push by itself, where the index is full.
fn settle_each<D: Disk, J: Names>(
    store: &mut Store<D>,
    spine: &mut Spine<J>,
    alloc: Global,
    asks: Vec<PushAsk>,
    told: &mut Vec<Result<Verdict, Refusal>>,
)
    requires light { All (λ ask. IsLight ask.push) asks.items }
    requires tied { AreTied J.run (D.view store.old.disk) store.old spine.old.list }
    requires empty { told.old.items ≡ [] }
    requires room { length asks.items ≤ vec_capacity told.old }
    requires at_end { J.run.tells → IsAtEnd store.old }
    ensures tied { AreTied J.run (D.view store.new.disk) store.new spine.new.list }
    ensures numbers { (spine.new.faults ≡ spine.old.faults) × (spine.new.full ≡ spine.old.full) }
    ensures answers { AreAnswers J.run spine.old.list asks.items told.new.items spine.new.list }
    ensures at_end { J.run.tells → IsAtEnd store.new }
    ensures none { J.run.tells → spine.new.list ≡ spine.old.list }
    ensures failed { All (HasFailed (D.view store.old.disk).faults (D.view store.new.disk).faults) told.new.items }
    ensures goes_on { GoesOn (D.view store.old.disk) (D.view store.new.disk) }
{
    for ask in asks {
        told.push_reserved(settle_one(store, spine, alloc, ask));
    }
}

// Settles pushes as one object, or, where the index is full for some of them, each by itself. It takes the memory for what it
// tells before anything else.
pub(crate) fn settle<D: Disk, J: Names>(
    store: &mut Store<D>,
    spine: &mut Spine<J>,
    alloc: Global,
    asks: Vec<PushAsk>,
) -> Result<Vec<Result<Verdict, Refusal>>, AllocError>
    requires few { length asks.items ≤ most_pushes }
    requires light { All (λ ask. IsLight ask.push) asks.items }
    requires tied { AreTied J.run (D.view store.old.disk) store.old spine.old.list }
    ensures tied { AreTied J.run (D.view store.new.disk) store.new spine.new.list }
    ensures numbers { (spine.new.faults ≡ spine.old.faults) × (spine.new.full ≡ spine.old.full) }
    ensures nothing { OnErr result ((store.new ≡ store.old) × (spine.new ≡ spine.old)) }
    ensures told { IfOk result (λ told. IsFlush J.run store.old.flight spine.old.list asks.items told.items spine.new.list) }
    ensures found_full { IfOk result (λ told. J.run.tells → list_any is_full told.items ≡ true → IsAtEnd store.new) }
    ensures at_end { J.run.tells → IsAtEnd store.old → IsAtEnd store.new }
    ensures failed { IfOk result (λ told. All (HasFailed (D.view store.old.disk).faults (D.view store.new.disk).faults) told.items) }
    ensures goes_on { GoesOn (D.view store.old.disk) (D.view store.new.disk) }
{
    let count = asks.len();
    let mut told = Vec::with_capacity(alloc, count)?;
    match settle_asks(store, spine, alloc, asks) {
        Ok(verdicts) => tell_verdicts(&mut told, verdicts),
        Err(SettleFault::Memory) => tell_refusal(&mut told, count, Refusal::Memory),
        Err(SettleFault::Disk(faults)) => tell_refusal(&mut told, count, Refusal::Disk(faults)),
        Err(SettleFault::Full { records: _, asks }) => {
            settle_each(store, spine, alloc, asks, &mut told);
        }
    }
    Ok(told)
}
