// What a settling does to a store and its spine.
ghost use Rattle.std.specs.Prelude.{◌≡◌, ◌≤◌, ℕ, [], ◌∷◌, IfErr, IfOk, IsErrOf, None, OnErr, OnOk, length, true};
ghost use Rattle.std.specs.Global.{Vec};
ghost use Rattle.std.specs.List.{All};
ghost use Rattle.disk_trait.specs.Disk.{GoesOn, Rose};
ghost use Rattle.segment_file.specs.Laws.{IsLight};
ghost use Rattle.tenant_books.specs.declared.asks.PushAsk.{PushAsk};
ghost use Rattle.history_files.specs.Keeps.{most_pushes};
ghost use Rattle.store_core.specs.Store.{IsFull, Mends};
ghost use Rattle.shared_store.specs.Holds.{AreTied, IsAtEnd};
ghost use Rattle.shared_store.specs.Settled.{AreLeft, AreSettled, HaveVerdicts, IsFullFor, IsLeft, IsSettled, SomeWouldBeKept, full_after};

use crate::names::Names;
use crate::refusal::Refusal;
use disk_trait::Disk;
use history_pass::{Spine, Standing};
use profile_model::Push;
use std::alloc::{AllocError, Global};
use store_core::{MendFault, SettleFault, Store};
use tenant_books::{PushAsk, Verdict};

// Pushes stand for themselves.
#[derive(Drop)]
struct Stretch<'a> {
    of: &'a [Push],
}

impl<'a> Standing for Stretch<'a> {
    ghost list = { λ s. s.of.now };

    fn count(&self) -> u64 {
        self.of.len() as u64
    }
}

fn list_of_one(alloc: Global, ask: PushAsk) -> Result<Vec<PushAsk>, AllocError>
    ensures { IfOk result (λ asks. asks.items ≡ ask ∷ []) }
{
    let mut asks = Vec::new(alloc);
    asks.push(ask)?;
    Ok(asks)
}

fn the_one(mut verdicts: Vec<Verdict>) -> Verdict
    requires { length verdicts.items ≡ 1 }
    ensures { verdicts.items ≡ result ∷ [] }
{
    match verdicts.pop() {
        Some(verdict) => verdict,
        None => unreachable!(),
    }
}

// The spine's number of an index that was found full, after a push was settled.
pub(crate) fn full_after<T>(settled: &Result<T, Refusal>, full: u64) -> u64
    ensures { result ≡ full_after settled.now full }
{
    match settled {
        Err(Refusal::Full(_)) => 1,
        _ => full,
    }
}

// Settles one push. The spine gets what comes to the history.
pub(crate) fn settle_one<D: Disk, J: Names>(
    store: &mut Store<D>,
    spine: &mut Spine<J>,
    alloc: Global,
    ask: PushAsk,
) -> Result<Verdict, Refusal>
    requires light { IsLight ask.push }
    requires tied { AreTied J.run (D.view store.old.disk) store.old spine.old.list }
    ensures tied { AreTied J.run (D.view store.new.disk) store.new spine.new.list }
    ensures numbers { (spine.new.faults ≡ spine.old.faults) × (spine.new.full ≡ spine.old.full) }
    ensures settled { IfOk result (λ verdict. IsSettled J.run store.old.flight spine.old.list ask verdict spine.new.list) }
    ensures mends { OnErr result (Mends spine.old.list store.old.flight spine.new.list) }
    ensures full { (records : ℕ) → IsErrOf result (Refusal.Full records) → IsFullFor J.run spine.new.list ask records }
    ensures found_full { (records : ℕ) → IsErrOf result (Refusal.Full records) → J.run.tells → IsAtEnd store.new }
    ensures at_end { J.run.tells → IsAtEnd store.old → IsAtEnd store.new }
    ensures none { J.run.tells → IsAtEnd store.old → spine.new.list ≡ spine.old.list }
    ensures failed { (count : ℕ) → IsErrOf result (Refusal.Disk count) → (count ≡ (D.view store.new.disk).faults) × Rose (D.view store.old.disk).faults count }
    ensures lands { OnOk result (store.new.flight ≡ None) }
    ensures left { J.run.tells → IfErr result (λ refusal. IsLeft store.old.flight spine.old.list ask.push refusal store.new.flight spine.new.list) }
    ensures goes_on { GoesOn (D.view store.old.disk) (D.view store.new.disk) }
{
    let Ok(asks) = list_of_one(alloc, ask) else {
        return Err(Refusal::Memory);
    };
    match settle_asks(store, spine, alloc, asks) {
        Ok(verdicts) => Ok(the_one(verdicts)),
        Err(SettleFault::Memory) => Err(Refusal::Memory),
        Err(SettleFault::Disk(count)) => Err(Refusal::Disk(count)),
        Err(SettleFault::Full { records, asks: _ }) => Err(Refusal::Full(records)),
    }
}

// Finds out what came of the pushes in the air, and settles these. The spine gets what comes to the history.
pub(crate) fn settle_asks<D: Disk, J: Names>(
    store: &mut Store<D>,
    spine: &mut Spine<J>,
    alloc: Global,
    asks: Vec<PushAsk>,
) -> Result<Vec<Verdict>, SettleFault>
    requires few { length asks.items ≤ most_pushes }
    requires light { All (λ ask. IsLight ask.push) asks.items }
    requires tied { AreTied J.run (D.view store.old.disk) store.old spine.old.list }
    ensures tied { AreTied J.run (D.view store.new.disk) store.new spine.new.list }
    ensures numbers { (spine.new.faults ≡ spine.old.faults) × (spine.new.full ≡ spine.old.full) }
    ensures settled { IfOk result (λ verdicts. AreSettled J.run store.old.flight spine.old.list asks.items verdicts.items spine.new.list) }
    ensures mends { OnErr result (Mends spine.old.list store.old.flight spine.new.list) }
    ensures full { (records : ℕ) → (back : Vec PushAsk) → IsErrOf result (SettleFault.Full records back) → (records ≡ J.run.records) × (J.run.tells → SomeWouldBeKept J.run spine.new.list asks.items) }
    ensures found_full { (records : ℕ) → (back : Vec PushAsk) → IsErrOf result (SettleFault.Full records back) → J.run.tells → IsAtEnd store.new }
    ensures at_end { J.run.tells → IsAtEnd store.old → IsAtEnd store.new }
    ensures back { (records : ℕ) → (back : Vec PushAsk) → IsErrOf result (SettleFault.Full records back) → back ≡ asks }
    ensures none { J.run.tells → IsAtEnd store.old → spine.new.list ≡ spine.old.list }
    ensures failed { (count : ℕ) → IsErrOf result (SettleFault.Disk count) → (count ≡ (D.view store.new.disk).faults) × Rose (D.view store.old.disk).faults count }
    ensures lands { OnOk result (store.new.flight ≡ None) }
    ensures left { J.run.tells → IfErr result (λ fault. AreLeft J.run store.old.flight spine.old.list asks.items fault store.new.flight spine.new.list) }
    ensures goes_on { GoesOn (D.view store.old.disk) (D.view store.new.disk) }
{
    match decide(store, spine, alloc) {
        Ok(()) => {}
        Err(MendFault::Memory) => return Err(SettleFault::Memory),
        Err(MendFault::Disk(count)) => return Err(SettleFault::Disk(count)),
    }
    settle_landed(store, spine, alloc, asks)
}

// Settles pushes where none are in the air.
fn settle_landed<D: Disk, J: Names>(
    store: &mut Store<D>,
    spine: &mut Spine<J>,
    alloc: Global,
    asks: Vec<PushAsk>,
) -> Result<Vec<Verdict>, SettleFault>
    requires few { length asks.items ≤ most_pushes }
    requires light { All (λ ask. IsLight ask.push) asks.items }
    requires tied { AreTied J.run (D.view store.old.disk) store.old spine.old.list }
    requires lands { store.old.flight ≡ None }
    ensures tied { AreTied J.run (D.view store.new.disk) store.new spine.new.list }
    ensures numbers { (spine.new.faults ≡ spine.old.faults) × (spine.new.full ≡ spine.old.full) }
    ensures settled { IfOk result (λ verdicts. HaveVerdicts J.run spine.old.list asks.items verdicts.items spine.new.list) }
    ensures unchanged { OnErr result (spine.new ≡ spine.old) }
    ensures full { (records : ℕ) → (back : Vec PushAsk) → IsErrOf result (SettleFault.Full records back) → (records ≡ J.run.records) × (J.run.tells → SomeWouldBeKept J.run spine.new.list asks.items) }
    ensures found_full { (records : ℕ) → (back : Vec PushAsk) → IsErrOf result (SettleFault.Full records back) → J.run.tells → IsAtEnd store.new }
    ensures at_end { J.run.tells → IsAtEnd store.old → IsAtEnd store.new }
    ensures back { (records : ℕ) → (back : Vec PushAsk) → IsErrOf result (SettleFault.Full records back) → back ≡ asks }
    ensures none { J.run.tells → IsAtEnd store.old → spine.new.list ≡ spine.old.list }
    ensures failed { (count : ℕ) → IsErrOf result (SettleFault.Disk count) → (count ≡ (D.view store.new.disk).faults) × Rose (D.view store.old.disk).faults count }
    ensures landed { OnOk result (store.new.flight ≡ None) }
    ensures left { J.run.tells → IfErr result (λ fault. AreLeft J.run store.old.flight spine.old.list asks.items fault store.new.flight spine.new.list) }
    ensures goes_on { GoesOn (D.view store.old.disk) (D.view store.new.disk) }
{
    match store.settle(alloc, asks) {
        Ok(settled) => {
            // The index has no number for more pushes than a spine takes.
            store.stands();
            spine.extend(&Stretch { of: &settled.kept });
            Ok(settled.verdicts)
        }
        Err(fault) => Err(fault),
    }
}

// Finds out what came of the pushes in the air. Those that came through come to the spine.
fn decide<D: Disk, J: Names>(
    store: &mut Store<D>,
    spine: &mut Spine<J>,
    alloc: Global,
) -> Result<(), MendFault>
    requires { AreTied J.run (D.view store.old.disk) store.old spine.old.list }
    ensures tied { AreTied J.run (D.view store.new.disk) store.new spine.new.list }
    ensures mends { OnOk result (Mends spine.old.list store.old.flight spine.new.list) }
    ensures unchanged { OnErr result (spine.new ≡ spine.old) }
    ensures numbers { (spine.new.faults ≡ spine.old.faults) × (spine.new.full ≡ spine.old.full) }
    ensures lands { OnOk result (store.new.flight ≡ None) }
    ensures stays { OnErr result (store.new.flight ≡ store.old.flight) }
    ensures nothing { store.old.flight ≡ None → store.new ≡ store.old }
    ensures failed { (count : ℕ) → IsErrOf result (MendFault.Disk count) → (count ≡ (D.view store.new.disk).faults) × Rose (D.view store.old.disk).faults count }
    ensures goes_on { GoesOn (D.view store.old.disk) (D.view store.new.disk) }
{
    match store.decide(alloc) {
        Ok(came) => {
            // The index has no number for more pushes than a spine takes.
            store.stands();
            spine.extend(&Stretch { of: &came });
            Ok(())
        }
        Err(fault) => Err(fault),
    }
}
