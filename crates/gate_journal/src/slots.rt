// How slots are read and written.
ghost use Rattle.std.specs.Prelude.{◌≡◌, ◌+◌, ◌*◌, ◌<◌, ◌≤◌, ◌^◌, ◌++◌, [], ◌∷◌, length, drop, IfOk, OnOk, OnErr, IsSome, MatchOption};
ghost use Rattle.disk_trait.specs.Disk.{Tells, Rose, GoesOn, Looks, Leads, Stays, Touches, TornFile, Written, IsDurable, bytes_of};
ghost use Rattle.gate_journal.specs.Slots.{body_at, bodies_of, lacks_gate, AtRest};
ghost use Rattle.gate_journal.specs.Journal.{SameBodies, OthersStay, InAnyWay};

use disk_trait::{Disk, Failed, FileId, write_through};

/// The body of a slot, where the slot is open.
pub fn read_slot<D: Disk>(disk: &mut D, file: FileId, slot: u64) -> Result<Option<[u8; 63]>, Failed>
    requires { slot ≤ 2 ^ 57 }
    ensures told { Tells (D.view disk.old) → IfOk result (λ found. found ≡ body_at (bytes_of ((D.view disk.old).files file)) slot) }
    ensures looks { Looks (D.view disk.old) (D.view disk.new) }
    ensures goes_on { GoesOn (D.view disk.old) (D.view disk.new) }
    ensures failed { OnErr result (Rose (D.view disk.old).faults (D.view disk.new).faults) }
    ensures quiet { OnOk result ((D.view disk.new).faults ≡ (D.view disk.old).faults) }
{
    let mut bytes = [0; 64];
    let count = disk.read_at(file, 64 * slot, &mut bytes)?;
    if count < 64 || bytes[0] != 1 {
        return Ok(None);
    }
    let mut body = [0; 63];
    body.copy_from_slice(&bytes[1..]);
    Ok(Some(body))
}

/// The count of open slots, and `None` where there are more than the limit.
pub fn count_open<D: Disk>(disk: &mut D, file: FileId, limit: u64) -> Result<Option<u64>, Failed>
    requires { limit ≤ 2 ^ 57 }
    ensures told { Tells (D.view disk.old) → IfOk result (λ found. let bodies = bodies_of (bytes_of ((D.view disk.old).files file)) in
        MatchOption found (limit < length bodies) (λ count. count ≡ length bodies)) }
    ensures within { IfOk result (λ found. MatchOption found (0 ≤ limit) (λ count. count ≤ limit)) }
    ensures looks { Looks (D.view disk.old) (D.view disk.new) }
    ensures goes_on { GoesOn (D.view disk.old) (D.view disk.new) }
    ensures failed { OnErr result (Rose (D.view disk.old).faults (D.view disk.new).faults) }
    ensures quiet { OnOk result ((D.view disk.new).faults ≡ (D.view disk.old).faults) }
{
    let mut slot = 0;
    while slot <= limit {
        match read_slot(disk, file, slot)? {
            Some(_) => slot += 1,
            None => return Ok(Some(slot)),
        }
    }
    Ok(None)
}

/// Whether a gate is missing behind the open slots.
pub fn gate_is_missing<D: Disk>(disk: &mut D, file: FileId, slot: u64) -> Result<bool, Failed>
    requires { slot ≤ 2 ^ 57 }
    ensures told { Tells (D.view disk.old) → IfOk result (λ missing. missing ≡ lacks_gate (drop (64 * slot) (bytes_of ((D.view disk.old).files file)))) }
    ensures looks { Looks (D.view disk.old) (D.view disk.new) }
    ensures goes_on { GoesOn (D.view disk.old) (D.view disk.new) }
    ensures failed { OnErr result (Rose (D.view disk.old).faults (D.view disk.new).faults) }
    ensures quiet { OnOk result ((D.view disk.new).faults ≡ (D.view disk.old).faults) }
{
    let mut bytes = [0; 64];
    let count = disk.read_at(file, 64 * slot, &mut bytes)?;
    Ok(count == 0 || (count < 64 && bytes[0] != 0))
}

/// Syncs the file, if it is there.
pub fn sync_if_there<D: Disk>(disk: &mut D, file: FileId) -> Result<(), Failed>
    ensures told { Tells (D.view disk.old) → OnOk result ((D.view disk.new).files ≡ (D.view disk.old).files) }
    ensures durable { Tells (D.view disk.old) → OnOk result (IsSome ((D.view disk.old).files file) → IsDurable file (D.view disk.new)) }
    ensures leads { Leads Stays (D.view disk.old) (D.view disk.new) }
    ensures goes_on { GoesOn (D.view disk.old) (D.view disk.new) }
    ensures failed { OnErr result (Rose (D.view disk.old).faults (D.view disk.new).faults) }
    ensures quiet { OnOk result ((D.view disk.new).faults ≡ (D.view disk.old).faults) }
{
    match disk.length(file)? {
        Some(_) => disk.sync(file),
        None => Ok(()),
    }
}

/// Writes the gate behind the open slots, if it is missing.
pub fn ensure_gate<D: Disk>(disk: &mut D, file: FileId, slot: u64) -> Result<(), Failed>
    requires bound { slot ≤ 2 ^ 57 }
    requires counts { Tells (D.view disk.old) → slot ≡ length (bodies_of (bytes_of ((D.view disk.old).files file))) }
    ensures rests { Tells (D.view disk.old) → OnOk result (AtRest (bodies_of (bytes_of ((D.view disk.old).files file))) ((D.view disk.new).files file)) }
    ensures durable { Tells (D.view disk.old) → (IsSome ((D.view disk.old).files file) → IsDurable file (D.view disk.old)) → OnOk result (IsDurable file (D.view disk.new)) }
    ensures leads { Tells (D.view disk.old) → IsDurable file (D.view disk.old) → Leads (Touches file SameBodies) (D.view disk.old) (D.view disk.new) }
    ensures others { Tells (D.view disk.old) → OnOk result (OthersStay file (D.view disk.old).files (D.view disk.new).files) }
    ensures touches { Leads (Touches file InAnyWay) (D.view disk.old) (D.view disk.new) }
    ensures goes_on { GoesOn (D.view disk.old) (D.view disk.new) }
    ensures failed { OnErr result (Rose (D.view disk.old).faults (D.view disk.new).faults) }
    ensures quiet { OnOk result ((D.view disk.new).faults ≡ (D.view disk.old).faults) }
{
    if !gate_is_missing(disk, file, slot)? {
        return Ok(());
    }
    write_through(disk, file, 64 * slot, &[0])
}

/// Writes a body behind its gate, and the next gate, closed. Its own gate stays as it is.
pub fn write_body<D: Disk>(
    disk: &mut D,
    file: FileId,
    slot: u64,
    body: &[u8; 63],
) -> Result<(), Failed>
    requires bound { slot ≤ 2 ^ 57 }
    requires behind { Tells (D.view disk.old) → 64 * slot + 1 ≤ length (bytes_of ((D.view disk.old).files file)) }
    ensures told { Tells (D.view disk.old) → OnOk result (Written file (64 * slot + 1) (body.now ++ 0 ∷ []) (D.view disk.old).files (D.view disk.new).files) }
    ensures durable { Tells (D.view disk.old) → OnOk result (IsDurable file (D.view disk.new)) }
    ensures leads { Leads (Touches file (TornFile (64 * slot + 1) 64)) (D.view disk.old) (D.view disk.new) }
    ensures goes_on { GoesOn (D.view disk.old) (D.view disk.new) }
    ensures failed { OnErr result (Rose (D.view disk.old).faults (D.view disk.new).faults) }
    ensures quiet { OnOk result ((D.view disk.new).faults ≡ (D.view disk.old).faults) }
{
    let mut block = [0; 64];
    block[..63].copy_from_slice(body);
    write_through(disk, file, 64 * slot + 1, &block)
}
