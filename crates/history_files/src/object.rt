// The object of an entry.
ghost use Rattle.std.specs.Prelude.{◌≡◌, List, OnOk, IfOk, IfSome, IsErrOf, IsFalse, IsTrue, MatchOption, Some, length};
ghost use Rattle.disk_trait.specs.Disk.{Tells, Rose, GoesOn, Looks};
ghost use Rattle.disk_trait.specs.declared.disk.FileId.TheVariants as names;
ghost use Rattle.profile_model.specs.declared.push.Push.{Push};
ghost use Rattle.history_files.specs.History.{IsObjectOf};
ghost use Rattle.history_files.specs.Standing.{Describes};

use crate::entry::times;
use crate::fault::FilesFault;
use disk_trait::{Disk, FileId};
use faults::Refused;
use metastore_index::Entry;
use segment_file::{Object, decode};
use std::alloc::{AllocError, Global};

// The bytes of the entry's file, and none where no file of its length is there.
fn read_file<D: Disk>(
    disk: &mut D,
    alloc: Global,
    entry: &Entry,
) -> Result<Option<Vec<u8>>, FilesFault>
    ensures told { Tells (D.view disk.old) → IfOk result (λ found. MatchOption found
        ((pushes : List Push) → ¬ (IsObjectOf entry.now pushes ((D.view disk.old).files (names.Object entry.now.id))))
        (λ bytes. (D.view disk.old).files (names.Object entry.now.id) ≡ Some bytes.items)) }
    ensures long { IfOk result (λ found. IfSome found (λ bytes. length bytes.items ≡ entry.now.length)) }
    ensures failed { IsErrOf result FilesFault.Disk → Rose (D.view disk.old).faults (D.view disk.new).faults }
    ensures memory { IsErrOf result FilesFault.Memory → (D.view disk.new).faults ≡ (D.view disk.old).faults }
    ensures quiet { OnOk result ((D.view disk.new).faults ≡ (D.view disk.old).faults) }
    ensures looks { Looks (D.view disk.old) (D.view disk.new) }
    ensures goes_on { GoesOn (D.view disk.old) (D.view disk.new) }
{
    let file = FileId::Object(entry.id);
    let length = match disk.length(file)? {
        Some(length) => length,
        None => return Ok(None),
    };
    if length != entry.length {
        return Ok(None);
    }
    let Ok(mut bytes) = Vec::from_elem(alloc, 0, length as usize) else {
        return Err(FilesFault::Memory);
    };
    disk.read_at(file, 0, &mut bytes)?;
    Ok(Some(bytes))
}

// Whether the entry tells the numbers and the times of the object's pushes.
fn describes(entry: &Entry, object: &Object) -> bool
    ensures yes { IsTrue result → Describes entry.now object.now }
    ensures no { IsFalse result → ¬ (Describes entry.now object.now) }
{
    let (tmin, tmax) = times(object.pushes());
    entry.lo == object.lo() && entry.hi == object.hi() && entry.tmin == tmin && entry.tmax == tmax
}

// The object that the bytes spell, where the entry describes it. Only memory can be wanting.
fn object_in(alloc: Global, entry: &Entry, bytes: &[u8]) -> Result<Option<Object>, AllocError>
    requires { length bytes.now ≡ entry.now.length }
    ensures told { IfOk result (λ found. MatchOption found
        ((pushes : List Push) → ¬ (IsObjectOf entry.now pushes (Some bytes.now)))
        (λ object. IsObjectOf entry.now object.pushes (Some bytes.now))) }
    ensures described { IfOk result (λ found. IfSome found (λ object. Describes entry.now object)) }
{
    match decode(alloc, bytes) {
        Ok(object) => {
            if !describes(entry, &object) {
                return Ok(None);
            }
            Ok(Some(object))
        }
        Err(Refused::Fault(_)) => Ok(None),
        Err(Refused::Memory) => Err(AllocError),
    }
}

/// The object of an entry, and none where its file isn't just that. The length is compared before memory is taken. Where
/// the disk doesn't tell, what was read decides.
pub fn read_object<D: Disk>(
    disk: &mut D,
    alloc: Global,
    entry: &Entry,
) -> Result<Option<Object>, FilesFault>
    ensures told { Tells (D.view disk.old) → IfOk result (λ found. MatchOption found
        ((pushes : List Push) → ¬ (IsObjectOf entry.now pushes ((D.view disk.old).files (names.Object entry.now.id))))
        (λ object. IsObjectOf entry.now object.pushes ((D.view disk.old).files (names.Object entry.now.id)))) }
    ensures described { IfOk result (λ found. IfSome found (λ object. Describes entry.now object)) }
    ensures failed { IsErrOf result FilesFault.Disk → Rose (D.view disk.old).faults (D.view disk.new).faults }
    ensures memory { IsErrOf result FilesFault.Memory → (D.view disk.new).faults ≡ (D.view disk.old).faults }
    ensures quiet { OnOk result ((D.view disk.new).faults ≡ (D.view disk.old).faults) }
    ensures looks { Looks (D.view disk.old) (D.view disk.new) }
    ensures goes_on { GoesOn (D.view disk.old) (D.view disk.new) }
{
    let Some(bytes) = read_file(disk, alloc, entry)? else {
        return Ok(None);
    };
    Ok(object_in(alloc, entry, &bytes)?)
}
