// Several objects as one.
ghost use Rattle.std.specs.Prelude.{◌≡◌, ◌≢◌, [], IfOk};
ghost use Rattle.std.specs.List.{flat_map};
ghost use Rattle.block_merge.specs.Merges.{FollowOn, begin_of};

use segment_file::Object;
use std::alloc::{AllocError, Global};

/// The object of the pushes of all these objects, each of which begins where the one before ends. Its pushes are theirs,
/// moved: no profile, stack or name is copied, and memory is taken once, for the list of pushes. Without it the objects
/// are gone, and whoever read them can read them again.
pub fn merge(alloc: Global, objects: Vec<Object>) -> Result<Object, AllocError>
    requires some { objects.items ≢ [] }
    requires follow { FollowOn objects.items }
    ensures lo { IfOk result (λ merged. merged.lo ≡ begin_of objects.items) }
    ensures pushes { IfOk result (λ merged. merged.pushes ≡ flat_map (λ object. object.pushes) objects.items) }
{
    let lo = objects[0].lo();
    let hi = objects[objects.len() - 1].hi();
    let mut pushes = Vec::with_capacity(alloc, hi.saturating_sub(lo) as usize)?;
    for object in objects {
        let (_, mut more) = object.into_pushes();
        pushes.append(&mut more)?;
    }
    Ok(Object::from_pushes(lo, pushes))
}
