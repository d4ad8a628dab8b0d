// Consecutive pushes of a history.
ghost use Rattle.profile_model.specs.Limits.{most_weight};
ghost use Rattle.profile_model.specs.Weights.{push_weight};
ghost use Rattle.segment_file.specs.Fields.{Fit};
ghost use Rattle.segment_file.specs.Files.{file_fields};
ghost use Rattle.segment_file.specs.Objects.{file_of};
ghost use Rattle.std.specs.Prelude.{◌≡◌, ◌≢◌, ℕ, ◌+◌, ◌^◌, ◌<◌, ◌≤◌, [], length};
ghost use Rattle.std.specs.List.{All};

use crate::rules::look_at_pushes;
use profile_model::Push;
use std::marker::Model;

/// Pushes number `lo` to `hi` - 1 of a history, at least one.
#[derive(Debug, Drop)]
pub struct Object {
    lo: u64,
    pushes: Vec<Push>,
}

impl Model for Object {
    ghost use Rattle.std.specs.Prelude.{◌≢◌, ◌+◌, ◌^◌, ◌<◌, [], length};
    ghost use Rattle.segment_file.specs.Fields.{Fit};
    ghost use Rattle.segment_file.specs.Files.{file_fields};
    ghost use Rattle.segment_file.specs.Objects.{ObjectView, file_of};

    ghost Value = { ObjectView };

    ghost view = { λ o. record { lo = o.lo; pushes = o.pushes.items } };

    ghost invariant = { λ o. (o.pushes.items ≢ []) × (o.lo + length o.pushes.items < 2 ^ 64) × Fit (file_fields (file_of o.lo o.pushes.items)) };
}

impl Object {
    /// Pushes within their limit of weight, the first of them number `lo`. It takes no memory, and looks at each text once.
    pub fn of_light(lo: u64, pushes: Vec<Push>) -> Object
        requires some { pushes.items ≢ [] }
        requires within { lo + length pushes.items < 2 ^ 64 }
        requires light { All (λ push. push_weight push ≤ most_weight) pushes.items }
        ensures lo { result.lo ≡ lo }
        ensures pushes { result.pushes ≡ pushes.items }
    {
        look_at_pushes(&pushes);
        Object::from_pushes(lo, pushes)
    }

    /// These pushes, the first of them number `lo`. Each length among them has room in four bytes, as among the pushes of
    /// another object. It takes no memory.
    pub fn from_pushes(lo: u64, pushes: Vec<Push>) -> Object
        requires some { pushes.items ≢ [] }
        requires within { lo + length pushes.items < 2 ^ 64 }
        requires fit { Fit (file_fields (file_of lo pushes.items)) }
        ensures lo { result.lo ≡ lo }
        ensures pushes { result.pushes ≡ pushes.items }
    {
        Object { lo, pushes }
    }

    /// The number of its first push.
    pub fn lo(&self) -> u64
        ensures { result ≡ self.now.lo }
    {
        self.lo
    }

    /// The number behind that of its last push.
    pub fn hi(&self) -> u64
        ensures hi { result ≡ self.now.lo + length self.now.pushes }
        ensures some { self.now.lo < result }
    {
        self.lo + self.pushes.len() as u64
    }

    pub fn pushes(&self) -> &[Push]
        ensures value { result.now ≡ self.now.pushes }
        ensures some { self.now.pushes ≢ [] }
        ensures within { self.now.lo + length self.now.pushes < 2 ^ 64 }
        ensures fit { Fit (file_fields (file_of self.now.lo self.now.pushes)) }
    {
        &self.pushes
    }

    /// The number of its first push, and its pushes, moved out of it. It takes no memory.
    pub fn into_pushes(self) -> (u64, Vec<Push>)
        ensures lo { result.0 ≡ self.lo }
        ensures pushes { result.1.items ≡ self.pushes }
        ensures some { self.pushes ≢ [] }
        ensures within { self.lo + length self.pushes < 2 ^ 64 }
        ensures fit { Fit (file_fields (file_of self.lo self.pushes)) }
    {
        (self.lo, self.pushes)
    }
}
