// The stacks of two trees, in the making.
ghost use Rattle.std.specs.Prelude.{◌≡◌, ◌++◌, [], ◌∷◌, IfOk, OnOk};
ghost use Rattle.diff_render.specs.Order.{frames_order};

use flamebearer::{Frame, Value};
use std::alloc::{AllocError, Global};
use std::cmp::Ordering;

/// What a side has at a stack of the other alone.
pub(crate) const NOTHING: Value = Value { own: 0, total: 0 };

/// Frames in order, and for each what either side has there.
#[derive(Drop)]
pub(crate) struct Joined {
    pub frames: Vec<Frame>,
    pub left: Vec<Value>,
    pub right: Vec<Value>,
}

impl Joined {
    pub(crate) fn new(alloc: Global) -> Joined
        ensures frames { result.frames.items ≡ [] }
        ensures left { result.left.items ≡ [] }
        ensures right { result.right.items ≡ [] }
    {
        Joined {
            frames: Vec::new(alloc),
            left: Vec::new(alloc),
            right: Vec::new(alloc),
        }
    }

    /// One more. The frame's name is shared.
    pub(crate) fn push(
        &mut self,
        frame: &Frame,
        left: Value,
        right: Value,
    ) -> Result<(), AllocError>
        ensures frames { OnOk result (self.new.frames.items ≡ self.old.frames.items ++ frame.now ∷ []) }
        ensures left { OnOk result (self.new.left.items ≡ self.old.left.items ++ left ∷ []) }
        ensures right { OnOk result (self.new.right.items ≡ self.old.right.items ++ right ∷ []) }
    {
        self.frames.push(Frame {
            name: frame.name.clone()?,
            depth: frame.depth,
        })?;
        self.left.push(left)?;
        self.right.push(right)?;
        Ok(())
    }
}

/// Which of two frames comes first behind the same stacks: the deeper one, and of equally deep ones that with the lower
/// name.
pub(crate) fn order(left: &Frame, right: &Frame) -> Ordering
    ensures { result ≡ frames_order left.now right.now }
{
    if left.depth > right.depth {
        Ordering::Less
    } else if left.depth < right.depth {
        Ordering::Greater
    } else {
        left.name.cmp(&right.name)
    }
}
