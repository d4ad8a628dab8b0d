// A call stack.
ghost use Rattle.std.specs.Prelude.{◌≡◌, refl, Some};
ghost use Rattle.std.specs.Arc.{arc_slice_items};
ghost use Rattle.std.specs.Cmp;
ghost use Rattle.profile_model.specs.Stacks.{stack_cmp, IsStack};
ghost use Rattle.profile_model.specs.StackOrder.{stack_eq, stacks_equiv, stacks_total, stacks_ties, stacks_po};
ghost use Rattle.profile_model.specs.ReadStacks.{IsReadStack, IsWrongFrame};

use crate::Name;
use std::alloc::AllocError;
use std::cmp::Ordering;
use std::error::Error;
use std::fmt;
use std::marker::Model;
use std::sync::ArcSlice;

/// The most frames that a stack may have.
pub const MAX_FRAMES: usize = 1024;

/// The most bytes that a frame's name may have.
pub const MAX_FRAME_BYTES: usize = 65535;

/// The frames of a call stack, root first.
/// They are shared: a clone copies no frames.
#[derive(Debug, Drop)]
pub struct Stack {
    frames: ArcSlice<Name>,
}

impl Model for Stack {
    ghost use Rattle.std.specs.Prelude.{List, ℕ};
    ghost use Rattle.std.specs.Arc.{arc_slice_items};
    ghost use Rattle.profile_model.specs.Stacks.{IsStack};

    ghost Value = { List (List ℕ) };

    ghost view = { λ s. arc_slice_items s.frames };

    ghost invariant = { λ s. IsStack (arc_slice_items s.frames) };
}

/// Why frames are no stack.
#[derive(Clone, Copy, Debug, PartialEq, Eq)]
pub enum StackFault {
    NoFrames,
    TooDeep,
    /// The number of the first frame of a wrong length, from 0.
    EmptyFrame(usize),
    LongFrame(usize),
}

impl fmt::Display for StackFault {
    fn fmt<W: fmt::Write>(&self, f: &mut fmt::Formatter<W>) -> fmt::Result {
        match self {
            StackFault::NoFrames => write!(f, "a stack without frames"),
            StackFault::TooDeep => write!(f, "a stack of more than {MAX_FRAMES} frames"),
            StackFault::EmptyFrame(at) => write!(f, "frame {at} is empty"),
            StackFault::LongFrame(at) => write!(
                f,
                "frame {at} has more than {MAX_FRAME_BYTES} bytes"
            ),
        }
    }
}

impl Error for StackFault {}

impl Stack {
    /// The stack of these frames, root first. It takes no memory.
    pub fn from_frames(frames: ArcSlice<Name>) -> Result<Stack, StackFault>
        ensures read { IsReadStack (arc_slice_items frames) result }
    {
        if frames.len() == 0 {
            return Err(StackFault::NoFrames);
        }
        if frames.len() > MAX_FRAMES {
            return Err(StackFault::TooDeep);
        }
        match wrong_frame(frames.as_slice()) {
            Some(fault) => Err(fault),
            None => Ok(Stack { frames }),
        }
    }

    pub fn frames(&self) -> &[Name]
        ensures value { result.now ≡ self.now }
        ensures limits { IsStack self.now }
    {
        self.frames.as_slice()
    }
}

// The first frame of a wrong length, if there is one.
fn wrong_frame(frames: &[Name]) -> Option<StackFault>
    ensures { IsWrongFrame frames.now result }
{
    for (at, frame) in frames.iter().enumerate() {
        let length = frame.len();
        if length == 0 {
            return Some(StackFault::EmptyFrame(at));
        }
        if length > MAX_FRAME_BYTES {
            return Some(StackFault::LongFrame(at));
        }
    }
    None
}

impl fmt::Display for Stack {
    fn fmt<W: fmt::Write>(&self, f: &mut fmt::Formatter<W>) -> fmt::Result {
        let mut between = "";
        for frame in self.frames() {
            write!(f, "{between}{frame}")?;
            between = ";";
        }
        Ok(())
    }
}

impl Clone for Stack {
    ghost is_clone = { λ stack copy. copy ≡ stack };

    fn clone(&self) -> Result<Stack, AllocError> {
        let frames = self.frames.clone()?;
        Ok(Stack { frames })
    }
}

impl PartialEq for Stack {
    ghost eq = { stack_eq };

    ghost laws = { Cmp.partial_equiv_from_equiv stacks_equiv };

    fn eq(&self, other: &Self) -> bool {
        self.frames == other.frames
    }
}

impl Eq for Stack {
    ghost laws = { stacks_equiv };
}

impl PartialOrd for Stack {
    ghost partial_cmp = { λ x y. Some (stack_cmp x y) };

    ghost laws = { stacks_po };

    fn partial_cmp(&self, other: &Self) -> Option<Ordering> {
        Some(self.cmp(other))
    }
}

impl Ord for Stack {
    ghost cmp = { stack_cmp };

    ghost total = { stacks_total };

    ghost matches_partial_cmp = { λ x y. refl };

    ghost matches_eq = { stacks_ties };

    fn cmp(&self, other: &Self) -> Ordering {
        self.frames.cmp(&other.frames)
    }
}
