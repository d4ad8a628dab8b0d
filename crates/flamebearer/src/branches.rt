// Stacks in preorder.
ghost use Rattle.std.specs.Prelude.{◌≡◌, ◌+◌, ◌<◌, length, map, IfOk};
ghost use Rattle.flamebearer.specs.Branches.{AreOrdered, depths_of, stacks_of};
ghost use Rattle.flamebearer.specs.Ends.{AreEnds, IsEnd};

use profile_model::Name;
use std::alloc::{AllocError, Global};
use std::marker::Model;

/// The last frame of a stack, and how many frames the stack has.
#[derive(Drop)]
pub struct Frame {
    pub name: Name,
    pub depth: usize,
}

/// What one side has at a stack: the stack's own value, and the values of all stacks that begin with it, together.
#[derive(Clone, Copy, Debug, PartialEq, Eq)]
pub struct Value {
    pub own: u64,
    pub total: u64,
}

/// Stacks and all that they begin with, each once and in order, which is preorder.
#[derive(Drop)]
pub struct Branches {
    frames: Vec<Frame>,
    ends: Vec<usize>,
}

impl Model for Branches {
    ghost use Rattle.std.specs.Prelude.{List, ℕ};
    ghost use Rattle.flamebearer.specs.Branches.{AreBranches, stacks_of};

    ghost Value = { List (List (List ℕ)) };

    ghost view = { λ b. stacks_of b.frames.items };

    ghost invariant = { λ b. AreBranches b.frames.items b.ends.items };
}

impl Branches {
    /// The stacks that these frames stand for.
    pub fn of(alloc: Global, frames: Vec<Frame>) -> Result<Branches, AllocError>
        requires { AreOrdered frames.items }
        ensures { IfOk result (λ branches. branches ≡ stacks_of frames.items) }
    {
        let ends = ends_of(alloc, &frames)?;
        Ok(Branches { frames, ends })
    }

    /// Their frames.
    pub fn frames(&self) -> &[Frame]
        ensures stacks { stacks_of result.now ≡ self.now }
        ensures ordered { AreOrdered result.now }
        ensures many { length result.now ≡ length self.now }
    {
        &self.frames
    }

    /// For each the place of the first later one that doesn't begin with its stack.
    pub(crate) fn ends(&self) -> &[usize]
        ensures { AreEnds 0 (map length self.now) result.now }
    {
        &self.ends
    }
}

// For each frame the place of the first later one that doesn't stand below it.
fn ends_of(alloc: Global, frames: &[Frame]) -> Result<Vec<usize>, AllocError>
    ensures { IfOk result (λ ends. AreEnds 0 (depths_of frames.now) ends.items) }
{
    let mut ends = vec![in alloc; 0; frames.len()]?;
    let mut at = frames.len();
    while at > 0 {
        at -= 1;
        ends[at] = end_of(frames, &ends, at);
    }
    Ok(ends)
}

// What is deeper ends where its own last one does, so the search steps over whole subtrees.
fn end_of(frames: &[Frame], ends: &[usize], at: usize) -> usize
    requires within { at < length frames.now }
    requires ends { AreEnds (at + 1) (depths_of frames.now) ends.now }
    ensures { IsEnd (depths_of frames.now) at result }
{
    let depth = frames[at].depth;
    let mut end = at + 1;
    while end < frames.len() && depth < frames[end].depth {
        end = ends[end];
    }
    end
}
