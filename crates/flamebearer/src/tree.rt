// The tree of some stacks.
ghost use Rattle.std.specs.Prelude.{◌≡◌, ◌+◌, ◌-◌, ◌^◌, ◌<◌, ◌++◌, [], ◌∷◌, length, map, sum_by, take, IfOk, OnOk};
ghost use Rattle.std.specs.List.{AllByRecursion, IsDistinct};
ghost use Rattle.std.specs.declared.cmp.Ordering.TheVariants.{Less};
ghost use Rattle.profile_model.specs.Stacks.{stack_cmp};
ghost use Rattle.profile_model.specs.StackOrder.{stack_eq};
ghost use Rattle.flamebearer.specs.Entries.{AreDeep, ArePlaces, CanGrow, depths_of, frame_of, nodes_of, path_after, stacks_of, values_of};
ghost use Rattle.flamebearer.specs.Parts.{PartAt};
ghost use Rattle.flamebearer.specs.Pushes.{fresh, fronts, grown, IsPushed};

use crate::branches::{Branches, Frame, Value};
use crate::levels::total_own;
use profile_model::{Name, StackSums};
use std::alloc::{AllocError, Global};
use std::marker::Model;

/// Each stack that was met or begins one that was, in preorder, with its values.
#[derive(Drop)]
pub struct Tree {
    branches: Branches,
    values: Vec<Value>,
}

impl Model for Tree {
    ghost use Rattle.std.specs.Prelude.{List};
    ghost use Rattle.flamebearer.specs.Trees.{Node};
    ghost use Rattle.flamebearer.specs.Sides.{IsSide, nodes_with};

    ghost Value = { List Node };

    ghost view = { λ t. nodes_with t.branches t.values.items };

    ghost invariant = { λ t. IsSide t.branches t.values.items };
}

impl Tree {
    ghost use Rattle.flamebearer.specs.Trees.{tree_of};
    ghost use Rattle.flamebearer.specs.Sides.{IsSide, nodes_with};

    /// The tree of these stacks. It copies no bytes of their frames.
    pub fn of(alloc: Global, values: &StackSums) -> Result<Tree, AllocError>
        ensures tree { IfOk result (λ tree. tree ≡ tree_of values.now) }
    {
        let mut entries = Vec::new(alloc);
        let mut spine = Vec::new(alloc);
        let mut before: &[Name] = &[];
        for (stack, value) in values.iter() {
            push_stack(&mut entries, &mut spine, before, stack.frames(), *value)?;
            before = stack.frames();
        }
        let values = all_values(alloc, &entries)?;
        let branches = Branches::of(alloc, into_frames(alloc, entries)?)?;
        Ok(Tree { branches, values })
    }

    /// The values of all its stacks together.
    pub fn total(&self) -> u64
        ensures total { result ≡ sum_by (λ node. node.own) self.now }
        ensures bound { result < 2 ^ 63 }
    {
        total_own(&self.values)
    }

    /// Its stacks and their values.
    pub fn parts(&self) -> (&Branches, &[Value])
        ensures nodes { nodes_with result.0.now result.1.now ≡ self.now }
        ensures side { IsSide result.0.now result.1.now }
    {
        (&self.branches, &self.values)
    }
}

// A node's last frame and how deep it stands, from 1, and its values.
#[derive(Drop)]
struct Entry {
    name: Name,
    depth: usize,
    own: u64,
    total: u64,
}

fn values_of(entry: &Entry) -> Value
    ensures { result ≡ values_of entry.now }
{
    Value {
        own: entry.own,
        total: entry.total,
    }
}

// The values of entries.
fn all_values(alloc: Global, entries: &[Entry]) -> Result<Vec<Value>, AllocError>
    ensures { IfOk result (λ values. values.items ≡ map values_of entries.now) }
{
    entries.iter().map(|entry| values_of(entry)).collect(alloc)
}

// The frames of entries.
fn into_frames(alloc: Global, entries: Vec<Entry>) -> Result<Vec<Frame>, AllocError>
    ensures { IfOk result (λ frames. frames.items ≡ map frame_of entries.items) }
{
    entries
        .into_iter()
        .map(|entry| Frame {
            name: entry.name,
            depth: entry.depth,
        })
        .collect(alloc)
}

// How many frames two stacks share from the root on.
fn shared_frames(first: &[Name], second: &[Name]) -> usize
    ensures { PartAt first.now second.now result }
{
    let mut shared = 0;
    while shared < first.len() && shared < second.len() && first[shared] == second[shared] {
        shared += 1;
    }
    shared
}

// The value comes to the nodes at these places, which are fronts of the last one's stack.
fn grow(entries: &mut Vec<Entry>, spine: &[usize], value: u64)
    requires { CanGrow entries.old.items spine.now (path_after [] entries.old.items) value }
    ensures nodes { nodes_of entries.new.items ≡ map (grown (length spine.now) (path_after [] entries.old.items) value) (nodes_of entries.old.items) }
    ensures path { path_after [] entries.new.items ≡ path_after [] entries.old.items }
    ensures many { length entries.new.items ≡ length entries.old.items }
    ensures depths { depths_of entries.new.items ≡ depths_of entries.old.items }
{
    for at in spine {
        entries[*at].total += value;
    }
}

// The node of the stack's frame at this place.
fn push_frame(
    entries: &mut Vec<Entry>,
    spine: &mut Vec<usize>,
    frames: &[Name],
    at: usize,
    value: u64,
) -> Result<(), AllocError>
    requires within { at < length frames.now }
    requires path { take at (path_after [] entries.old.items) ≡ take at frames.now }
    requires places { ArePlaces entries.old.items spine.old.items frames.now at }
    ensures nodes { OnOk result (nodes_of entries.new.items ≡ nodes_of entries.old.items ++ fresh frames.now value (take (at + 1) frames.now) ∷ []) }
    ensures path { OnOk result (path_after [] entries.new.items ≡ take (at + 1) frames.now) }
    ensures places { OnOk result (ArePlaces entries.new.items spine.new.items frames.now (at + 1)) }
    ensures deep { OnOk result (AreDeep entries.old.items → AreDeep entries.new.items) }
{
    let own = if at + 1 == frames.len() { value } else { 0 };
    spine.push(entries.len())?;
    entries.push(Entry {
        name: frames[at].clone()?,
        depth: at + 1,
        own,
        total: value,
    })?;
    Ok(())
}

// The nodes of the stack's frames from this place on.
fn push_rest(
    entries: &mut Vec<Entry>,
    spine: &mut Vec<usize>,
    frames: &[Name],
    shared: usize,
    value: u64,
) -> Result<(), AllocError>
    requires within { shared < length frames.now }
    requires path { take shared (path_after [] entries.old.items) ≡ take shared frames.now }
    requires places { ArePlaces entries.old.items spine.old.items frames.now shared }
    ensures nodes { OnOk result (nodes_of entries.new.items ≡ nodes_of entries.old.items ++ map (fresh frames.now value) (fronts frames.now shared (length frames.now - shared))) }
    ensures path { OnOk result (path_after [] entries.new.items ≡ frames.now) }
    ensures places { OnOk result (ArePlaces entries.new.items spine.new.items frames.now (length frames.now)) }
    ensures deep { OnOk result (AreDeep entries.old.items → AreDeep entries.new.items) }
{
    for at in shared..frames.len() {
        push_frame(entries, spine, frames, at, value)?;
    }
    Ok(())
}

// The nodes with a stack more, which is greater than the one before.
fn push_stack(
    entries: &mut Vec<Entry>,
    spine: &mut Vec<usize>,
    before: &[Name],
    frames: &[Name],
    value: u64,
) -> Result<(), AllocError>
    requires places { ArePlaces entries.old.items spine.old.items before.now (length before.now) }
    requires path { path_after [] entries.old.items ≡ before.now }
    requires greater { stack_cmp before.now frames.now ≡ Less }
    requires distinct { IsDistinct stack_eq (stacks_of entries.old.items) }
    requires fits { AllByRecursion (λ node. node.total + value < 2 ^ 63) (nodes_of entries.old.items) }
    requires small { value < 2 ^ 63 }
    ensures nodes { OnOk result (IsPushed before.now frames.now value (nodes_of entries.old.items) (nodes_of entries.new.items)) }
    ensures path { OnOk result (path_after [] entries.new.items ≡ frames.now) }
    ensures places { OnOk result (ArePlaces entries.new.items spine.new.items frames.now (length frames.now)) }
    ensures deep { OnOk result (AreDeep entries.old.items → AreDeep entries.new.items) }
{
    let shared = shared_frames(before, frames);
    spine.truncate(shared);
    grow(entries, spine, value);
    push_rest(entries, spine, frames, shared, value)?;
    Ok(())
}
