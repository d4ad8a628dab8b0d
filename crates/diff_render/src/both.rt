// The stacks of two trees.
ghost use Rattle.std.specs.Prelude.{◌≡◌, ◌⊎◌, ◌+◌, ◌<◌, ◌≤◌, length, map, IfOk, OnOk};
ghost use Rattle.flamebearer.specs.Branches.{AreOrdered, stacks_of};
ghost use Rattle.flamebearer.specs.Sides.{IsSide, nodes_with};
ghost use Rattle.diff_render.specs.Doubles.{AreOfBoth, node_at};
ghost use Rattle.diff_render.specs.Order.{IsTurn};
ghost use Rattle.diff_render.specs.Joining.{IsJoined, IsWhole};

use crate::joined::{Joined, NOTHING, order};
use flamebearer::{Branches, Frame, Tree, Value};
use std::alloc::{AllocError, Global};
use std::cmp::Ordering;

/// The stacks that two trees have, and what each of them has there.
#[derive(Drop)]
pub(crate) struct Both {
    pub branches: Branches,
    pub left: Vec<Value>,
    pub right: Vec<Value>,
}

/// The stacks of both trees. It copies no bytes of their frames.
pub(crate) fn both_of(alloc: Global, left: &Tree, right: &Tree) -> Result<Both, AllocError>
    ensures both { IfOk result (λ both. AreOfBoth left.now right.now both.branches) }
    ensures left { IfOk result (λ both. nodes_with both.branches both.left.items ≡ map (node_at left.now) both.branches) }
    ensures right { IfOk result (λ both. nodes_with both.branches both.right.items ≡ map (node_at right.now) both.branches) }
    ensures left_side { IfOk result (λ both. IsSide both.branches both.left.items) }
    ensures right_side { IfOk result (λ both. IsSide both.branches both.right.items) }
{
    let (left, left_values) = left.parts();
    let (right, right_values) = right.parts();
    let left = Half {
        frames: left.frames(),
        values: left_values,
    };
    let right = Half {
        frames: right.frames(),
        values: right_values,
    };
    let joined = join(alloc, left, right)?;
    let branches = Branches::of(alloc, joined.frames)?;
    Ok(Both {
        branches,
        left: joined.left,
        right: joined.right,
    })
}

// The frames of one tree, and their values.
#[derive(Clone, Copy)]
struct Half<'t> {
    frames: &'t [Frame],
    values: &'t [Value],
}

fn join(alloc: Global, left: Half, right: Half) -> Result<Joined, AllocError>
    requires left { IsWhole left.frames.now left.values.now }
    requires right { IsWhole right.frames.now right.values.now }
    ensures { IfOk result (λ joined. IsJoined left.entry.frames.now left.entry.values.now (length left.entry.frames.now)
        right.entry.frames.now right.entry.values.now (length right.entry.frames.now) joined.frames.items joined.left.items joined.right.items) }
{
    let mut joined = Joined::new(alloc);
    let (mut at, mut beside) = (0, 0);
    while at < left.frames.len() || beside < right.frames.len() {
        (at, beside) = push_next(&mut joined, left, at, right, beside)?;
    }
    Ok(joined)
}

// The next stack of either tree, or of both, and where they go on.
fn push_next(
    joined: &mut Joined,
    left: Half,
    at: usize,
    right: Half,
    beside: usize,
) -> Result<(usize, usize), AllocError>
    requires left { IsWhole left.frames.now left.values.now }
    requires right { IsWhole right.frames.now right.values.now }
    requires at { at ≤ length left.frames.now }
    requires beside { beside ≤ length right.frames.now }
    requires more { (at < length left.frames.now) ⊎ (beside < length right.frames.now) }
    requires joined { IsJoined left.frames.now left.values.now at
        right.frames.now right.values.now beside joined.old.frames.items joined.old.left.items joined.old.right.items }
    ensures joined { IfOk result (λ next. IsJoined left.entry.frames.now left.entry.values.now next.0
        right.entry.frames.now right.entry.values.now next.1 joined.new.frames.items joined.new.left.items joined.new.right.items) }
    ensures at { IfOk result (λ next. next.0 ≤ length left.entry.frames.now) }
    ensures beside { IfOk result (λ next. next.1 ≤ length right.entry.frames.now) }
    ensures further { IfOk result (λ next. at + beside < next.0 + next.1) }
{
    match turn(&left.frames[at..], &right.frames[beside..]) {
        Ordering::Less => {
            joined.push(&left.frames[at], left.values[at], NOTHING)?;
            Ok((at + 1, beside))
        }
        Ordering::Greater => {
            joined.push(&right.frames[beside], NOTHING, right.values[beside])?;
            Ok((at, beside + 1))
        }
        Ordering::Equal => {
            joined.push(&left.frames[at], left.values[at], right.values[beside])?;
            Ok((at + 1, beside + 1))
        }
    }
}

// Whose stack is next, of what is left of each.
fn turn(left: &[Frame], right: &[Frame]) -> Ordering
    ensures { IsTurn left.now right.now result }
{
    match (left, right) {
        ([one, ..], [other, ..]) => order(one, other),
        ([], _) => Ordering::Greater,
        (_, []) => Ordering::Less,
    }
}
