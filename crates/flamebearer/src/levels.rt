// The levels of one side.
ghost use Rattle.std.specs.Prelude.{◌≡◌, ◌+◌, ◌<◌, ◌≤◌, ◌^◌, [], ◌∷◌, length, map, unwrap_or, IfOk, OnOk};
ghost use Rattle.std.specs.List.{All};
ghost use Rattle.flamebearer.specs.declared.levels.Stands.TheVariants.{Root};
ghost use Rattle.flamebearer.specs.Pictures.{AreLevels};
ghost use Rattle.flamebearer.specs.Sides.{IsSide, nodes_with};
ghost use Rattle.flamebearer.specs.Spots.{AreFramed, AreSpanned, AreWithin, IsGrown, IsNext, IsSpot, end_below, first_below, has_flag, own_before, shown_at};

use crate::branches::{Branches, Value};
use std::alloc::{AllocError, Global};

/// What stands at a place of a level.
#[derive(Clone, Copy)]
pub(crate) enum Stands {
    Root,
    /// The node with this place.
    At(usize),
    /// Nodes that aren't kept, together.
    Others,
}

/// One place of a level, with its values and where it begins.
#[derive(Clone, Copy)]
pub(crate) struct Spot {
    pub(crate) stands: Stands,
    pub(crate) own: u64,
    pub(crate) total: u64,
    pub(crate) begin: u64,
}

// The levels of one side, the root's first, with the nodes that are kept.
pub(crate) fn levels_of(
    alloc: Global,
    branches: &Branches,
    values: &[Value],
    kept: &[bool],
) -> Result<Vec<Vec<Spot>>, AllocError>
    requires framed { AreFramed branches.now }
    requires side { IsSide branches.now values.now }
    requires kept { length kept.now ≡ length branches.now }
    ensures levels { IfOk result (λ levels.
        AreLevels (has_flag kept.now) (nodes_with branches.now values.now) (map (map (shown_at branches.now)) (map (λ level. level.items) levels.items))) }
    ensures within { IfOk result (λ levels. AreWithin (length branches.now) (map (λ level. level.items) levels.items)) }
{
    let ends = branches.ends();
    let mut levels = Vec::new(alloc);
    let mut level = first_level(alloc, values)?;
    while !level.is_empty() {
        let next = next_level(alloc, ends, values, kept, &level)?;
        levels.push(level)?;
        level = next;
    }
    Ok(levels)
}

// The root, which has all values together.
fn first_level(alloc: Global, values: &[Value]) -> Result<Vec<Spot>, AllocError>
    requires { own_before values.now (length values.now) < 2 ^ 63 }
    ensures { IfOk result (λ level.
        level.items ≡ record { stands = Root; own = 0; total = own_before values.now (length values.now); begin = 0 } ∷ []) }
{
    let mut level = Vec::with_capacity(alloc, 1)?;
    level.push(Spot {
        stands: Stands::Root,
        own: 0,
        total: total_own(values),
        begin: 0,
    })?;
    Ok(level)
}

// All own values together.
pub(crate) fn total_own(values: &[Value]) -> u64
    requires { own_before values.now (length values.now) < 2 ^ 63 }
    ensures { result ≡ own_before values.now (length values.now) }
{
    let mut total = 0;
    for value in values {
        total += value.own;
    }
    total
}

// The level below a level.
fn next_level(
    alloc: Global,
    ends: &[usize],
    values: &[Value],
    kept: &[bool],
    level: &[Spot],
) -> Result<Vec<Spot>, AllocError>
    requires spans { AreSpanned ends.now values.now }
    requires kept { length kept.now ≡ length ends.now }
    requires spots { All (IsSpot ends.now values.now 0) level.now }
    ensures { IfOk result (λ next. IsNext ends.now values.now kept.now level.now next.items) }
{
    let mut next = Vec::new(alloc);
    for spot in level {
        push_below(&mut next, ends, values, kept, *spot)?;
    }
    Ok(next)
}

// What stands below a spot: the kept children side by side from the end of its own value on, then the others.
fn push_below(
    next: &mut Vec<Spot>,
    ends: &[usize],
    values: &[Value],
    kept: &[bool],
    spot: Spot,
) -> Result<(), AllocError>
    requires spans { AreSpanned ends.now values.now }
    requires kept { length kept.now ≡ length ends.now }
    requires spot { IsSpot ends.now values.now 0 spot }
    ensures { OnOk result (IsGrown ends.now values.now kept.now spot next.old.items next.new.items) }
{
    let (first, end) = reach(ends, spot.stands);
    let mut begin = spot.begin + spot.own;
    let mut left = None;
    let mut at = first;
    while at < end {
        let Value { own, total } = values[at];
        if kept[at] {
            next.push(Spot {
                stands: Stands::At(at),
                own,
                total,
                begin,
            })?;
            begin += total;
        } else {
            left = Some(with_one_more(left, total));
        }
        at = ends[at];
    }
    if let Some(total) = left {
        next.push(Spot {
            stands: Stands::Others,
            own: total,
            total,
            begin,
        })?;
    }
    Ok(())
}

// What nodes that aren't kept come to, with one more.
fn with_one_more(left: Option<u64>, total: u64) -> u64
    requires { unwrap_or left 0 + total < 2 ^ 63 }
    ensures { result ≡ unwrap_or left 0 + total }
{
    left.unwrap_or(0) + total
}

// The places where what stands below can be: the first, and their end.
fn reach(ends: &[usize], stands: Stands) -> (usize, usize)
    requires { first_below ends.now stands ≤ length ends.now }
    ensures first { result.0 ≡ first_below ends.now stands }
    ensures end { result.1 ≡ end_below ends.now stands }
{
    match stands {
        Stands::Root => (0, ends.len()),
        Stands::At(at) => (at + 1, ends[at]),
        Stands::Others => (ends.len(), ends.len()),
    }
}
