// Which nodes are kept where there are more than may be shown.
ghost use Rattle.std.specs.Prelude.{◌≡◌, ◌<◌, ◌≤◌, ◌^◌, length, map, IfOk};
ghost use Rattle.std.specs.List.{All, range_with_len};
ghost use Rattle.flamebearer.specs.Pictures.{is_kept};
ghost use Rattle.flamebearer.specs.Ranks.{AreRanked, AreWeights, total_in, weight_in};

use crate::branches::Value;
use std::alloc::{AllocError, Global};
use std::cmp::Reverse;

// For each of so many places whether its node is one of the heaviest.
pub(crate) fn kept_places(
    alloc: Global,
    sides: &[&[Value]],
    count: usize,
    most: u64,
) -> Result<Vec<bool>, AllocError>
    requires few { length sides.now ≤ 2 }
    requires weights { All (λ side. AreWeights count side.now) sides.now }
    ensures { IfOk result (λ kept. kept.items ≡ map (is_kept (weight_in (map (λ side. side.now) sides.now)) count most) (range_with_len 0 count)) }
{
    if most >= count as u64 {
        let all = vec![in alloc; true; count]?;
        return Ok(all);
    }
    let ranked = ranked(alloc, sides, count)?;
    let mut kept = vec![in alloc; false; count]?;
    for rank in 0..count.min(most as usize) {
        kept[ranked[rank].1] = true;
    }
    Ok(kept)
}

// The places by their weights, the greatest first, and of equal ones the earlier first.
fn ranked(
    alloc: Global,
    sides: &[&[Value]],
    count: usize,
) -> Result<Vec<(Reverse<u64>, usize)>, AllocError>
    requires few { length sides.now ≤ 2 }
    requires weights { All (λ side. AreWeights count side.now) sides.now }
    ensures { IfOk result (λ ranked. AreRanked (weight_in (map (λ side. side.now) sides.now)) count (map (λ one. one.1) ranked.items)) }
{
    let mut ranked = Vec::with_capacity(alloc, count)?;
    for place in 0..count {
        ranked.push(rank_of(sides, place))?;
    }
    ranked.sort_unstable();
    Ok(ranked)
}

// By what places are put in order.
fn rank_of(sides: &[&[Value]], place: usize) -> (Reverse<u64>, usize)
    requires few { length sides.now ≤ 2 }
    requires weights { All (λ side. (place < length side.now) × All (λ value. value.total < 2 ^ 63) side.now) sides.now }
    ensures weight { result.0.0 ≡ weight_in (map (λ side. side.now) sides.now) place }
    ensures place { result.1 ≡ place }
{
    (Reverse(weight_of(sides, place)), place)
}

// What all sides have at a place together.
fn weight_of(sides: &[&[Value]], place: usize) -> u64
    requires few { length sides.now ≤ 2 }
    requires weights { All (λ side. (place < length side.now) × All (λ value. value.total < 2 ^ 63) side.now) sides.now }
    ensures { result ≡ weight_in (map (λ side. side.now) sides.now) place }
{
    let mut weight = 0;
    for side in sides {
        weight += total_at(side, place);
    }
    weight
}

fn total_at(values: &[Value], place: usize) -> u64
    requires { place < length values.now }
    ensures { result ≡ total_in values.now place }
{
    values[place].total
}
