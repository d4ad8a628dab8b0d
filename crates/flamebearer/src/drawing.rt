// Drawing trees.
ghost use Rattle.std.specs.Prelude.{◌≡◌, ◌<◌, ◌≤◌, length, map, IfOk};
ghost use Rattle.std.specs.List.{All};
ghost use Rattle.flamebearer.specs.Pictures.{IsFlame, IsPicture};
ghost use Rattle.flamebearer.specs.Rows.{AreLaidBy, spots_of};
ghost use Rattle.flamebearer.specs.Sides.{IsSide, nodes_with};
ghost use Rattle.flamebearer.specs.Spots.{AreFramed};

use crate::branches::{Branches, Value};
use crate::kept::kept_places;
use crate::levels::{Spot, levels_of};
use crate::names::{Labels, names_of};
use crate::pictures::{Flame, Picture};
use crate::rows::{greatest_own, rows_of};
use crate::tree::Tree;
use std::alloc::{AllocError, Global};

/// The picture of one or two sides with at most so many nodes beside the root.
pub fn picture(
    alloc: Global,
    branches: &Branches,
    sides: &[&[Value]],
    most: u64,
) -> Result<Picture, AllocError>
    requires some { 0 < length sides.now }
    requires few { length sides.now ≤ 2 }
    requires sides { All (λ side. IsSide branches.now side.now) sides.now }
    ensures { IfOk result (λ picture. IsPicture (map (nodes_with branches.now) (map (λ side. side.now) sides.now)) most picture) }
{
    let frames = branches.frames();
    let kept = kept_places(alloc, sides, frames.len(), most)?;
    let laid = laid_of(alloc, branches, sides, &kept)?;
    let labels = Labels::new(alloc, frames)?;
    let (names, numbers) = names_of(alloc, &labels, &laid[0])?;
    let levels = rows_of(alloc, &labels, &numbers, &laid)?;
    let max_self = greatest_own(&laid);
    Ok(Picture {
        names,
        levels,
        max_self,
    })
}

/// The flame graph of a tree with at most so many nodes beside the root.
pub fn single(alloc: Global, tree: &Tree, most: u64) -> Result<Flame, AllocError>
    ensures { IfOk result (λ flame. IsFlame tree.now most flame) }
{
    let (branches, values) = tree.parts();
    let Picture {
        names,
        levels,
        max_self,
    } = picture(alloc, branches, &[values], most)?;
    Ok(Flame {
        names,
        levels,
        ticks: tree.total(),
        max_self,
    })
}

// The levels of each side.
fn laid_of(
    alloc: Global,
    branches: &Branches,
    sides: &[&[Value]],
    kept: &[bool],
) -> Result<Vec<Vec<Vec<Spot>>>, AllocError>
    requires framed { AreFramed branches.now }
    requires sides { All (λ side. IsSide branches.now side.now) sides.now }
    requires kept { length kept.now ≡ length branches.now }
    ensures { IfOk result (λ laid. AreLaidBy branches.now kept.now (map (λ side. side.now) sides.now) (spots_of laid.items)) }
{
    let mut laid = Vec::with_capacity(alloc, sides.len())?;
    for side in sides {
        let levels = levels_of(alloc, branches, side, kept)?;
        laid.push(levels)?;
    }
    Ok(laid)
}
