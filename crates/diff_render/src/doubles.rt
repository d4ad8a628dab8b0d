// Flame graphs of two sides.
ghost use Rattle.std.specs.Prelude.{IfOk};
ghost use Rattle.diff_render.specs.Doubles.{IsDouble};

use crate::both::both_of;
use flamebearer::{Picture, Tree, picture};
use profile_model::Name;
use std::alloc::{AllocError, Global};
use std::marker::Model;

/// The picture of two sides, whose places have three numbers of the left, three of the right and that of the name, and
/// the totals of both roots.
#[derive(Debug, Drop)]
pub struct DoubleFlame {
    pub names: Vec<Name>,
    pub levels: Vec<Vec<u64>>,
    pub left_ticks: u64,
    pub right_ticks: u64,
    pub max_self: u64,
}

impl Model for DoubleFlame {
    ghost use Rattle.std.specs.Prelude.{map};
    ghost use Rattle.diff_render.specs.Doubles.{DoubleView};

    ghost Value = { DoubleView };

    ghost view = { λ f. record { names = f.names.items; levels = map (λ level. level.items) f.levels.items; left_ticks = f.left_ticks; right_ticks = f.right_ticks; max_self = f.max_self } };
}

/// The flame graph of two trees with at most so many nodes beside the root. It copies no bytes of their frames.
pub fn double(
    alloc: Global,
    left: &Tree,
    right: &Tree,
    most: u64,
) -> Result<DoubleFlame, AllocError>
    ensures { IfOk result (λ flame. IsDouble left.now right.now most flame) }
{
    let both = both_of(alloc, left, right)?;
    let Picture {
        names,
        levels,
        max_self,
    } = picture(alloc, &both.branches, &[&both.left, &both.right], most)?;
    Ok(DoubleFlame {
        names,
        levels,
        left_ticks: left.total(),
        right_ticks: right.total(),
        max_self,
    })
}
