// Levels of nodes, from the root down.
use profile_model::Name;
use std::marker::Model;

/// The levels of a flame graph, the root's first. At each place of a level stand three numbers of each side (how far it begins from
/// the end of what stands to its left, its total, its own value), and then the number of its name.
#[derive(Debug, Drop)]
pub struct Picture {
    pub names: Vec<Name>,
    pub levels: Vec<Vec<u64>>,
    /// The greatest own value that is shown.
    pub max_self: u64,
}

impl Model for Picture {
    ghost use Rattle.std.specs.Prelude.{map};
    ghost use Rattle.flamebearer.specs.Pictures.{PictureView};

    ghost Value = { PictureView };

    ghost view = { λ p. record { names = p.names.items; levels = map (λ level. level.items) p.levels.items; max_self = p.max_self } };
}

/// The picture of one side, and the total of its root.
#[derive(Debug, Drop)]
pub struct Flame {
    pub names: Vec<Name>,
    pub levels: Vec<Vec<u64>>,
    pub ticks: u64,
    pub max_self: u64,
}

impl Model for Flame {
    ghost use Rattle.std.specs.Prelude.{map};
    ghost use Rattle.flamebearer.specs.Pictures.{FlameView};

    ghost Value = { FlameView };

    ghost view = { λ f. record { names = f.names.items; levels = map (λ level. level.items) f.levels.items; ticks = f.ticks; max_self = f.max_self } };
}
