// What holds of all flame graphs of two sides.
ghost use Rattle.diff_render.specs.Laws.{EqualLevels, EqualTicks, RootsHaveTicks, SidesOfBoth};

/// One tree on both sides shows the same of both: the totals of the roots, and at each place the three numbers.
/// It does nothing: its clauses are the law.
pub fn equal_sides_show_equal_numbers()
    ensures ticks { EqualTicks }
    ensures levels { EqualLevels }
{}

/// Beside another tree each side is still the nodes of one side, and its root still has all its values: what holds of
/// every picture of one side holds of either. It does nothing: its clauses are the law.
pub fn each_side_stays_one_side()
    ensures sides { SidesOfBoth }
    ensures roots { RootsHaveTicks }
{}
