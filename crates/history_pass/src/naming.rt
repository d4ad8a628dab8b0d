// What a run names.
use std::marker::Brand;

/// What there is once in a run: here the table of its spine. Crates above add members of their own.
/// Types that belong together have one such parameter, and the call that makes the spine picks it.
pub trait Naming {
    ghost use Rattle.atomic_table.specs.Seated.{TableId};

    ghost spine: { TableId };
}

impl Naming for Brand {
    ghost use Rattle.history_pass.specs.Names.{no_table};

    ghost spine = { no_table };
}
