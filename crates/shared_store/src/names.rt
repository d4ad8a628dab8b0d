// What a run of a store names.
use history_pass::Naming;
use std::marker::Brand;

/// What there is once in a run of a store, beside its spine: where it began, and what its store was opened with.
pub trait Names: Naming {
    ghost use Rattle.shared_store.specs.Holds.{Run};

    ghost run: { Run };
}

impl Names for Brand {
    ghost use Rattle.shared_store.specs.Holds.{no_run};

    ghost run = { no_run };
}
