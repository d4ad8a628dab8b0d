// The rule of the table, and the seven kinds of step that keep it: its making, and the six below, each with the
// change that it makes to a view.
use crate::view::View;
use atomic_table::{Join, Play, Split, TableRule};
use std::marker::{Brand, PhantomData};

/// One seat is the spine's, the words are its length and its numbers, and no other seat is above it.
/// The table is made with a spine that has nothing.
pub(crate) struct OneSpine;

impl TableRule<u8, View, ()> for OneSpine {
    ghost use Rattle.history_pass.specs.Marks.{nothing};
    ghost use Rattle.history_pass.specs.Views.{spine_at};
    ghost use Rattle.history_pass.specs.Rule.{Kept};

    ghost holds = { λ _ table. Kept table.words table.views };

    ghost first = { λ _. spine_at nothing };
}

/// The pushes that a step adds. Each call picks them.
pub(crate) trait Adding {
    ghost use Rattle.std.specs.Prelude.{List};
    ghost use Rattle.profile_model.specs.declared.push.Push.{Push};

    ghost list: { List Push };
}

impl Adding for Brand {
    ghost use Rattle.std.specs.Prelude.{[]};

    ghost list = { [] };
}

/// One store to the first word: more pushes come to the end of the spine's list.
pub(crate) struct Extends<X: Adding>(PhantomData<X>);

impl<X: Adding> Play<u8, View> for Extends<X> {
    ghost use Rattle.std.specs.Prelude.{◌≡◌};
    ghost use Rattle.history_pass.specs.Views.{extended};

    ghost then = { λ _ before _ after. after ≡ (extended before.0 X.list, before.1) };
}

/// One store to the second word, which is the spine's count of faults from then on.
pub(crate) struct TellsFaults;

impl Play<u8, View> for TellsFaults {
    ghost use Rattle.std.specs.Prelude.{◌≡◌};
    ghost use Rattle.history_pass.specs.Views.{with_faults};

    ghost then = { λ _ before told after. after ≡ (with_faults before.0 told, before.1) };
}

/// One store to the third word, which is the spine's other number from then on.
pub(crate) struct TellsFull;

impl Play<u8, View> for TellsFull {
    ghost use Rattle.std.specs.Prelude.{◌≡◌};
    ghost use Rattle.history_pass.specs.Views.{with_full};

    ghost then = { λ _ before told after. after ≡ (with_full before.0 told, before.1) };
}

/// A new pass has what the spine has.
pub(crate) struct NewPass;

impl Split<View> for NewPass {
    ghost use Rattle.history_pass.specs.Views.{pass_at};

    ghost left = { λ spine. spine };

    ghost right = { λ spine. pass_at spine.has };
}

/// An old pass goes into the spine's seat, which keeps what the pass had beside what it has itself.
pub(crate) struct TakesIn;

impl Join<View> for TakesIn {
    ghost use Rattle.history_pass.specs.Marks.{nothing};
    ghost use Rattle.history_pass.specs.Views.{pass_at, with_older};

    ghost both = { λ spine pass. with_older spine pass.has };

    ghost spent = { pass_at nothing };
}

/// A load of the first word: the spine learns that what the old pass had is below what it has.
pub(crate) struct Learns;

impl Play<u8, View> for Learns {
    ghost use Rattle.std.specs.Prelude.{◌≡◌};
    ghost use Rattle.history_pass.specs.Marks.{Below};
    ghost use Rattle.history_pass.specs.Views.{without_older};

    ghost then = { λ _ before _ after. (after ≡ (without_older before.0, before.1)) × Below before.0.older before.0.has };
}
