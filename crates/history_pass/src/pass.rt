// A pass.
ghost use Rattle.std.specs.Prelude.{◌≡◌, ◌<◌, ◌^◌, length};

use crate::naming::Naming;
use crate::view::View;
use atomic_table::Seat;
use std::marker::{Model, PhantomData};

/// How much of its spine was seen. To contracts it is what the spine had then.
#[derive(Drop)]
pub struct Pass<J: Naming> {
    pub(crate) seat: Seat<u8, View>,
    pub(crate) count: u64,
    pub(crate) of: PhantomData<J>,
}

impl<J: Naming> Model for Pass<J> {
    ghost use Rattle.history_pass.specs.declared.view.Mark.{Mark};
    ghost use Rattle.history_pass.specs.Seats.{IsPass, IsCounted};

    ghost Value = { Mark };

    ghost view = { λ p. p.seat.me.0.has };

    ghost invariant = { λ p. IsPass J.spine p.seat.table_id p.seat.me p.seat.me.0.has × IsCounted p.seat.me.0.has p.count };
}

impl<J: Naming> Pass<J> {
    /// How many pushes were seen, which are fewer than 2^63.
    pub fn seen(&self) -> u64
        ensures count { result ≡ length self.now.list }
        ensures small { result < 2 ^ 63 }
    {
        self.count
    }
}
