// The spine of a history.
ghost use Rattle.std.specs.Prelude.{◌≡◌, ◌+◌, ◌<◌, ◌≤◌, ◌^◌, ◌++◌, length};
ghost use Rattle.history_pass.specs.Marks.{grown, mark, Below};
ghost use Rattle.history_pass.specs.Meetings.{Meets};

use crate::naming::Naming;
use crate::pass::Pass;
use crate::rule::{Adding, Extends, Learns, NewPass, OneSpine, TakesIn, TellsFaults, TellsFull};
use crate::standing::Standing;
use crate::view::View;
use atomic_table::{Seat, Table};
use std::alloc::{AllocError, Global};
use std::marker::{Brand, Model, PhantomData};
use std::mem;

/// A spine of nothing yet, which no type names. Contracts see the name that it will have.
#[derive(Drop)]
pub struct BlankSpine {
    table: Table<u8, View, (), OneSpine, Global>,
    seat: Seat<u8, View>,
}

impl Model for BlankSpine {
    ghost use Rattle.atomic_table.specs.Seated.{TableId, table_id_coded};
    ghost use Rattle.history_pass.specs.Marks.{nothing};
    ghost use Rattle.history_pass.specs.Seats.{IsSpine};

    ghost Value = { TableId };

    ghost coded = { table_id_coded };

    ghost view = { λ b. b.table.shared.table_id };

    ghost invariant = { λ b. IsSpine b.table.shared.table_id b.table.shared.table_id b.seat.table_id b.seat.me nothing };
}

impl BlankSpine {
    /// The only call that takes memory.
    pub fn new(alloc: Global) -> Result<BlankSpine, AllocError> {
        let (table, seat) = Table::of_words(alloc, &[0, 0, 0], &())?;
        Ok(BlankSpine { table, seat })
    }

    /// The spine under its name, with the pushes that a value stands for. It takes no memory.
    pub fn open<J: Naming, S: Standing>(self, of: &S) -> Spine<J>
        requires name { self ≡ J.spine }
        requires room { length (S.list of.now) < 2 ^ 63 }
        ensures { result ≡ mark (S.list of.now) 0 0 }
    {
        let BlankSpine { table, seat } = self;
        let mut spine = Spine {
            table,
            seat,
            count: 0,
            faults: 0,
            full: 0,
            of: PhantomData,
        };
        spine.extend(of);
        spine
    }
}

/// All that there is of the history, with two numbers that never fall. To contracts it is that list and the numbers.
#[derive(Drop)]
pub struct Spine<J: Naming> {
    table: Table<u8, View, (), OneSpine, Global>,
    seat: Seat<u8, View>,
    count: u64,
    faults: u64,
    full: u64,
    of: PhantomData<J>,
}

impl<J: Naming> Model for Spine<J> {
    ghost use Rattle.std.specs.Prelude.{◌≡◌};
    ghost use Rattle.history_pass.specs.declared.view.Mark.{Mark};
    ghost use Rattle.history_pass.specs.Seats.{IsSpine, IsCounted};

    ghost Value = { Mark };

    ghost view = { λ s. s.seat.me.0.has };

    ghost invariant = { λ s. IsSpine J.spine s.table.shared.table_id s.seat.table_id s.seat.me s.seat.me.0.has × IsCounted s.seat.me.0.has s.count × (s.faults ≡ s.seat.me.0.has.faults) × (s.full ≡ s.seat.me.0.has.full) };
}

impl<J: Naming> Spine<J> {
    /// How many pushes there are, which are fewer than 2^63.
    pub fn seen(&self) -> u64
        ensures count { result ≡ length self.now.list }
        ensures small { result < 2 ^ 63 }
    {
        self.count
    }

    /// The count of faults that was told last, and 0 before any was.
    pub fn faults(&self) -> u64
        ensures { result ≡ self.now.faults }
    {
        self.faults
    }

    /// The other number that was told last, and 0 before any was.
    pub fn full(&self) -> u64
        ensures { result ≡ self.now.full }
    {
        self.full
    }

    /// The pushes that a value stands for come to the end of the list, by one step.
    pub fn extend<S: Standing>(&mut self, by: &S)
        requires room { length self.old.list + length (S.list by.now) < 2 ^ 63 }
        ensures { self.new ≡ grown self.old (S.list by.now) }
    {
        self.extend_by::<S, Brand>(by);
    }

    fn extend_by<S: Standing, X: Adding>(&mut self, by: &S)
        requires room { length self.old.list + length (S.list by.now) < 2 ^ 63 }
        requires adds { S.list by.now ≡ X.list }
        ensures { self.new ≡ grown self.old (S.list by.now) }
    {
        let count = self.count_with(by);
        let table = &self.table;
        table.shared.store::<Extends<X>>(&mut self.seat, 0, count);
        self.count = count;
    }

    // How many pushes there are then.
    fn count_with<S: Standing>(&self, by: &S) -> u64
        requires { length self.now.list + length (S.list by.now) < 2 ^ 63 }
        ensures { result ≡ length (self.now.list ++ S.list by.now) }
    {
        self.count + by.count()
    }

    /// These are the numbers from then on, by one step each.
    pub fn tell(&mut self, faults: u64, full: u64)
        requires faults { self.old.faults ≤ faults }
        requires full { self.old.full ≤ full }
        ensures { self.new ≡ mark self.old.list faults full }
    {
        self.tell_faults(faults);
        self.tell_full(full);
    }

    fn tell_faults(&mut self, faults: u64)
        requires { self.old.faults ≤ faults }
        ensures { self.new ≡ mark self.old.list faults self.old.full }
    {
        let table = &self.table;
        table.shared.store::<TellsFaults>(&mut self.seat, 1, faults);
        self.faults = faults;
    }

    fn tell_full(&mut self, full: u64)
        requires { self.old.full ≤ full }
        ensures { self.new ≡ mark self.old.list self.old.faults full }
    {
        let table = &self.table;
        table.shared.store::<TellsFull>(&mut self.seat, 2, full);
        self.full = full;
    }

    /// A pass that has all of it.
    pub fn new_pass(&mut self) -> Pass<J>
        ensures pass { result ≡ self.old }
        ensures unchanged { self.new ≡ self.old }
    {
        let table = &self.table;
        let seat = table.shared.split_seat::<NewPass>(&mut self.seat);
        Pass {
            seat,
            count: self.count,
            of: PhantomData,
        }
    }

    /// What the pass had was a prefix of the list, with no number above the spine's; it has all of it from then on.
    pub fn meet(&mut self, pass: &mut Pass<J>)
        ensures meets { Meets self.old pass.old pass.new }
        ensures unchanged { self.new ≡ self.old }
    {
        let new = self.new_pass();
        self.take_in(mem::replace(pass, new));
    }

    // It stays what it was; the load tells that the old pass was below it.
    fn take_in(&mut self, old: Pass<J>)
        ensures below { Below old self.old }
        ensures unchanged { self.new ≡ self.old }
    {
        let Pass {
            seat,
            count: _,
            of: _,
        } = old;
        let table = &self.table;
        table.shared.join_seat::<TakesIn>(&mut self.seat, seat);
        table.shared.load::<Learns>(&mut self.seat, 0);
    }
}
