// Where each tenant stands in a history.
ghost use Rattle.std.specs.Prelude.{◌≡◌, ◌↔◌, ◌+◌, ◌^◌, ◌<◌, [], ◌∷◌, ◌++◌, List, ℕ, IfErr, IsTrue, OnOk, length};
ghost use Rattle.faults.specs.Answers.{IfFault};
ghost use Rattle.profile_model.specs.declared.push.Push.{Push};
ghost use Rattle.profile_model.specs.Limits.{total_bound};
ghost use Rattle.profile_model.specs.Pushes.{profiles_total};
ghost use Rattle.push_history.specs.History.{HasBoundedTotals, tenant_total};
ghost use Rattle.tenant_books.specs.Books.{AreBooksOf, IsKnown, Knows, standing_in};

use faults::Refused;
use profile_model::{MAX_TOTAL, Push, Tenant};
use push_history::Standing;
use std::alloc::{AllocError, Global};
use std::collections::BTreeMap;
use std::error::Error;
use std::fmt;
use std::marker::Model;

/// Where each tenant stands in a history: what can be told of it without the history.
#[derive(Debug, Drop)]
pub struct Books {
    alloc: Global,
    rows: BTreeMap<Vec<u8>, Standing>,
}

impl Model for Books {
    ghost use Rattle.tenant_books.specs.Books.{BooksView};
    ghost use Rattle.tenant_books.specs.Rows.{rows_of};

    ghost Value = { BooksView };

    ghost view = { λ b. record { rows = rows_of b.rows.entries } };
}

/// All values of some tenant come to more than 2^63 - 1.
#[derive(Clone, Copy, Debug, PartialEq, Eq)]
pub struct TotalPassed;

impl fmt::Display for TotalPassed {
    fn fmt<W: fmt::Write>(&self, f: &mut fmt::Formatter<W>) -> fmt::Result {
        write!(f, "all values of a tenant come to more than {MAX_TOTAL}")
    }
}

impl Error for TotalPassed {}

impl Books {
    /// Those of a history without pushes. It takes no memory.
    pub fn new(alloc: Global) -> Books
        ensures rows { result.rows ≡ [] }
        ensures books { AreBooksOf result [] }
    {
        Books {
            alloc,
            rows: BTreeMap::new(alloc),
        }
    }

    /// Where the tenant stands. It takes no memory.
    pub fn standing(&self, tenant: &Tenant) -> Standing
        ensures { result ≡ standing_in self.now tenant.now }
    {
        self.rows
            .get(tenant.as_bytes())
            .copied()
            .unwrap_or(Standing { front: 0, total: 0 })
    }

    /// Writes down the tenants that aren't there yet, so that `take` takes no memory. No tenant stands elsewhere then.
    pub fn room(&mut self, pushes: &[Push]) -> Result<(), AllocError>
        ensures stands { (tenant : List ℕ) → standing_in self.new tenant ≡ standing_in self.old tenant }
        ensures knows { OnOk result (Knows self.new pushes.now) }
        ensures still { (tenant : List ℕ) → IsKnown self.old tenant → IsKnown self.new tenant }
    {
        for push in pushes {
            self.write_down(&push.tenant)?;
        }
        Ok(())
    }

    fn write_down(&mut self, tenant: &Tenant) -> Result<(), AllocError>
        ensures stands { (other : List ℕ) → standing_in self.new other ≡ standing_in self.old other }
        ensures knows { OnOk result (IsKnown self.new tenant.now) }
        ensures still { (other : List ℕ) → IsKnown self.old other → IsKnown self.new other }
    {
        if self.rows.contains_key(tenant.as_bytes()) {
            return Ok(());
        }
        let key = Vec::from_slice(self.alloc, tenant.as_bytes())?;
        self.rows.insert(key, Standing { front: 0, total: 0 })?;
        Ok(())
    }

    /// Counts pushes that come to the history's end. It takes no memory.
    pub fn take(&mut self, pushes: &[Push])
        requires { Knows self.old pushes.now }
        ensures books { (history : List Push) → AreBooksOf self.old history → HasBoundedTotals (history ++ pushes.now)
            → length (history ++ pushes.now) < 2 ^ 63 → AreBooksOf self.new (history ++ pushes.now) }
        ensures still { (tenant : List ℕ) → IsKnown self.old tenant → IsKnown self.new tenant }
    {
        for push in pushes {
            self.add(push);
        }
    }

    fn add(&mut self, push: &Push)
        requires { IsKnown self.old push.now.tenant }
        ensures books { (history : List Push) → AreBooksOf self.old history → HasBoundedTotals (history ++ push.now ∷ [])
            → length (history ++ push.now ∷ []) < 2 ^ 63 → AreBooksOf self.new (history ++ push.now ∷ []) }
        ensures still { (tenant : List ℕ) → IsKnown self.old tenant → IsKnown self.new tenant }
    {
        let total = push.total();
        let Some(standing) = self.rows.get_mut(push.tenant.as_bytes()) else {
            unreachable!()
        };
        standing.front = standing.front.saturating_add(1);
        standing.total = standing.total.saturating_add(total);
    }

    /// Counts pushes of a history that is read, where no tenant's values come to more than 2^63 - 1.
    /// After an error the books are those of no history.
    pub fn count(&mut self, pushes: &[Push]) -> Result<(), Refused<TotalPassed>>
        ensures books { OnOk result ((history : List Push) → AreBooksOf self.old history → HasBoundedTotals history
            → length (history ++ pushes.now) < 2 ^ 63 → AreBooksOf self.new (history ++ pushes.now)) }
        ensures bounded { OnOk result ((history : List Push) → AreBooksOf self.old history → HasBoundedTotals history
            → length (history ++ pushes.now) < 2 ^ 63 → HasBoundedTotals (history ++ pushes.now)) }
        ensures passed { IfErr result (IfFault (λ _. (history : List Push) → AreBooksOf self.old history → HasBoundedTotals history
            → length (history ++ pushes.now) < 2 ^ 63 → ¬ (HasBoundedTotals (history ++ pushes.now)))) }
    {
        self.room(pushes)?;
        for push in pushes {
            if !self.has_room_for(push) {
                return Err(Refused::Fault(TotalPassed));
            }
            self.add(push);
        }
        Ok(())
    }

    fn has_room_for(&self, push: &Push) -> bool
        ensures { IsTrue result ↔ ((standing_in self.now push.now.tenant).total + profiles_total push.now.profiles < total_bound) }
    {
        let standing = self.standing(&push.tenant);
        standing.total.saturating_add(push.total()) <= u128::from(MAX_TOTAL)
    }
}
