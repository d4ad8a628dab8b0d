// Values added up for each stack.
ghost use Rattle.std.specs.Prelude.{◌≡◌, ◌↔◌, ◌+◌, ◌<◌, ◌≤◌, [], length, IfOk, IsTrue, OnOk, OnErr, IsErrOf};
ghost use Rattle.profile_model.specs.Limits.{total_bound};
ghost use Rattle.profile_model.specs.Sums.{AreSums, total_of, value_of, with_added};
ghost use Rattle.faults.specs.declared.refused.Refused.TheVariants.{Fault};

use crate::Stack;
use faults::Refused;
use std::alloc::{AllocError, Global};
use std::collections::{BTreeMap, btree_map};
use std::error::Error;
use std::fmt;
use std::marker::Model;

/// The most that all values together may come to: 2^63 - 1.
pub const MAX_TOTAL: u64 = 9_223_372_036_854_775_807;

/// Distinct stacks in ascending order, each with a value of at least 1.
#[derive(Debug, Drop)]
pub struct StackSums {
    values: BTreeMap<Stack, u64>,
    total: u64,
}

impl Model for StackSums {
    ghost use Rattle.std.specs.Prelude.{List, ℕ};
    ghost use Rattle.profile_model.specs.StoredSums.{AreStored};

    ghost Value = { List (List (List ℕ) × ℕ) };

    ghost view = { λ s. s.values.entries };

    ghost invariant = { λ s. AreStored s.values.entries s.total };
}

/// Why a value wasn't added.
#[derive(Clone, Copy, Debug, PartialEq, Eq)]
pub enum AddFault {
    /// All values together would pass `MAX_TOTAL`.
    Sum,
}

impl fmt::Display for AddFault {
    fn fmt<W: fmt::Write>(&self, f: &mut fmt::Formatter<W>) -> fmt::Result {
        match self {
            AddFault::Sum => write!(f, "the values come to more than {MAX_TOTAL}"),
        }
    }
}

impl Error for AddFault {}

impl StackSums {
    /// No stacks. It takes no memory.
    pub fn new(alloc: Global) -> StackSums
        ensures { result ≡ [] }
    {
        StackSums {
            values: BTreeMap::new(alloc),
            total: 0,
        }
    }

    /// The sums that these samples are: their stacks ascend, each has a value of at least 1,
    /// and all values together are within `MAX_TOTAL`.
    pub fn from_samples(alloc: Global, samples: Vec<(Stack, u64)>) -> Result<StackSums, AllocError>
        requires sums { AreSums samples.items }
        ensures value { IfOk result (λ sums. sums ≡ samples.items) }
    {
        let total = total_of(&samples);
        let values = samples.into_iter().collect(alloc)?;
        Ok(StackSums { values, total })
    }

    /// Adds to the stack's value. A value of 0 changes nothing.
    pub fn add(&mut self, stack: Stack, value: u64) -> Result<(), Refused<AddFault>>
        ensures ok { OnOk result (self.new ≡ with_added self.old stack value) }
        ensures sum { IsErrOf result (Fault AddFault.Sum) → total_bound ≤ total_of self.old + value }
        ensures over { total_bound ≤ total_of self.old + value → IsErrOf result (Fault AddFault.Sum) }
        ensures fits { OnOk result (total_of self.old + value < total_bound) }
        ensures total { OnOk result (total_of self.new ≡ total_of self.old + value) }
        ensures err { OnErr result (self.new ≡ self.old) }
    {
        if value > MAX_TOTAL - self.total {
            return Err(Refused::Fault(AddFault::Sum));
        }
        if value == 0 {
            return Ok(());
        }
        let entry = self.values.entry(stack)?;
        let held = entry.or_insert(0);
        *held += value;
        self.total += value;
        Ok(())
    }

    /// The value of a stack, 0 where it isn't there.
    pub fn value(&self, stack: &Stack) -> u64
        ensures { result ≡ value_of self.now stack.now }
    {
        self.values.get(stack).copied().unwrap_or(0)
    }

    /// All values together.
    pub fn total(&self) -> u64
        ensures total { result ≡ total_of self.now }
        ensures bound { result < total_bound }
    {
        self.total
    }

    /// The count of stacks.
    pub fn len(&self) -> usize
        ensures { result ≡ length self.now }
    {
        self.values.len()
    }

    pub fn is_empty(&self) -> bool
        ensures { IsTrue result ↔ (self.now ≡ []) }
    {
        self.values.is_empty()
    }

    /// The stacks and their values, ascending.
    pub fn iter(&self) -> btree_map::Iter<'_, Stack, u64>
        ensures stacks { result ≡ self.now }
        ensures sums { AreSums self.now }
    {
        self.values.iter()
    }
}

// All values together.
fn total_of(samples: &[(Stack, u64)]) -> u64
    requires { total_of samples.now < total_bound }
    ensures { result ≡ total_of samples.now }
{
    samples.iter().map(|sample| sample.1).sum()
}

impl Clone for StackSums {
    ghost is_clone = { λ sums copy. copy ≡ sums };

    fn clone(&self) -> Result<StackSums, AllocError> {
        let values = self.values.clone()?;
        Ok(StackSums {
            values,
            total: self.total,
        })
    }
}
