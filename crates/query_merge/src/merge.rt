// What a query comes to, stack by stack.
ghost use Rattle.std.specs.Prelude.{◌≡◌, ◌+◌, ◌<◌, ◌≤◌, ◌++◌, List, [], IfOk, OnErr, OnOk};
ghost use Rattle.profile_model.specs.Limits.{total_bound};
ghost use Rattle.profile_model.specs.Pushes.{profiles_total};
ghost use Rattle.profile_model.specs.Sums.{AreSums, total_of};
ghost use Rattle.profile_model.specs.declared.profile.Profile.{Profile};
ghost use Rattle.query_merge.specs.Asked.{stacks_of};
ghost use Rattle.query_merge.specs.Merging.{IsMergeOf};
ghost use Rattle.query_merge.specs.Rows.{profiles_of};

use crate::asked::Asked;
use crate::runs::{Runs, samples_of};
use profile_model::{Stack, StackSums};
use segment_file::{Part, Row};
use selector::Query;
use std::alloc::{AllocError, Global};
use std::marker::Model;

/// A query, and the sums of the values of each stack in the rows that were added and that it asks for.
#[derive(Drop)]
pub struct Merge {
    alloc: Global,
    asked: Asked,
    runs: Runs,
}

impl Model for Merge {
    ghost use Rattle.query_merge.specs.Merging.{MergeView};

    ghost Value = { MergeView };

    ghost view = { λ m. record { query = m.asked; sums = m.runs } };
}

impl Merge {
    /// No row was added. It takes no memory.
    pub fn new(alloc: Global, query: Query) -> Merge
        ensures query { result.query ≡ query }
        ensures none { IsMergeOf result [] }
    {
        Merge {
            alloc,
            asked: Asked::new(alloc, query),
            runs: Runs::new(alloc),
        }
    }

    /// Adds the part's rows. Want of memory leaves the sums as they were.
    pub fn add(&mut self, part: &Part) -> Result<(), AllocError>
        requires room { total_of self.old.sums + profiles_total (profiles_of part.now.rows) < total_bound }
        ensures more { (profiles : List Profile) → IsMergeOf self.old profiles → OnOk result (IsMergeOf self.new (profiles ++ profiles_of part.now.rows)) }
        ensures total { OnOk result (total_of self.new.sums ≤ total_of self.old.sums + profiles_total (profiles_of part.now.rows)) }
        ensures query { self.new.query ≡ self.old.query }
        ensures err { OnErr result (self.new ≡ self.old) }
    {
        let samples = samples_of_part(self.alloc, &mut self.asked, &part.rows)?;
        self.runs.put(samples)?;
        Ok(())
    }

    /// Adds the rows that were added to another merge of the same query. Want of memory leaves the sums as they were.
    pub fn join(&mut self, other: Merge) -> Result<(), AllocError>
        requires query { self.old.query ≡ other.query }
        requires room { total_of self.old.sums + total_of other.sums < total_bound }
        ensures more { (profiles : List Profile) → (others : List Profile) → IsMergeOf self.old profiles → IsMergeOf other others → OnOk result (IsMergeOf self.new (profiles ++ others)) }
        ensures total { OnOk result (total_of self.new.sums ≡ total_of self.old.sums + total_of other.sums) }
        ensures query { self.new.query ≡ self.old.query }
        ensures err { OnErr result (self.new ≡ self.old) }
    {
        self.runs.put(other.runs.samples()?)?;
        Ok(())
    }

    /// The sums.
    pub fn stacks(self) -> Result<StackSums, AllocError>
        ensures sums { (profiles : List Profile) → IsMergeOf self profiles → IfOk result (λ sums. sums ≡ stacks_of self.query profiles) }
    {
        StackSums::from_samples(self.alloc, self.runs.samples()?)
    }
}

// What the rows that are asked for come to.
fn samples_of_part(
    alloc: Global,
    asked: &mut Asked,
    rows: &[Row],
) -> Result<Vec<(Stack, u64)>, AllocError>
    requires { profiles_total (profiles_of rows.now) < total_bound }
    ensures samples { IfOk result (λ samples. AreSums samples.items) }
    ensures sums { IfOk result (λ samples. samples.items ≡ stacks_of asked.old (profiles_of rows.now)) }
    ensures total { IfOk result (λ samples. total_of samples.items ≤ profiles_total (profiles_of rows.now)) }
    ensures unchanged { asked.new ≡ asked.old }
{
    let mut runs = Runs::new(alloc);
    for row in rows {
        if asked.asks(&row.profile)? {
            runs.put(samples_of(alloc, &row.profile.values)?)?;
        }
    }
    runs.samples()
}
