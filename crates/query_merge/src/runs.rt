// Sums that are gathered: few long lists and ever shorter ones behind them, so that each sample is walked over few times.
ghost use Rattle.std.specs.Prelude.{◌≡◌, ◌+◌, ◌<◌, ◌≤◌, ◌∷◌, [], List, IfOk, OnErr, OnOk, take};
ghost use Rattle.profile_model.specs.Limits.{total_bound};
ghost use Rattle.profile_model.specs.Sums.{AreSums, Sample, sums_of, total_of};
ghost use Rattle.query_merge.specs.Merging.{with_samples};
ghost use Rattle.query_merge.specs.Runs.{AreJoined, AreRuns, all_samples};

use crate::join::joined;
use profile_model::{Stack, StackSums};
use std::alloc::{AllocError, Global};
use std::marker::Model;

/// Sums as lists of samples, each ascending.
#[derive(Drop)]
pub(crate) struct Runs {
    alloc: Global,
    runs: Vec<Vec<(Stack, u64)>>,
}

impl Model for Runs {
    ghost use Rattle.std.specs.Prelude.{List};
    ghost use Rattle.profile_model.specs.Sums.{Sample, sums_of};
    ghost use Rattle.query_merge.specs.Runs.{AreRuns, all_samples};

    ghost Value = { List Sample };

    ghost view = { λ r. sums_of (all_samples r.runs.items) };

    ghost invariant = { λ r. AreRuns r.runs.items };
}

impl Runs {
    /// No samples. It takes no memory.
    pub(crate) fn new(alloc: Global) -> Runs
        ensures { result ≡ [] }
    {
        Runs {
            alloc,
            runs: Vec::new(alloc),
        }
    }

    /// Adds ascending samples. Want of memory leaves the sums as they were.
    pub(crate) fn put(&mut self, samples: Vec<(Stack, u64)>) -> Result<(), AllocError>
        requires sums { AreSums samples.items }
        requires room { total_of self.old + total_of samples.items < total_bound }
        ensures ok { OnOk result (self.new ≡ with_samples self.old samples.items) }
        ensures total { OnOk result (total_of self.new ≡ total_of self.old + total_of samples.items) }
        ensures err { OnErr result (self.new ≡ self.old) }
    {
        let (left, run) = joined_with_last(self.alloc, &self.runs, samples)?;
        if left < self.runs.len() {
            self.runs[left] = run;
            self.runs.truncate(left + 1);
        } else {
            self.runs.push(run)?;
        }
        Ok(())
    }

    /// The sums as one ascending list.
    pub(crate) fn samples(&self) -> Result<Vec<(Stack, u64)>, AllocError>
        ensures sums { IfOk result (λ samples. AreSums samples.items) }
        ensures all { IfOk result (λ samples. samples.items ≡ self.now) }
    {
        all_joined(self.alloc, &self.runs)
    }
}

// Joins the samples with those of the last lists that aren't more than twice as long; tells how many lists are left before
// them.
fn joined_with_last(
    alloc: Global,
    runs: &[Vec<(Stack, u64)>],
    samples: Vec<(Stack, u64)>,
) -> Result<(usize, Vec<(Stack, u64)>), AllocError>
    requires runs { AreRuns runs.now }
    requires sums { AreSums samples.items }
    requires room { total_of (all_samples runs.now) + total_of samples.items < total_bound }
    ensures { IfOk result (λ joined. AreJoined runs.now samples.items joined.0 joined.1.items) }
{
    let mut left = runs.len();
    let mut run = samples;
    while left > 0 && is_short(&runs[left - 1], run.len()) {
        run = joined(alloc, &runs[left - 1], &run)?;
        left -= 1;
    }
    Ok((left, run))
}

fn all_joined(alloc: Global, runs: &[Vec<(Stack, u64)>]) -> Result<Vec<(Stack, u64)>, AllocError>
    requires { AreRuns runs.now }
    ensures sums { IfOk result (λ samples. AreSums samples.items) }
    ensures all { IfOk result (λ samples. samples.items ≡ sums_of (all_samples runs.now)) }
{
    let mut left = runs.len();
    let mut samples = Vec::new(alloc);
    while left > 0 {
        samples = joined(alloc, &runs[left - 1], &samples)?;
        left -= 1;
    }
    Ok(samples)
}

// A list that isn't more than twice so long is joined with it.
fn is_short(run: &[(Stack, u64)], length: usize) -> bool {
    run.len() / 2 <= length
}

/// The samples of the sums, ascending.
pub(crate) fn samples_of(alloc: Global, sums: &StackSums) -> Result<Vec<(Stack, u64)>, AllocError>
    ensures { IfOk result (λ samples. (samples.items ≡ sums.now) × AreSums samples.items) }
{
    let mut samples = Vec::new(alloc);
    for (stack, value) in sums.iter() {
        samples.push((stack.clone()?, *value))?;
    }
    Ok(samples)
}
