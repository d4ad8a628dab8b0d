// Samples by their stacks: those that have the same follow one another, so it is made once.
ghost use Rattle.std.specs.Prelude.{◌≡◌, ◌<◌, ◌≤◌, length, get_or, slice_get, take, unwrap_or, IfOk};
ghost use Rattle.std.specs.List.{All};
ghost use Rattle.std.specs.List.Sorted.{IsPermutation};
ghost use Rattle.pprof_message.specs.Pprof.{Pprof};
ghost use Rattle.pprof_codec.specs.Tables.{AreAlike, numbers_of, stack_at};

use pprof_message::PprofMessage;
use std::alloc::{AllocError, Global};

// The numbers of all samples, by the numbers of their stacks.
pub(crate) fn sample_order(
    alloc: Global,
    message: &PprofMessage,
    stacks: &[usize],
) -> Result<Vec<usize>, AllocError>
    ensures { IfOk result (λ order. IsPermutation (numbers_of message.now) order.items) }
{
    let count = message.samples();
    let mut order = Vec::with_capacity(alloc, count)?;
    for at in 0..count {
        order.push(at)?;
    }
    order.sort_unstable_by_key(|at| stack_number(stacks, *at));
    Ok(order)
}

// How many of these samples, from the first on, have the stack of the first.
pub(crate) fn run_length(stacks: &[usize], order: &[usize]) -> usize
    requires { 0 < length order.now }
    ensures some { 0 < result }
    ensures within { result ≤ length order.now }
    ensures same { (pprof : Pprof) → AreAlike pprof stacks.now → All (λ at. at < length pprof.samples) order.now →
        All (λ at. stack_at pprof at ≡ stack_at pprof (get_or order.now 0 0)) (take result order.now) }
{
    let first = stack_number(stacks, order[0]);
    let mut count = 1;
    while count < order.len() && stack_number(stacks, order[count]) == first {
        count += 1;
    }
    count
}

// The number of the sample's stack.
fn stack_number(stacks: &[usize], at: usize) -> usize
    ensures { result ≡ unwrap_or (slice_get stacks.now at) at }
{
    stacks.get(at).copied().unwrap_or(at)
}
