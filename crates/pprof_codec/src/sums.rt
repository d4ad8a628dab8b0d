// The sums of each sample type's values.
ghost use Rattle.std.specs.Prelude.{◌≡◌, ℕ, ◌+◌, ◌<◌, [], length, get_or, IfOk};
ghost use Rattle.std.specs.List.{All};
ghost use Rattle.profile_model.specs.Limits.{total_bound};
ghost use Rattle.profile_model.specs.Sums.{total_of, with_added};
ghost use Rattle.profile_model.specs.Weights.{stack_weight};
ghost use Rattle.pprof_codec.specs.Profiles.{stacks_weight};
ghost use Rattle.pprof_codec.specs.Tables.{TakesRoom, all_sums, first_stack, run_added, sample_at, sums_over, sums_weight, value_over};

use crate::PprofFault;
use crate::judged::Judged;
use crate::numbers::stack_numbers;
use crate::room::take_room;
use crate::runs::{run_length, sample_order};
use crate::stacks::build_stack;
use crate::totals::value_of;
use faults::Refused;
use pprof_message::PprofMessage;
use profile_model::{AddFault, Stack, StackSums};
use std::alloc::{AllocError, Global};

// One for each sample type, in order. They take the weight of their stacks from the room.
pub(crate) fn build_sums(
    alloc: Global,
    judged: &Judged,
    room: &mut u64,
) -> Result<Vec<StackSums>, Refused<PprofFault>>
    ensures { let sums = all_sums judged.now.message in
        TakesRoom result room.old room.new (sums_weight sums) (λ built. built.items ≡ sums) }
{
    let numbers = stack_numbers(alloc, judged)?;
    let stacks = numbers.as_slice();
    let order = sample_order(alloc, &judged.message, stacks)?;
    let mut sums = no_sums(alloc, &judged.message)?;
    let mut from = 0;
    while from < order.len() {
        let end = from + run_length(stacks, &order[from..]);
        add_run(alloc, judged, &order[from..end], &mut sums, room)?;
        from = end;
    }
    Ok(sums)
}

fn no_sums(alloc: Global, message: &PprofMessage) -> Result<Vec<StackSums>, AllocError>
    ensures { IfOk result (λ sums. sums.items ≡ sums_over message.now []) }
{
    let count = message.sample_types().len();
    let mut sums = Vec::with_capacity(alloc, count)?;
    for _ in 0..count {
        sums.push(StackSums::new(alloc))?;
    }
    Ok(sums)
}

// Adds the values of samples that have one stack to the sums of each sample type.
fn add_run(
    alloc: Global,
    judged: &Judged,
    run: &[usize],
    sums: &mut [StackSums],
    room: &mut u64,
) -> Result<(), Refused<PprofFault>>
    requires some { 0 < length run.now }
    requires known { All (λ at. at < length judged.now.message.samples) run.now }
    requires totals { (number : ℕ) → number < length sums.old →
        total_of (get_or sums.old number []) + value_over judged.now.message number run.now < total_bound }
    ensures { let after = run_added judged.now.message run.now (first_stack judged.now.message run.now) sums.old in
        TakesRoom result (room.old + sums_weight sums.old) room.new (sums_weight after) (λ _. sums.new ≡ after) }
{
    if sums.is_empty() {
        return Ok(());
    }
    let stack = build_stack(alloc, judged, &judged.message.sample(run[0]))?;
    add_to_each(&judged.message, run, stack, sums, room)
}

// The last sample type gets the stack itself, the others copies.
fn add_to_each(
    message: &PprofMessage,
    run: &[usize],
    stack: Stack,
    sums: &mut [StackSums],
    room: &mut u64,
) -> Result<(), Refused<PprofFault>>
    requires some { 0 < length sums.old }
    requires known { All (λ at. at < length message.now.samples) run.now }
    requires totals { (number : ℕ) → number < length sums.old →
        total_of (get_or sums.old number []) + value_over message.now number run.now < total_bound }
    ensures { let after = run_added message.now run.now stack sums.old in
        TakesRoom result (room.old + sums_weight sums.old) room.new (sums_weight after) (λ _. sums.new ≡ after) }
{
    let weight = stack.weight();
    let last = sums.len() - 1;
    for number in 0..last {
        let value = value_of_run(message, run, number);
        add_copy(&mut sums[number], &stack, weight, value, room)?;
    }
    let value = value_of_run(message, run, last);
    add(&mut sums[last], stack, weight, value, room)
}

// These samples' values of the sample type with this number, together.
fn value_of_run(message: &PprofMessage, run: &[usize], number: usize) -> u64
    requires known { All (λ at. at < length message.now.samples) run.now }
    requires bound { value_over message.now number run.now < total_bound }
    ensures { result ≡ value_over message.now number run.now }
{
    let mut value = 0;
    for at in run {
        value += value_of(&message.sample(*at), number);
    }
    value
}

// Adds to the stack's value, and copies the stack only for a value that is counted.
fn add_copy(
    sums: &mut StackSums,
    stack: &Stack,
    weight: u64,
    value: u64,
    room: &mut u64,
) -> Result<(), Refused<PprofFault>>
    requires total { total_of sums.old + value < total_bound }
    requires weight { weight ≡ stack_weight stack.now }
    ensures { let after = with_added sums.old stack.now value in
        TakesRoom result (room.old + stacks_weight sums.old) room.new (stacks_weight after) (λ _. sums.new ≡ after) }
{
    if value == 0 {
        return Ok(());
    }
    add(sums, stack.clone()?, weight, value, room)
}

// Adds to the stack's value. A new stack takes its weight from the room.
fn add(
    sums: &mut StackSums,
    stack: Stack,
    weight: u64,
    value: u64,
    room: &mut u64,
) -> Result<(), Refused<PprofFault>>
    requires total { total_of sums.old + value < total_bound }
    requires weight { weight ≡ stack_weight stack }
    ensures { let after = with_added sums.old stack value in
        TakesRoom result (room.old + stacks_weight sums.old) room.new (stacks_weight after) (λ _. sums.new ≡ after) }
{
    let count = sums.len();
    match sums.add(stack, value) {
        Ok(()) if sums.len() > count => Ok(take_room(room, weight)?),
        Ok(()) => Ok(()),
        Err(Refused::Fault(AddFault::Sum)) => unreachable!(),
        Err(Refused::Memory) => Err(Refused::Memory),
    }
}
