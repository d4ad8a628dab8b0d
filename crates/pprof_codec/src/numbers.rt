// The stacks of samples by numbers: equal numbers are equal stacks.
ghost use Rattle.std.specs.Prelude.{◌≡◌, [], ◌∷◌, ◌++◌, map, reverse, IfOk, OnOk};
ghost use Rattle.pprof_message.specs.Gathered.{sample_in};
ghost use Rattle.pprof_codec.specs.Frames.{frames_at, stack_of, unknown_frame};
ghost use Rattle.pprof_codec.specs.Tables.{AreAlike, AreFirsts, frame_numbered, stack_at};

use crate::judged::Judged;
use pprof_message::SampleRef;
use profile_model::MAX_WEIGHT;
use std::alloc::{AllocError, Global};
use std::collections::BTreeMap;

// A frame weighs at least 16, so that stacks of more frames than this together are refused for their weight.
const MOST_KEPT: u64 = MAX_WEIGHT / 16;

// For each sample the number of one that has the same stack, mostly the first.
pub(crate) fn stack_numbers(alloc: Global, judged: &Judged) -> Result<Vec<usize>, AllocError>
    ensures { IfOk result (λ numbers. AreAlike judged.now.message numbers.items) }
{
    let count = judged.message.samples();
    let mut firsts = BTreeMap::new(alloc);
    let mut room = MOST_KEPT;
    let mut numbers = Vec::with_capacity(alloc, count)?;
    for at in 0..count {
        let frames = frame_numbers(alloc, judged, &judged.message.sample(at))?;
        numbers.push(first_with(judged, &mut firsts, frames, at, &mut room)?)?;
    }
    Ok(numbers)
}

// The first sample with these frames, which may be this one. Where there is no room for them, it is this one.
fn first_with(
    judged: &Judged,
    firsts: &mut BTreeMap<Vec<usize>, usize>,
    frames: Vec<usize>,
    at: usize,
    room: &mut u64,
) -> Result<usize, AllocError>
    requires firsts { AreFirsts judged.now.message firsts.old.entries }
    requires frames { reverse (map (frame_numbered judged.now.message) frames.items) ≡ stack_at judged.now.message at }
    ensures { IfOk result (λ first. (stack_at judged.now.message first ≡ stack_at judged.now.message at) × AreFirsts judged.now.message firsts.new.entries) }
{
    if let Some(first) = firsts.get(&frames) {
        return Ok(*first);
    }
    let weight = frames.len() as u64;
    if weight > *room {
        return Ok(at);
    }
    *room -= weight;
    firsts.insert(frames, at)?;
    Ok(at)
}

// The numbers of the frames of the sample's locations, the leaf first.
fn frame_numbers(
    alloc: Global,
    judged: &Judged,
    sample: &SampleRef,
) -> Result<Vec<usize>, AllocError>
    ensures { IfOk result (λ numbers. reverse (map (frame_numbered judged.now.message) numbers.items) ≡ stack_of judged.now.message (sample_in sample.now)) }
{
    if sample.location_ids.is_empty() {
        return unknown_alone(alloc, judged);
    }
    let mut numbers = Vec::with_capacity(alloc, sample.location_ids.len())?;
    for id in sample.location_ids {
        push_numbers(judged, &mut numbers, *id)?;
    }
    Ok(numbers)
}

// The number of the unknown frame.
fn unknown_alone(alloc: Global, judged: &Judged) -> Result<Vec<usize>, AllocError>
    ensures { IfOk result (λ numbers. map (frame_numbered judged.now.message) numbers.items ≡ unknown_frame ∷ []) }
{
    let mut numbers = Vec::with_capacity(alloc, 1)?;
    numbers.push(judged.message.texts().len())?;
    Ok(numbers)
}

// The numbers of the frames of the location with this id, the innermost first.
fn push_numbers(judged: &Judged, numbers: &mut Vec<usize>, id: u64) -> Result<(), AllocError>
    ensures { let told = map (frame_numbered judged.now.message) in
        OnOk result (told numbers.new.items ≡ told numbers.old.items ++ frames_at judged.now.message id) }
{
    if let Some(found) = judged.locations.numbers(id) {
        for number in found.as_slice() {
            numbers.push(*number)?;
        }
    }
    Ok(())
}
