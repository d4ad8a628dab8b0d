// The stack of a sample.
ghost use Rattle.std.specs.Prelude.{◌≡◌, ◌++◌, reverse, IfOk, OnOk};
ghost use Rattle.profile_model.specs.Stacks.{IsStack};
ghost use Rattle.pprof_message.specs.Gathered.{sample_in};
ghost use Rattle.pprof_codec.specs.Frames.{frames_at, stack_of};

use crate::judged::Judged;
use pprof_message::SampleRef;
use profile_model::{Name, Stack};
use std::alloc::{AllocError, Global};
use std::sync::ArcSlice;

// The frames of the sample's locations, root first.
pub(crate) fn build_stack(
    alloc: Global,
    judged: &Judged,
    sample: &SampleRef,
) -> Result<Stack, AllocError>
    requires { IsStack (stack_of judged.now.message (sample_in sample.now)) }
    ensures { IfOk result (λ stack. stack ≡ stack_of judged.now.message (sample_in sample.now)) }
{
    // Most locations have one frame.
    let mut frames = Vec::with_capacity(alloc, sample.location_ids.len())?;
    if sample.location_ids.is_empty() {
        frames.push(judged.unknown.clone()?)?;
    }
    for id in sample.location_ids {
        push_frames(judged, &mut frames, *id)?;
    }
    match Stack::from_frames(ArcSlice::from_vec(turned_round(frames))?) {
        Ok(stack) => Ok(stack),
        Err(_) => unreachable!(),
    }
}

// A pprof tells the leaf first, and a stack the root.
fn turned_round(mut frames: Vec<Name>) -> Vec<Name>
    ensures { result.items ≡ reverse frames.items }
{
    frames.reverse();
    frames
}

// The frames of the location with this id, the innermost first.
fn push_frames(judged: &Judged, frames: &mut Vec<Name>, id: u64) -> Result<(), AllocError>
    ensures { OnOk result (frames.new.items ≡ frames.old.items ++ frames_at judged.now.message id) }
{
    if let Some(found) = judged.locations.frames(id) {
        for frame in found.as_slice() {
            frames.push(frame.clone()?)?;
        }
    }
    Ok(())
}
