// The samples of a profile, as a file has them.
ghost use Rattle.std.specs.Prelude.{◌≡◌, ◌<◌, ◌≤◌, ◌+◌, ◌&&◌, ℕ, List, nat_lt, [], ◌∷◌, ◌++◌, length, true, IfOk, MatchResult};
ghost use Rattle.std.specs.List.{All};
ghost use Rattle.std.specs.Ordering.{is_lt};
ghost use Rattle.faults.specs.Answers.{IfFault};
ghost use Rattle.profile_model.specs.Limits.{most_frames, total_bound};
ghost use Rattle.profile_model.specs.Stacks.{IsFrame, IsStack, stack_cmp};
ghost use Rattle.profile_model.specs.Sums.{total_of};
ghost use Rattle.segment_file.specs.Files.{is_frame, sample_fields, stack_fields, value_field};
ghost use Rattle.segment_file.specs.ReadFields.{AreRead, IsFieldRead, IsNextRead, IsRead, alone, any_count, count_field, few_frames, inner_frame_fields, is_above_stacks, is_last_frame, judged, list_fields};
ghost use Rattle.segment_file.specs.Reading.{Begins, Stopped, Took};

use crate::ObjectFault;
use crate::reader::Reader;
use crate::texts::content;
use faults::Refused;
use profile_model::{MAX_FRAME_BYTES, MAX_FRAMES, MAX_TOTAL, Name, Stack, StackSums};
use std::alloc::{AllocError, Global};
use std::sync::ArcSlice;

impl<'b> Reader<'b> {
    pub(crate) fn samples(&mut self, alloc: Global) -> Result<StackSums, Refused<ObjectFault>>
        ensures { IsRead (list_fields any_count sample_fields) (λ sums. sums) self.old.cursor self.new.cursor result }
    {
        let count = self.cursor.four()?;
        self.counted_samples(alloc, count)
    }

    fn counted_samples(
        &mut self,
        alloc: Global,
        count: u32,
    ) -> Result<StackSums, Refused<ObjectFault>>
        ensures { AreRead count sample_fields (λ sums. sums) self.old.cursor self.new.cursor result }
    {
        let mut sums = StackSums::new(alloc);
        for _ in 0..count {
            self.sample(alloc, &mut sums)?;
        }
        Ok(sums)
    }

    // Reads the sample behind these.
    fn sample(&mut self, alloc: Global, sums: &mut StackSums) -> Result<(), Refused<ObjectFault>>
        ensures { IsNextRead sample_fields sums.old sums.new self.old.cursor self.new.cursor result }
    {
        let stack = self.stack(alloc, sums)?;
        let value = self.value(sums)?;
        // The sum was judged with the value, so only memory can be wanting.
        match sums.add(stack, value) {
            Ok(()) => Ok(()),
            Err(_) => Err(Refused::Memory),
        }
    }

    fn value(&mut self, sums: &StackSums) -> Result<u64, Refused<ObjectFault>>
        ensures { IsFieldRead (value_field sums.now) self.old.cursor self.new.cursor result }
    {
        let at = self.cursor.at();
        let value = self.cursor.eight()?;
        if !is_next_value(sums, value) {
            return Err(content(at));
        }
        Ok(value)
    }

    // Reads a stack above these.
    fn stack(&mut self, alloc: Global, sums: &StackSums) -> Result<Stack, Refused<ObjectFault>>
        ensures read { IsRead (stack_fields sums.now) (λ stack. stack) self.old.cursor self.new.cursor result }
        ensures above { IfOk result (λ stack. is_above_stacks sums.now stack ≡ true) }
    {
        let count = self.frames_count()?;
        let frames = self.inner_frames(alloc, count - 1)?;
        self.last_frame(alloc, sums, frames)
    }

    fn frames_count(&mut self) -> Result<u32, Refused<ObjectFault>>
        ensures read { IsFieldRead (count_field few_frames) self.old.cursor self.new.cursor result }
        ensures few { IfOk result (λ count. (0 < count) × (count ≤ most_frames)) }
    {
        let at = self.cursor.at();
        let count = self.cursor.four()?;
        if !are_few_frames(count) {
            return Err(content(at));
        }
        Ok(count)
    }

    // All frames of a stack but the last.
    fn inner_frames(&mut self, alloc: Global, count: u32) -> Result<Vec<Name>, Refused<ObjectFault>>
        ensures { AreRead count inner_frame_fields (λ frames. frames.items) self.old.cursor self.new.cursor result }
    {
        let mut frames = Vec::new(alloc);
        for _ in 0..count {
            let frame = self.frame(alloc)?;
            frames.push(frame)?;
        }
        Ok(frames)
    }

    fn frame(&mut self, alloc: Global) -> Result<Name, Refused<ObjectFault>>
        ensures { IsFieldRead (judged is_frame) self.old.cursor self.new.cursor result }
    {
        let at = self.cursor.at();
        let frame = self.cursor.text()?;
        self.texts.kept(alloc, frame, at, is_frame(frame))
    }

    // The stack of these frames and one more, which shows whether it is above the stacks before it.
    fn last_frame(
        &mut self,
        alloc: Global,
        sums: &StackSums,
        mut frames: Vec<Name>,
    ) -> Result<Stack, Refused<ObjectFault>>
        requires few { length frames.items < most_frames }
        requires each { All IsFrame frames.items }
        ensures read { MatchResult result
            (λ stack. (frame : List ℕ) × (stack ≡ frames.items ++ frame ∷ []) × Took (alone (judged (is_last_frame sums.now frames.items)) frame) self.old.cursor self.new.cursor)
            (IfFault (Stopped (Begins (alone (judged (is_last_frame sums.now frames.items)))) self.old.cursor)) }
        ensures above { IfOk result (λ stack. is_above_stacks sums.now stack ≡ true) }
    {
        let at = self.cursor.at();
        let text = self.cursor.text()?;
        let frame = self.texts.kept(alloc, text, at, is_frame(text))?;
        frames.push(frame)?;
        let stack = stack_of(frames)?;
        if !is_above(sums, &stack) {
            return Err(content(at));
        }
        Ok(stack)
    }
}

fn stack_of(frames: Vec<Name>) -> Result<Stack, AllocError>
    requires { IsStack frames.items }
    ensures { IfOk result (λ stack. stack ≡ frames.items) }
{
    match Stack::from_frames(ArcSlice::from_vec(frames)?) {
        Ok(stack) => Ok(stack),
        Err(_) => unreachable!(),
    }
}

// Stacks ascend, so the last tells.
fn is_above(sums: &StackSums, stack: &Stack) -> bool
    ensures { result ≡ is_above_stacks sums.now stack.now }
{
    let mut entries = sums.iter();
    match entries.next_back() {
        Some((last, _)) => is_below(last, stack),
        None => true,
    }
}

fn is_below(lower: &Stack, stack: &Stack) -> bool
    ensures { result ≡ is_lt (stack_cmp lower.now stack.now) }
{
    lower.cmp(stack).is_lt()
}

fn are_few_frames(count: u32) -> bool
    ensures { result ≡ few_frames count }
{
    0 < count && count as usize <= MAX_FRAMES
}

fn is_frame(frame: &[u8]) -> bool
    ensures { result ≡ is_frame frame.now }
{
    0 < frame.len() && frame.len() <= MAX_FRAME_BYTES
}

// Whether the value is at least 1, and below the bound with all these.
fn is_next_value(sums: &StackSums, value: u64) -> bool
    ensures { result ≡ (nat_lt 0 value && nat_lt (total_of sums.now + value) total_bound) }
{
    0 < value && value <= MAX_TOTAL - sums.total()
}
