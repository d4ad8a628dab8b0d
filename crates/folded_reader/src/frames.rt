// The frames of a stack's text.
ghost use Rattle.std.specs.Prelude.{◌≡◌, length, MatchResult};
ghost use Rattle.profile_model.specs.Stacks.{IsStack};
ghost use Rattle.folded_reader.specs.Lines.{frames_of, AreNoStack};

use crate::FoldedFault;
use profile_model::{MAX_FRAME_BYTES, MAX_FRAMES};

// How many frames the text has, where they are a stack.
pub(crate) fn depth_of(text: &str, number: u64) -> Result<usize, FoldedFault>
    ensures { MatchResult result
        (λ depth. (depth ≡ length (frames_of text.now)) × IsStack (frames_of text.now))
        (AreNoStack number (frames_of text.now)) }
{
    let mut depth = 0;
    let mut has_long = false;
    for frame in text.split(';') {
        if frame.is_empty() {
            return Err(FoldedFault::EmptyFrame(number));
        }
        if frame.len() > MAX_FRAME_BYTES {
            has_long = true;
        }
        depth += 1;
    }
    if depth > MAX_FRAMES {
        return Err(FoldedFault::TooDeep(number));
    }
    if has_long {
        return Err(FoldedFault::LongFrame(number));
    }
    Ok(depth)
}
