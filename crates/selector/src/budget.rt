// What the patterns of a request may have together.
ghost use Rattle.std.specs.Prelude.{◌≡◌, ◌+◌, ◌<◌, List, IfOk, MatchOption, map};
ghost use Rattle.selector.specs.Grammar.{IsSelectorText};
ghost use Rattle.selector.specs.Matching.{Matching};
ghost use Rattle.selector.specs.Read.{pattern_bytes};
ghost use Rattle.selector.specs.Rests.{matching_of};

use crate::selector::read_selector;
use crate::written::Written;
use faults::Refused;
use std::alloc::{AllocError, Global};

/// The most bytes of all patterns of a request. Parsing takes up to 40 microseconds and some kilobytes for a byte.
pub const MAX_PATTERN_BYTES: usize = 65_536;

/// What is left of so many bytes after the patterns of a selector's text; none where these have more. Nothing is parsed
/// as a pattern. Who reads several selectors for one request counts them all before it reads the first.
pub fn left_by_patterns(
    alloc: Global,
    text: &str,
    bytes: usize,
) -> Result<Option<usize>, AllocError>
    ensures { IfOk result (λ left. (matchers : List Matching) → IsSelectorText text.now matchers →
        MatchOption left (bytes < pattern_bytes matchers) (λ rest. rest + pattern_bytes matchers ≡ bytes)) }
{
    match read_selector(alloc, text) {
        Ok(written) => Ok(left_of(&written, bytes)),
        Err(Refused::Fault(_)) => Ok(Some(bytes)),
        Err(Refused::Memory) => Err(AllocError),
    }
}

// What is left of so many bytes after the patterns; none where these have more.
pub(crate) fn left_of(written: &[Written<'_>], bytes: usize) -> Option<usize>
    ensures { MatchOption result (bytes < pattern_bytes (map matching_of written.now))
        (λ left. left + pattern_bytes (map matching_of written.now) ≡ bytes) }
{
    let mut left = bytes;
    for matcher in written {
        let length = matcher.pattern_len();
        if length > left {
            return None;
        }
        left -= length;
    }
    Some(left)
}
