// What stands between a selector's braces.
ghost use Rattle.std.specs.Prelude.{map, MatchResult};
ghost use Rattle.faults.specs.Answers.{IfFault};
ghost use Rattle.selector.specs.Grammar.{IsInside, IsSpace};
ghost use Rattle.selector.specs.Rests.{AtInside, AtMore, Separates, IsReadFault, matching_of};

use crate::matcher::read_matcher;
use crate::tokens::{skip_space, strip};
use crate::written::{ReadFault, Written};
use faults::Refused;
use std::alloc::Global;

// The matchers of a text that follows an opening brace, up to its end.
pub(crate) fn read_inside(alloc: Global, text: &str) -> Result<Vec<Written<'_>>, Refused<ReadFault>>
    ensures { MatchResult result
        (λ matchers. IsInside text.now (map matching_of matchers.items))
        (IfFault (IsReadFault AtInside text.now)) }
{
    let mut matchers = Vec::new(alloc);
    let mut rest = skip_space(text);
    loop {
        if let Some(end) = strip(rest, '}') {
            read_end(end)?;
            return Ok(matchers);
        }
        let (matcher, after) = read_matcher(alloc, rest)?;
        matchers.push(matcher)?;
        rest = read_separator(after)?;
    }
}

// What follows a matcher: a comma, or else the closing brace, which stays. White space around it goes.
fn read_separator(text: &str) -> Result<&str, ReadFault>
    ensures { MatchResult result (λ rest. Separates text.now rest.now) (IsReadFault AtMore text.now) }
{
    let next = skip_space(text);
    if let Some(rest) = strip(next, ',') {
        return Ok(skip_space(rest));
    }
    match strip(next, '}') {
        Some(_) => Ok(next),
        None => Err(ReadFault::BreaksOff(next.len())),
    }
}

// Nothing but white space follows the closing brace.
fn read_end(text: &str) -> Result<(), ReadFault>
    ensures { MatchResult result (λ _. IsSpace text.now) (IsReadFault IsSpace text.now) }
{
    let rest = skip_space(text);
    if rest.is_empty() {
        Ok(())
    } else {
        Err(ReadFault::BreaksOff(rest.len()))
    }
}
