// A matcher as a text has it.
ghost use Rattle.std.specs.Prelude.{◌≡◌, ◌++◌, ℕ, List, MatchResult};
ghost use Rattle.faults.specs.Answers.{IfFault};
ghost use Rattle.selector.specs.Grammar.{IsMatcherText};
ghost use Rattle.selector.specs.Rests.{AtName, Spaced, IsReadFault, matching_of};

use crate::tokens::{read_name, read_operator, read_string, skip_space};
use crate::written::{ReadFault, Written};
use faults::Refused;
use std::alloc::Global;

// A name, an operator and a string. White space may stand before each.
pub(crate) fn read_matcher(
    alloc: Global,
    text: &str,
) -> Result<(Written<'_>, &str), Refused<ReadFault>>
    ensures { MatchResult result
        (λ said. (first : List ℕ) × (text.now ≡ first ++ said.1.now) × IsMatcherText first (matching_of said.0))
        (IfFault (IsReadFault (Spaced AtName) text.now)) }
{
    let (name, rest) = read_name(skip_space(text))?;
    let (operator, rest) = read_operator(skip_space(rest))?;
    let (value, rest) = read_string(alloc, skip_space(rest))?;
    Ok((
        Written {
            name,
            operator,
            value,
        },
        rest,
    ))
}
