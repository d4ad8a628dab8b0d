// A line: the text of a stack, and how often it counts.
ghost use Rattle.std.specs.Prelude.{◌≡◌, ℕ, MatchResult, MatchOption};
ghost use Rattle.folded_reader.specs.Lines.{IsCount, Says, SaysNothing};

use crate::FoldedFault;
use profile_model::MAX_TOTAL;

// How the lines of a body are written.
#[derive(Clone, Copy, Debug, PartialEq, Eq)]
pub(crate) enum LineForm {
    // A stack, a space and a count.
    Counted,
    // A stack, which counts once.
    Bare,
}

// The text of the line's stack, and its count.
pub(crate) fn cut(form: LineForm, line: &str, number: u64) -> Result<(&str, u64), FoldedFault>
    ensures { MatchResult result (λ said. Says form line.now said.0.now said.1) (SaysNothing form number line.now) }
{
    match form {
        LineForm::Counted => cut_at_last_space(line, number),
        LineForm::Bare => Ok((line, 1)),
    }
}

fn cut_at_last_space(line: &str, number: u64) -> Result<(&str, u64), FoldedFault>
    ensures { MatchResult result
        (λ said. Says LineForm.Counted line.now said.0.now said.1) (SaysNothing LineForm.Counted number line.now) }
{
    match line.rsplit_once(' ') {
        Some((stack, digits)) => match count_of(digits) {
            Some(count) => Ok((stack, count)),
            None => Err(FoldedFault::BadCount(number)),
        },
        None => Err(FoldedFault::NoCount(number)),
    }
}

// The number that these digits write. Unlike `parse`, it takes no sign.
fn count_of(digits: &str) -> Option<u64>
    ensures { MatchOption result ((count : ℕ) → ¬ (IsCount digits.now count)) (IsCount digits.now) }
{
    if digits.starts_with('+') {
        return None;
    }
    match digits.parse::<u64>() {
        Ok(count) if count <= MAX_TOTAL => Some(count),
        _ => None,
    }
}
