// Folded text to sums.
ghost use Rattle.std.specs.Prelude.{◌≡◌, ◌+◌, ◌<◌, MatchResult};
ghost use Rattle.profile_model.specs.Limits.{total_bound};
ghost use Rattle.profile_model.specs.Sums.{Sample, total_of, with_added};
ghost use Rattle.faults.specs.Answers.{IfAnswered, IfFault};
ghost use Rattle.folded_reader.specs.Lines.{IsSample, IsFaultOfLine};
ghost use Rattle.folded_reader.specs.Folded.{IsReadFolded, IsReadLines, IsRead, IsText, IsSumOf, IsFirstFault, lines_of};

use crate::FoldedFault;
use crate::frames::depth_of;
use crate::interner::Interner;
use crate::line::{LineForm, cut};
use faults::Refused;
use profile_model::{AddFault, StackSums};
use std::alloc::Global;
use wire_forms::begins_as_gzip;

/// The sums of a body whose lines are a stack, a space and a count: the folded stacks of Brendan Gregg's flame graph tools.
/// A stack's frames stand from the root, joined by `;`. A line without bytes says nothing, equal stacks are summed,
/// and a count of 0 is dropped. The error is the body's own fault, or else that of the first line that has one.
pub fn read_folded(alloc: Global, bytes: &[u8]) -> Result<StackSums, Refused<FoldedFault>>
    ensures read { IfAnswered (IsReadFolded bytes.now) result }
{
    read(alloc, bytes, LineForm::Counted)
}

/// The sums of a body whose lines are stacks, each of which counts once. All else is as in `read_folded`.
pub fn read_lines(alloc: Global, bytes: &[u8]) -> Result<StackSums, Refused<FoldedFault>>
    ensures read { IfAnswered (IsReadLines bytes.now) result }
{
    read(alloc, bytes, LineForm::Bare)
}

fn read(alloc: Global, bytes: &[u8], form: LineForm) -> Result<StackSums, Refused<FoldedFault>>
    ensures { IfAnswered (IsRead form bytes.now) result }
{
    if begins_as_gzip(bytes) {
        return Err(Refused::Fault(FoldedFault::Compressed));
    }
    match str::from_utf8(bytes) {
        Ok(text) => sums_of_text(alloc, text, form),
        Err(fault) => Err(Refused::Fault(FoldedFault::NotUtf8(fault.valid_up_to()))),
    }
}

fn sums_of_text(
    alloc: Global,
    text: &str,
    form: LineForm,
) -> Result<StackSums, Refused<FoldedFault>>
    ensures { MatchResult result
        (IsSumOf form (lines_of text.now)) (IfFault (IsFirstFault form (lines_of text.now))) }
{
    let mut names = Interner::new(alloc);
    let mut sums = StackSums::new(alloc);
    let mut number = 0;
    for line in text.split('\n') {
        number += 1;
        if line.is_empty() {
            continue;
        }
        add_line(alloc, &mut names, &mut sums, form, line, number)?;
    }
    Ok(sums)
}

fn add_line<'a>(
    alloc: Global,
    names: &mut Interner<'a>,
    sums: &mut StackSums,
    form: LineForm,
    line: &'a str,
    number: u64,
) -> Result<(), Refused<FoldedFault>>
    ensures { MatchResult result
        (λ _. (sample : Sample) × IsSample form line.now sample × (total_of sums.old + sample.1 < total_bound)
        × (sums.new ≡ with_added sums.old sample.0 sample.1))
        (IfFault (IsFaultOfLine form number (total_of sums.old) line.now)) }
{
    let (text, count) = cut(form, line, number)?;
    let depth = depth_of(text, number)?;
    let stack = names.stack(alloc, text, depth)?;
    match sums.add(stack, count) {
        Ok(()) => Ok(()),
        Err(Refused::Fault(AddFault::Sum)) => Err(Refused::Fault(FoldedFault::TooLarge(number))),
        Err(Refused::Memory) => Err(Refused::Memory),
    }
}
