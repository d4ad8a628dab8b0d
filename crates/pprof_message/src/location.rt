// Locations.
ghost use Rattle.std.specs.Prelude.{◌≡◌, [], ◌∷◌, ◌++◌};
ghost use Rattle.faults.specs.Answers.{IfAnswered};
ghost use Rattle.pprof_message.specs.Fields.{fields_in};
ghost use Rattle.pprof_message.specs.Messages.{line_of};
ghost use Rattle.pprof_message.specs.Broken.{broken_part, no_part, in_location};
ghost use Rattle.pprof_message.specs.Numbers.{last_numbers};
ghost use Rattle.pprof_message.specs.Runs.{begun_with, closed_run};
ghost use Rattle.pprof_message.specs.Readers.{IsRead, held, broken_held, lines_with, head_of};

use crate::fault::MessageFault;
use crate::found::{Found, Part, next_found};
use crate::gathered::{Head, Locations};
use crate::numbers::{NO_NUMBERS, Numbers, keep_number, read_line};
use crate::runs::Runs;
use faults::Refused;

pub(crate) fn read_location(
    part: &Part<'_>,
    locations: &mut Locations,
) -> Result<(), Refused<MessageFault>>
    ensures { IfAnswered (IsRead (broken_part in_location part.now) (λ _.
        (locations.new.heads.items ≡ locations.old.heads.items ++ head_of (fields_in part.now) ∷ [])
        × (locations.new.lines ≡ closed_run (lines_with locations.old.lines (fields_in part.now))))) result }
{
    let mut numbers = NO_NUMBERS;
    read_fields(part, &mut numbers, &mut locations.lines)?;
    locations.lines.close()?;
    locations.heads.push(Head {
        id: numbers[1],
        address: numbers[3],
    })?;
    Ok(())
}

fn read_fields(
    part: &Part<'_>,
    numbers: &mut Numbers,
    lines: &mut Runs<u64>,
) -> Result<(), Refused<MessageFault>>
    ensures { IfAnswered (IsRead (broken_part in_location part.now) (λ _.
        (numbers.new ≡ last_numbers numbers.old (fields_in part.now)) × (lines.new ≡ lines_with lines.old (fields_in part.now)))) result }
{
    let mut fields = part.fields();
    while let Some(found) = next_found(&mut fields)? {
        keep_number(&found, numbers);
        if found.number() == 4 {
            take_line(&found, lines)?;
        }
    }
    Ok(())
}

fn take_line(found: &Found<'_>, lines: &mut Runs<u64>) -> Result<(), Refused<MessageFault>>
    ensures { IfAnswered (IsRead (broken_held no_part found.now) (λ _. lines.new ≡ begun_with lines.old (held line_of found.now))) result }
{
    if let Some(part) = found.part() {
        let line = read_line(&part)?;
        lines.push(line)?;
    }
    Ok(())
}
