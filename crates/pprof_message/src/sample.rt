// Samples.
ghost use Rattle.std.specs.Prelude.{◌≡◌, [], ◌∷◌};
ghost use Rattle.faults.specs.Answers.{IfAnswered};
ghost use Rattle.pprof_message.specs.Fields.{fields_in};
ghost use Rattle.pprof_message.specs.Messages.{label_of};
ghost use Rattle.pprof_message.specs.Broken.{broken_part, no_part, in_sample};
ghost use Rattle.pprof_message.specs.Runs.{begun_with};
ghost use Rattle.pprof_message.specs.Readers.{IsRead, held, broken_held, sample_with, sample_closed};

use crate::fault::MessageFault;
use crate::found::{Found, Part, next_found};
use crate::gathered::Samples;
use crate::lists::Label;
use crate::numbers::read_label;
use crate::repeated::read_repeated;
use crate::runs::Runs;
use faults::Refused;

pub(crate) fn read_sample(
    part: &Part<'_>,
    samples: &mut Samples,
) -> Result<(), Refused<MessageFault>>
    ensures { IfAnswered (IsRead (broken_part in_sample part.now) (λ _. samples.new ≡ sample_closed (sample_with samples.old (fields_in part.now)))) result }
{
    let mut fields = part.fields();
    while let Some(found) = next_found(&mut fields)? {
        take_in_sample(&found, samples)?;
    }
    samples.location_ids.close()?;
    samples.values.close()?;
    samples.labels.close()?;
    Ok(())
}

fn take_in_sample(found: &Found<'_>, samples: &mut Samples) -> Result<(), Refused<MessageFault>>
    ensures { IfAnswered (IsRead (in_sample found.now) (λ _. samples.new ≡ sample_with samples.old (found.now ∷ []))) result }
{
    match found.number() {
        1 => read_repeated(found, &mut samples.location_ids),
        2 => read_repeated(found, &mut samples.values),
        3 => take_label(found, &mut samples.labels),
        _ => Ok(()),
    }
}

fn take_label(found: &Found<'_>, labels: &mut Runs<Label>) -> Result<(), Refused<MessageFault>>
    ensures { IfAnswered (IsRead (broken_held no_part found.now) (λ _. labels.new ≡ begun_with labels.old (held label_of found.now))) result }
{
    if let Some(part) = found.part() {
        let label = read_label(&part)?;
        labels.push(label)?;
    }
    Ok(())
}
