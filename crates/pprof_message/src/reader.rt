// A message from its bytes.
ghost use Rattle.std.specs.Prelude.{◌≡◌, ℕ, [], ◌∷◌, ◌++◌, map, Some, None, IsErr};
ghost use Rattle.std.specs.Option.{option_to_list};
ghost use Rattle.std.specs.List.{flat_map};
ghost use Rattle.faults.specs.Answers.{IfAnswered};
ghost use Rattle.pprof_message.specs.Fields.{number_in, part_in, last_of, fields_in};
ghost use Rattle.pprof_message.specs.Messages.{value_type_of, function_of};
ghost use Rattle.pprof_message.specs.Broken.{broken_part, broken_place, no_part, in_sample, in_location, in_pprof};
ghost use Rattle.pprof_message.specs.Numbers.{last_numbers};
ghost use Rattle.pprof_message.specs.Read.{IsReadMessage};
ghost use Rattle.pprof_message.specs.Readers.{IsRead, held, broken_held, head_of};
ghost use Rattle.pprof_message.specs.Kept.{kept, kept_with, samples_after, lines_after};

use crate::fault::MessageFault;
use crate::found::{Found, Part, next_found};
use crate::gathered::{Gathered, Locations, Samples};
use crate::lists::{Function, ValueType};
use crate::location::read_location;
use crate::message::PprofMessage;
use crate::numbers::{Numbers, read_function, read_numbers, read_value_type};
use crate::sample::read_sample;
use faults::Refused;
use std::alloc::Global;

/// The message of a profile, as these bytes spell it. The fault is the first in the order of the bytes,
/// the fields of an inner message where it stands.
pub fn read_message(alloc: Global, bytes: &[u8]) -> Result<PprofMessage<'_>, Refused<MessageFault>>
    ensures read { IfAnswered (IsReadMessage bytes.now) result }
    ensures refused { (at : ℕ) → broken_place bytes.now ≡ Some at → IsErr result }
{
    let mut gathered = Gathered::new(alloc);
    read_fields(&Part::whole(bytes), &mut gathered)?;
    Ok(PprofMessage::new(gathered))
}

fn read_fields<'a>(
    part: &Part<'a>,
    gathered: &mut Gathered<'a>,
) -> Result<(), Refused<MessageFault>>
    ensures { IfAnswered (IsRead (broken_part in_pprof part.now) (λ _. kept gathered.new ≡ kept_with (kept gathered.old) (fields_in part.now))) result }
{
    let mut fields = part.fields();
    while let Some(found) = next_found(&mut fields)? {
        take_field(&found, gathered)?;
    }
    Ok(())
}

fn take_field<'a>(
    found: &Found<'a>,
    gathered: &mut Gathered<'a>,
) -> Result<(), Refused<MessageFault>>
    ensures { IfAnswered (IsRead (in_pprof found.now) (λ _. kept gathered.new ≡ kept_with (kept gathered.old) (found.now ∷ []))) result }
{
    match found.number() {
        1 => take_value_type(found, &mut gathered.sample_types),
        2 => take_sample(found, &mut gathered.samples),
        4 => take_location(found, &mut gathered.locations),
        5 => take_function(found, &mut gathered.functions),
        6 => take_text(found, &mut gathered.texts),
        9 => {
            take_number(found, &mut gathered.time_nanos);
            Ok(())
        }
        11 => {
            take_numbers(found, &mut gathered.period_type)?;
            Ok(())
        }
        _ => Ok(()),
    }
}

fn take_value_type(
    found: &Found<'_>,
    types: &mut Vec<ValueType>,
) -> Result<(), Refused<MessageFault>>
    ensures { IfAnswered (IsRead (broken_held no_part found.now) (λ _. types.new.items ≡ types.old.items ++ held value_type_of found.now)) result }
{
    if let Some(part) = found.part() {
        let value_type = read_value_type(&part)?;
        types.push(value_type)?;
    }
    Ok(())
}

fn take_function(
    found: &Found<'_>,
    functions: &mut Vec<Function>,
) -> Result<(), Refused<MessageFault>>
    ensures { IfAnswered (IsRead (broken_held no_part found.now) (λ _. functions.new.items ≡ functions.old.items ++ held function_of found.now)) result }
{
    if let Some(part) = found.part() {
        let function = read_function(&part)?;
        functions.push(function)?;
    }
    Ok(())
}

fn take_sample(found: &Found<'_>, samples: &mut Samples) -> Result<(), Refused<MessageFault>>
    ensures { IfAnswered (IsRead (broken_held in_sample found.now)
        (λ _. samples.new ≡ samples_after samples.old (option_to_list (part_in found.now.end found.now.value)))) result }
{
    match found.part() {
        Some(part) => read_sample(&part, samples),
        None => Ok(()),
    }
}

fn take_location(found: &Found<'_>, locations: &mut Locations) -> Result<(), Refused<MessageFault>>
    ensures { IfAnswered (IsRead (broken_held in_location found.now)
        (λ _. (locations.new.heads.items ≡ locations.old.heads.items ++ held head_of found.now)
        × (locations.new.lines ≡ lines_after locations.old.lines (option_to_list (part_in found.now.end found.now.value))))) result }
{
    match found.part() {
        Some(part) => read_location(&part, locations),
        None => Ok(()),
    }
}

fn take_text<'a>(found: &Found<'a>, texts: &mut Vec<&'a [u8]>) -> Result<(), Refused<MessageFault>>
    ensures { IfAnswered (IsRead None (λ _. map (λ text. text.now) texts.new.items
        ≡ map (λ text. text.now) texts.old.items ++ map (λ part. part.bytes) (option_to_list (part_in found.now.end found.now.value)))) result }
{
    if let Some(part) = found.part() {
        texts.push(part.bytes())?;
    }
    Ok(())
}

fn take_number(found: &Found<'_>, number: &mut u64)
    ensures { number.new ≡ last_of number.old (option_to_list (number_in found.now.value)) }
{
    if let Some(value) = found.varint() {
        *number = value;
    }
}

// A message that comes again is merged: its numbers are the last of all its occurrences.
fn take_numbers(found: &Found<'_>, numbers: &mut Numbers) -> Result<(), MessageFault>
    ensures { IsRead (broken_held no_part found.now)
        (λ _. numbers.new ≡ last_numbers numbers.old (flat_map fields_in (option_to_list (part_in found.now.end found.now.value)))) result }
{
    match found.part() {
        Some(part) => read_numbers(&part, numbers),
        None => Ok(()),
    }
}
