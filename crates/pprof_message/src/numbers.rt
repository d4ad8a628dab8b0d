// Messages that hold numbers alone.
ghost use Rattle.std.specs.Prelude.{◌≡◌, length};
ghost use Rattle.pprof_message.specs.Fields.{fields_in};
ghost use Rattle.pprof_message.specs.Messages.{value_type_of, label_of, line_of, function_of};
ghost use Rattle.pprof_message.specs.Broken.{broken_part, no_part};
ghost use Rattle.pprof_message.specs.Numbers.{with_number, last_numbers};
ghost use Rattle.pprof_message.specs.Readers.{IsRead};

use crate::fault::MessageFault;
use crate::found::{Found, Part, next_found};
use crate::lists::{Function, Label, ValueType};

// The last number of each field below 6, by the field's number: no field above 4 is read that holds one.
pub(crate) type Numbers = [u64; 6];

pub(crate) const NO_NUMBERS: Numbers = [0; 6];

pub(crate) fn keep_number(found: &Found<'_>, numbers: &mut Numbers)
    ensures kept { numbers.new ≡ with_number numbers.old found.now }
    ensures six { length numbers.new ≡ 6 }
{
    let number = found.number();
    if let Some(value) = found.varint() {
        if number < 6 {
            numbers[number as usize] = value;
        }
    }
}

pub(crate) fn read_numbers(part: &Part<'_>, numbers: &mut Numbers) -> Result<(), MessageFault>
    ensures read { IsRead (broken_part no_part part.now) (λ _. numbers.new ≡ last_numbers numbers.old (fields_in part.now)) result }
    ensures six { length numbers.new ≡ 6 }
{
    let mut fields = part.fields();
    while let Some(found) = next_found(&mut fields)? {
        keep_number(&found, numbers);
    }
    Ok(())
}

pub(crate) fn read_value_type(part: &Part<'_>) -> Result<ValueType, MessageFault>
    ensures { IsRead (broken_part no_part part.now) (λ value_type. value_type ≡ value_type_of (fields_in part.now)) result }
{
    let mut numbers = NO_NUMBERS;
    read_numbers(part, &mut numbers)?;
    Ok(ValueType {
        kind: numbers[1].cast_signed(),
        unit: numbers[2].cast_signed(),
    })
}

pub(crate) fn read_label(part: &Part<'_>) -> Result<Label, MessageFault>
    ensures { IsRead (broken_part no_part part.now) (λ label. label ≡ label_of (fields_in part.now)) result }
{
    let mut numbers = NO_NUMBERS;
    read_numbers(part, &mut numbers)?;
    Ok(Label {
        key: numbers[1].cast_signed(),
        text: numbers[2].cast_signed(),
        num_unit: numbers[4].cast_signed(),
    })
}

pub(crate) fn read_line(part: &Part<'_>) -> Result<u64, MessageFault>
    ensures { IsRead (broken_part no_part part.now) (λ line. line ≡ line_of (fields_in part.now)) result }
{
    let mut numbers = NO_NUMBERS;
    read_numbers(part, &mut numbers)?;
    Ok(numbers[1])
}

pub(crate) fn read_function(part: &Part<'_>) -> Result<Function, MessageFault>
    ensures { IsRead (broken_part no_part part.now) (λ function. function ≡ function_of (fields_in part.now)) result }
{
    let mut numbers = NO_NUMBERS;
    read_numbers(part, &mut numbers)?;
    Ok(Function {
        id: numbers[1],
        name: numbers[2].cast_signed(),
        system_name: numbers[3].cast_signed(),
    })
}
