// Repeated numbers, which stand in fields of their own or packed in one.
ghost use Rattle.std.specs.Prelude.{◌≡◌, ℕ, map, None, Some, if◌then◌else◌};
ghost use Rattle.faults.specs.Answers.{IfAnswered};
ghost use Rattle.pprof_message.specs.Fields.{packed, numbers_in};
ghost use Rattle.pprof_message.specs.Messages.{int64};
ghost use Rattle.pprof_message.specs.Runs.{begun_with};
ghost use Rattle.pprof_message.specs.Readers.{IsRead, broken_packed};

use crate::fault::MessageFault;
use crate::found::Found;
use crate::runs::Runs;
use faults::Refused;
use wire_proto::read_varint;

// A number as a varint spells it.
pub(crate) trait Number: Copy + Drop {
    ghost of_varint: { ℕ → Self };

    fn from_varint(varint: u64) -> Self
        ensures { result ≡ of_varint varint };
}

impl Number for u64 {
    ghost of_varint = { λ n. n };

    fn from_varint(varint: u64) -> u64 {
        varint
    }
}

impl Number for i64 {
    ghost of_varint = { int64 };

    fn from_varint(varint: u64) -> i64 {
        varint.cast_signed()
    }
}

// What a repeated field adds to a list.
pub(crate) fn read_repeated<T: Number>(
    found: &Found<'_>,
    runs: &mut Runs<T>,
) -> Result<(), Refused<MessageFault>>
    ensures { IfAnswered (IsRead (broken_packed found.now) (λ _. runs.new ≡ begun_with runs.old (map T.of_varint (numbers_in found.now.value)))) result }
{
    if let Some(varint) = found.varint() {
        runs.push(T::from_varint(varint))?;
        return Ok(());
    }
    match found.part() {
        Some(part) => read_packed(part.bytes(), found.at(), runs),
        None => Ok(()),
    }
}

// A number that can't be read has the place of the field.
fn read_packed<T: Number>(
    bytes: &[u8],
    at: u64,
    runs: &mut Runs<T>,
) -> Result<(), Refused<MessageFault>>
    ensures { IfAnswered (IsRead (if (packed bytes.now).is_whole then None else Some at)
        (λ _. runs.new ≡ begun_with runs.old (map T.of_varint (packed bytes.now).numbers))) result }
{
    let mut rest = bytes;
    while !rest.is_empty() {
        match read_varint(rest, at) {
            Ok((varint, more)) => {
                runs.push(T::from_varint(varint))?;
                rest = more;
            }
            Err(_) => return Err(Refused::Fault(MessageFault::Broken(at))),
        }
    }
    Ok(())
}
