// Bytes to an object.
ghost use Rattle.faults.specs.Answers.{IfAnswered};
ghost use Rattle.segment_file.specs.Decoded.{IsDecoded};

use crate::reader::Reader;
use crate::reader_pushes::form;
use crate::{Object, ObjectFault};
use faults::Refused;
use std::alloc::Global;

/// The object that the bytes spell. Equal texts are kept once. No count that is read is trusted: memory is taken only
/// for what stands in the bytes.
pub fn decode(alloc: Global, bytes: &[u8]) -> Result<Object, Refused<ObjectFault>>
    ensures read { IfAnswered (IsDecoded bytes.now) result }
{
    let mut reader = Reader::new(alloc, bytes);
    let (lo, hi) = reader.numbers()?;
    let pushes = reader.pushes(alloc, hi - lo)?;
    if reader.cursor.has_more() {
        return Err(form(reader.cursor.at()));
    }
    Ok(Object::from_pushes(lo, pushes))
}
