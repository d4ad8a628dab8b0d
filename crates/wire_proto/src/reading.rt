//! Reading a field from left to right. `at` is the place of its first byte, which each fault tells.

ghost use Rattle.std.specs.Prelude.{◌<◌, length};
ghost use Rattle.wire_proto.specs.Field.{content_of};
ghost use Rattle.wire_proto.specs.Reading.{Gives, chunk_at, number_at, wire_at, tag_at, value_at, field_at, FieldReads};

use crate::field::{Value, WireFault};
use crate::varint::read_varint;
use crate::wire::Wire;

/// The largest number of a field: 29 bits.
const LAST_NUMBER: u64 = 536_870_911;

#[tactic(auto, unfolding(crate::specs::Reading::chunk_at))]
fn read_chunk(bytes: &[u8], size: u64, at: u64) -> Result<(&[u8], &[u8]), WireFault>
    ensures { Gives (λ x. (x.0.now, x.1.now)) result (chunk_at at size bytes.now) }
{
    if size > bytes.len() as u64 {
        return Err(WireFault::Truncated(at));
    }
    Ok(bytes.split_at(size as usize))
}

#[tactic(auto, unfolding(crate::specs::Reading::chunk_at))]
fn read_array<const N: usize>(bytes: &[u8], at: u64) -> Result<([u8; N], &[u8]), WireFault>
    ensures { Gives (λ x. (x.0, x.1.now)) result (chunk_at at N bytes.now) }
{
    match bytes.split_first_chunk::<N>() {
        Some((front, rest)) => Ok((*front, rest)),
        None => Err(WireFault::Truncated(at)),
    }
}

#[tactic(auto, unfolding(crate::specs::Reading::number_at))]
fn number_of(tag: u64, at: u64) -> Result<u64, WireFault>
    ensures { Gives (λ x. x) result (number_at at tag) }
{
    let number = tag / 8;
    if number < 1 || number > LAST_NUMBER {
        return Err(WireFault::BadType(at));
    }
    Ok(number)
}

#[tactic(auto, unfolding(crate::specs::Reading::wire_at))]
fn wire_of(tag: u64, at: u64) -> Result<Wire, WireFault>
    ensures { Gives (λ x. x) result (wire_at at tag) }
{
    match tag % 8 {
        0 => Ok(Wire::Varint),
        1 => Ok(Wire::Eight),
        2 => Ok(Wire::Bytes),
        5 => Ok(Wire::Four),
        _ => Err(WireFault::BadType(at)),
    }
}

#[tactic(auto, unfolding(crate::specs::Reading::tag_at))]
fn read_tag(bytes: &[u8], at: u64) -> Result<(u64, Wire, &[u8]), WireFault>
    ensures { Gives (λ x. (x.0, x.1, x.2.now)) result (tag_at at bytes.now) }
{
    let (tag, rest) = read_varint(bytes, at)?;
    let number = number_of(tag, at)?;
    let wire = wire_of(tag, at)?;
    Ok((number, wire, rest))
}

#[tactic(auto, unfolding(crate::specs::Reading::value_at))]
fn read_value(bytes: &[u8], wire: Wire, at: u64) -> Result<(Value<'_>, &[u8]), WireFault>
    ensures { Gives (λ x. (content_of x.0, x.1.now)) result (value_at at wire bytes.now) }
{
    match wire {
        Wire::Varint => {
            let (number, rest) = read_varint(bytes, at)?;
            Ok((Value::Varint(number), rest))
        }
        Wire::Eight => {
            let (eight, rest) = read_array::<8>(bytes, at)?;
            Ok((Value::Eight(eight), rest))
        }
        Wire::Bytes => {
            let (size, rest) = read_varint(bytes, at)?;
            let (value, rest) = read_chunk(rest, size, at)?;
            Ok((Value::Bytes(value), rest))
        }
        Wire::Four => {
            let (four, rest) = read_array::<4>(bytes, at)?;
            Ok((Value::Four(four), rest))
        }
    }
}

/// The number and the value of the field at the front, and the bytes after it.
#[tactic(auto, unfolding(crate::specs::Reading::field_at))]
pub(crate) fn read_field(bytes: &[u8], at: u64) -> Result<(u64, Value<'_>, &[u8]), WireFault>
    requires { 0 < length bytes.now }
    ensures exact { Gives (λ x. (x.0, content_of x.1, x.2.now)) result (field_at at bytes.now) }
    ensures spelled { FieldReads at bytes.now (field_at at bytes.now) }
{
    let (number, wire, rest) = read_tag(bytes, at)?;
    let (value, rest) = read_value(rest, wire, at)?;
    Ok((number, value, rest))
}
