//! Reading numbers in groups of seven bits.

ghost use Rattle.std.specs.Prelude.{◌≡◌, ◌↔◌, ℕ, List, IfOk, IsOkAnd};
ghost use Rattle.wire_proto.specs.declared.field.WireFault.{WireFault};
ghost use Rattle.wire_proto.specs.Varint.{HasVarint, IsVarintFault};
ghost use Rattle.wire_proto.specs.Reading.{Gives, varint_at};

use crate::field::WireFault;

/// Where the tenth byte stands, the last that a varint can have.
const LAST_INDEX: usize = 9;
/// Nine groups are 63 bits, so the tenth has room for one more.
const LAST_GROUP: u8 = 1;

/// The number at the front, as it stands in a packed field, and the bytes after it. A fault is told
/// with the place `at`.
pub fn read_varint(bytes: &[u8], at: u64) -> Result<(u64, &[u8]), WireFault>
    ensures reads { IfOk result (λ x. HasVarint bytes.now x.0 x.1.now) }
    ensures only { (n : ℕ) (rest : List ℕ) → HasVarint bytes.now n rest → IsOkAnd result (λ x. (x.0 ≡ n) × (x.1.now ≡ rest)) }
    ensures refuses { (fault : WireFault) → (result ≡ Err fault) ↔ IsVarintFault bytes.now at fault }
    ensures exact { Gives (λ x. (x.0, x.1.now)) result (varint_at at bytes.now) }
{
    read_groups(bytes, at)
}

fn read_groups(bytes: &[u8], at: u64) -> Result<(u64, &[u8]), WireFault>
    ensures { Gives (λ x. (x.0, x.1.now)) result (varint_at at bytes.now) }
{
    let mut number = 0u64;
    let mut weight = 1u64;
    for (index, &byte) in bytes.iter().enumerate() {
        if index == LAST_INDEX && byte > LAST_GROUP {
            return Err(WireFault::BadVarint(at));
        }
        number += u64::from(byte % 128) * weight;
        if byte < 128 {
            return Ok((number, &bytes[index + 1..]));
        }
        weight *= 128;
    }
    Err(WireFault::Truncated(at))
}
